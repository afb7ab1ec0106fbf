//! What words ask of a conversion.

use crate::lines::words_of;
use gob_words::converting_of;
use std::alloc::{AllocError, Global};
use std::test::*;

// Words behind the program's name, and what they ask of a conversion, in lines one after the other: whether all fields
// are to be wanted, and which have another name.
const CONVERSIONS: &str = "\
convert w f
false
convert --rename User=Name w f
false User=Name
convert w --rename L.User=Name --all f --rename=a=b --depth 5
true L.User=Name a=b
convert --rename b=a --rename a=b --rename b=a w
false b=a a=b b=a
convert w -- --all
false
take w f
false
";

// What they ask, as the lines have it.
fn told(alloc: Global, line: &str) -> Result<String, AllocError> {
    let words = words_of(alloc, line)?;
    let converting = converting_of(alloc, &words)?;
    let all = converting.all;
    let mut text = format!(in alloc; "{all}")?;
    for rename in &converting.renames {
        text.push(' ')?;
        text.push_str(rename)?;
    }
    Ok(text)
}

// The words that ask for something else.
fn otherwise_told(alloc: Global) -> Option<&'static str> {
    let mut lines = CONVERSIONS.lines();
    while let Some(line) = lines.next() {
        let due = lines.next().unwrap_or("");
        match told(alloc, line) {
            Ok(text) if text.as_str() == due => {}
            _ => return Some(line),
        }
    }
    None
}

#[test]
fn words_ask_of_conversions(rt: HostRuntime) {
    let otherwise = otherwise_told(rt.alloc());
    assert!(rt; otherwise.is_none(), "{otherwise:?}");
}
