//! The words that say into what a stream is split.

use crate::lines::words_of;
use gob_words::splitting_of;
use std::alloc::{AllocError, Global};
use std::test::*;

// Words behind the program's name, and into what they split or what is said of them, in lines one after the other.
const SPLITS: &str = "\
split a b
b Bytes(67108864)
split --size 3 a b
b Bytes(3)
split a --size=2K b
b Bytes(2048)
split a b --size 64M
b Bytes(67108864)
split a b --size 0G
b Bytes(0)
split --size 17179869183G - d
d Bytes(18446744072635809792)
split --values 7 a b
b Values(7)
split --size 17179869184G - d
gob: invalid value '17179869184G' for '--size <SIZE>': no number, and no number and K, M or G
split --size 18446744073709551616 - d
gob: invalid value '18446744073709551616' for '--size <SIZE>': no number, and no number and K, M or G
split --size K a b
gob: invalid value 'K' for '--size <SIZE>': no number, and no number and K, M or G
split --size 1KK a b
gob: invalid value '1KK' for '--size <SIZE>': no number, and no number and K, M or G
split --size 1k a b
gob: invalid value '1k' for '--size <SIZE>': no number, and no number and K, M or G
split --size +1M a b
gob: invalid value '+1M' for '--size <SIZE>': no number, and no number and K, M or G
split --values 1K a b
gob: invalid value '1K' for '--values <N>': no number from 0 to 18446744073709551615
split --values 1 a b --size 1
gob: the argument '--size <SIZE>' cannot be used with '--values <N>'
";

// What the words of the line ask for, or what is said of them.
fn told(alloc: Global, line: &str) -> Result<String, AllocError> {
    let words = words_of(alloc, line)?;
    match splitting_of(alloc, &words) {
        Ok(splitting) => {
            let (directory, size) = (splitting.directory, splitting.size);
            format!(in alloc; "{directory} {size:?}")
        }
        Err(fault) => fault.to_string(alloc),
    }
}

// The words of which something else is told.
fn otherwise_told(alloc: Global) -> Option<&'static str> {
    let mut lines = SPLITS.lines();
    while let Some(line) = lines.next() {
        let due = lines.next().unwrap_or("");
        match told(alloc, line) {
            Ok(text) if text.as_str() == due => {}
            _ => return Some(line),
        }
    }
    None
}

#[test]
fn words_say_sizes(rt: HostRuntime) {
    let otherwise = otherwise_told(rt.alloc());
    assert!(rt; otherwise.is_none(), "{otherwise:?}");
}
