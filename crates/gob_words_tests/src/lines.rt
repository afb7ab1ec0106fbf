//! Lines that are words of a command line behind the program's name.

use std::alloc::{AllocError, Global};

/// The words of a line, behind the program's name.
pub(crate) fn words_of<'a>(alloc: Global, line: &'a str) -> Result<Vec<&'a str>, AllocError> {
    let mut words = Vec::new(alloc);
    words.push("gob")?;
    for word in line.split_whitespace() {
        words.push(word)?;
    }
    Ok(words)
}
