//! Rows: lines of text in the notation of docs/FORMAT.md, with its names.
//!
//! ```text
//! an array of 2 | 67 | 00 02 02 04 | 3 0       what it is, and what else the list of rows says: here the type of a
//!                                              body, its bytes, and what is due
//! 00 01*999 00                                 a byte, another 999 times, and one more
//! ```

use crate::body::Body;
use crate::value::value_of;
use gob_num::Memory;
use gob_value::Value;
use std::alloc::{AllocError, Global};

// The definitions by their names. OUTER is a struct with a field A of type 66.
const DEFINITIONS: &str = "
POINT 1f ff 81 03 01 01 05 50 6f 69 6e 74 01 ff 82 00 01 02 01 01 58 01 04 00 01 01 59 01 04 00 00 00
NODE 22 ff 81 03 01 01 04 4e 6f 64 65 01 ff 82 00 01 02 01 01 56 01 04 00 01 04 4e 65 78 74 01 ff 82 00 00 00
OUTER 16 ff 81 03 01 01 01 53 01 ff 82 00 01 01 01 01 41 01 ff 84 00 00 00
ARRAY 0e ff 81 01 01 02 ff 82 00 01 04 01 04 00 00
LOOP 0f ff 81 01 01 02 ff 82 00 01 ff 82 01 02 00 00
LIST 0d ff 81 02 01 02 ff 82 00 01 ff 82 00 00
MAP 0e ff 81 04 01 02 ff 82 00 01 0c 01 04 00 00
TIME 10 ff 81 05 01 01 04 54 69 6d 65 01 ff 82 00 00 00
";

/// A row whose parts are read: numbers, a value and bytes behind what it is, where the list says them.
///
/// ```text
/// X 33, Y 0 | 65 2 | 33 0 fields:0,1 | 01 42 01 00 00 | 02 42 00
/// ```
pub struct Row {
    /// The numbers.
    pub numbers: Vec<u64>,
    /// The value; nil where none is said.
    pub value: Value,
    /// The bytes.
    pub bytes: Vec<u8>,
}

// Not derived, so that a drop is one call in the proofs of what owns one.
impl Drop for Row {
    fn drop(self) {
        let Row {
            numbers: _,
            value: _,
            bytes: _,
        } = self;
    }
}

impl Row {
    /// The row that a line is.
    pub fn read(alloc: Global, line: &str) -> Result<Row, Memory> {
        let numbers = numbers(alloc, part(line, 1))?;
        let bytes = bytes_of(alloc, part(line, 3))?;
        let value = value_of(alloc, part(line, 2))?;
        Ok(Row {
            numbers,
            value,
            bytes,
        })
    }

    /// The number in this place, counted from 0; `u64::MAX` where there is none.
    pub fn number(&self, place: usize) -> u64 {
        self.numbers.get(place).copied().unwrap_or(u64::MAX)
    }
}

/// The part of a row with this number, counted from 0; empty where there is none.
pub fn part(row: &str, number: usize) -> &str {
    row.split(" | ").nth(number).unwrap_or("")
}

/// The bytes that are written so: in hexadecimal, or by the name of a definition.
pub fn bytes_of(alloc: Global, text: &str) -> Result<Vec<u8>, AllocError> {
    let mut bytes = Vec::new(alloc);
    for word in text.split_whitespace() {
        append(definition(word), &mut bytes)?;
    }
    Ok(bytes)
}

// The definition of this name, or else the word itself.
fn definition<'a>(word: &'a str) -> &'a str {
    for line in DEFINITIONS.lines() {
        if let Some((name, bytes)) = line.split_once(' ') {
            if name == word {
                return bytes;
            }
        }
    }
    word
}

// Appends bytes in hexadecimal.
fn append(text: &str, bytes: &mut Vec<u8>) -> Result<(), AllocError> {
    for word in text.split_whitespace() {
        let (digits, times) = repeated(word);
        let byte = u8::from_str_radix(digits, 16).unwrap_or(u8::MAX);
        for _ in 0..times {
            bytes.push(byte)?;
        }
    }
    Ok(())
}

// A word, and how often it is meant.
pub(crate) fn repeated(word: &str) -> (&str, u64) {
    match word.split_once('*') {
        Some((word, times)) => (word, number(times, 0)),
        None => (word, 1),
    }
}

/// The number that is the word in this place, counted from 0; `u64::MAX` where there is none.
pub fn number(text: &str, place: usize) -> u64 {
    let word = text.split_whitespace().nth(place).unwrap_or("");
    word.parse().unwrap_or(u64::MAX)
}

/// The numbers that the words are.
pub fn numbers(alloc: Global, text: &str) -> Result<Vec<u64>, Memory> {
    let mut numbers = Vec::new(alloc);
    for word in text.split_whitespace() {
        numbers.push(word.parse().unwrap_or(u64::MAX))?;
    }
    Ok(numbers)
}

/// The body of a row: its type, and its bytes. Where the first of these parts goes on, it says how many bytes are
/// announced and what the greatest depth is; else they are all, and 1000. What is due comes behind the bytes.
pub fn body_of(alloc: Global, row: &str) -> Result<Body, Memory> {
    let bytes = bytes_of(alloc, part(row, 2))?;
    let due = numbers(alloc, part(row, 3))?;
    let said = part(row, 1);
    let is_short = said.split_whitespace().nth(1).is_none();
    let length = if is_short {
        bytes.len() as u64
    } else {
        number(said, 1)
    };
    let depth = if is_short { 1000 } else { number(said, 2) };
    Ok(Body {
        id: number(said, 0),
        length,
        depth,
        bytes,
        due,
    })
}
