//! Values in rows. A value is made from its parts, which stand before it:
//!
//! ```text
//! 3  -1  uint:3  true  nil               an int, another, a uint, a bool, and nil
//! float:4031000000000000                 the pattern of a float
//! complex:4031000000000000,0             those of a complex number
//! 'go  str:ff  bytes:00,ff  ~go          texts, a byte string, an opaque value
//! 1 2 fields:0,1                         a struct of two ints, by the numbers of its fields
//! 1 2 3 many:3                           a list of three
//! 'a 1 'b 2 pairs:2                      a map of two keys and their elements
//! many:0 many:1*999                      an empty list in lists, 1000 deep
//! ```

use crate::row::repeated;
use gob_value::Value;
use std::alloc::{AllocError, Global};

/// The value that a text means.
pub fn value_of(alloc: Global, text: &str) -> Result<Value, AllocError> {
    let mut made = Vec::new(alloc);
    for word in text.split_whitespace() {
        make(alloc, &mut made, word)?;
    }
    Ok(last(&mut made))
}

// Makes the values that a word says, each of those before it.
fn make(alloc: Global, made: &mut Vec<Value>, word: &str) -> Result<(), AllocError> {
    let (word, times) = repeated(word);
    for _ in 0..times {
        let value = made_of(alloc, made, word)?;
        made.push(value)?;
    }
    Ok(())
}

// The last value that was made, or nil.
fn last(made: &mut Vec<Value>) -> Value {
    match made.pop() {
        Some(value) => value,
        None => Value::Nil,
    }
}

// The value that a word makes of those before it.
fn made_of(alloc: Global, made: &mut Vec<Value>, word: &str) -> Result<Value, AllocError> {
    match word.split_once(':') {
        Some(("many", count)) => many_of(alloc, made, count),
        Some(("pairs", count)) => pairs_of(alloc, made, count),
        Some(("fields", numbers)) => struct_of(alloc, made, numbers),
        Some((kind, rest)) => leaf_of(alloc, kind, rest),
        None => short_of(alloc, word),
    }
}

fn many_of(alloc: Global, made: &mut Vec<Value>, count: &str) -> Result<Value, AllocError> {
    let mut parts = Vec::new(alloc);
    for _ in 0..count.parse::<u64>().unwrap_or(0) {
        parts.push(last(made))?;
    }
    parts.reverse();
    Ok(Value::Many(parts))
}

fn pairs_of(alloc: Global, made: &mut Vec<Value>, count: &str) -> Result<Value, AllocError> {
    let mut parts = Vec::new(alloc);
    for _ in 0..count.parse::<u64>().unwrap_or(0) {
        let elem = last(made);
        let key = last(made);
        parts.push((key, elem))?;
    }
    parts.reverse();
    Ok(Value::Pairs(parts))
}

fn struct_of(alloc: Global, made: &mut Vec<Value>, numbers: &str) -> Result<Value, AllocError> {
    let mut parts = Vec::new(alloc);
    for word in numbers.rsplit(',') {
        if let Ok(number) = word.parse::<u64>() {
            parts.push((number, last(made)))?;
        }
    }
    parts.reverse();
    Ok(Value::Fields(parts))
}

// A value without parts whose kind is said.
fn leaf_of(alloc: Global, kind: &str, text: &str) -> Result<Value, AllocError> {
    match kind {
        "uint" => Ok(Value::Uint(text.parse().unwrap_or(u64::MAX))),
        "float" => Ok(Value::Float(pattern(text))),
        "complex" => {
            let (real, imaginary) = text.split_once(',').unwrap_or((text, ""));
            Ok(Value::Complex(pattern(real), pattern(imaginary)))
        }
        "bytes" => Ok(Value::Bytes(listed(alloc, text)?)),
        _ => Ok(Value::Str(listed(alloc, text)?)),
    }
}

// The pattern of a float.
fn pattern(text: &str) -> u64 {
    u64::from_str_radix(text, 16).unwrap_or(u64::MAX)
}

// Bytes with commas between them.
fn listed(alloc: Global, text: &str) -> Result<Vec<u8>, AllocError> {
    let mut bytes = Vec::new(alloc);
    for word in text.split(',') {
        if let Ok(byte) = u8::from_str_radix(word, 16) {
            bytes.push(byte)?;
        }
    }
    Ok(bytes)
}

// A value without parts that its word shows.
fn short_of(alloc: Global, word: &str) -> Result<Value, AllocError> {
    if let Some(text) = word.strip_prefix("'") {
        return Ok(Value::Str(text.as_bytes().to_vec(alloc)?));
    }
    if let Some(bytes) = word.strip_prefix("~") {
        return Ok(Value::Opaque(bytes.as_bytes().to_vec(alloc)?));
    }
    match word {
        "true" => Ok(Value::Bool(true)),
        "false" => Ok(Value::Bool(false)),
        "nil" => Ok(Value::Nil),
        _ => Ok(Value::Int(word.parse().unwrap_or(i64::MAX))),
    }
}
