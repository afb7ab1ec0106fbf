//! What to do where a stream is refused, in a sentence or in what to type.

use crate::cause::Cause;
use crate::sentence::{FETCH, SALVAGE};
use gob_num::Memory;
use std::alloc::Global;
use std::str;

/// What to do then; `file` is the input, as a shell takes its name.
pub(crate) fn step_text(alloc: Global, cause: Cause, file: &str) -> Result<String, Memory> {
    match cause {
        Cause::Form(form) => with_file(alloc, form.step(), file),
        Cause::Spelled(spelling) | Cause::SpelledForm { spelling, .. } => {
            with_file(alloc, spelling.step(), file)
        }
        Cause::JsonString { start } => string_text(alloc, &start, file),
        Cause::Http { bytes } | Cause::Length { bytes, .. } | Cause::Prefix { bytes } => {
            tail_text(alloc, bytes as u64, file)
        }
        Cause::CutOff { begin, stream } | Cause::Between { begin, stream } => {
            halves_text(alloc, begin, stream, file)
        }
        Cause::LineFeed { begin } | Cause::Behind { begin } | Cause::ZerosToEnd { begin } => {
            Ok(format!(in alloc; "head -c {begin} {file} | gob why")?)
        }
        Cause::ItemLimit { needed, .. } => {
            Ok(format!(in alloc; "gob why --item {needed} {file}")?)
        }
        Cause::DepthLimit { needed, .. } => {
            Ok(format!(in alloc; "gob why --depth {needed} {file}")?)
        }
        _ => with_file(alloc, plain_step(cause), file),
    }
}

/// The text, in which the first IN stands for the file.
pub(crate) fn with_file(alloc: Global, text: &str, file: &str) -> Result<String, Memory> {
    match text.split_once("IN") {
        Some((before, behind)) => Ok(format!(in alloc; "{before}{file}{behind}")?),
        None => Ok(String::from_str(alloc, text)?),
    }
}

// What to do, where no number tells more.
fn plain_step(cause: Cause) -> &'static str {
    match cause {
        // It has all values, also those of types that the stream before defined, where cutting would lose some.
        Cause::AnotherStream { .. } => "gob values --salvage IN",
        Cause::Json => "jq . IN",
        Cause::Text => "head IN",
        Cause::NoStream => "file IN",
        Cause::OneByte { .. } => FETCH,
        Cause::Replaced => {
            "Get the file once more, and send it as bytes: nothing on its way may take it for text."
        }
        Cause::Returns => {
            "Get the file once more in binary, or type: LC_ALL=C sed 's/\\r$//' IN | gob why"
        }
        Cause::ShortDump(_) => {
            "Get the file itself, or a dump of all its lines, as hexdump -v -C and od -v -t x1 make them."
        }
        Cause::Hole { .. } => SALVAGE,
        Cause::Damaged { .. } => {
            "Get the file once more, or read all other items: gob values --salvage IN"
        }
        Cause::Torn => "Get the whole file.",
        Cause::NoBeginning => "Get the file from its first byte on.",
        Cause::LostFront { .. } => "Get the file once more, from its first byte on.",
        _ => "",
    }
}

// Takes the string of JSON that begins so.
fn string_text(alloc: Global, start: &[u8], file: &str) -> Result<String, Memory> {
    let start = str::from_utf8(start).unwrap_or("");
    Ok(format!(in alloc;
        "jq -r '.. | strings | select(startswith(\"{start}\"))' {file} | head -n 1 | base64 -d | gob why"
    )?)
}

fn tail_text(alloc: Global, bytes: u64, file: &str) -> Result<String, Memory> {
    let first = bytes.saturating_add(1);
    Ok(format!(in alloc; "tail -c +{first} {file} | gob why")?)
}

// The bytes before one offset, and those from another on.
fn halves_text(alloc: Global, end: u64, begin: u64, file: &str) -> Result<String, Memory> {
    let first = begin.saturating_add(1);
    Ok(format!(in alloc; "head -c {end} {file} | gob why; tail -c +{first} {file} | gob why")?)
}
