//! The definitions of streams.

use crate::rows::{HELD, RECORDS};
use gob_num::Memory;
use gob_split::push_definitions;
use gob_stream::{Input, Limits};
use gob_test_rows::bytes_of;
use gob_tool::ToolFault;
use std::alloc::Global;
use std::test::*;

// Those of the structs P, Q and B.
const P: &str = "15 ff 81 03 01 01 01 50 01 ff 82 00 01 01 01 01 58 01 04 00 00 00 ";

const Q: &str = "15 ff 83 03 01 01 01 51 01 ff 84 00 01 01 01 01 53 01 0c 00 00 00 ";

const B: &str = "15 ff 85 03 01 01 01 42 01 ff 86 00 01 01 01 01 56 01 10 00 00 00 ";

// Whether the stream has these definitions, and is a whole one or refused.
fn are_taken(alloc: Global, stream: &str, due: [&str; 2], is_whole: bool) -> Result<bool, Memory> {
    let bytes = bytes_of(alloc, stream)?;
    let mut taken = Vec::new(alloc);
    let mut input = Input::new(bytes.as_slice());
    let ended = push_definitions(alloc, &mut input, &mut taken, Limits::standard());
    match ended {
        Ok(()) if is_whole => {}
        Err(ToolFault::Refused(_)) if !is_whole => {}
        Err(ToolFault::Memory) => return Err(Memory),
        _ => return Ok(false),
    }
    let mut definitions = bytes_of(alloc, due[0])?;
    definitions.extend_from_slice(&bytes_of(alloc, due[1])?)?;
    Ok(taken.as_slice() == definitions.as_slice())
}

#[test]
fn definitions_are_taken(rt: HostRuntime) {
    let alloc = rt.alloc();
    assert!(rt;
        are_taken(alloc, "", ["", ""], true) == Ok(true),
        "no bytes"
    );
    assert!(rt;
        are_taken(alloc, "03 04 00 06", ["", ""], true) == Ok(true),
        "an int"
    );
    assert!(rt;
        are_taken(alloc, RECORDS, [P, Q], true) == Ok(true),
        "between values"
    );
    assert!(rt;
        are_taken(alloc, HELD, [B, Q], true) == Ok(true),
        "in a value"
    );
}

#[test]
fn definitions_before_a_refusal_are_taken(rt: HostRuntime) -> Result<(), Fail> {
    let damaged = format!(in rt.alloc(); "{P}05 ff 82 02 02 00 {Q}")?;
    let is_right = are_taken(rt.alloc(), damaged.as_str(), [P, ""], false) == Ok(true);
    assert!(rt; is_right, "up to a field that a struct hasn't");
    Ok(())
}

// Each allocation is refused in turn: of a definition in a value, which is hoisted.
#[test]
fn taking_definitions_wants_memory(rt: HostRuntime) {
    assert!(rt;
        are_taken(rt.alloc(), HELD, [B, Q], true) != Ok(false),
        "in a value"
    );
}
