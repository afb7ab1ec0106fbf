//! What the views write of streams.

use crate::rows::{ROWS, Row};
use gob_num::Memory;
use gob_stream::{Input, Limits, Output};
use gob_test_rows::bytes_of;
use gob_tool::ToolFault;
use gob_views::{SourceForm, ValueLines, run_types, run_values, run_view, tell_file};
use gob_words::{View, ViewCommand};
use std::alloc::{AllocError, Global};
use std::test::*;

// Whether this was written, and the run ended by a fault with this line, or without one where the line is empty. A
// vector that has no memory for what it is given is a writer that fails.
pub(crate) fn is_so(
    alloc: Global,
    ended: Result<(), ToolFault>,
    written: &[u8],
    due: &[u8],
    fault: &str,
) -> Result<bool, Memory> {
    match ended {
        Ok(()) => Ok(written == due && fault.is_empty()),
        Err(ToolFault::Memory | ToolFault::Write) => Err(Memory),
        Err(other) => Ok(written == due && other.to_string(alloc)?.as_str() == fault),
    }
}

// Whether the values of the row's stream are printed as the row says.
fn prints_values(alloc: Global, row: &Row) -> Result<bool, Memory> {
    let bytes = bytes_of(alloc, row.stream)?;
    let mut written = Vec::new(alloc);
    let mut input = Input::new(bytes.as_slice());
    let mut output = Output::new(&mut written);
    let lines = ValueLines::default();
    let ended = run_values(alloc, &mut input, &mut output, Limits::standard(), lines);
    is_so(alloc, ended, &written, row.values.as_bytes(), row.fault)
}

// Whether the types of the row's stream are written as the row says.
fn writes_types(alloc: Global, row: &Row) -> Result<bool, Memory> {
    let bytes = bytes_of(alloc, row.stream)?;
    let mut written = Vec::new(alloc);
    let mut input = Input::new(bytes.as_slice());
    let mut output = Output::new(&mut written);
    let limits = Limits::standard();
    let ended = run_types(alloc, &mut input, &mut output, limits, SourceForm::Types);
    let mut due = row.types.as_bytes().to_vec(alloc)?;
    for byte in due.as_mut_slice() {
        if *byte == b'>' {
            *byte = b'\t';
        }
    }
    is_so(alloc, ended, &written, &due, row.fault)
}

#[test]
fn values_are_printed(rt: HostRuntime) -> Result<(), Fail> {
    for row in &ROWS {
        let is_right = prints_values(rt.alloc(), row) == Ok(true);
        assert!(rt; is_right, "{}", row.what);
    }
    Ok(())
}

#[test]
fn types_are_written(rt: HostRuntime) -> Result<(), Fail> {
    for row in &ROWS {
        let is_right = writes_types(rt.alloc(), row) == Ok(true);
        assert!(rt; is_right, "{}", row.what);
    }
    Ok(())
}

// What is due is written where there is room, by both views of each row.
#[test]
fn both_views_want_memory(rt: HostRuntime) {
    for row in &ROWS {
        let is_right = prints_values(rt.alloc(), row) != Ok(false);
        assert!(rt; is_right, "values: {}", row.what);
        let is_right = writes_types(rt.alloc(), row) != Ok(false);
        assert!(rt; is_right, "types: {}", row.what);
    }
}

// What the view writes of this stream.
fn shown(alloc: Global, view: &View<'_>, stream: &str) -> Result<Vec<u8>, AllocError> {
    let bytes = bytes_of(alloc, stream)?;
    let mut written = Vec::new(alloc);
    let mut input = Input::new(bytes.as_slice());
    let mut output = Output::new(&mut written);
    match run_view(alloc, view, &mut input, &mut output, &mut None) {
        Ok(()) => Ok(written),
        Err(_) => Ok(Vec::new(alloc)),
    }
}

// A view without options.
pub(crate) fn usual(alloc: Global, command: ViewCommand) -> View<'static> {
    View {
        command,
        input: None,
        depth: 1000,
        item: 100,
        zeros: false,
        raw: false,
        tagged: false,
        typed: false,
        only: None,
        each: false,
        kinds: Vec::new(alloc),
        main: false,
        progress: false,
        salvage: false,
        hoist: false,
        fault: false,
        at: None,
        line: 268435456,
        go: false,
    }
}

// A struct of which each field is there.
const POINT: &str = "POINT 07 ff 82 01 2c 01 42 00";

// And behind it an int.
const POINT_AND_INT: &str = "POINT 07 ff 82 01 2c 01 42 00 03 04 00 06";

// The int 5 in an interface.
const HELD: &str = "0a 10 00 03 69 6e 74 04 02 00 0a";

// A big number in an interface, whose type is defined there, and the items that come of it.
const DEFINED_INSIDE: &str =
    "15 10 00 08 2a 62 69 67 2e 49 6e 74 ff 81 05 01 02 ff 84 00 00 00 07 ff 82 04 00 02 02 05";

const HOISTED: &str =
    "0a ff 81 05 01 02 ff 84 00 00 00 12 10 00 08 2a 62 69 67 2e 49 6e 74 ff 82 04 00 02 02 05";

// A point, one with a changed byte, and another.
const DAMAGED: &str =
    "POINT 07 ff 82 01 2c 01 42 00 07 ff 82 09 2c 01 42 00 07 ff 82 01 2a 01 42 00";

// What isn't damaged of these.
const UNDAMAGED: &str = "POINT 07 ff 82 01 2c 01 42 00 07 ff 82 01 2a 01 42 00";

// A time in UTC.
const TIME: &str = "TIME 13 ff 82 00 0f 01 00 00 00 0e c2 8b e7 70 00 00 00 00 ff ff";

#[test]
fn views_are_run(rt: HostRuntime) -> Result<(), Fail> {
    let alloc = rt.alloc();
    let values = shown(alloc, &usual(alloc, ViewCommand::Values), POINT)?;
    assert!(rt;
        values.as_slice() == b"{\"X\":22,\"Y\":33}\n".as_slice(),
        "values"
    );
    let types = shown(alloc, &usual(alloc, ViewCommand::Types), POINT)?;
    assert!(rt;
        types
            .as_slice()
            .starts_with(b"package types\n\n// type 65\n"),
        "types"
    );
    let why = shown(alloc, &usual(alloc, ViewCommand::Why), POINT)?;
    assert!(rt;
        why.as_slice() == b"ok: 2 items, 1 types, 40 bytes\n1 value of type 65, Point\n".as_slice(),
        "why"
    );
    let explain = shown(alloc, &usual(alloc, ViewCommand::Explain), POINT)?;
    assert!(rt;
        explain
            .as_slice()
            .starts_with(b"     0  1f                       an item of 31 bytes\n"),
        "explain"
    );
    let version = shown(alloc, &usual(alloc, ViewCommand::Version), POINT)?;
    assert!(rt; version.as_slice() == b"gob 0.1.0\n".as_slice(), "version");
    Ok(())
}

// Whether the value of the stream is printed so, with the names of held types or without.
fn prints(alloc: Global, tagged: bool, stream: &str, due: &[u8]) -> Result<bool, AllocError> {
    let mut view = usual(alloc, ViewCommand::Values);
    view.tagged = tagged;
    let printed = shown(alloc, &view, stream)?;
    Ok(printed.as_slice() == due)
}

// Of a point and an int which values are printed, each under the name of its type, or without a word all.
const TYPED: [(Option<&str>, &str); 5] = [
    (None, "{\"Point\":{\"X\":22,\"Y\":33}}\n{\"int\":3}\n"),
    (Some("Point"), "{\"Point\":{\"X\":22,\"Y\":33}}\n"),
    (Some("65"), "{\"Point\":{\"X\":22,\"Y\":33}}\n"),
    (Some("int"), "{\"int\":3}\n"),
    (Some("point"), ""),
];

// Whether the values are printed so, each under the name of its type.
fn prints_typed(alloc: Global, only: Option<&'static str>, due: &str) -> Result<bool, AllocError> {
    let mut view = usual(alloc, ViewCommand::Values);
    view.typed = true;
    view.only = only;
    let printed = shown(alloc, &view, POINT_AND_INT)?;
    Ok(printed.as_slice() == due.as_bytes())
}

#[test]
fn values_are_chosen_by_their_types(rt: HostRuntime) {
    for (only, due) in TYPED {
        assert!(rt; prints_typed(rt.alloc(), only, due) == Ok(true), "{due}");
    }
}

// The name of a file, its bytes, and what is said of it.
const TOLD: [(&str, &str, &str); 4] = [
    ("a.gob", POINT, "a.gob: ok: 2 items, 1 types, 40 bytes\n"),
    ("-", "", "-: ok: 0 items, 0 types, 0 bytes\n"),
    ("a\nb", "03 04", "a\\u{a}b: refused 22 Ended at 2 seen 2\n"),
    ("h", HELD, "h: ok: 1 items, 0 types, 11 bytes\n"),
];

// Whether this is said of the file.
fn is_told(alloc: Global, name: &str, stream: &str, due: &str) -> Result<bool, Memory> {
    let bytes = bytes_of(alloc, stream)?;
    let mut input = Input::new(bytes.as_slice());
    let told = tell_file(alloc, name, &mut input, Limits::standard())?;
    Ok(told.line.as_slice() == due.as_bytes())
}

#[test]
fn files_are_told(rt: HostRuntime) {
    for (name, stream, due) in TOLD {
        assert!(rt; is_told(rt.alloc(), name, stream, due) == Ok(true), "{due}");
    }
}

// Whether the stream is rewritten as the other one, with its definitions hoisted or not.
fn rewrites(alloc: Global, hoist: bool, stream: &str, due: &str) -> Result<bool, AllocError> {
    let mut view = usual(alloc, ViewCommand::RewriteGo);
    view.hoist = hoist;
    let due = bytes_of(alloc, due)?;
    let rewritten = shown(alloc, &view, stream)?;
    Ok(rewritten.as_slice() == due.as_slice())
}

#[test]
fn what_interfaces_hold_is_viewed(rt: HostRuntime) {
    let alloc = rt.alloc();
    let held: [(&str, bool, &[u8]); 2] = [
        ("plain", false, b"5\n"),
        ("tagged", true, b"{\"int\":5}\n"),
    ];
    for (what, tagged, due) in held {
        assert!(rt; prints(alloc, tagged, HELD, due) == Ok(true), "{}", what);
    }
    for (hoist, due) in [(false, DEFINED_INSIDE), (true, HOISTED)] {
        assert!(rt;
            rewrites(alloc, hoist, DEFINED_INSIDE, due) == Ok(true),
            "hoisted: {}",
            hoist
        );
    }
}

// Whether the command shows of the damaged stream, where that is asked for, what it shows of what isn't damaged.
fn shows_undamaged(alloc: Global, command: ViewCommand) -> Result<bool, AllocError> {
    let mut view = usual(alloc, command);
    let due = shown(alloc, &view, UNDAMAGED)?;
    view.salvage = true;
    let kept = shown(alloc, &view, DAMAGED)?;
    Ok(kept.as_slice() == due.as_slice() && !due.is_empty())
}

#[test]
fn what_is_not_damaged_is_viewed(rt: HostRuntime) {
    for command in [ViewCommand::Values, ViewCommand::Types, ViewCommand::ShowGo] {
        assert!(rt;
            shows_undamaged(rt.alloc(), command) == Ok(true),
            "{command:?}"
        );
    }
}

#[test]
fn values_are_shown_in_a_style(rt: HostRuntime) -> Result<(), Fail> {
    let alloc = rt.alloc();
    let mut zeros = usual(alloc, ViewCommand::Values);
    zeros.zeros = true;
    let second = shown(alloc, &zeros, "POINT 05 ff 82 02 42 00")?;
    assert!(rt;
        second.as_slice() == b"{\"X\":0,\"Y\":33}\n".as_slice(),
        "zeros"
    );
    let mut raw = usual(alloc, ViewCommand::Values);
    raw.raw = true;
    let bytes = shown(alloc, &raw, TIME)?;
    assert!(rt;
        bytes.as_slice() == b"\"AQAAAA7Ci+dwAAAAAP//\"\n".as_slice(),
        "raw"
    );
    let time = shown(alloc, &usual(alloc, ViewCommand::Values), TIME)?;
    assert!(rt;
        time.as_slice() == b"\"2009-11-10T23:00:00Z\"\n".as_slice(),
        "a time"
    );
    Ok(())
}
