//! What is printed of values whose elements or pairs stand on lines of their own.

use crate::devices::{SlowReader, SlowWriter};
use crate::ending::{Ending, ending_of};
use crate::runs::{is_so, usual};
use gob_num::Memory;
use gob_stream::{Input, Output};
use gob_test_rows::bytes_of;
use gob_views::run_view;
use gob_words::{View, ViewCommand};
use std::alloc::{AllocError, Global};
use std::test::*;

// A stream, what is printed of it, and that with the name of each value's type, and of what an interface holds.
struct Row {
    what: &'static str,
    stream: &'static str,
    lines: &'static str,
    named: &'static str,
}

const ROWS: [Row; 13] = [
    Row {
        what: "a list, an empty one, and a number",
        stream: LISTS,
        lines: "1\n-2\n300\n7\n",
        named: "{\"Ns\":1}\n{\"Ns\":-2}\n{\"Ns\":300}\n{\"int\":7}\n",
    },
    Row {
        what: "an array of texts, of which one has what a terminal obeys",
        stream: "0e ff 81 01 01 02 ff 82 00 01 0c 01 04 00 00 0a ff 82 00 02 02 61 22 02 c2 85",
        lines: "\"a\\\"\"\n\"\\u0085\"\n",
        named: "{\"\":\"a\\\"\"}\n{\"\":\"\\u0085\"}\n",
    },
    Row {
        what: "a map with a key twice, and an empty one",
        stream: "MAP 0a ff 82 00 02 01 61 02 01 61 04 04 ff 82 00 00",
        lines: "{\"key\":\"a\",\"value\":1}\n{\"key\":\"a\",\"value\":2}\n",
        named: "{\"\":{\"key\":\"a\",\"value\":1}}\n{\"\":{\"key\":\"a\",\"value\":2}}\n",
    },
    Row {
        what: "a map whose keys are numbers",
        stream: "0e ff 81 04 01 02 ff 82 00 01 04 01 0c 00 00 07 ff 82 00 01 09 01 78",
        lines: "{\"key\":-5,\"value\":\"x\"}\n",
        named: "{\"\":{\"key\":-5,\"value\":\"x\"}}\n",
    },
    Row {
        what: "a map with a key that is no text, between others",
        stream: "MAP 0d ff 82 00 03 01 61 02 01 ff 04 01 62 06",
        lines: "{\"key\":\"a\",\"value\":1}\n{\"key\":{\"hex\":\"ff\"},\"value\":2}\n{\"key\":\"b\",\"value\":3}\n",
        named: "{\"\":{\"key\":\"a\",\"value\":1}}\n{\"\":{\"key\":{\"hex\":\"ff\"},\"value\":2}}\n\
            {\"\":{\"key\":\"b\",\"value\":3}}\n",
    },
    Row {
        what: "a map with a key that is no text, and one that is its name",
        stream: "MAP 0d ff 82 00 02 01 ff 02 04 30 78 66 66 04",
        lines: "{\"key\":{\"hex\":\"ff\"},\"value\":1}\n{\"key\":\"0xff\",\"value\":2}\n",
        named: "{\"\":{\"key\":{\"hex\":\"ff\"},\"value\":1}}\n{\"\":{\"key\":\"0xff\",\"value\":2}}\n",
    },
    Row {
        what: "a list of maps, of which the last has such keys",
        stream: "MAP 0d ff 83 02 01 02 ff 84 00 01 ff 82 00 00 \
            12 ff 84 00 02 01 01 61 02 02 01 ff 02 04 30 78 66 66 04",
        lines: "{\"a\":1}\n[[{\"hex\":\"ff\"},1],[\"0xff\",2]]\n",
        named: "{\"\":{\"a\":1}}\n{\"\":[[{\"hex\":\"ff\"},1],[\"0xff\",2]]}\n",
    },
    Row {
        what: "a map whose keys give no names",
        stream: "0e ff 81 04 01 02 ff 82 00 01 02 01 0c 00 00 0a ff 82 00 02 00 01 78 01 01 79",
        lines: "{\"key\":false,\"value\":\"x\"}\n{\"key\":true,\"value\":\"y\"}\n",
        named: "{\"\":{\"key\":false,\"value\":\"x\"}}\n{\"\":{\"key\":true,\"value\":\"y\"}}\n",
    },
    Row {
        what: "bytes and a text are no lists",
        stream: "05 0a 00 02 00 ff 06 0c 00 03 5b 31 5d",
        lines: "\"AP8=\"\n\"[1]\"\n",
        named: "{\"[]byte\":\"AP8=\"}\n{\"string\":\"[1]\"}\n",
    },
    Row {
        what: "a struct is no map, and a complex number no list",
        stream: "POINT 07 ff 82 01 2c 01 42 00 06 0e 00 fe 31 40 00",
        lines: "{\"X\":22,\"Y\":33}\n[17.0,0.0]\n",
        named: "{\"Point\":{\"X\":22,\"Y\":33}}\n{\"complex\":[17.0,0.0]}\n",
    },
    Row {
        what: "lists in a list stand whole",
        stream: "0c ff 83 02 01 02 ff 84 00 01 04 00 00 0d ff 81 02 01 02 ff 82 00 01 ff 84 00 00 08 ff 82 00 02 \
            02 02 04 00",
        lines: "[1,2]\n[]\n",
        named: "{\"\":[1,2]}\n{\"\":[]}\n",
    },
    Row {
        what: "a list of interfaces",
        stream: "0c ff 81 02 01 02 ff 82 00 01 10 00 00 0d ff 82 00 02 03 69 6e 74 04 02 00 0a 00",
        lines: "5\nnull\n",
        named: "{\"\":{\"int\":5}}\n{\"\":null}\n",
    },
    Row {
        what: "a map of interfaces",
        stream: "0e ff 81 04 01 02 ff 82 00 01 10 01 10 00 00 0d ff 82 00 01 03 69 6e 74 04 02 00 0a 00",
        lines: "{\"key\":5,\"value\":null}\n",
        named: "{\"\":{\"key\":{\"int\":5},\"value\":null}}\n",
    },
];

// Maps, whose pairs are told by the values of their keys.
const KEYS: [Row; 6] = [
    Row {
        what: "a key that is no text twice",
        stream: "MAP 0a ff 82 00 02 01 ff 02 01 ff 04",
        lines: "{\"key\":{\"hex\":\"ff\"},\"value\":1}\n{\"key\":{\"hex\":\"ff\"},\"value\":2}\n",
        named: "{\"\":{\"key\":{\"hex\":\"ff\"},\"value\":1}}\n{\"\":{\"key\":{\"hex\":\"ff\"},\"value\":2}}\n",
    },
    Row {
        what: "a whole number twice",
        stream: "0e ff 81 04 01 02 ff 82 00 01 06 01 02 00 00 08 ff 82 00 02 07 01 07 00",
        lines: "{\"key\":7,\"value\":true}\n{\"key\":7,\"value\":false}\n",
        named: "{\"\":{\"key\":7,\"value\":true}}\n{\"\":{\"key\":7,\"value\":false}}\n",
    },
    Row {
        what: "an interface that holds a text",
        stream: "0e ff 81 04 01 02 ff 82 00 01 10 01 10 00 00 \
            11 ff 82 00 01 06 73 74 72 69 6e 67 0c 03 00 01 61 00",
        lines: "{\"key\":\"a\",\"value\":null}\n",
        named: "{\"\":{\"key\":{\"string\":\"a\"},\"value\":null}}\n",
    },
    Row {
        what: "an interface that holds what is no text",
        stream: "0e ff 81 04 01 02 ff 82 00 01 10 01 10 00 00 \
            11 ff 82 00 01 06 73 74 72 69 6e 67 0c 03 00 01 ff 00",
        lines: "{\"key\":{\"hex\":\"ff\"},\"value\":null}\n",
        named: "{\"\":{\"key\":{\"string\":{\"hex\":\"ff\"}},\"value\":null}}\n",
    },
    Row {
        what: "interfaces that hold nothing, twice",
        stream: "0e ff 81 04 01 02 ff 82 00 01 10 01 04 00 00 08 ff 82 00 02 00 02 00 04",
        lines: "{\"key\":null,\"value\":1}\n{\"key\":null,\"value\":2}\n",
        named: "{\"\":{\"key\":null,\"value\":1}}\n{\"\":{\"key\":null,\"value\":2}}\n",
    },
    Row {
        what: "a map that an interface holds is an object",
        stream: "MAP 0e ff 83 04 01 02 ff 84 00 01 0c 01 10 00 00 \
            10 ff 84 00 01 01 6b 01 6d ff 82 05 00 01 01 61 02",
        lines: "{\"key\":\"k\",\"value\":{\"a\":1}}\n",
        named: "{\"\":{\"key\":\"k\",\"value\":{\"m\":{\"a\":1}}}}\n",
    },
];

// Three ints in a list of type 65, Ns, no ints in one, and an int.
const LISTS: &str =
    "10 ff 81 02 01 01 02 4e 73 01 ff 82 00 01 04 00 00 09 ff 82 00 03 02 03 fe 02 58 \
    04 ff 82 00 00 03 04 00 0e";

// What the type of values is that are printed, and which of the parts are then.
const CHOSEN: [(&str, &str); 4] = [
    ("Ns", "1\n-2\n300\n"),
    ("65", "1\n-2\n300\n"),
    ("int", "7\n"),
    ("[]int", ""),
];

// Whether this is printed of the stream, of the values of one type, or of each where that is None.
fn prints_each(
    alloc: Global,
    stream: &str,
    only: Option<&'static str>,
    named: bool,
    due: &str,
) -> Result<bool, Memory> {
    let bytes = bytes_of(alloc, stream)?;
    let mut view = usual(alloc, ViewCommand::Values);
    view.each = true;
    view.only = only;
    view.tagged = named;
    view.typed = named;
    let mut written = Vec::new(alloc);
    let mut input = Input::new(bytes.as_slice());
    let mut output = Output::new(&mut written);
    let ended = run_view(alloc, &view, &mut input, &mut output, &mut None);
    is_so(alloc, ended, &written, due.as_bytes(), "")
}

#[test]
fn parts_stand_on_lines_of_their_own(rt: HostRuntime) {
    for row in &ROWS {
        for (named, due) in [(false, row.lines), (true, row.named)] {
            let is_right = prints_each(rt.alloc(), row.stream, None, named, due) == Ok(true);
            assert!(rt; is_right, "{}", row.what);
        }
    }
}

#[test]
fn pairs_are_told_by_the_values_of_their_keys(rt: HostRuntime) {
    for row in &KEYS {
        for (named, due) in [(false, row.lines), (true, row.named)] {
            let is_right = prints_each(rt.alloc(), row.stream, None, named, due) == Ok(true);
            assert!(rt; is_right, "{}", row.what);
        }
    }
}

#[test]
fn parts_are_chosen_by_the_type_of_the_whole(rt: HostRuntime) {
    for (only, due) in CHOSEN {
        let is_right = prints_each(rt.alloc(), LISTS, Some(only), false, due) == Ok(true);
        assert!(rt; is_right, "{only}");
    }
}

// What is due is written where there is room.
#[test]
fn parts_want_memory(rt: HostRuntime) {
    for row in &ROWS {
        for (named, due) in [(false, row.lines), (true, row.named)] {
            let is_right = prints_each(rt.alloc(), row.stream, None, named, due) != Ok(false);
            assert!(rt; is_right, "{}", row.what);
        }
    }
}

// A list of 20 texts in one item, which is longer than what is gathered at a time; they come behind it.
const LONG: &str = "0c ff 81 02 01 02 ff 82 00 01 0c 00 00 fd 01 38 c0 ff 82 00 14";

// How many bytes each of the texts has, and with its count and as a line.
const TEXT: usize = 4000;

const COUNTED: usize = 4003;

// The list with so many of its texts.
fn long_list(alloc: Global, texts: usize) -> Result<Vec<u8>, AllocError> {
    let mut bytes = bytes_of(alloc, LONG)?;
    for _ in 0..texts {
        bytes.extend_from_slice(&[0xfe, 0x0f, 0xa0])?;
        bytes.resize(bytes.len().saturating_add(TEXT), b'a')?;
    }
    Ok(bytes)
}

// The lines of so many of them.
fn lines_of_texts(alloc: Global, texts: usize) -> Result<Vec<u8>, AllocError> {
    let mut lines = Vec::new(alloc);
    for _ in 0..texts {
        lines.push(b'"')?;
        lines.resize(lines.len().saturating_add(TEXT), b'a')?;
        lines.extend_from_slice(b"\"\n")?;
    }
    Ok(lines)
}

// A view of values that prints each part.
fn each_part(alloc: Global) -> View<'static> {
    let mut view = usual(alloc, ViewCommand::Values);
    view.item = 100000;
    view.each = true;
    view
}

// Whether the run over it with so many texts ends so, and has printed each that came.
fn prints_long(alloc: Global, texts: usize, fault: &str) -> Result<bool, Memory> {
    let bytes = long_list(alloc, texts)?;
    let due = lines_of_texts(alloc, texts)?;
    let mut written = Vec::new(alloc);
    let mut input = Input::new(bytes.as_slice());
    let mut output = Output::new(&mut written);
    let view = each_part(alloc);
    let ended = run_view(alloc, &view, &mut input, &mut output, &mut None);
    is_so(alloc, ended, &written, &due, fault)
}

#[test]
fn parts_go_out_before_a_fault(rt: HostRuntime) {
    assert!(rt; prints_long(rt.alloc(), 20, "") == Ok(true));
    let fault = "gob: refused 22 Ended at 76078 seen 76078";
    assert!(rt; prints_long(rt.alloc(), 19, fault) == Ok(true));
}

// What is due is written where there is room.
#[test]
fn long_lists_want_memory(rt: HostRuntime) {
    assert!(rt; prints_long(rt.alloc(), 20, "") != Ok(false));
}

// Which byte isn't read of the long list, or not written of its lines, and how the run ends then.
const FAILED: [(usize, usize, Ending); 3] = [
    (usize::MAX, 0, Ending::Write),
    (usize::MAX, 9999, Ending::Write),
    (50000, usize::MAX, Ending::Read),
];

// How the run ends over the long list whose devices fail so, and what its writer has then.
fn end_of_long(
    alloc: Global,
    read_fails_at: usize,
    write_fails_at: usize,
) -> Result<(Ending, SlowWriter), AllocError> {
    let mut input = Input::new(SlowReader {
        bytes: long_list(alloc, 20)?,
        piece: 4096,
        fails_at: read_fails_at,
        at: 0,
    });
    let mut writer = SlowWriter::new(alloc, write_fails_at, false);
    let mut output = Output::new(&mut writer);
    let view = each_part(alloc);
    let ended = run_view(alloc, &view, &mut input, &mut output, &mut None);
    Ok((ending_of(ended), writer))
}

// Whether what is written are those before the write that failed, or else some whole lines.
fn is_cut(written: &[u8], due: &[u8], write_fails_at: usize) -> bool {
    let count = written.len();
    let is_whole = count > 0 && count % COUNTED == 0;
    due.starts_with(written)
        && (count == write_fails_at || write_fails_at == usize::MAX && is_whole)
}

#[test]
fn parts_go_out_before_devices_fail(rt: HostRuntime) -> Result<(), Fail> {
    let lines = lines_of_texts(rt.alloc(), 20)?;
    for (read_fails_at, write_fails_at, due) in FAILED {
        let (ending, writer) = end_of_long(rt.alloc(), read_fails_at, write_fails_at)?;
        assert!(rt;
            ending == due && is_cut(&writer.held, &lines, write_fails_at),
            "{read_fails_at}, {write_fails_at}"
        );
    }
    Ok(())
}

#[test]
fn parts_are_flushed_before_more_is_read(rt: HostRuntime) -> Result<(), Fail> {
    let (_ending, writer) = end_of_long(rt.alloc(), usize::MAX, usize::MAX)?;
    // each read but the last gives one text, and all but the first bytes of the next
    assert!(rt; writer.at_flushes.contains(&COUNTED), "the first line");
    assert!(rt; writer.at_flushes.contains(&8006), "that of the second");
    Ok(())
}
