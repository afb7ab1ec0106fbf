//! The plain JSON of values that hold others.

use gob_go::{GoItem, GoSession};
use gob_num::Memory;
use gob_plain::{HeldStyle, Style, filled_text, filled_text_of, push_filled_text};
use gob_stream::{Limits, Steps};
use gob_test_rows::{bytes_of, part};
use std::alloc::Global;
use std::test::Fail;

// What, the stream, and the JSON of its last item: plain, tagged, and plain with the zeros that Go leaves out. Where
// something stands behind a pointer, Go sends the bytes, and the plain JSON is that of its encoding/json. No definition
// stands in a value. An empty line stands between two rows.
const WHOLE: &str = r#"
an int | 0a 10 00 03 69 6e 74 04 02 00 0a | 5 | {"int":5} | 5

a value as the format has it | 03 04 00 0a | 5 | 5 | 5

zeros, and a nil before and behind what is held | 0c ff 81 02 01 02 ff 82 00 01 10 00 00
0e ff 82 00 03 00 03 69 6e 74 04 02 00 00
00 | [null,0,null] | [null,{"int":0},null] | [null,0,null]

a name that is no text, and parts before the nil | 25 ff 81 03 01 01 05 4f 75 74 65 72 01 ff 82 00 01 03 01 01 4e 01
04 00 01 01 49 01 10 00 01 01 4d 01 04 00 00 00 0d ff 82 02 02 ff 80 04 02 00 0a 01 08
00 | {"I":5,"M":4} | {"I":{"0xff80":5},"M":4} | {"N":0,"I":5,"M":4}

a time behind a pointer, as Go sends it | 17 ff 85 03 01 01 01 50 01 ff 86 00 01 01 01 02 41 74 01 ff 82 00 00 00 0a ff
81 05 01 02 ff 88 00 00 00 14 ff 86 01 0f 01 00 00 00 0e c2 8b e7 70 00 00 00 00 ff ff
00 | {"At":"2009-11-10T23:00:00Z"} | {"At":"2009-11-10T23:00:00Z"} | {"At":"2009-11-10T23:00:00Z"}

a whole number behind a pointer, as Go sends it | 16 ff 89 03 01 01 01 4e 01 ff 8a 00 01 01 01 01 4e 01 ff 8c 00 00 00
0a ff 8b 05 01 02 ff 8e 00 00 00 07 ff 8a 01 02 03 ff 00 | {"N":-255} | {"N":-255} | {"N":-255}
"#;

// So of values in which a definition stands: of interop/filled, and two that Go sends.
const DEFINING: &str = r#"
nest two | 25 ff 81 03 01 01 05 4f 75 74 65 72 01 ff 82 00 01 03 01 01 4e 01 04 00 01 01 49 01 10 00 01 01 4d 01
04 00 00 00 33 ff 82 01 02 01 09 6d 61 69 6e 2e 57 72 61 70 ff 83 03 01 01 04 57 72 61 70 01 ff 84 00 01 03 01 01 4e
01 04 00 01 01 49 01 10 00 01 01 53 01 0c 00 00 00 34 ff 84 23 01 04 01 08 6d 61 69 6e 2e 52 65 67 ff 85 03 01 01 03
52 65 67 01 ff 86 00 01 01 01 01 41 01 04 00 00 00 0a ff 86 03 01 06 00 01 01 73 00 01 08
00 | {"N":1,"I":{"N":2,"I":{"A":3},"S":"s"},"M":4} | {"N":1,"I":{"main.Wrap":{"N":2,
"I":{"main.Reg":{"A":3}},"S":"s"}},"M":4} | {"N":1,"I":{"N":2,"I":{"A":3},"S":"s"},"M":4}

a time in an interface | 16 10 00 09 74 69 6d 65 2e 54 69 6d 65 ff 81 05 01 02 ff 82 00 00 00 14 ff 82 11 00 0f 01 00 00
00 0e c2 8b e7 70 00 00 00 00 ff
ff | "2009-11-10T23:00:00Z" | {"time.Time":"2009-11-10T23:00:00Z"} | "2009-11-10T23:00:00Z"

a whole number in an interface | 15 10 00 08 2a 62 69 67 2e 49 6e 74 ff 8b 05 01 02 ff 8e 00 00 00 07 ff 8c 04 00 02 03
07 | -7 | {"*big.Int":-7} | -7
"#;

// The style in which the column has the values.
fn style_of(column: usize) -> Style<'static> {
    Style {
        zeros: column == 4,
        raw: false,
        taken: &[],
        pairs: false,
    }
}

// The JSON of the last item of the stream, where it is a value.
fn shown(alloc: Global, bytes: &[u8], column: usize) -> Result<String, Memory> {
    let mut session = GoSession::new(alloc, Limits::standard())?;
    let mut items = Vec::new(alloc);
    let _ = session.feed(alloc, bytes, &mut items);
    match items.last() {
        Some(GoItem::Put { id, value }) => {
            let style = style_of(column);
            filled_text(alloc, *id, value, session.table(), style, column == 3)
        }
        _ => Ok(String::new(alloc)),
    }
}

// The JSON of the value that stands whole at the front of the piece, from its bytes, if one does. It is also made in
// room that is there, where it is the same.
fn text_of(
    alloc: Global,
    session: &GoSession,
    piece: &[u8],
    column: usize,
) -> Result<Option<String>, Memory> {
    let Some(item) = session.whole_value(piece) else {
        return Ok(None);
    };
    let how = HeldStyle {
        style: style_of(column),
        tagged: column == 3,
    };
    let json = filled_text_of(alloc, session.table(), item.id, item.body, 9, how)?;
    let mut made = Vec::with_capacity(alloc, 1)?;
    let is_made = push_filled_text(session.table(), item.id, item.body, 9, how, &mut made)?;
    let same = match &json {
        Some(json) => is_made && made.as_slice() == json.as_bytes(),
        None => !is_made && made.is_empty(),
    };
    if !same {
        return Err(Memory);
    }
    Ok(json)
}

// The JSON of the last value of the stream, from the bytes in which it stands whole; nothing where it has none so.
fn shown_whole(alloc: Global, bytes: &[u8], column: usize) -> Result<String, Memory> {
    let mut session = GoSession::new(alloc, Limits::standard())?;
    let mut items = Vec::new(alloc);
    let mut json = String::new(alloc);
    for at in 0..bytes.len() {
        if let Some(text) = text_of(alloc, &session, &bytes[at..], column)? {
            json = text;
        }
        if session.feed(alloc, &bytes[at..at + 1], &mut items).is_err() {
            return Err(Memory);
        }
    }
    Ok(json)
}

// The text in one line.
fn joined(alloc: Global, text: &str) -> Result<String, Memory> {
    let mut line = String::new(alloc);
    for piece in text.split('\n') {
        line.push_str(piece)?;
    }
    Ok(line)
}

// Whether the JSON comes that is due in this column of the row, and from bytes the same, or none where none is known.
fn is_due(alloc: Global, row: &str, column: usize, known: bool) -> Result<bool, Memory> {
    let bytes = bytes_of(alloc, part(row, 1))?;
    let json = joined(alloc, part(row, column))?;
    let whole = shown_whole(alloc, &bytes, column)?;
    if known && whole != json || !known && !whole.is_empty() {
        return Ok(false);
    }
    Ok(shown(alloc, &bytes, column)? == json)
}

// The first of the rows of which another JSON comes in this column, or else nothing.
fn wrong<'a>(alloc: Global, rows: &'a str, column: usize, known: bool) -> Result<&'a str, Memory> {
    for row in rows.trim().split("\n\n") {
        if !is_due(alloc, row, column, known)? {
            return Ok(row);
        }
    }
    Ok("")
}

#[test]
fn values_are_shown(rt: HostRuntime) -> Result<(), Fail> {
    assert_eq!(rt; wrong(rt.alloc(), WHOLE, 2, true)?, "");
    assert_eq!(rt; wrong(rt.alloc(), DEFINING, 2, false)?, "");
    Ok(())
}

#[test]
fn values_are_tagged(rt: HostRuntime) -> Result<(), Fail> {
    assert_eq!(rt; wrong(rt.alloc(), WHOLE, 3, true)?, "");
    assert_eq!(rt; wrong(rt.alloc(), DEFINING, 3, false)?, "");
    Ok(())
}

#[test]
fn zeros_are_put_back_around_what_is_held(rt: HostRuntime) -> Result<(), Fail> {
    assert_eq!(rt; wrong(rt.alloc(), WHOLE, 4, true)?, "");
    assert_eq!(rt; wrong(rt.alloc(), DEFINING, 4, false)?, "");
    Ok(())
}
