//! The JSON of values.

use crate::opaque_rows::{OPAQUE, RAW, SAID_BYTES, SAID_FLOAT, SAID_FRACTION};
use crate::rows::{LISTED, MAPS, ROWS};
use crate::zero_rows::ZEROS;
use gob_num::Memory;
use gob_plain::{Content, Style, Taken, plain_text, plain_text_of};
use gob_stream::{Fault, Item, Limits, Session};
use gob_tape::{Tape, TapeBuilder};
use gob_test_rows::{bytes_of, part};
use gob_types::{Table, TypeId};
use std::alloc::{AllocError, Global};
use std::test::*;

// The JSON of the last of these items in this style; nothing where it is no value.
fn text_of(
    alloc: Global,
    items: &[Item<Tape>],
    table: &Table,
    style: Style<'_>,
) -> Result<String, AllocError> {
    match items.last() {
        Some(Item::Put { id, value }) => plain_text(alloc, *id, value, table, style),
        _ => Ok(String::new(alloc)),
    }
}

// The JSON of the last value of a stream in this style; nothing where the stream is refused or ends with a definition.
fn json_of(alloc: Global, bytes: &[u8], style: Style<'_>) -> Result<String, Memory> {
    let mut session = Session::<TapeBuilder>::new(alloc, Limits::standard())?;
    let mut items = Vec::new(alloc);
    match session.feed(alloc, bytes, &mut items) {
        Ok(()) => Ok(text_of(alloc, &items, session.table(), style)?),
        Err(Fault::Memory) => Err(Memory),
        Err(_) => Ok(String::new(alloc)),
    }
}

// The JSON of the value that stands whole at the front of the piece, in this style, if one does.
fn whole_text_of(
    alloc: Global,
    session: &Session<TapeBuilder>,
    piece: &[u8],
    style: Style<'_>,
) -> Result<Option<String>, Memory> {
    let Some(item) = session.whole_value(piece) else {
        return Ok(None);
    };
    let depth = session.limits().depth();
    Ok(plain_text_of(alloc, session.table(), item.id, item.body, depth, style)?)
}

// The JSON of the last value of a stream that isn't refused, from the bytes in which the value stands whole.
fn whole_json_of(alloc: Global, bytes: &[u8], style: Style<'_>) -> Result<String, Memory> {
    let mut session = Session::<TapeBuilder>::new(alloc, Limits::standard())?;
    let mut items = Vec::new(alloc);
    let mut json = String::new(alloc);
    for at in 0..bytes.len() {
        if let Some(text) = whole_text_of(alloc, &session, &bytes[at..], style)? {
            json = text;
        }
        if session.feed(alloc, &bytes[at..at + 1], &mut items).is_err() {
            return Err(Memory);
        }
    }
    Ok(json)
}

// Whether the row's last value has the row's JSON in this style, both from a tape and from its bytes.
fn is_due(alloc: Global, row: &str, style: Style<'_>) -> Result<bool, Memory> {
    let bytes = bytes_of(alloc, part(row, 1))?;
    let text = json_of(alloc, &bytes, style)?;
    let whole = whole_json_of(alloc, &bytes, style)?;
    let due = part(row, 2);
    Ok(text.as_str() == due && whole.as_str() == due)
}

// Whether the row's last value has the row's JSON from a tape, and none from its bytes.
fn is_due_of_a_tape(alloc: Global, row: &str) -> Result<bool, Memory> {
    let bytes = bytes_of(alloc, part(row, 1))?;
    let text = json_of(alloc, &bytes, Style::default())?;
    let whole = whole_json_of(alloc, &bytes, Style::default())?;
    Ok(text.as_str() == part(row, 2) && whole.is_empty())
}

// The style, with zeros or raw.
fn style_of(zeros: bool, raw: bool) -> Style<'static> {
    Style {
        zeros,
        raw,
        taken: &[],
        pairs: false,
    }
}

// The first of the rows whose last value has another JSON in this style.
fn wrong(alloc: Global, rows: &'static str, style: Style<'_>) -> Option<&'static str> {
    for row in rows.trim().split("\n\n") {
        if is_due(alloc, row, style) != Ok(true) {
            return Some(row);
        }
    }
    None
}

#[test]
fn values_have_their_json(rt: HostRuntime) {
    for (rows, style) in [
        (ROWS, style_of(false, false)),
        (OPAQUE, style_of(false, false)),
        (RAW, style_of(false, true)),
        (ZEROS, style_of(true, false)),
    ] {
        let wrong = wrong(rt.alloc(), rows, style);
        assert!(rt; wrong.is_none(), "{wrong:?}");
    }
}

#[test]
fn pairs_of_a_map_are_an_array_where_the_style_has_it_so(rt: HostRuntime) {
    let style = Style {
        zeros: false,
        raw: false,
        taken: &[],
        pairs: true,
    };
    let wrong = wrong(rt.alloc(), LISTED, style);
    assert!(rt; wrong.is_none(), "{wrong:?}");
}

#[test]
fn maps_whose_front_leaves_open_what_they_are_have_their_json(rt: HostRuntime) {
    for row in MAPS.trim().split("\n\n") {
        let is_right = is_due_of_a_tape(rt.alloc(), row);
        assert!(rt; is_right == Ok(true), "{row}");
    }
}

#[test]
fn values_are_what_is_said(rt: HostRuntime) {
    for (rows, content) in [
        (SAID_FLOAT, Content::Float),
        (SAID_FRACTION, Content::Rat),
        (SAID_BYTES, Content::Bytes),
    ] {
        // the later of two words counts
        let taken = [
            Taken {
                id: TypeId(65),
                content: Content::Uuid,
            },
            Taken {
                id: TypeId(65),
                content,
            },
        ];
        let style = Style {
            zeros: false,
            raw: true,
            taken: &taken,
            pairs: false,
        };
        let wrong = wrong(rt.alloc(), rows, style);
        assert!(rt; wrong.is_none(), "{wrong:?}");
    }
}

// The type of a whole number, and what stands before the bytes of its magnitude, of which there are 1024 or 1025.
const HEAD_OF_1024: &str =
    "0f ff 81 05 01 01 03 49 6e 74 01 ff 82 00 00 00 fe 04 07 ff 82 00 fe 04 01 02";

const HEAD_OF_1025: &str =
    "0f ff 81 05 01 01 03 49 6e 74 01 ff 82 00 00 00 fe 04 08 ff 82 00 fe 04 02 02";

// A head, how many bytes of 255 stand behind it, how many bytes the JSON has, and its ends. The first is 2 to the 8192,
// less 1; the second has too many bytes for a whole number.
const LONG: [(&str, usize, usize, &str, &str); 2] = [
    (
        HEAD_OF_1024,
        1024,
        2467,
        "10907481356194159294",
        "86505665475715792895",
    ),
    (HEAD_OF_1025, 1025, 1370, r#""Av//"#, r#"////""#),
];

// The bytes of the head, and so many of 255.
fn filled(alloc: Global, head: &str, count: usize) -> Result<Vec<u8>, Memory> {
    let mut bytes = bytes_of(alloc, head)?;
    for _ in 0..count {
        bytes.push(255)?;
    }
    Ok(bytes)
}

// The JSON of a whole number of so many bytes.
fn long_json(alloc: Global, head: &str, count: usize) -> Result<String, Memory> {
    let bytes = filled(alloc, head, count)?;
    json_of(alloc, &bytes, Style::default())
}

#[test]
fn whole_numbers_of_1024_bytes_are_the_greatest(rt: HostRuntime) {
    for (head, count, size, front, back) in LONG {
        let is_right = match long_json(rt.alloc(), head, count) {
            Ok(text) => text.len() == size && text.starts_with(front) && text.ends_with(back),
            Err(_) => false,
        };
        assert!(rt; is_right, "{count} bytes");
    }
}

// The row in this place.
fn row_at(rows: &'static str, place: usize) -> &'static str {
    rows.trim().split("\n\n").nth(place).unwrap_or("")
}

// Run by tools/refuse-memory with each allocation refused in turn: the right JSON, or want of memory.
#[test]
fn values_want_memory(rt: HostRuntime) {
    // Each row has some hundreds of allocations, so a few of them are enough.
    for row in ROWS.trim().split("\n\n").take(8) {
        let is_right = is_due(rt.alloc(), row, style_of(false, false));
        assert!(rt; is_right != Ok(false), "{row}");
    }
    // A time, a whole number, an address with a port, and zeros.
    for row in [
        row_at(OPAQUE, 0),
        row_at(OPAQUE, 25),
        row_at(OPAQUE, 68),
        row_at(ZEROS, 0),
    ] {
        let is_right = is_due(rt.alloc(), row, style_of(true, false));
        assert!(rt; is_right != Ok(false), "{row}");
    }
}
