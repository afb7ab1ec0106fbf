//! The lists of rows on reading, and who judges the rows of each.

use crate::rows::{self, limits_of};
use crate::{memory, reading, whole};
use gob_num::Memory;
use gob_read::{CheckBuilder, TreeBuilder};
use gob_stream::Limits;
use gob_test_rows::{Judge, List, bytes_of, part, wrong_row, wrong_row_wanting};
use gob_types::Table;
use std::alloc::Global;

// What is judged of a stream.
#[derive(Clone, Copy)]
enum Judged {
    // It is read, its values are passed, and it is cut anywhere.
    Stream,
    Read,
    InTwo,
    Counted,
    Built,
    WantingMemory,
}

// Each long text is named once: it costs the proof of what names it.
static LISTS: [List<Judged>; 5] = [
    List(Judged::Stream, "", rows::ROWS),
    List(Judged::Read, "", rows::LONG),
    List(Judged::InTwo, "", rows::IN_TWO),
    List(Judged::Counted, "", rows::COUNTED),
    List(Judged::Built, "", rows::BUILT),
];

// The lists, named in one function, since a table costs the proof of each that names it.
fn lists() -> &'static [List<Judged>; 5] {
    &LISTS
}

// That of which each allocation is refused.
static WANTING: [List<Judged>; 1] = [List(Judged::WantingMemory, "", memory::STREAMS)];

// Whether the bytes give what the text says, also where each value is passed, and end as they should wherever they are
// cut off, if nothing of them is refused.
fn is_stream(alloc: Global, bytes: &[u8], limits: Limits, gives: &str) -> bool {
    reading::is_read(alloc, bytes, limits, gives)
        && whole::is_passed(alloc, bytes, limits, gives)
        && (gives.contains("refused") || reading::is_cut_anywhere(alloc, bytes))
}

// Whether the bytes give what the row says.
fn is_as_said(alloc: Global, judged: Judged, row: &str, bytes: &[u8]) -> Result<bool, Memory> {
    let Some(limits) = limits_of(row) else {
        return Ok(false);
    };
    let gives = part(row, 2);
    match judged {
        Judged::Stream => Ok(is_stream(alloc, bytes, limits, gives)),
        Judged::Read => Ok(reading::is_read(alloc, bytes, limits, gives)),
        Judged::InTwo => Ok(reading::is_fed_in_two(alloc, bytes, gives)),
        Judged::Counted => reading::is_fed::<CheckBuilder>(alloc, bytes, limits, gives),
        Judged::Built => Ok(
            reading::is_fed::<TreeBuilder>(alloc, bytes, limits, gives)?
                && reading::gives(alloc, bytes, limits, gives),
        ),
        Judged::WantingMemory => memory::is_had(alloc, bytes, gives),
    }
}

impl Judge for Judged {
    fn is_right(&self, alloc: Global, _table: &Table, row: &str) -> Result<bool, Memory> {
        let bytes = bytes_of(alloc, part(row, 1))?;
        is_as_said(alloc, *self, row, &bytes)
    }
}

#[test]
fn streams_give_what_rows_say(rt: HostRuntime) {
    let row = wrong_row(rt.alloc(), lists());
    assert!(rt; row.is_empty(), "{row}");
}

// tools/refuse-memory runs this with each allocation refused in turn.
#[test]
fn streams_want_memory(rt: HostRuntime) {
    let row = wrong_row_wanting(rt.alloc(), &WANTING);
    assert!(rt; row.is_empty(), "{row}");
}
