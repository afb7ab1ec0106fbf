//! Walks over rows: what is looked at of each of them.

use crate::hoisted::{is_hoisted, stays_hoisted};
use crate::putting::{is_put, is_put_within};
use crate::readers::{is_read, is_read_within};
use crate::rows::rows;
use crate::session_tests::is_stepped;
use crate::sessions::{is_cut_anywhere, is_fed, is_fed_within};
use crate::streams::{go_streams, plain_streams};
use crate::tidied::{is_tidied, is_tidy};
use crate::written::{is_written, is_written_within};
use crate::{hoisted, tidied};
use gob_go_writer::PutFault;
use std::alloc::Global;
use std::test::*;

// What is looked at of a row.
#[derive(Clone, Copy)]
enum Look {
    // Sessions that are fed pieces of this length give what it says.
    Fed(usize),
    // Readers over pieces of this length do.
    Read(usize),
    // Its items come step by step.
    Stepped,
    // It is cut off anywhere.
    Cut,
    // It is written again.
    Written,
    // Its items are put as its bytes.
    Put,
    // It is tidy.
    Tidy,
    // Its tidy form is due.
    Tidied,
    // Its hoisted form is due.
    Hoisted,
    // Its hoisted form is read back, and hoisted.
    StaysHoisted,
    // It is fed, read, written again and put where memory may be refused.
    FedWithin,
    ReadWithin,
    WrittenWithin,
    PutWithin,
}

fn is_right(alloc: Global, look: Look, row: &str) -> Result<bool, PutFault> {
    match look {
        Look::Fed(length) => is_fed(alloc, row, length),
        Look::Read(length) => is_read(alloc, row, length),
        Look::Stepped => is_stepped(alloc, row),
        Look::Cut => is_cut_anywhere(alloc, row),
        Look::Written => is_written(alloc, row),
        Look::Put => is_put(alloc, row),
        Look::Tidy => is_tidy(alloc, row),
        Look::Tidied => is_tidied(alloc, row),
        Look::Hoisted => is_hoisted(alloc, row),
        Look::StaysHoisted => stays_hoisted(alloc, row),
        Look::FedWithin => is_fed_within(alloc, row),
        Look::ReadWithin => is_read_within(alloc, row),
        Look::WrittenWithin => is_written_within(alloc, row),
        Look::PutWithin => is_put_within(alloc, row),
    }
}

// The first of the rows that isn't right. Without memory it is, where memory may be refused.
fn wrong(
    alloc: Global,
    look: Look,
    rows: &'static str,
    may_want_memory: bool,
) -> Option<&'static str> {
    for row in rows.trim().split("\n\n") {
        if !is_right(alloc, look, row).unwrap_or(may_want_memory) {
            return Some(row);
        }
    }
    None
}

#[test]
fn rows_are_fed(rt: HostRuntime) {
    for rows in [rows(), go_streams(), plain_streams()] {
        for length in [usize::MAX, 1] {
            let wrong = wrong(rt.alloc(), Look::Fed(length), rows, false);
            assert!(rt; wrong.is_none(), "{length} a piece: {wrong:?}");
        }
    }
}

#[test]
fn pieces_have_any_length(rt: HostRuntime) {
    for (rows, length) in [(rows(), 3usize), (go_streams(), 20)] {
        let wrong = wrong(rt.alloc(), Look::Fed(length), rows, false);
        assert!(rt; wrong.is_none(), "{length} a piece: {wrong:?}");
    }
}

#[test]
fn rows_are_read_as_they_come(rt: HostRuntime) {
    for rows in [rows(), go_streams(), plain_streams()] {
        for length in [1usize, 7, 65536] {
            let wrong = wrong(rt.alloc(), Look::Read(length), rows, false);
            assert!(rt; wrong.is_none(), "{length} a call: {wrong:?}");
        }
    }
}

#[test]
fn rows_are_written_again(rt: HostRuntime) {
    for rows in [rows(), go_streams(), plain_streams()] {
        for look in [Look::Written, Look::Put] {
            let wrong = wrong(rt.alloc(), look, rows, false);
            assert!(rt; wrong.is_none(), "{wrong:?}");
        }
    }
}

#[test]
fn streams_of_go_are_cut_anywhere(rt: HostRuntime) {
    let wrong = wrong(rt.alloc(), Look::Cut, go_streams(), false);
    assert!(rt; wrong.is_none(), "{wrong:?}");
}

#[test]
fn streams_of_go_come_step_by_step(rt: HostRuntime) {
    let wrong = wrong(rt.alloc(), Look::Stepped, go_streams(), false);
    assert!(rt; wrong.is_none(), "{wrong:?}");
}

#[test]
fn items_have_their_tidy_and_hoisted_forms(rt: HostRuntime) {
    for (look, rows) in [
        (Look::Tidy, go_streams()),
        (Look::Tidy, plain_streams()),
        (Look::Tidied, tidied::by_hand()),
        (Look::Hoisted, hoisted::by_hand()),
        (Look::StaysHoisted, go_streams()),
    ] {
        let wrong = wrong(rt.alloc(), look, rows, false);
        assert!(rt; wrong.is_none(), "{wrong:?}");
    }
}

// What, a stream, and how many items it has. An empty line stands between two rows.
const SHORT: &str = "
an int held | 0a 10 00 03 69 6e 74 04 02 00 0a | 1

a type defined in front of what is held | 15 10 00 08 2a 62 69 67 2e 49 6e 74 ff 81 05 01 02 ff 84 00 00 00
07 ff 82 04 00 02 02 05 | 1

a list of two that are held | 0c ff 81 02 01 02 ff 82 00 01 10 00 00
10 ff 82 00 02 01 61 04 02 00 02 01 61 04 02 00 02 | 2

an int held in what is held | 0f 10 00 01 61 10 09 00 03 69 6e 74 04 02 00 0a | 1

an int | 03 04 00 06 | 1
";

// Run by tools/refuse-memory with each allocation refused in turn: the items, or want of memory behind those before it.
// Little is made beside what is tested.
#[test]
fn reading_and_writing_want_memory(rt: HostRuntime) {
    for look in [
        Look::FedWithin,
        Look::ReadWithin,
        Look::WrittenWithin,
        Look::PutWithin,
    ] {
        let wrong = wrong(rt.alloc(), look, SHORT, true);
        assert!(rt; wrong.is_none(), "{wrong:?}");
    }
}
