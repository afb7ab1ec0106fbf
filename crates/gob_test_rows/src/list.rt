//! Lists of rows that are judged one by one.

use crate::types::table_of;
use gob_num::Memory;
use gob_types::Table;
use std::alloc::Global;

/// What judges rows.
pub trait Judge {
    /// Whether the row is as it says, where its types are those of the table.
    fn is_right(&self, alloc: Global, table: &Table, row: &str) -> Result<bool, Memory>;
}

/// A list: what judges its rows; their types, as `table_of` takes them, none where they need no table; and the rows, a
/// line each.
pub struct List<J>(pub J, pub &'static str, pub &'static str);

// The first row that isn't as it says, or no text. Where memory may be refused want of it is no fault.
fn wrong_among<J: Judge>(
    alloc: Global,
    judge: &J,
    table: &Table,
    rows: &'static str,
    may_want: bool,
) -> &'static str {
    for row in rows.trim().lines() {
        let answer = judge.is_right(alloc, table, row);
        let is_wanting = may_want && answer.is_err();
        if answer != Ok(true) && !is_wanting {
            return row;
        }
    }
    ""
}

// Such a row of the list.
fn wrong_in<J: Judge>(alloc: Global, list: &List<J>, may_want: bool) -> &'static str {
    let List(judge, types, rows) = list;
    match table_of(alloc, types) {
        Ok(table) => wrong_among(alloc, judge, &table, rows, may_want),
        Err(Memory) if may_want => "",
        Err(Memory) => "want of memory",
    }
}

// The first such row of the lists.
fn wrong_of<J: Judge>(alloc: Global, lists: &[List<J>], may_want: bool) -> &'static str {
    for list in lists {
        let row = wrong_in(alloc, list, may_want);
        if !row.is_empty() {
            return row;
        }
    }
    ""
}

/// The first row of the lists that isn't as it says, or no text.
pub fn wrong_row<J: Judge>(alloc: Global, lists: &[List<J>]) -> &'static str {
    wrong_of(alloc, lists, false)
}

/// The same where each allocation may be refused: a row that wants memory isn't wrong.
pub fn wrong_row_wanting<J: Judge>(alloc: Global, lists: &[List<J>]) -> &'static str {
    wrong_of(alloc, lists, true)
}
