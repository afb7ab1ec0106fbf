//! Rows, and what judges them. Those that end with the types' clash, or with nothing, say whether the types match, and
//! those that end with bytes what is received.
use super::{clashes, received};
use gob_num::Memory;
use gob_test_rows::{
    Judge, List, bytes_of, is_spelled, part, table_of, type_of, value_of, wrong_row,
    wrong_row_wanting,
};
use gob_types::Table;
use gob_value::Value;
use std::alloc::Global;

// Rows of which each allocation is refused.
const SHORT: &str = "
a node | 65 struct V 2 Next 65 | 65 struct Next 66; 66 struct V 3 Next 65 | 33 .Next .V
a map | 66 map 6 65; 65 struct A 2 B 6 | 66 map 6 65; 65 struct B 6 | 'a 1 'go fields:0,1 pairs:1 | \
    01 01 61 01 02 67 6f 00
";

// Whether what is received of the value is spelled as the row says.
fn is_received(
    alloc: Global,
    stream: &Table,
    wanted: &Table,
    value: &Value,
    row: &str,
) -> Result<bool, Memory> {
    let (id, wanted_id) = (type_of(part(row, 1)), type_of(part(row, 2)));
    let due = bytes_of(alloc, part(row, 4))?;
    match received::received(alloc, stream, id, wanted, wanted_id, value)? {
        Some(made) => is_spelled(alloc, wanted, wanted_id, &made, 1000, &due),
        None => Ok(false),
    }
}

// Whether the types of these tables are answered as the row says.
fn is_judged(alloc: Global, stream: &Table, wanted: &Table, row: &str) -> Result<bool, Memory> {
    if part(row, 4).is_empty() {
        let (id, wanted_id) = (type_of(part(row, 1)), type_of(part(row, 2)));
        return clashes::is_judged(alloc, stream, id, wanted, wanted_id, part(row, 3));
    }
    is_received(alloc, stream, wanted, &value_of(alloc, part(row, 3))?, row)
}

// Whether this table's type and the wanted one are.
fn is_answered_for(alloc: Global, stream: &Table, row: &str) -> Result<bool, Memory> {
    is_judged(alloc, stream, &table_of(alloc, part(row, 2))?, row)
}

/// Whether the row's types are answered as it says.
pub(crate) fn is_answered(alloc: Global, row: &str) -> Result<bool, Memory> {
    is_answered_for(alloc, &table_of(alloc, part(row, 1))?, row)
}

// Judges answers to types.
struct Answer;

impl Judge for Answer {
    fn is_right(&self, alloc: Global, _table: &Table, row: &str) -> Result<bool, Memory> {
        is_answered(alloc, row)
    }
}

static LISTS: [List<Answer>; 2] = [
    List(Answer, "", clashes::ROWS),
    List(Answer, "", received::ROWS),
];

static WANTING: [List<Answer>; 1] = [List(Answer, "", SHORT)];

// The lists, named in one function, since a table costs the proof of each that names it.
fn lists() -> &'static [List<Answer>; 2] {
    &LISTS
}

#[test]
fn types_match_and_values_are_received(rt: HostRuntime) {
    let row = wrong_row(rt.alloc(), lists());
    assert!(rt; row.is_empty(), "{row}");
}

// tools/refuse-memory runs this with each allocation refused in turn.
#[test]
fn want_of_memory_gives_no_other_answer(rt: HostRuntime) {
    let row = wrong_row_wanting(rt.alloc(), &WANTING);
    assert!(rt; row.is_empty(), "{row}");
}
