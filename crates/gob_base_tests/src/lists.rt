//! The lists of rows, and who judges the rows of each.
use crate::{descriptions, numbers, tables, values, whole};
use gob_num::Memory;
use gob_test_rows::{Judge, List, Row, part, wrong_row, wrong_row_wanting};
use gob_types::Table;
use std::alloc::Global;

// What is judged of a row.
#[derive(Clone, Copy)]
enum Judged {
    Number,
    NoNumber,
    Place,
    Spelling,
    Misfit,
    TidyForm,
    Whole,
    Elements,
    Entries,
    Description,
    ShapeFault,
    Name,
    Field,
    Definable,
}

// What is judged, under a table of which types, and the rows.
static LISTS: [List<Judged>; 14] = [
    List(Judged::Number, "", numbers::SPELLED),
    List(Judged::NoNumber, "", numbers::NOT_WHOLE),
    List(Judged::Place, "", numbers::PLACES),
    List(Judged::Spelling, values::TYPES, values::SPELLED),
    List(Judged::Misfit, values::TYPES, values::REFUSED),
    List(Judged::TidyForm, values::TYPES, values::TIDY),
    List(Judged::Whole, whole::TYPES, whole::WHOLE),
    List(Judged::Elements, whole::TYPES, whole::ELEMENTS),
    List(Judged::Entries, whole::TYPES, whole::ENTRIES),
    List(Judged::Description, "", descriptions::SHAPES),
    List(Judged::ShapeFault, "", descriptions::FAULTS),
    List(Judged::Name, "", tables::NAMES),
    List(Judged::Field, "", tables::FIELDS),
    List(Judged::Definable, "", tables::DEFINABLE),
];

// Those of which each allocation is refused.
static WANTING: [List<Judged>; 2] = [
    List(Judged::Number, "", numbers::SPELLED),
    List(Judged::Description, "", descriptions::SHAPE),
];

// The lists, named in one function, since a table costs the proof of each that names it.
fn lists() -> &'static [List<Judged>; 14] {
    &LISTS
}

// Whether the row is as it says.
fn is_as_said(
    alloc: Global,
    table: &Table,
    judged: Judged,
    text: &str,
    row: &Row,
) -> Result<bool, Memory> {
    let due = part(text, 4);
    match judged {
        Judged::Number => numbers::is_spelled(alloc, text, row),
        Judged::NoNumber => Ok(numbers::is_not_whole(row, due)),
        Judged::Place => Ok(numbers::is_in_list(row, due)),
        Judged::Spelling => values::is_row_spelled(alloc, table, row),
        Judged::Misfit => Ok(values::is_row_refused(alloc, table, row, due)),
        Judged::TidyForm => values::is_row_tidied(alloc, table, row, text),
        Judged::Whole => Ok(whole::is_found(table, row, due)),
        Judged::Elements => Ok(whole::are_elements(table, row)),
        Judged::Entries => Ok(whole::are_entries(table, row)),
        Judged::Description => descriptions::is_described(alloc, table, row),
        Judged::ShapeFault => Ok(descriptions::is_faulty(alloc, row, due)),
        Judged::Name => Ok(tables::is_named(table, row, due)),
        Judged::Field => Ok(tables::is_field(table, row, due)),
        Judged::Definable => Ok(tables::are_definable(alloc, text)),
    }
}

impl Judge for Judged {
    fn is_right(&self, alloc: Global, table: &Table, text: &str) -> Result<bool, Memory> {
        let row = Row::read(alloc, text)?;
        is_as_said(alloc, table, *self, text, &row)
    }
}

#[test]
fn rows_are_as_they_say(rt: HostRuntime) {
    let row = wrong_row(rt.alloc(), lists());
    assert!(rt; row.is_empty(), "{row}");
}

// tools/refuse-memory runs this with each allocation refused in turn.
#[test]
fn rows_want_memory(rt: HostRuntime) {
    let row = wrong_row_wanting(rt.alloc(), &WANTING);
    assert!(rt; row.is_empty(), "{row}");
}
