//! What tables answer: histories of definitions and questions, the base table, and which shapes are definable.
use gob_test_rows::{Row, define, part, shape_of};
use gob_types::{DefineFault, Kind, NotReady, Shape, Shapes, Table, TypeId};
use std::alloc::Global;

// What is asked of a table, and the answer.
#[derive(Clone, Copy)]
enum Step {
    Define(u64, &'static str, Result<(), DefineFault>),
    // each type from the first of these to the one before the last, as an array of one of the next
    Chain(u64, u64),
    // of a type that leads to this undefined one
    Undefined(u64, u64),
    // of a type that leads to this one without finite values
    Bottomless(u64, u64),
    Ready(u64),
    Count(u64),
}

// Each of these begins with a new table, which takes as many definitions as stand behind its name.
static HISTORIES: [(&str, u64, &[Step]); 9] = [
    (
        "types that others name, one undefined",
        2,
        &[
            Step::Undefined(9, 9),
            Step::Ready(16),
            Step::Ready(24),
            Step::Define(63, "slice 2", Err(DefineFault::ReservedType)),
            Step::Define(2147483648, "slice 2", Err(DefineFault::ReservedType)),
            Step::Define(65, "struct A 66 B 67", Ok(())),
            Step::Undefined(65, 66),
            Step::Define(66, "array 1 66", Ok(())),
            Step::Bottomless(66, 66),
            Step::Undefined(65, 67),
            Step::Define(65, "slice 2", Err(DefineFault::DefinedTwice)),
            Step::Define(67, "slice 2", Err(DefineFault::TooManyTypes)),
            Step::Count(2),
        ],
    ),
    (
        "arrays of no elements",
        2,
        &[
            Step::Define(65, "array 0 65", Ok(())),
            Step::Ready(65),
            Step::Define(66, "array 0 67", Ok(())),
            Step::Undefined(66, 67),
        ],
    ),
    (
        "two arrays of each other",
        2,
        &[
            Step::Define(70, "array 1 69", Ok(())),
            Step::Define(69, "array 1 70", Ok(())),
            Step::Bottomless(70, 69),
            Step::Bottomless(69, 69),
        ],
    ),
    (
        "an array of itself beneath others",
        5,
        &[
            Step::Define(65, "array 1 65", Ok(())),
            Step::Define(64, "struct A 65 B 66", Ok(())),
            Step::Undefined(64, 66),
            Step::Define(66, "map 6 64", Ok(())),
            Step::Bottomless(66, 65),
            Step::Define(2147483647, "slice 2147483647", Ok(())),
            Step::Ready(2147483647),
            Step::Define(67, "opaque", Ok(())),
            Step::Ready(67),
            Step::Count(5),
        ],
    ),
    (
        "the base table",
        0,
        &[
            Step::Count(0),
            Step::Undefined(0, 0),
            Step::Undefined(15, 15),
            Step::Undefined(25, 25),
            Step::Undefined(63, 63),
            Step::Undefined(64, 64),
            Step::Ready(1),
            Step::Ready(8),
            Step::Ready(22),
        ],
    ),
    (
        "a type that becomes ready with the one that it names",
        2,
        &[
            Step::Define(65, "struct A 66", Ok(())),
            Step::Undefined(65, 66),
            Step::Define(66, "slice 2", Ok(())),
            Step::Ready(65),
            Step::Ready(66),
        ],
    ),
    (
        "two types that become ready together",
        3,
        &[
            Step::Define(65, "struct A 66", Ok(())),
            Step::Define(66, "struct A 65", Ok(())),
            Step::Ready(65),
            Step::Ready(66),
            Step::Define(67, "array 1 67", Ok(())),
            Step::Bottomless(67, 67),
            Step::Ready(65),
            Step::Ready(66),
            Step::Undefined(68, 68),
        ],
    ),
    (
        "reserved ids, and one definition too many",
        0,
        &[
            Step::Define(0, "slice 2", Err(DefineFault::ReservedType)),
            Step::Define(24, "slice 2", Err(DefineFault::ReservedType)),
            Step::Define(64, "slice 2", Err(DefineFault::TooManyTypes)),
        ],
    ),
    (
        "10000 types, each an array of the next",
        10000,
        &[
            Step::Chain(65, 10064),
            Step::Count(9999),
            Step::Undefined(65, 10064),
            Step::Define(10064, "struct A 65 B 2", Ok(())),
            Step::Ready(65),
            Step::Count(10000),
        ],
    ),
];

// Whether the table answers so to the definition, and says before whether it admits it.
fn is_defined(
    alloc: Global,
    table: &mut Table,
    id: TypeId,
    text: &str,
    answer: Result<(), DefineFault>,
) -> bool {
    table.admits(id) == answer && define(alloc, table, id, text) == answer.and(Ok(true))
}

// Whether the type is defined as an array of one of the next.
fn is_link(alloc: Global, table: &mut Table, id: u64, next: u64) -> bool {
    match format!(in alloc; "array 1 {next}") {
        Ok(text) => is_defined(alloc, table, TypeId(id), &text, Ok(())),
        Err(_) => false,
    }
}

// Whether each type from the first to the one before the last is.
fn is_chain(alloc: Global, table: &mut Table, first: u64, last: u64) -> bool {
    for id in first..last {
        if !is_link(alloc, table, id, id + 1) {
            return false;
        }
    }
    true
}

// Whether the table answers so whether the type is ready.
fn is_ready(alloc: Global, table: &Table, id: u64, answer: Result<(), NotReady>) -> bool {
    let id = TypeId(id);
    table.ready(alloc, id) == answer && table.kept(id) == answer.is_ok()
}

// Whether the table answers the step so.
fn is_answered(alloc: Global, table: &mut Table, step: Step) -> bool {
    match step {
        Step::Define(id, text, answer) => is_defined(alloc, table, TypeId(id), text, answer),
        Step::Chain(first, last) => is_chain(alloc, table, first, last),
        Step::Undefined(id, least) => {
            is_ready(
                alloc,
                table,
                id,
                Err(NotReady::UndefinedType(TypeId(least))),
            )
        }
        Step::Bottomless(id, least) => {
            is_ready(alloc, table, id, Err(NotReady::Bottomless(TypeId(least))))
        }
        Step::Ready(id) => is_ready(alloc, table, id, Ok(())),
        Step::Count(count) => table.count() == count,
    }
}

// The first step that isn't answered so, or how many there are.
fn answered(alloc: Global, table: &mut Table, steps: &[Step]) -> usize {
    for (i, step) in steps.iter().enumerate() {
        if !is_answered(alloc, table, *step) {
            return i;
        }
    }
    steps.len()
}

fn answered_anew(alloc: Global, most: u64, steps: &[Step]) -> usize {
    match Table::new(alloc, most) {
        Ok(mut table) => answered(alloc, &mut table, steps),
        Err(_) => usize::MAX,
    }
}

#[test]
fn histories_are_answered(rt: HostRuntime) {
    for (name, most, steps) in &HISTORIES {
        let step = answered_anew(rt.alloc(), *most, steps);
        assert!(rt; step == steps.len(), "{name}: step {step}");
    }
}

/// Types of the base table with their names, and ids that it has no type of.
pub(crate) const NAMES: &str = "
type 1 | 1 |  |  | bool
type 5 | 5 |  |  | []byte
type 8 | 8 |  |  | interface
type 16 | 16 |  |  | wireType
type 22, which has no name | 22
type 24 | 24 |  |  | gobEncoderType
type 0 | 0 |  |  | none
type 9 | 9 |  |  | none
type 15 | 15 |  |  | none
type 25 | 25 |  |  | none
type 64 | 64 |  |  | none
type 65 | 65 |  |  | none
type 66 | 66 |  |  | none
type 2147483647 | 2147483647 |  |  | none
type 18446744073709551615 | 18446744073709551615 |  |  | none
";

/// The fields of wireType: their numbers, their types and their names.
pub(crate) const FIELDS: &str = "
field 0 | 0 17 |  |  | ArrayT
field 1 | 1 19 |  |  | SliceT
field 2 | 2 20 |  |  | StructT
field 3 | 3 23 |  |  | MapT
field 4 | 4 24 |  |  | GobEncoderT
field 5 | 5 24 |  |  | BinaryMarshalerT
field 6 | 6 24 |  |  | TextMarshalerT
";

/// What shapes are, and whether a description can give them.
pub(crate) const DEFINABLE: &str = "
what names type 0 | array 1 0; slice 0; map 2 0; map 0 2 |  |  | none
what names type 1 | array 1 1; slice 1; map 2 1; map 1 2 |  |  | definable
what names type 8 | array 1 8; slice 8; map 2 8; map 8 2 |  |  | definable
what names type 9 | array 1 9; slice 9; map 2 9; map 9 2 |  |  | definable
what names type 23 | array 1 23; slice 23; map 2 23; map 23 2 |  |  | definable
what names type 24 | array 1 24; slice 24; map 2 24; map 24 2 |  |  | none
what names type 2147483647 | array 1 2147483647; slice 2147483647; map 2 2147483647; map 2147483647 2 |  |  | definable
what names type 2147483648 | array 1 2147483648; slice 2147483648; map 2 2147483648; map 2147483648 2 |  |  | none
the longest array | array 9223372036854775807 2 |  |  | definable
one longer | array 9223372036854775808 2 |  |  | none
no field | struct |  |  | definable
fields of 2 and 23 | struct A 2 B 23 |  |  | definable
fields of 2 and 24 | struct A 2 B 24 |  |  | none
opaque | opaque |  |  | definable
basic | basic |  |  | none
";

/// Whether the type of this row has its name, or is none.
pub(crate) fn is_named(table: &Table, row: &Row, due: &str) -> bool {
    match table.shape_of(TypeId(row.number(0))) {
        Some(shape) => shape.name.as_bytes() == due.as_bytes(),
        None => due == "none",
    }
}

/// Whether wireType has seven fields, and that of this row its type and name.
pub(crate) fn is_field(table: &Table, row: &Row, name: &str) -> bool {
    let Some(
        Shape {
            kind: Kind::Struct { fields },
            ..
        },
    ) = table.shape_of(TypeId(16))
    else {
        return false;
    };
    match fields.get(row.number(0)) {
        Some(field) => {
            fields.count() == 7
                && fields.as_slice().len() == 7
                && field.name.as_bytes() == name.as_bytes()
                && field.id == TypeId(row.number(1))
        }
        None => false,
    }
}

fn is_definable(alloc: Global, text: &str) -> Option<bool> {
    match shape_of(alloc, text) {
        Ok(shape) => Some(shape.definable()),
        Err(_) => None,
    }
}

/// Whether each of the row's shapes is definable, or none is.
pub(crate) fn are_definable(alloc: Global, text: &str) -> bool {
    let wanted = Some(part(text, 4) == "definable");
    for shape in part(text, 1).split(';') {
        if is_definable(alloc, shape) != wanted {
            return false;
        }
    }
    true
}
