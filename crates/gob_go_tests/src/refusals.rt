//! Items that a writer refuses: of each kind one, and those beside it that it puts.

use crate::putting::{items_of, judged, put_all, put_with};
use gob_go::{Filled, Filling, GoItem};
use gob_go_writer::{GoWriter, PutFault};
use gob_num::Memory;
use gob_stream::Limits;
use gob_test_rows::{Judge, List, bytes_of, number, part, wrong_row};
use gob_types::{Reason, Table, TypeId};
use gob_value::Value;
use std::alloc::{AllocError, Global};
use std::test::*;

// Type 65, a list of interfaces.
const LIST: &str = "0c ff 81 02 01 02 ff 82 00 01 10 00 00";

// What is put behind LIST: the type of a value, its skeleton, the limits where they aren't the standard ones, what
// fills its nils, and the reason for which it is refused, - where it is put. A filling is the place of the nil, the
// name, which is - where it has no bytes, and the type and the skeleton of what is held.
const VALUES: &str = "
70 | 00 |  |  | UndefinedType(70)
9223372036854775807 | 00 |  |  | UndefinedType(9223372036854775807)
9223372036854775808 | 00 |  |  | DoesNotFit
2 |  |  |  | Short
2 | 00 |  |  | Short
2 | 01 02 |  |  | SingleTag
2 | 00 02 02 |  |  | Extra
1 | 00 02 |  |  | Bool
65 | 00 02 00 00 |  | 2 int 2 00 0a, 3 int 2 00 0a | -
65 | 00 02 00 00 |  | 3 int 2 00 0a, 2 int 2 00 0a | DoesNotFit
65 | 00 02 00 00 |  | 2 int 2 00 0a, 2 int 2 00 0a | DoesNotFit
65 | 00 02 00 00 |  | 4 int 2 00 0a | DoesNotFit
65 | 00 02 00 00 |  | 18446744073709551615 int 2 00 0a | DoesNotFit
65 | 00 02 01 00 |  | 2 int 2 00 0a | DoesNotFit
65 | 00 02 00 00 |  | 0 int 2 00 0a | SingleTag
65 | 00 02 00 00 |  | 1 int 2 00 0a | Short
65 | 00 01 00 |  | 2 - 2 00 0a | Extra
65 | 00 02 00 00 |  | 2 - 2 00 0a | Short
65 | 00 01 00 |  | 2 int 70 00 | UndefinedType(70)
65 | 00 01 00 |  | 2 int 9223372036854775808 00 | DoesNotFit
65 | 00 01 00 |  | 2 int 2 00 02 02 | Extra
65 | 00 01 03 69 6e 74 04 02 00 0a |  |  | DoesNotFit
65 | 00 01 03 69 6e 74 ff 83 02 01 02 ff 84 00 01 10 00 00 |  |  | Ended
65 | 00 01 00 | 12 5 1 100 | 2 integer 2 00 0a | ItemTooLong
65 | 00 01 00 | 20 4 1 100 | 2 W 16 02 01 02 ff 82 00 01 10 00 00 | TooDeep
65 | 00 01 00 | 12 5 1 26 | 2 int 2 00 0a | -
65 | 00 01 00 | 12 5 1 25 | 2 int 2 00 0a | StreamTooLong
";

// The name of a filling.
fn name_of(word: &str) -> &[u8] {
    if word == "-" { b"" } else { word.as_bytes() }
}

// What fills a nil, as the text of a filling says.
fn filling_of(alloc: Global, text: &str) -> Result<Filling, AllocError> {
    let (_, rest) = text.split_once(' ').unwrap_or((text, ""));
    let (name, rest) = rest.split_once(' ').unwrap_or((rest, ""));
    let (_, skeleton) = rest.split_once(' ').unwrap_or((rest, ""));
    let name = name_of(name).to_vec(alloc)?;
    let skeleton = bytes_of(alloc, skeleton)?;
    Ok(Filling {
        place: number(text, 0),
        name,
        definitions: Vec::new(alloc),
        id: TypeId(number(text, 2)),
        value: Filled {
            skeleton,
            fillings: Vec::new(alloc),
        },
    })
}

// What fills the nils, as the text says.
fn fillings_of(alloc: Global, text: &str) -> Result<Vec<Filling>, AllocError> {
    let mut fillings = Vec::new(alloc);
    for filling in text.split(", ") {
        if !filling.is_empty() {
            fillings.push(filling_of(alloc, filling)?)?;
        }
    }
    Ok(fillings)
}

// The value of the row.
fn value_of(alloc: Global, row: &str) -> Result<GoItem, PutFault> {
    let skeleton = bytes_of(alloc, part(row, 1))?;
    let fillings = fillings_of(alloc, part(row, 3))?;
    Ok(GoItem::Put {
        id: TypeId(number(row, 0)),
        value: Filled { skeleton, fillings },
    })
}

// Whether this is the reason, which is - for none.
fn is_reason(alloc: Global, reason: Option<Reason>, due: &str) -> bool {
    match reason {
        None => due == "-",
        Some(reason) => is_printed(alloc, reason, due),
    }
}

fn is_printed(alloc: Global, reason: Reason, due: &str) -> bool {
    match reason.to_string(alloc) {
        Ok(text) => text.as_str() == due,
        Err(_) => false,
    }
}

// Why a writer refuses the item, if it does. Then nothing is appended, and the writer has failed; one that does
// something else is wrong.
fn refusal(
    alloc: Global,
    writer: &mut GoWriter,
    item: &GoItem,
    out: &mut Vec<u8>,
) -> Result<Option<Reason>, PutFault> {
    let length = out.len();
    match writer.put(alloc, item, out) {
        Ok(()) => Ok(None),
        Err(PutFault::Refused(reason)) if out.len() == length => {
            if writer.put(alloc, item, out) == Err(PutFault::Failed) && out.len() == length {
                Ok(Some(reason))
            } else {
                Err(PutFault::Failed)
            }
        }
        Err(_) => Err(PutFault::Failed),
    }
}

// Why the item isn't put behind these under the limits.
fn refused_behind(
    alloc: Global,
    items: &[GoItem],
    item: &GoItem,
    limits: Limits,
) -> Result<Option<Reason>, PutFault> {
    let mut writer = GoWriter::new(alloc, limits)?;
    let mut out = Vec::new(alloc);
    put_with(alloc, &mut writer, items, &mut out)?;
    refusal(alloc, &mut writer, item, &mut out)
}

// The items of LIST.
fn list(alloc: Global) -> Result<Vec<GoItem>, PutFault> {
    let bytes = bytes_of(alloc, LIST)?;
    Ok(items_of(alloc, &bytes, Limits::standard())?)
}

// The limits of a row of values.
fn limits_in(row: &str) -> Limits {
    let limits = part(row, 2);
    let (item, depth) = (number(limits, 0), number(limits, 1));
    Limits::new(item, depth, number(limits, 2), number(limits, 3)).unwrap_or(Limits::standard())
}

// Whether the value of the row is put behind LIST or refused as the row says.
fn is_right(alloc: Global, row: &str) -> Result<bool, PutFault> {
    let items = list(alloc)?;
    let item = value_of(alloc, row)?;
    let reason = refused_behind(alloc, &items, &item, limits_in(row))?;
    Ok(is_reason(alloc, reason, part(row, 4)))
}

// The ids under which the description of LIST is put behind it, and the reasons for which it is refused.
const DEFINITIONS: &str = "
66 WrongId
65 DefinedTwice(65)
20 ReservedType(20)
9223372036854775807 ReservedType(9223372036854775807)
9223372036854775808 DoesNotFit
0 DoesNotFit
";

// The first of the items as the definition of another type.
fn redefined(items: Vec<GoItem>, id: TypeId) -> GoItem {
    let mut described = Value::Nil;
    for item in items {
        if let GoItem::Define {
            described: given,
            ..
        } = item
        {
            described = given;
        }
    }
    GoItem::Define { id, described }
}

// Whether the definition of the row is refused as the row says.
fn is_refused(alloc: Global, row: &str) -> Result<bool, PutFault> {
    let items = list(alloc)?;
    let item = redefined(list(alloc)?, TypeId(number(row, 0)));
    let reason = refused_behind(alloc, &items, &item, Limits::standard())?;
    Ok(is_reason(alloc, reason, row.split(' ').nth(1).unwrap_or("")))
}

// What is judged of a row.
#[derive(Clone, Copy)]
enum Judged {
    Value,
    Definition,
}

impl Judge for Judged {
    fn is_right(&self, alloc: Global, _table: &Table, row: &str) -> Result<bool, Memory> {
        match *self {
            Judged::Value => judged(is_right(alloc, row)),
            Judged::Definition => judged(is_refused(alloc, row)),
        }
    }
}

static LISTS: [List<Judged>; 2] = [
    List(Judged::Value, "", VALUES),
    List(Judged::Definition, "", DEFINITIONS),
];

// The lists, named in one function, since a table costs the proof of each that names it.
fn lists() -> &'static [List<Judged>; 2] {
    &LISTS
}

#[test]
fn values_and_definitions_are_put_or_refused(rt: HostRuntime) {
    let row = wrong_row(rt.alloc(), lists());
    assert!(rt; row.is_empty(), "{row}");
}

// Whether a value that is no description is refused as that of type 66.
fn is_no_description(alloc: Global) -> Result<bool, PutFault> {
    let items = list(alloc)?;
    let item = GoItem::Define {
        id: TypeId(66),
        described: Value::Int(1),
    };
    let reason = refused_behind(alloc, &items, &item, Limits::standard())?;
    Ok(reason == Some(Reason::DoesNotFit))
}

#[test]
fn descriptions_that_are_none_are_refused(rt: HostRuntime) {
    assert!(rt; is_no_description(rt.alloc()) == Ok(true), "an int");
}

// How many bytes the items of LIST have under the limits, for an item, for the depth, for types and for the stream, or
// why they are refused.
const LIMITS: [(u64, u64, u64, Result<usize, PutFault>); 4] = [
    (12, 1000, 1, Ok(13)),
    (11, 1000, 1, Err(PutFault::Refused(Reason::ItemTooLong))),
    (12, 1, 1, Err(PutFault::Refused(Reason::TooDeep))),
    (12, 1000, 0, Err(PutFault::Refused(Reason::TooManyTypes))),
];

fn put_list(alloc: Global, limits: Limits) -> Result<usize, PutFault> {
    let items = list(alloc)?;
    Ok(put_all(alloc, &items, limits)?.len())
}

#[test]
fn definitions_beyond_a_limit_are_refused(rt: HostRuntime) {
    for (item, depth, types, due) in LIMITS {
        let limits = Limits::new(item, depth, types, 1000).unwrap_or(Limits::standard());
        assert!(rt;
            put_list(rt.alloc(), limits) == due,
            "{item} {depth} {types}"
        );
    }
}
