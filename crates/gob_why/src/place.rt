//! Where in an item a refused byte stands, and what is due there.

use crate::due::due_in;
use crate::words::{type_name, type_text};
use gob_explain::{Awaited, PartStep, Row, RowSink, What, path_text, path_to, walk_body};
use gob_forms::{Head, head_of};
use gob_num::{Memory, uint_at};
use gob_stream::Limits;
use gob_types::{Basic, Kind, Reason, Shapes, Table, TypeId};
use gob_words::shortened;
use std::alloc::Global;

/// Where it stands.
#[derive(Drop)]
pub(crate) struct FaultPlace {
    /// The way to it in the item's value; empty before that.
    pub(crate) path: String,
    /// What the item is; empty before its type number is whole.
    pub(crate) item: String,
    /// What may stand there.
    pub(crate) due: String,
}

/// The place behind these first bytes of an item, at which it is refused for this reason.
pub(crate) fn place_behind(
    alloc: Global,
    table: &Table,
    front: &[u8],
    reason: Reason,
) -> Result<FaultPlace, Memory> {
    let Some(head) = head_of(front) else {
        return Ok(FaultPlace {
            path: String::new(alloc),
            item: String::new(alloc),
            due: String::from_str(alloc, due_in_head(front))?,
        });
    };
    place_in_body(alloc, table, head, front, reason)
}

// What is due before the end of the type number.
fn due_in_head(front: &[u8]) -> &'static str {
    match uint_at(front, 0) {
        None => "how many bytes the next item has",
        Some(_) => TYPE,
    }
}

fn place_in_body(
    alloc: Global,
    table: &Table,
    head: Head,
    front: &[u8],
    reason: Reason,
) -> Result<FaultPlace, Memory> {
    let id = if head.defines {
        TypeId::WIRE_TYPE
    } else {
        head.id
    };
    let body = &front[head.size.min(front.len())..];
    let steps = path_to(alloc, table, id, body)?;
    let path = path_text(alloc, table, &steps)?;
    let root = type_name(alloc, table, id)?;
    let whole = format!(in alloc; "{root}{path}")?;
    let due = match due_of_reason(reason) {
        Some(due) => String::from_str(alloc, due)?,
        None => due_behind(alloc, table, id, body)?,
    };
    Ok(FaultPlace {
        path: shortened(alloc, whole.as_str())?,
        item: item_text(alloc, table, head)?,
        due,
    })
}

// What is due behind these first bytes of a value of the type, or of a description.
fn due_behind(alloc: Global, table: &Table, id: TypeId, body: &[u8]) -> Result<String, Memory> {
    let walked = walk_body(table, id, body, Limits::GREATEST_DEPTH, &mut Unseen)?;
    match walked.awaited {
        Some(awaited) => due_at(alloc, table, awaited),
        None => Ok(String::from_str(alloc, "the end of the item")?),
    }
}

fn due_at(alloc: Global, table: &Table, awaited: Awaited) -> Result<String, Memory> {
    match awaited.what {
        What::Tag => Ok(String::from_str(alloc, TAG)?),
        What::TypeNumber => Ok(String::from_str(alloc, TYPE)?),
        What::Segment => Ok(String::from_str(alloc, SEGMENT)?),
        What::Raw if is_interface(table, awaited.id) => Ok(String::from_str(alloc, NAME)?),
        _ => due_in(alloc, table, awaited.id),
    }
}

const TAG: &str = "the byte 0, as before each value that is no struct";

const TYPE: &str = "a type: the id of a defined one, or below 0 the id that is defined here";

const SEGMENT: &str = "how many bytes come up to the next cut of the value, or to its end";

const NAME: &str = "the bytes of the name of what the interface holds";

// A sink that keeps no row.
#[derive(Drop)]
struct Unseen;

impl RowSink for Unseen {
    type Fault = Memory;

    ghost tells = { λ old new rows result. Unit {0} };

    fn put(&mut self, _: Row) -> Result<(), Memory> {
        Ok(())
    }

    fn enter(&mut self, _: PartStep) -> Result<(), Memory> {
        Ok(())
    }

    fn leave(&mut self) {}

    ghost nothing = { λ a. tt };

    ghost joined = { λ a b c x y r p q. tt };
}

// What is due where the reason alone tells it.
fn due_of_reason(reason: Reason) -> Option<&'static str> {
    match reason {
        Reason::Extra => Some("the end of the item, since what it holds is complete"),
        Reason::TooDeep => Some(
            "nothing: parts lie in one another as deep here as the limit allows",
        ),
        Reason::KindCount | Reason::WrongId | Reason::BadReference | Reason::BadLength => {
            Some("the description of one type, with its own number")
        }
        _ => None,
    }
}

fn item_text(alloc: Global, table: &Table, head: Head) -> Result<String, Memory> {
    let id = head.id;
    if head.defines {
        return Ok(format!(in alloc; "the definition of type {id}")?);
    }
    let text = type_text(alloc, table, id)?;
    Ok(format!(in alloc; "a value of {text}")?)
}

fn is_interface(table: &Table, id: TypeId) -> bool {
    match table.shape_of(id) {
        Some(shape) => matches!(shape.kind, Kind::Basic(Basic::Interface)),
        None => false,
    }
}
