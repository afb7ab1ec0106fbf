//! The items of what Go's encoder writes, as they are handed out.

ghost use Rattle.std.specs.Prelude.{◌≡◌, IfOk, OnOk};
ghost use Rattle.gob_types.specs.Defined.{types};
ghost use Rattle.gob_stream.specs.Reading.{Given};
ghost use Rattle.gob_filled.specs.Filled as spelled;
ghost use Rattle.gob_filled.specs.Stream.{FilledItem, putting};
ghost use Rattle.gob_go.specs.Meaning.{IsFilled, ItemMeans};
ghost use Rattle.gob_handed.specs.Handed.{content_bytes, content_kind, content_nodes};
ghost use Rattle.gob_handed.specs.Machine.Putting.{Extends};
ghost use Rattle.gob_handed.specs.Unfolded.{AreGoHandouts};
ghost use Rattle.gob_handed.specs.ValueNodes.{AreNodesOf};

use crate::flat::{FlatValue, push_value};
use crate::flat_visitor::flat_value;
use crate::handout::{Content, Handout, Span, push_definitions, push_handout};
use crate::hands::{Hands, WholeValue};
use gob_go::{Filled, GoItem, GoSession, push_inner_ids};
use gob_json_writer::tape_of;
use gob_num::Memory;
use gob_stream::Steps;
use gob_types::{Table, TypeId};
use std::alloc::Global;

// The walk over a value that stands whole recurses as deep as this at the most, so that a call takes little of the
// machine's stack. A deeper value is read part by part.
const DEEPEST_WALK: u64 = 32;

impl Hands for GoSession {
    ghost use Rattle.gob_handed.specs.Unfolded.{go_handouts};

    ghost handouts = { go_handouts };

    fn unfold(
        alloc: Global,
        table: &Table,
        item: GoItem,
        span: Span,
        out: &mut Vec<Handout>,
    ) -> Result<(), Memory> {
        let before = out.len();
        match push_item(alloc, table, &item, span, out) {
            Ok(()) => Ok(()),
            Err(memory) => {
                out.truncate(before);
                Err(memory)
            }
        }
    }

    fn whole(&self, alloc: Global, piece: &[u8]) -> Option<WholeValue> {
        let whole = self.whole_value(piece)?;
        let depth = self.limits().depth().min(DEEPEST_WALK);
        let value = flat_value(alloc, self.table(), whole.id, whole.body, depth)?;
        Some(WholeValue {
            id: whole.id,
            used: whole.used,
            content: Content::Filled(value),
        })
    }
}

/// Appends what is handed out of an item. Without memory some of it may be.
fn push_item(
    alloc: Global,
    table: &Table,
    item: &GoItem,
    span: Span,
    out: &mut Vec<Handout>,
) -> Result<(), Memory>
    ensures unfolded { OnOk result (Given out.old.items out.new.items (λ given. (i : FilledItem)
        → ItemMeans (types table.now) item.now i → AreGoHandouts (types table.now) i span given)) }
    ensures extends { Extends out.old.items out.new.items }
{
    match item {
        GoItem::Define { id, .. } => push_handout(*id, span, Content::Definition, out),
        GoItem::Put { id, value } => push_put(alloc, table, *id, value, span, out),
    }
}

/// Appends what is handed out of a value of the type: the definitions in it, and the value. Without memory some of it
/// may be.
fn push_put(
    alloc: Global,
    table: &Table,
    id: TypeId,
    value: &Filled,
    span: Span,
    out: &mut Vec<Handout>,
) -> Result<(), Memory>
    ensures unfolded { OnOk result (Given out.old.items out.new.items (λ given. (w : spelled.Filled)
        → IsFilled (types table.now) id value.now w → AreGoHandouts (types table.now) (putting id w) span given)) }
    ensures extends { Extends out.old.items out.new.items }
{
    let content = content_of(alloc, table, id, value)?;
    let mut ids = Vec::new(alloc);
    push_inner_ids(value, &mut ids)?;
    push_definitions(&ids, span, out)?;
    push_handout(id, span, content, out)
}

/// A value of the type, as it is handed out. `Memory` also where it is none of the type.
fn content_of(alloc: Global, table: &Table, id: TypeId, value: &Filled) -> Result<Content, Memory>
    ensures value { IfOk result (λ given. content_kind given ≡ 2) }
    ensures nodes { IfOk result (λ given. (w : spelled.Filled) → IsFilled (types table.now) id value.now w
        → AreNodesOf (types table.now) id w (content_nodes (types table.now) id given)
        (content_bytes (types table.now) id given)) }
{
    if !table.kept(id) {
        return Err(Memory);
    }
    if value.fillings.is_empty() {
        return Ok(Content::Tape(tape_of(alloc, table, id, &value.skeleton)?));
    }
    let mut flat = FlatValue::new(alloc);
    push_value(alloc, table, id, value, &mut flat)?;
    Ok(Content::Filled(flat))
}
