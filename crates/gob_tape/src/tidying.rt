//! The tidy form of a tape.
//!
//! The nodes are gone over from the first to the last, and a builder is told of those that stay. What a struct drops is
//! one node, which says itself that it is zero; its type alone tells an empty slice, which is dropped, from an empty
//! array. So the open parts are kept on a stack, with the types of what is in them. Nothing recurses.

ghost use Rattle.std.specs.Prelude.{◌≡◌, ℕ, ◌+◌, ◌<◌, ◌^◌, ◌↔◌, List, Some, None, OnOk, IfOk, IsTrue};
ghost use Rattle.std.specs.Prelude.{length, reverse, slice_get};
ghost use Rattle.gob_types.specs.declared.id.TypeId.{TypeId};
ghost use Rattle.gob_types.specs.declared.kind.Shape.{Shape};
ghost use Rattle.gob_types.specs.Table.{shape_of};
ghost use Rattle.gob_value.specs.Tree.{Tree, depth};
ghost use Rattle.gob_value.specs.Within.{FitsWithin};
ghost use Rattle.gob_value.specs.Tidy.{Tidies};
ghost use Rattle.gob_read.specs.Event.{Event};
ghost use Rattle.gob_tape.specs.declared.node.Node.{Node};
ghost use Rattle.gob_tape.specs.Meaning.{MeansAt, Means, MeansFitting};
ghost use Rattle.gob_tape.specs.Machine.Tidying.{TakesEvents, HasSmallNumber, IsZeroContent, IsDroppedContent};
ghost use Rattle.gob_tape.specs.Machine.Tidying.{HasFieldType, IsNextType, advanced, HasOpenEnd, entered_open, Entered};
ghost use Rattle.gob_tape.specs.Machine.Tidying.{innermost, PartHasEvents};
ghost use Rattle.gob_tape.specs.Machine.Tidying.{Left, IsInsideOpen, TidyGoes, TidyEnded};
ghost use Rattle.gob_tape.specs.Machine.Tidying as tidying;
ghost use Rattle.gob_tape.specs.Machine.View.{state_of};

use crate::node::{Content, Node};
use crate::tape::Tape;
use crate::tape_builder::TapeBuilder;
use gob_num::Memory;
use gob_read::{Builder, GroupKind, RawKind};
use gob_types::{Basic, Kind, Shapes, TypeId};
use std::alloc::Global;

/// The types of the parts that are to come in an open part.
#[derive(Clone, Copy)]
pub(crate) enum Types {
    /// Each is an element of this type.
    Elements(TypeId),
    /// The next has the first type, the one behind it the second, and so on: keys and elements.
    Alternating(TypeId, TypeId),
    /// They are fields of the struct of this type.
    Fields(TypeId),
}

/// A part with parts that is gone over, and of which more is to come.
#[derive(Clone, Copy)]
pub(crate) struct Open {
    /// Where its nodes end.
    end: usize,
    types: Types,
}

/// Whether a part with this content is false, 0 or without bytes.
fn is_zero(content: Content) -> bool
    ensures { IsTrue result ↔ IsZeroContent content }
{
    match content {
        Content::Number(kind, first, second) => match kind {
            Basic::Bytes | Basic::Str | Basic::Interface => false,
            Basic::Bool | Basic::Int | Basic::Uint | Basic::Float | Basic::Complex => {
                first == 0 && second == 0
            }
        },
        Content::Raw(RawKind::Bytes, _, count) => count == 0,
        Content::Raw(RawKind::Str, _, count) => count == 0,
        Content::Raw(RawKind::Opaque, _, _) => false,
        Content::Group(_, _, _) => false,
    }
}

/// Whether a struct drops a part of this kind with this content.
fn is_dropped(kind: &Kind, content: Content) -> bool
    ensures { IsTrue result ↔ IsDroppedContent kind.now content }
{
    match kind {
        Kind::Basic(_) => is_zero(content),
        Kind::Slice { .. } => match content {
            Content::Group(GroupKind::Many, count, _) => count == 0,
            _ => false,
        },
        _ => false,
    }
}

/// The type of a field of the struct of this type.
fn field_type<S: Shapes>(shapes: &S, id: TypeId, number: u64) -> Option<TypeId>
    ensures found { (e : TypeId) → HasFieldType (S.table shapes.now) id number e → result ≡ Some e }
    ensures small { (e : TypeId) → HasFieldType (S.table shapes.now) id number e → number + 1 < 2 ^ 64 }
{
    match &shapes.shape_of(id)?.kind {
        Kind::Struct { fields } => Some(fields.get(number)?.id),
        _ => None,
    }
}

/// The type of the next part, which has this number where it is a field; `id` is the type of the whole value.
fn next_type<S: Shapes>(
    shapes: &S,
    id: TypeId,
    last: Option<Open>,
    field: Option<u64>,
) -> Option<TypeId>
    ensures found { (e : TypeId) → IsNextType (S.table shapes.now) id last field e → result ≡ Some e }
    ensures small { (e : TypeId) (f : ℕ) → IsNextType (S.table shapes.now) id last field e → field ≡ Some f
        → f + 1 < 2 ^ 64 }
{
    match last {
        None => Some(id),
        Some(part) => match part.types {
            Types::Elements(elem) => Some(elem),
            Types::Alternating(next, _) => Some(next),
            Types::Fields(id) => field_type(shapes, id, field?),
        },
    }
}

/// The types of the parts in a part of this type, which has this kind.
fn types_of(kind: &Kind, id: TypeId) -> Option<Types>
    ensures { result ≡ tidying.types_in kind.now id }
{
    match kind {
        Kind::Basic(_) | Kind::Opaque(_) => None,
        Kind::Array { elem, .. } | Kind::Slice { elem } => Some(Types::Elements(*elem)),
        Kind::Map { key, elem } => Some(Types::Alternating(*key, *elem)),
        Kind::Struct { .. } => Some(Types::Fields(id)),
    }
}

/// A part begins in the innermost open one.
fn advance(stack: &mut Vec<Open>)
    ensures { reverse stack.new.items ≡ advanced (reverse stack.old.items) }
{
    if let Some(innermost) = stack.last_mut() {
        if let Types::Alternating(next, behind) = innermost.types {
            innermost.types = Types::Alternating(behind, next);
        }
    }
}

/// Opens the part at this place, which has this kind and type, where it has parts.
fn enter(
    place: usize,
    content: Content,
    kind: &Kind,
    id: TypeId,
    stack: &mut Vec<Open>,
) -> Result<(), Memory>
    ensures { OnOk result (HasOpenEnd place content
        → reverse stack.new.items ≡ entered_open place content kind.now id (reverse stack.old.items)) }
{
    if let Content::Group(_, _, nodes) = content {
        if let Some(types) = types_of(kind, id) {
            let end = place.saturating_add(nodes);
            stack.push(Open { end, types })?;
        }
    }
    Ok(())
}

/// Ends the parts whose nodes end at this place.
fn end_parts(place: usize, stack: &mut Vec<Open>, builder: &mut TapeBuilder)
    ensures { TidyEnded place (reverse stack.old.items) (reverse stack.new.items)
        (state_of builder.old) (state_of builder.new) }
{
    'ends: while let Some(innermost) = stack.last().copied() {
        if innermost.end != place {
            break;
        }
        builder.close();
        stack.pop();
    }
}

/// Tells of the part whose node stands at this place, which has this kind and type, unless a struct drops it.
fn tell_part(
    place: usize,
    node: Node,
    kind: &Kind,
    id: TypeId,
    pool: &[u8],
    stack: &mut Vec<Open>,
    builder: &mut TapeBuilder,
) -> Result<(), Memory>
    ensures { OnOk result (PartHasEvents place node kind.now id pool.now
        (reverse stack.old.items) (reverse stack.new.items) (state_of builder.old) (state_of builder.new)) }
{
    if node.field().is_some() && is_dropped(kind, node.content()) {
        return Ok(());
    }
    builder.name(node.kept_field());
    builder.begin(node.content(), pool)?;
    enter(place, node.content(), kind, id, stack)
}

/// Tells of the part whose node stands at this place, unless it is dropped.
fn tell_node<S: Shapes>(
    shapes: &S,
    id: TypeId,
    place: usize,
    node: Node,
    pool: &[u8],
    stack: &mut Vec<Open>,
    builder: &mut TapeBuilder,
) -> Result<(), Memory>
    ensures { OnOk result ((e : TypeId) (s : Shape)
        → IsNextType (S.table shapes.now) id (innermost (reverse stack.old.items)) node.field e
        → shape_of (S.table shapes.now) e ≡ Some s
        → HasSmallNumber node × PartHasEvents place node s.kind e pool.now (advanced (reverse stack.old.items))
        (reverse stack.new.items) (state_of builder.old) (state_of builder.new)) }
{
    let Some(id) = next_type(shapes, id, stack.last().copied(), node.field()) else {
        return Ok(());
    };
    let Some(shape) = shapes.shape_of(id) else {
        return Ok(());
    };
    advance(stack);
    tell_part(place, node, &shape.kind, id, pool, stack, builder)
}

/// Tells of the part whose node stands at this place, unless it is dropped, and of the ends behind it.
fn tidy_node<S: Shapes>(
    shapes: &S,
    id: TypeId,
    place: usize,
    node: Node,
    pool: &[u8],
    stack: &mut Vec<Open>,
    builder: &mut TapeBuilder,
) -> Result<(), Memory>
    requires { place + 1 < 2 ^ 64 }
    ensures { OnOk result ((nodes : List Node) (due : List Event) → length nodes < 2 ^ 64
        → slice_get nodes place ≡ Some node → IsInsideOpen place (reverse stack.old.items)
        → Left (S.table shapes.now) id nodes pool.now place (reverse stack.old.items) due
        → TidyGoes (S.table shapes.now) id nodes pool.now place (reverse stack.new.items)
        (state_of builder.old) (state_of builder.new) due) }
{
    tell_node(shapes, id, place, node, pool, stack, builder)?;
    end_parts(place + 1, stack, builder);
    Ok(())
}

/// Tells a builder of the tidy form of the value that the nodes mean.
fn tidy_nodes<S: Shapes>(
    alloc: Global,
    shapes: &S,
    id: TypeId,
    nodes: &[Node],
    pool: &[u8],
) -> Result<TapeBuilder, Memory>
    ensures { IfOk result (λ builder. (v w : Tree) → MeansAt nodes.now pool.now 0 (length nodes.now) None v
        → Tidies (S.table shapes.now) id v w → TakesEvents v w (state_of builder)) }
{
    let mut builder = TapeBuilder::fresh(alloc)?;
    let mut stack = Vec::new(alloc);
    'nodes: for place in 0..nodes.len() {
        tidy_node(
            shapes,
            id,
            place,
            nodes[place],
            pool,
            &mut stack,
            &mut builder,
        )?;
    }
    Ok(builder)
}

/// A tape of the tidy form of a value of the type: at every level, each struct without its fields of the types bool,
/// int, uint, float, complex, []byte, string and slice that are 0, false or empty. All else is kept: fields of other
/// types, whatever they hold, and each element of a list or a map. (docs/FORMAT.md, Tidy form.)
///
/// The tape means a value that fits the type, however deep it is, and stays as it is. What the new one means fits the
/// type too, and is no deeper. The nodes are gone over once, and nothing recurses. Beside the new tape it takes memory
/// for the parts that are open at a time.
pub fn tidy_tape<S: Shapes>(
    alloc: Global,
    shapes: &S,
    id: TypeId,
    tape: &Tape,
) -> Result<Tape, Memory>
    requires { MeansFitting (S.table shapes.now) id tape.now }
    ensures tidy { IfOk result (λ tidied. (v w : Tree) → Means tape.now v → Tidies (S.table shapes.now) id v w
        → Means tidied w) }
    ensures fits { IfOk result (λ tidied. (v w : Tree) → Means tape.now v → Means tidied w
        → FitsWithin (S.table shapes.now) id (depth v) w) }
{
    let builder = tidy_nodes(alloc, shapes, id, &tape.nodes, &tape.pool)?;
    Ok(builder.into_tape())
}
