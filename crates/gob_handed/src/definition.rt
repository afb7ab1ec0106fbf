//! Definitions as nodes.

ghost use Rattle.std.specs.Prelude.{◌≡◌, ◌≤◌, ◌+◌, ◌-◌, ◌∷◌, ◌^◌, [], IfSome, IsSome, length, take, min};
ghost use Rattle.std.specs.Option.{option_copied};
ghost use Rattle.gob_handed.specs.Puts.{PutsNodes, PutsBytes};
ghost use Rattle.gob_handed.specs.Definition.{name_node, type_node, elem_node, id_number, field_nodes, field_names};
ghost use Rattle.gob_handed.specs.Definition.{kind_code, kind_number};
ghost use Rattle.gob_handed.specs.Definition.{named_nodes, named_bytes, shape_nodes, shape_bytes};

use crate::kinds::{ARRAY, LIST, MAP, OPAQUE, REFERENCE, STRUCT};
use crate::room::RoomTaken;
use gob_tape::FlatNode;
use gob_types::{Field, Kind, Marshal, Shape, TypeId};

/// The place behind the definition of a type that is put here: a node of its kind and name, and one for each type that
/// it names, in order: of an array or a slice the elements', of a map the keys' and the elements', of a struct each
/// field's, with its name. None where there is no room for all of it; what stands before is kept.
#[tactic(auto, using(crate::proofs::PutsLaws::putting))]
pub(crate) fn put_shape(
    shape: Option<&Shape>,
    from: RoomTaken,
    nodes: &mut [FlatNode],
    pool: &mut [u8],
) -> Option<RoomTaken>
    ensures nodes { IfSome result (λ to. PutsNodes from to nodes.old nodes.new
        (shape_nodes (option_copied shape.entry))) }
    ensures bytes { IfSome result (λ to. PutsBytes from to pool.old pool.new
        (shape_bytes (option_copied shape.entry))) }
    ensures room { from.nodes + length (shape_nodes (option_copied shape.entry)) ≤ length nodes.old
        → from.bytes + length (shape_bytes (option_copied shape.entry)) ≤ length pool.old → IsSome result }
    ensures kept_nodes { take from.nodes nodes.new ≡ take from.nodes nodes.old }
    ensures kept_bytes { take from.bytes pool.new ≡ take from.bytes pool.old }
    ensures same_nodes { length nodes.new ≡ length nodes.old }
    ensures same_bytes { length pool.new ≡ length pool.old }
{
    let Some(shape) = shape else {
        return put_name(REFERENCE, 0, &[], from.bytes, from, nodes, pool);
    };
    let (kind, number) = head_of(&shape.kind);
    let at = put_name(
        kind,
        number,
        shape.name.as_bytes(),
        from.bytes,
        from,
        nodes,
        pool,
    )?;
    put_named(&shape.kind, from.bytes, at, nodes, pool)
}

// The place behind a node for each type that a shape names. The item's bytes begin at `base`.
#[tactic(auto, using(crate::proofs::PutsLaws::putting))]
fn put_named(
    kind: &Kind,
    base: usize,
    at: RoomTaken,
    nodes: &mut [FlatNode],
    pool: &mut [u8],
) -> Option<RoomTaken>
    requires nodes { at.nodes ≤ length nodes.old }
    requires bytes { at.bytes ≤ length pool.old }
    requires base { base ≤ at.bytes }
    ensures nodes { IfSome result (λ to. PutsNodes at to nodes.old nodes.new
        (named_nodes (at.bytes - base) kind.now)) }
    ensures bytes { IfSome result (λ to. PutsBytes at to pool.old pool.new (named_bytes kind.now)) }
    ensures room { at.nodes + length (named_nodes (at.bytes - base) kind.now) ≤ length nodes.old
        → at.bytes + length (named_bytes kind.now) ≤ length pool.old → IsSome result }
    ensures kept_nodes { take at.nodes nodes.new ≡ take at.nodes nodes.old }
    ensures kept_bytes { take at.bytes pool.new ≡ take at.bytes pool.old }
    ensures same_nodes { length nodes.new ≡ length nodes.old }
    ensures same_bytes { length pool.new ≡ length pool.old }
{
    match kind {
        Kind::Array { elem, len } => put_elem(*elem, *len, at, nodes),
        Kind::Slice { elem } => put_type(*elem, at, nodes),
        Kind::Map { key, elem } => put_types(*key, *elem, at, nodes),
        Kind::Struct { fields } => put_fields(fields.as_slice(), base, at, nodes, pool),
        Kind::Basic(_) => Some(at),
        Kind::Opaque(_) => Some(at),
    }
}

// The code of a kind, and by which method a type encodes itself.
fn head_of(kind: &Kind) -> (u16, u32)
    ensures { (result.0 ≡ kind_code kind.now) × (result.1 ≡ kind_number kind.now) }
{
    match kind {
        Kind::Basic(_) => (REFERENCE, 0),
        Kind::Array { .. } => (ARRAY, 0),
        Kind::Slice { .. } => (LIST, 0),
        Kind::Map { .. } => (MAP, 0),
        Kind::Struct { .. } => (STRUCT, 0),
        Kind::Opaque(Marshal::Gob) => (OPAQUE, 1),
        Kind::Opaque(Marshal::Binary) => (OPAQUE, 2),
        Kind::Opaque(Marshal::Text) => (OPAQUE, 3),
    }
}

// The place behind a node with a name. The item's bytes begin at `base`.
fn put_name(
    kind: u16,
    number: u32,
    name: &[u8],
    base: usize,
    at: RoomTaken,
    nodes: &mut [FlatNode],
    pool: &mut [u8],
) -> Option<RoomTaken>
    ensures nodes { IfSome result (λ to. PutsNodes at to nodes.old nodes.new
        (name_node kind number (at.bytes - base) name.now ∷ [])) }
    ensures bytes { IfSome result (λ to. PutsBytes at to pool.old pool.new name.now) }
    ensures room { at.nodes + 1 ≤ length nodes.old → at.bytes + length name.now ≤ length pool.old → IsSome result }
    ensures kept_nodes { take at.nodes nodes.new ≡ take at.nodes nodes.old }
    ensures kept_bytes { take at.bytes pool.new ≡ take at.bytes pool.old }
    ensures same_nodes { length nodes.new ≡ length nodes.old }
    ensures same_bytes { length pool.new ≡ length pool.old }
{
    let first = at.bytes.saturating_sub(base) as u64;
    let behind = at.bytes(pool, name)?;
    let node = FlatNode {
        first,
        second: name.len() as u64,
        number,
        kind,
        named: 0,
    };
    behind.node(nodes, node)
}

// The place behind a node that names a type.
fn put_type(id: TypeId, at: RoomTaken, nodes: &mut [FlatNode]) -> Option<RoomTaken>
    ensures nodes { IfSome result (λ to. PutsNodes at to nodes.old nodes.new (type_node id ∷ [])) }
    ensures bytes { IfSome result (λ to. to.bytes ≡ at.bytes) }
    ensures room { at.nodes + 1 ≤ length nodes.old → IsSome result }
    ensures kept_nodes { take at.nodes nodes.new ≡ take at.nodes nodes.old }
    ensures same_nodes { length nodes.new ≡ length nodes.old }
{
    put_elem(id, 0, at, nodes)
}

// The place behind a node that names the type of the elements of an array that has so many.
fn put_elem(id: TypeId, count: u64, at: RoomTaken, nodes: &mut [FlatNode]) -> Option<RoomTaken>
    ensures nodes { IfSome result (λ to. PutsNodes at to nodes.old nodes.new (elem_node id count ∷ [])) }
    ensures bytes { IfSome result (λ to. to.bytes ≡ at.bytes) }
    ensures room { at.nodes + 1 ≤ length nodes.old → IsSome result }
    ensures kept_nodes { take at.nodes nodes.new ≡ take at.nodes nodes.old }
    ensures same_nodes { length nodes.new ≡ length nodes.old }
{
    let node = FlatNode {
        first: count,
        second: 0,
        number: id_number(id),
        kind: REFERENCE,
        named: 0,
    };
    at.node(nodes, node)
}

// The number of a type, as a node has it.
fn id_number(id: TypeId) -> u32
    ensures { result ≡ id_number id }
{
    id.0.min(u32::MAX as u64) as u32
}

// The place behind the nodes of a map's types.
#[tactic(auto, using(crate::proofs::PutsLaws::putting))]
fn put_types(key: TypeId, elem: TypeId, at: RoomTaken, nodes: &mut [FlatNode]) -> Option<RoomTaken>
    ensures nodes { IfSome result (λ to. PutsNodes at to nodes.old nodes.new
        (type_node key ∷ (type_node elem ∷ []))) }
    ensures bytes { IfSome result (λ to. to.bytes ≡ at.bytes) }
    ensures room { at.nodes + 2 ≤ length nodes.old → IsSome result }
    ensures kept_nodes { take at.nodes nodes.new ≡ take at.nodes nodes.old }
    ensures same_nodes { length nodes.new ≡ length nodes.old }
{
    let behind = put_type(key, at, nodes)?;
    put_type(elem, behind, nodes)
}

// The place behind a node for each field. The item's bytes begin at `base`.
#[tactic(auto, using(crate::proofs::PutsLaws::putting))]
fn put_fields(
    fields: &[Field],
    base: usize,
    from: RoomTaken,
    nodes: &mut [FlatNode],
    pool: &mut [u8],
) -> Option<RoomTaken>
    requires nodes { from.nodes ≤ length nodes.old }
    requires bytes { from.bytes ≤ length pool.old }
    requires base { base ≤ from.bytes }
    ensures nodes { IfSome result (λ to. PutsNodes from to nodes.old nodes.new
        (field_nodes (from.bytes - base) fields.now)) }
    ensures bytes { IfSome result (λ to. PutsBytes from to pool.old pool.new (field_names fields.now)) }
    ensures room { from.nodes + length fields.now ≤ length nodes.old
        → from.bytes + length (field_names fields.now) ≤ length pool.old → IsSome result }
    ensures kept_nodes { take from.nodes nodes.new ≡ take from.nodes nodes.old }
    ensures kept_bytes { take from.bytes pool.new ≡ take from.bytes pool.old }
    ensures same_nodes { length nodes.new ≡ length nodes.old }
    ensures same_bytes { length pool.new ≡ length pool.old }
{
    let mut at = from;
    'fields: for place in 0..fields.len() {
        let field = &fields[place];
        at = put_name(
            REFERENCE,
            id_number(field.id),
            field.name.as_bytes(),
            base,
            at,
            nodes,
            pool,
        )?;
    }
    Some(at)
}

/// How many nodes and bytes the definition of a type has; of the bytes as many as a `usize` can say.
#[tactic(auto, using(crate::proofs::PutsLaws::field_nodes_long))]
pub(crate) fn room_of_shape(shape: Option<&Shape>) -> RoomTaken
    ensures nodes { result.nodes ≡ length (shape_nodes (option_copied shape.entry)) }
    ensures bytes { result.bytes ≡ min (length (shape_bytes (option_copied shape.entry))) (2 ^ 64 - 1) }
{
    let Some(shape) = shape else {
        return RoomTaken { nodes: 1, bytes: 0 };
    };
    let name = shape.name.as_bytes().len();
    match &shape.kind {
        Kind::Array { .. } => RoomTaken {
            nodes: 2,
            bytes: name,
        },
        Kind::Slice { .. } => RoomTaken {
            nodes: 2,
            bytes: name,
        },
        Kind::Map { .. } => RoomTaken {
            nodes: 3,
            bytes: name,
        },
        Kind::Struct { fields } => RoomTaken {
            nodes: fields.as_slice().len().saturating_add(1),
            bytes: name.saturating_add(names_length(fields.as_slice())),
        },
        Kind::Basic(_) => RoomTaken {
            nodes: 1,
            bytes: name,
        },
        Kind::Opaque(_) => RoomTaken {
            nodes: 1,
            bytes: name,
        },
    }
}

// How many bytes the names have, as many as a `usize` can say.
fn names_length(fields: &[Field]) -> usize
    ensures { result ≡ min (length (field_names fields.now)) (2 ^ 64 - 1) }
{
    let mut bytes = 0usize;
    'fields: for place in 0..fields.len() {
        let field = &fields[place];
        bytes = bytes.saturating_add(field.name.as_bytes().len());
    }
    bytes
}
