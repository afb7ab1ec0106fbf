//! The shape that the nodes of a definition say.

ghost use Rattle.std.specs.Prelude.{◌≡◌, List, IfErr, IfOk};
ghost use Rattle.gob_types.specs.declared.id.TypeId.{TypeId as Id};
ghost use Rattle.gob_types.specs.declared.kind.Field.{Field as FieldSpec};
ghost use Rattle.gob_types.specs.declared.kind.Kind.{Kind as KindSpec};
ghost use Rattle.gob_types.specs.declared.kind.Marshal.{Marshal as MarshalSpec};
ghost use Rattle.gob_types.specs.declared.kind.Shape.{Shape as ShapeSpec};
ghost use Rattle.gob_types.specs.Definable.{IsDefinable};
ghost use Rattle.gob_nodes.specs.Calls.{ReadsIt};
ghost use Rattle.gob_nodes.specs.Nodes.{HasBytes, IsWrong, bytes_of};
ghost use Rattle.gob_nodes.specs.Shapes.{IsMethod, NamesFields, NamesKind, NamesType, SaysShape};

use crate::fault::NodesFault;
use crate::nodes::{ARRAY, LIST, MAP, Nodes, OPAQUE, STRUCT, TYPE};
use gob_num::Memory;
use gob_tape::FlatNode;
use gob_types::{Field, Fields, Kind, Marshal, Name, Shape, TypeId};
use std::alloc::Global;

/// The shape of a definition that the nodes say: one that a description can give.
pub fn shape_of_nodes(alloc: Global, given: Nodes<'_>) -> Result<Shape, NodesFault>
    ensures says { IfOk result (λ s. SaysShape given.entry.bytes.now given.entry.nodes.now s) }
    ensures definable { IfOk result IsDefinable }
    ensures whole { (s : ShapeSpec) → SaysShape given.entry.bytes.now given.entry.nodes.now s → IsDefinable s
        → ReadsIt (λ x. x) result s }
{
    let Some((first, behind)) = given.nodes.split_first() else {
        return Err(NodesFault::Wrong(0));
    };
    let kind = kind_of(alloc, &given, *first, behind)?;
    let name = name_of(alloc, &given, 0, *first)?;
    let shape = Shape { name, kind };
    if !shape.definable() {
        return Err(NodesFault::Wrong(0));
    }
    Ok(shape)
}

// The name of which the node at the place says where it stands.
fn name_of(alloc: Global, given: &Nodes<'_>, at: usize, node: FlatNode) -> Result<Name, NodesFault>
    ensures has { IfOk result (λ name. HasBytes given.now.bytes.now node) }
    ensures are { IfOk result (λ name. name ≡ bytes_of given.now.bytes.now node) }
    ensures none { IfErr result (λ f. IsWrong f → ¬ HasBytes given.now.bytes.now node) }
{
    let bytes = given.bytes_of(at, node)?;
    Ok(Name::new(Vec::from_slice(alloc, bytes).map_err(Memory::from)?))
}

// The kind that the first node and those behind it say.
fn kind_of(
    alloc: Global,
    given: &Nodes<'_>,
    first: FlatNode,
    behind: &[FlatNode],
) -> Result<Kind, NodesFault>
    ensures says { IfOk result (λ k. NamesKind given.now.bytes.now first behind.now k) }
    ensures whole { (k : KindSpec) → NamesKind given.now.bytes.now first behind.now k → ReadsIt (λ x. x) result k }
{
    match (first.kind, behind) {
        (ARRAY, [elem]) => Ok(Kind::Array {
            elem: type_of(1, *elem)?,
            len: elem.first,
        }),
        (LIST, [elem]) => Ok(Kind::Slice {
            elem: type_of(1, *elem)?,
        }),
        (MAP, [key, elem]) => Ok(Kind::Map {
            key: type_of(1, *key)?,
            elem: type_of(2, *elem)?,
        }),
        (STRUCT, fields) => Ok(Kind::Struct {
            fields: Fields::new(fields_of(alloc, given, fields)?),
        }),
        (OPAQUE, []) => Ok(Kind::Opaque(marshal_of(first)?)),
        _ => Err(NodesFault::Wrong(0)),
    }
}

// The type that the node at the place names.
fn type_of(at: usize, node: FlatNode) -> Result<TypeId, NodesFault>
    ensures says { IfOk result (λ id. NamesType node id) }
    ensures none { IfErr result (λ f. (id : Id) → ¬ NamesType node id) }
{
    if node.kind != TYPE {
        return Err(NodesFault::Wrong(at));
    }
    Ok(TypeId(u64::from(node.number)))
}

// The method by which an opaque type encodes itself.
fn marshal_of(node: FlatNode) -> Result<Marshal, NodesFault>
    ensures says { IfOk result (λ m. IsMethod node.number m) }
    ensures whole { (m : MarshalSpec) → IsMethod node.number m → ReadsIt (λ x. x) result m }
{
    match node.number {
        1 => Ok(Marshal::Gob),
        2 => Ok(Marshal::Binary),
        3 => Ok(Marshal::Text),
        _ => Err(NodesFault::Wrong(0)),
    }
}

// The fields of a struct, each of which a node names.
fn fields_of(alloc: Global, given: &Nodes<'_>, nodes: &[FlatNode]) -> Result<Vec<Field>, NodesFault>
    ensures says { IfOk result (λ fields. NamesFields given.now.bytes.now nodes.now fields.items) }
    ensures whole { (fields : List FieldSpec) → NamesFields given.now.bytes.now nodes.now fields
        → ReadsIt (λ read. read.items) result fields }
{
    let mut fields = Vec::new(alloc);
    'fields: for place in 0..nodes.len() {
        let node = nodes[place];
        // (the first node stands in front of these)
        let id = type_of(place + 1, node)?;
        let name = name_of(alloc, given, place + 1, node)?;
        fields.push(Field { name, id }).map_err(Memory::from)?;
    }
    Ok(fields)
}
