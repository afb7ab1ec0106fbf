//! The parts of a value: those without parts, and what lists, maps and structs begin with and end in.

ghost use Rattle.std.specs.Prelude.{◌≡◌, ◌+◌, ◌<◌, ◌≤◌, ◌^◌, ℕ, List, IfErr, IfOk, OnOk, Some, length, slice_get};
ghost use Rattle.gob_num.specs.Spelled.{Appends};
ghost use Rattle.gob_num.specs.Unsigned.{IsUnsigned};
ghost use Rattle.gob_value.specs.Written.{WrittenBytes};
ghost use Rattle.gob_tape.specs.FlatNodes.{number_code};
ghost use Rattle.gob_tape.specs.declared.flat.FlatNode.{FlatNode as Node};
ghost use Rattle.gob_types.specs.declared.kind.Field.{Field as FieldSpec};
ghost use Rattle.gob_nodes.specs.Calls.{HasExtent, IsField, IsGroupNode, PutsIt, PutsSaid};
ghost use Rattle.gob_nodes.specs.Nodes.{HasBytes, IsWrong, bytes_of};
ghost use Rattle.gob_nodes.specs.Says.{LeafBytes, SaysLeaf, SaysLeafAt, SaysOpaqueAt, SpellsComplex, behind};
ghost use Rattle.gob_nodes.specs.declared.value.Places.{Places as Reached};

use crate::fault::NodesFault;
use crate::nodes::{LIST, Nodes, OPAQUE, STRUCT};
use crate::value::Places;
use gob_num::{write_pattern, write_uint};
use gob_tape::FlatNode;
use gob_types::{Basic, Field};
use std::alloc::Global;

/// Puts the value of this basic type that the next node says.
pub(crate) fn put_leaf(
    alloc: Global,
    given: &Nodes<'_>,
    basic: Basic,
    places: &mut Places,
    out: &mut Vec<u8>,
) -> Result<(), NodesFault>
    ensures says { OnOk result (PutsSaid (SaysLeafAt given.now.nodes.now given.now.bytes.now basic)
        places.old places.new out.old.items out.new.items) }
    ensures whole { (b : List ℕ) (to : Reached)
        → SaysLeafAt given.now.nodes.now given.now.bytes.now basic places.old to b
        → PutsIt result places.new to out.old.items out.new.items b }
{
    let at = places.at;
    let node = given.node(at)?;
    put_content(alloc, given, at, node, basic, out)?;
    places.at = at + 1;
    Ok(())
}

/// Puts the value of this basic type that the node says, which stands at the place.
fn put_content(
    alloc: Global,
    given: &Nodes<'_>,
    at: usize,
    node: FlatNode,
    basic: Basic,
    out: &mut Vec<u8>,
) -> Result<(), NodesFault>
    ensures says { OnOk result (Appends (SaysLeaf given.now.bytes.now basic node) out.old.items out.new.items) }
    ensures none { IfErr result (λ f. IsWrong f → (b : List ℕ) → ¬ SaysLeaf given.now.bytes.now basic node b) }
{
    if node.kind != leaf_kind(basic) {
        return Err(NodesFault::Wrong(at));
    }
    put_leaf_bytes(alloc, given, at, node, basic, out)
}

/// Puts the bytes that the node says, one of this basic type.
fn put_leaf_bytes(
    alloc: Global,
    given: &Nodes<'_>,
    at: usize,
    node: FlatNode,
    basic: Basic,
    out: &mut Vec<u8>,
) -> Result<(), NodesFault>
    ensures says { OnOk result (Appends (LeafBytes given.now.bytes.now basic node) out.old.items out.new.items) }
    ensures none { IfErr result (λ f. IsWrong f → (b : List ℕ) → ¬ LeafBytes given.now.bytes.now basic node b) }
{
    match basic {
        Basic::Bool => put_bool(alloc, at, node, out),
        Basic::Int => Ok(write_uint(alloc, node.first, out)?),
        Basic::Uint => Ok(write_uint(alloc, node.first, out)?),
        Basic::Interface => Ok(write_uint(alloc, 0, out)?),
        Basic::Float => Ok(write_pattern(alloc, node.first, out)?),
        Basic::Complex => put_complex(alloc, node, out),
        Basic::Bytes => put_given(alloc, given, at, node, out),
        Basic::Str => put_given(alloc, given, at, node, out),
    }
}

/// Puts the bool that the node says.
fn put_bool(alloc: Global, at: usize, node: FlatNode, out: &mut Vec<u8>) -> Result<(), NodesFault>
    ensures says { OnOk result
        (Appends (λ b. (node.first ≤ 1) × IsUnsigned node.first b) out.old.items out.new.items) }
    ensures none { IfErr result (λ f. IsWrong f → ¬ (node.first ≤ 1)) }
{
    if node.first > 1 {
        return Err(NodesFault::Wrong(at));
    }
    Ok(write_uint(alloc, node.first, out)?)
}

/// Puts the two patterns that the node says.
fn put_complex(alloc: Global, node: FlatNode, out: &mut Vec<u8>) -> Result<(), NodesFault>
    ensures says { OnOk result (Appends (SpellsComplex node.first node.second) out.old.items out.new.items) }
    ensures memory { IfErr result (λ f. ¬ IsWrong f) }
{
    write_pattern(alloc, node.first, out)?;
    Ok(write_pattern(alloc, node.second, out)?)
}

/// Puts the bytes of which the node says where they stand, behind their count.
fn put_given(
    alloc: Global,
    given: &Nodes<'_>,
    at: usize,
    node: FlatNode,
    out: &mut Vec<u8>,
) -> Result<(), NodesFault>
    ensures says { OnOk result (Appends (λ b. HasBytes given.now.bytes.now node
        × WrittenBytes (bytes_of given.now.bytes.now node) b) out.old.items out.new.items) }
    ensures none { IfErr result (λ f. IsWrong f → ¬ HasBytes given.now.bytes.now node) }
{
    put_bytes(alloc, given.bytes_of(at, node)?, out)
}

// The kind of the nodes of a basic type, which is the type's id.
fn leaf_kind(basic: Basic) -> u16
    ensures { result ≡ number_code basic }
{
    match basic {
        Basic::Bool => 1,
        Basic::Int => 2,
        Basic::Uint => 3,
        Basic::Float => 4,
        Basic::Bytes => 5,
        Basic::Str => 6,
        Basic::Complex => 7,
        Basic::Interface => 8,
    }
}

/// Puts the opaque value that the next node says.
pub(crate) fn put_opaque(
    alloc: Global,
    given: &Nodes<'_>,
    places: &mut Places,
    out: &mut Vec<u8>,
) -> Result<(), NodesFault>
    ensures says { OnOk result (PutsSaid (SaysOpaqueAt given.now.nodes.now given.now.bytes.now)
        places.old places.new out.old.items out.new.items) }
    ensures whole { (b : List ℕ) (to : Reached)
        → SaysOpaqueAt given.now.nodes.now given.now.bytes.now places.old to b
        → PutsIt result places.new to out.old.items out.new.items b }
{
    let at = places.at;
    let node = given.node_of(at, OPAQUE)?;
    put_given(alloc, given, at, node, out)?;
    places.at = at + 1;
    Ok(())
}

/// Puts bytes behind their count.
pub(crate) fn put_bytes(alloc: Global, bytes: &[u8], out: &mut Vec<u8>) -> Result<(), NodesFault>
    ensures ok { OnOk result (Appends (WrittenBytes bytes.now) out.old.items out.new.items) }
    ensures memory { IfErr result (λ f. ¬ IsWrong f) }
{
    write_uint(alloc, bytes.len() as u64, out)?;
    out.extend_from_slice(bytes)?;
    Ok(())
}

/// What the node of a list, a map or a struct says.
#[derive(Clone, Copy)]
pub(crate) struct Group {
    /// Its place.
    pub(crate) at: usize,
    /// How many elements, pairs or fields there are.
    pub(crate) count: u64,
    /// How many nodes it has, its own too.
    pub(crate) extent: u64,
}

/// Goes past the next node, which is one of this kind.
pub(crate) fn begin_group(
    given: &Nodes<'_>,
    kind: u16,
    places: &mut Places,
) -> Result<Group, NodesFault>
    ensures begins { IfOk result (λ group. IsGroupNode given.now.nodes.now kind places.old.at group) }
    ensures behind { IfOk result (λ group. places.new ≡ behind places.old) }
    ensures none { IfErr result (λ f. (n : Node) → slice_get given.now.nodes.now places.old.at ≡ Some n
        → n.kind ≡ kind → ⊥) }
{
    let at = places.at;
    let node = given.node_of(at, kind)?;
    places.at = at + 1;
    Ok(Group {
        at,
        count: node.first,
        extent: node.second,
    })
}

/// Whether as many nodes were gone past as it says.
pub(crate) fn end_group(group: Group, places: &Places) -> Result<(), NodesFault>
    ensures ends { OnOk result (places.now.at ≡ group.at + group.extent) }
    ensures none { IfErr result (λ f. places.now.at ≡ group.at + group.extent → ⊥) }
{
    if (group.at as u64).checked_add(group.extent) != Some(places.at as u64) {
        return Err(NodesFault::Wrong(group.at));
    }
    Ok(())
}

/// The place behind the part that begins at the place, without what its interfaces hold, and no place behind the last
/// node.
pub(crate) fn part_end(given: &Nodes<'_>, at: usize) -> Result<usize, NodesFault>
    ensures ends { IfOk result (λ end. (n : Node) (size : ℕ) → slice_get given.now.nodes.now at ≡ Some n
        → HasExtent n size → at + size ≤ length given.now.nodes.now → end ≡ at + size) }
    ensures none { IfErr result (λ f. (n : Node) → slice_get given.now.nodes.now at ≡ Some n → ⊥) }
{
    let node = given.node(at)?;
    match node.kind {
        LIST..=STRUCT => {
            let left = given.nodes.len() - at;
            Ok(at + node.second.min(left as u64) as usize)
        }
        _ => Ok(at + 1),
    }
}

/// Whether the node at the place says so many parts.
pub(crate) fn has_count(given: &Nodes<'_>, at: usize, count: u64) -> Result<(), NodesFault>
    ensures has { OnOk result ((n : Node) → slice_get given.now.nodes.now at ≡ Some n → n.first ≡ count) }
    ensures none { IfErr result (λ f. (n : Node) → slice_get given.now.nodes.now at ≡ Some n → n.first ≡ count → ⊥) }
{
    let node = given.node(at)?;
    if node.first != count {
        return Err(NodesFault::Wrong(at));
    }
    Ok(())
}

/// The field of a struct that a node is of.
#[derive(Clone, Copy)]
pub(crate) struct FieldNode<'f> {
    /// Its number.
    pub(crate) number: u64,
    /// The field.
    pub(crate) field: &'f Field,
}

/// The field of the struct that the next node is of, whose number is no lower than `next`.
pub(crate) fn field_from<'f>(
    given: &Nodes<'_>,
    fields: &'f [Field],
    next: u64,
    places: &Places,
) -> Result<FieldNode<'f>, NodesFault>
    ensures is { IfOk result (λ found. IsField given.now.nodes.now fields.now next places.now.at
        found.number found.field.now) }
    ensures small { IfOk result (λ found. found.number < 2 ^ 32) }
    ensures none { IfErr result (λ f. (number : ℕ) (field : FieldSpec)
        → IsField given.now.nodes.now fields.now next places.now.at number field → ⊥) }
{
    let at = places.at;
    let node = given.node(at)?;
    let number = u64::from(node.number);
    if node.named != 1 || number < next {
        return Err(NodesFault::Wrong(at));
    }
    match fields.get(node.number as usize) {
        Some(field) => Ok(FieldNode { number, field }),
        None => Err(NodesFault::Wrong(at)),
    }
}
