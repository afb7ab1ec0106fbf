//! The spelling of a tape.

ghost use Rattle.std.specs.Prelude.{◌≡◌, ℕ, ◌+◌, ◌-◌, ◌≤◌, ◌<◌, ◌^◌, List, ◌∷◌, ◌++◌};
ghost use Rattle.std.specs.Prelude.{OnOk, OnErr, Some, None, length, reverse, slice_get};
ghost use Rattle.gob_num.specs.Spelled.{Appends};
ghost use Rattle.gob_value.specs.Tree.{Tree};
ghost use Rattle.gob_value.specs.Written.{Written, next_number};
ghost use Rattle.gob_tape.specs.Meaning.{MeansAt};
ghost use Rattle.gob_tape.specs.declared.node.Node.{Node};
ghost use Rattle.gob_tape.specs.Machine.Writing.{IsNumberHead, IsHeadOf, Rest, IsInsideStruct, WritingGoes};
ghost use Rattle.gob_tape.specs.Machine.Writing.{WritingEnded, Named};
ghost use Rattle.gob_tape.specs.Machine.Writing.{HasEnd, entered_struct};
ghost use Rattle.gob_tape.specs.declared.spelling.Struct.{Struct};

use crate::node::{Content, Node};
use crate::raw::raw_bytes;
use gob_num::{Memory, write_pattern, write_uint};
use gob_read::GroupKind;
use gob_types::Basic;
use std::alloc::Global;

/// A struct that is written, and of which more is to come.
#[derive(Clone, Copy)]
pub(crate) struct Struct {
    /// Where its nodes end.
    end: usize,
    /// The number of the field that was written last.
    last: Option<u64>,
}

/// Writes a part without parts.
fn write_number(
    alloc: Global,
    kind: Basic,
    first: u64,
    second: u64,
    out: &mut Vec<u8>,
) -> Result<(), Memory>
    ensures ok { OnOk result (Appends (IsNumberHead kind first second) out.old.items out.new.items) }
    ensures err { OnErr result (Appends (λ _. Unit {0}) out.old.items out.new.items) }
{
    match kind {
        Basic::Float => write_pattern(alloc, first, out),
        Basic::Complex => {
            write_pattern(alloc, first, out)?;
            write_pattern(alloc, second, out)
        }
        Basic::Bool | Basic::Int | Basic::Uint | Basic::Interface | Basic::Bytes | Basic::Str => {
            write_uint(alloc, first, out)
        }
    }
}

/// Writes what a part begins with.
fn write_content(
    alloc: Global,
    content: Content,
    pool: &[u8],
    out: &mut Vec<u8>,
) -> Result<(), Memory>
    ensures ok { OnOk result (Appends (IsHeadOf pool.now content) out.old.items out.new.items) }
    ensures err { OnErr result (Appends (λ _. Unit {0}) out.old.items out.new.items) }
{
    match content {
        Content::Number(kind, first, second) => write_number(alloc, kind, first, second, out),
        Content::Raw(_, start, count) => {
            write_uint(alloc, count as u64, out)?;
            out.extend_from_slice(raw_bytes(pool, start, count))?;
            Ok(())
        }
        Content::Group(GroupKind::Many, count, _) => write_uint(alloc, count as u64, out),
        Content::Group(GroupKind::Pairs, count, _) => write_uint(alloc, count as u64, out),
        Content::Group(GroupKind::Fields, _, _) => Ok(()),
    }
}

/// By how much a field's number is above that of the field before, which counts as -1 before the first field.
fn delta(last: Option<u64>, number: u64) -> u64
    ensures { next_number last ≤ number → number + 1 - next_number last < 2 ^ 64
        → result ≡ number + 1 - next_number last }
{
    match last {
        Some(last) => number.saturating_sub(last),
        None => number.saturating_add(1),
    }
}

/// Writes the number of a field of the innermost struct, where the part has one.
fn write_field(
    alloc: Global,
    field: Option<u64>,
    structs: &mut Vec<Struct>,
    out: &mut Vec<u8>,
) -> Result<(), Memory>
    ensures some { OnOk result ((n : ℕ) (s : Struct) (ss : List Struct) → field ≡ Some n
        → reverse structs.old.items ≡ s ∷ ss → next_number s.last ≤ n → n + 1 - next_number s.last < 2 ^ 64
        → Named n s ss (reverse structs.new.items) out.old.items out.new.items) }
    ensures none { OnOk result (field ≡ None
        → (reverse structs.new.items ≡ reverse structs.old.items) × (out.new.items ≡ out.old.items)) }
    ensures err { OnErr result (Appends (λ _. Unit {0}) out.old.items out.new.items) }
    ensures kept { OnOk result (Appends (λ _. Unit {0}) out.old.items out.new.items) }
{
    if let Some(number) = field {
        if let Some(open) = structs.last_mut() {
            write_uint(alloc, delta(open.last, number), out)?;
            open.last = Some(number);
        }
    }
    Ok(())
}

/// Ends the structs whose nodes end at this place.
fn end_structs(
    alloc: Global,
    place: usize,
    structs: &mut Vec<Struct>,
    out: &mut Vec<u8>,
) -> Result<(), Memory>
    ensures ok { OnOk result (WritingEnded place (reverse structs.old.items) (reverse structs.new.items)
        out.old.items out.new.items) }
    ensures err { OnErr result (Appends (λ _. Unit {0}) out.old.items out.new.items) }
{
    'ends: while let Some(open) = structs.last().copied() {
        if open.end != place {
            break;
        }
        write_uint(alloc, 0, out)?;
        structs.pop();
    }
    Ok(())
}

/// Writes the node at this place, and the ends of the structs that end behind it.
fn write_node(
    alloc: Global,
    place: usize,
    node: Node,
    pool: &[u8],
    structs: &mut Vec<Struct>,
    out: &mut Vec<u8>,
) -> Result<(), Memory>
    requires { place + 1 < 2 ^ 64 }
    ensures ok { OnOk result ((nodes : List Node) (rest : List ℕ) → length nodes < 2 ^ 64
        → slice_get nodes place ≡ Some node → IsInsideStruct place (reverse structs.old.items)
        → Rest nodes pool.now place (reverse structs.old.items) rest
        → WritingGoes nodes pool.now place (reverse structs.new.items) out.old.items out.new.items rest) }
    ensures kept { OnOk result (Appends (λ _. Unit {0}) out.old.items out.new.items) }
    ensures err { OnErr result (Appends (λ _. Unit {0}) out.old.items out.new.items) }
{
    write_field(alloc, node.field(), structs, out)?;
    write_content(alloc, node.content(), pool, out)?;
    enter(place, node.content(), structs)?;
    end_structs(alloc, place + 1, structs, out)
}

/// Opens the struct that begins with the node, if one does.
fn enter(place: usize, content: Content, structs: &mut Vec<Struct>) -> Result<(), Memory>
    ensures { OnOk result (HasEnd place content
        → reverse structs.new.items ≡ entered_struct place content (reverse structs.old.items)) }
{
    if let Content::Group(GroupKind::Fields, _, nodes) = content {
        structs.push(Struct {
            end: place.saturating_add(nodes),
            last: None,
        })?;
    }
    Ok(())
}

/// Writes the nodes, one after another.
pub(crate) fn write_nodes(
    alloc: Global,
    nodes: &[Node],
    pool: &[u8],
    out: &mut Vec<u8>,
) -> Result<(), Memory>
    ensures ok { OnOk result ((v : Tree) (b : List ℕ)
        → MeansAt nodes.now pool.now 0 (length nodes.now) None v → Written v b
        → out.new.items ≡ out.old.items ++ b) }
    ensures err { OnErr result (Appends (λ _. Unit {0}) out.old.items out.new.items) }
{
    let mut structs = Vec::new(alloc);
    'nodes: for place in 0..nodes.len() {
        write_node(alloc, place, nodes[place], pool, &mut structs, out)?;
    }
    Ok(())
}
