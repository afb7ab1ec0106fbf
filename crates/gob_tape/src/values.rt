//! The value of a tape.
//!
//! The nodes are gone over from the last to the first. So the parts of a part are whole values when its own node comes,
//! and they are the last ones on a stack, the first of them last. Nothing recurses.

ghost use Rattle.std.specs.Prelude.{◌≡◌, ℕ, List, ◌∷◌, Option, IfOk, length};
ghost use Rattle.gob_value.specs.Tree.{Tree};
ghost use Rattle.gob_value.specs.View.{view};
ghost use Rattle.gob_read.specs.Leaf.{number_tree, raw_tree};
ghost use Rattle.gob_tape.specs.Seeing.{AreParts};
ghost use Rattle.gob_tape.specs.declared.node.Content.TheVariants.{Group};
ghost use Rattle.gob_tape.specs.Machine.Values.{parts_on, TakesPart, TakesElements, TakesPairs, TakesFields};
ghost use Rattle.gob_tape.specs.Machine.Values.{TakesValue};

use crate::node::{Content, Node};
use crate::raw::raw_bytes;
use gob_num::{Memory, to_signed};
use gob_read::{GroupKind, RawKind};
use gob_types::Basic;
use gob_value::Value;
use std::alloc::Global;

/// The value of a part that is told by its numbers.
fn number_value(kind: Basic, first: u64, second: u64) -> Value
    ensures { view result ≡ number_tree kind first second }
{
    match kind {
        Basic::Bool => Value::Bool(first == 1),
        Basic::Int => Value::Int(to_signed(first)),
        Basic::Uint => Value::Uint(first),
        Basic::Float => Value::Float(first),
        Basic::Complex => Value::Complex(first, second),
        Basic::Bytes | Basic::Str | Basic::Interface => Value::Nil,
    }
}

/// The value of a part of these raw bytes.
fn raw_value(alloc: Global, kind: RawKind, bytes: &[u8]) -> Result<Value, Memory>
    ensures { IfOk result (λ value. view value ≡ raw_tree kind bytes.now) }
{
    let bytes = Vec::from_slice(alloc, bytes)?;
    Ok(match kind {
        RawKind::Bytes => Value::Bytes(bytes),
        RawKind::Str => Value::Str(bytes),
        RawKind::Opaque => Value::Opaque(bytes),
    })
}

/// Takes the first part, with its number in a struct.
pub(crate) fn take_part(parts: &mut Vec<(Option<u64>, Value)>) -> (Option<u64>, Value)
    ensures { (f : Option ℕ) (v : Tree) (rest : List (Option ℕ × Tree)) → parts_on parts.old.items ≡ (f, v) ∷ rest
        → TakesPart f v rest result (parts_on parts.new.items) }
{
    parts.pop().unwrap_or((None, Value::Nil))
}

/// Takes so many elements.
fn take_elements(
    alloc: Global,
    count: usize,
    parts: &mut Vec<(Option<u64>, Value)>,
) -> Result<Vec<Value>, Memory>
    ensures { IfOk result (λ values.
        TakesElements count values.items (parts_on parts.old.items) (parts_on parts.new.items)) }
{
    let mut values = Vec::new(alloc);
    'elements: for _ in 0..count {
        let (_, value) = take_part(parts);
        values.push(value)?;
    }
    Ok(values)
}

/// Takes so many keys, each with its element.
fn take_pairs(
    alloc: Global,
    count: usize,
    parts: &mut Vec<(Option<u64>, Value)>,
) -> Result<Vec<(Value, Value)>, Memory>
    ensures { IfOk result (λ values.
        TakesPairs count values.items (parts_on parts.old.items) (parts_on parts.new.items)) }
{
    let mut values = Vec::new(alloc);
    'pairs: for _ in 0..count {
        let (_, key) = take_part(parts);
        let (_, value) = take_part(parts);
        values.push((key, value))?;
    }
    Ok(values)
}

/// Takes so many fields.
fn take_fields(
    alloc: Global,
    count: usize,
    parts: &mut Vec<(Option<u64>, Value)>,
) -> Result<Vec<(u64, Value)>, Memory>
    ensures { IfOk result (λ values.
        TakesFields count values.items (parts_on parts.old.items) (parts_on parts.new.items)) }
{
    let mut values = Vec::new(alloc);
    'fields: for _ in 0..count {
        let (number, value) = take_part(parts);
        values.push((number.unwrap_or(0), value))?;
    }
    Ok(values)
}

/// Takes the parts of a part that has so many, and gives its value.
fn take_group(
    alloc: Global,
    kind: GroupKind,
    count: usize,
    parts: &mut Vec<(Option<u64>, Value)>,
) -> Result<Value, Memory>
    ensures { IfOk result (λ value. (pool : List ℕ) (extent : ℕ)
        → TakesValue pool (Group kind count extent) (view value)
        (parts_on parts.old.items) (parts_on parts.new.items)) }
{
    match kind {
        GroupKind::Many => Ok(Value::Many(take_elements(alloc, count, parts)?)),
        GroupKind::Pairs => Ok(Value::Pairs(take_pairs(alloc, count, parts)?)),
        GroupKind::Fields => Ok(Value::Fields(take_fields(alloc, count, parts)?)),
    }
}

/// Takes the parts of the part whose node has this content, and gives its value.
fn take_value(
    alloc: Global,
    content: Content,
    pool: &[u8],
    parts: &mut Vec<(Option<u64>, Value)>,
) -> Result<Value, Memory>
    ensures { IfOk result (λ value. TakesValue pool.now content (view value)
        (parts_on parts.old.items) (parts_on parts.new.items)) }
{
    match content {
        Content::Number(kind, first, second) => Ok(number_value(kind, first, second)),
        Content::Raw(kind, start, count) => raw_value(alloc, kind, raw_bytes(pool, start, count)),
        Content::Group(kind, count, _) => take_group(alloc, kind, count, parts),
    }
}

/// The values of the parts that the nodes are, one behind another; the first one is last.
pub(crate) fn values_of(
    alloc: Global,
    nodes: &[Node],
    pool: &[u8],
) -> Result<Vec<(Option<u64>, Value)>, Memory>
    ensures { IfOk result (λ parts. (xs : List (Option ℕ × Tree))
        → AreParts nodes.now pool.now 0 (length nodes.now) xs → parts_on parts.items ≡ xs) }
{
    let mut parts = Vec::new(alloc);
    'nodes: for done in 0..nodes.len() {
        let node = nodes[nodes.len() - 1 - done];
        let value = take_value(alloc, node.content(), pool, &mut parts)?;
        parts.push((node.field(), value))?;
    }
    Ok(parts)
}
