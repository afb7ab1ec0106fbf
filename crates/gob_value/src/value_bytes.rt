//! The bytes of a value that is known to fit its type. They follow from the value alone, so no type is looked
//! up. Recursion is as deep as the value, at most 1000.

ghost use Rattle.std.specs.Prelude.{◌≡◌, ◌+◌, ◌-◌, ◌^◌, ◌<◌, ◌≤◌, OnOk, OnErr};
ghost use Rattle.gob_num.specs.Spelled.{Appends};
ghost use Rattle.gob_value.specs.View.{view, views, pair_views, field_views};
ghost use Rattle.gob_value.specs.Written.{Written, WrittenEach, WrittenPairs, WrittenFields, next_number};
ghost use Rattle.gob_value.specs.Tree.{depth, trees_depth, pairs_depth, fields_depth};
ghost use Rattle.gob_value.specs.Within.{IsSpelledWithin};

use crate::leaf::write_leaf;
use crate::value::Value;
use gob_num::{Memory, write_uint};
use std::alloc::Global;

/// Appends the bytes of the value. After `Memory` the vector may have grown.
#[cycle(write)]
pub(crate) fn write_value(alloc: Global, value: &Value, out: &mut Vec<u8>) -> Result<(), Memory>
    requires { IsSpelledWithin Written depth 1000 (view value.now) }
    ensures ok { OnOk result (Appends (Written (view value.now)) out.old.items out.new.items) }
    ensures err { OnErr result (Appends (λ _. Unit {0}) out.old.items out.new.items) }
{
    match value {
        Value::Many(parts) => {
            write_uint(alloc, parts.len() as u64, out)?;
            write_each(alloc, parts, out)
        }
        Value::Pairs(parts) => {
            write_uint(alloc, parts.len() as u64, out)?;
            write_pairs(alloc, parts, out)
        }
        Value::Fields(parts) => write_fields(alloc, parts, out),
        _ => write_leaf(alloc, value, out),
    }
}

#[cycle(write)]
fn write_each(alloc: Global, parts: &[Value], out: &mut Vec<u8>) -> Result<(), Memory>
    requires { IsSpelledWithin WrittenEach trees_depth 1000 (views parts.now) }
    ensures ok { OnOk result (Appends (WrittenEach (views parts.now)) out.old.items out.new.items) }
    ensures err { OnErr result (Appends (λ _. Unit {0}) out.old.items out.new.items) }
{
    for part in parts {
        write_value(alloc, part, out)?;
    }
    Ok(())
}

#[cycle(write)]
fn write_pairs(alloc: Global, parts: &[(Value, Value)], out: &mut Vec<u8>) -> Result<(), Memory>
    requires { IsSpelledWithin WrittenPairs pairs_depth 1000 (pair_views parts.now) }
    ensures ok { OnOk result (Appends (WrittenPairs (pair_views parts.now)) out.old.items out.new.items) }
    ensures err { OnErr result (Appends (λ _. Unit {0}) out.old.items out.new.items) }
{
    for (key, elem) in parts {
        write_value(alloc, key, out)?;
        write_value(alloc, elem, out)?;
    }
    Ok(())
}

#[cycle(write)]
fn write_fields(alloc: Global, parts: &[(u64, Value)], out: &mut Vec<u8>) -> Result<(), Memory>
    requires { IsSpelledWithin (WrittenFields 0) fields_depth 1000 (field_views parts.now) }
    ensures ok { OnOk result (Appends (WrittenFields 0 (field_views parts.now)) out.old.items out.new.items) }
    ensures err { OnErr result (Appends (λ _. Unit {0}) out.old.items out.new.items) }
{
    let mut last = None;
    for (number, part) in parts {
        write_uint(alloc, delta(last, *number), out)?;
        write_value(alloc, part, out)?;
        last = Some(*number);
    }
    write_uint(alloc, 0, out)
}

// By how much a field's number is above that of the field before, which counts as -1 before the first field.
fn delta(last: Option<u64>, number: u64) -> u64
    requires rises { next_number last ≤ number }
    requires small { number + 1 - next_number last < 2 ^ 64 }
    ensures { result ≡ number + 1 - next_number last }
{
    match last {
        Some(last) => number - last,
        None => number + 1,
    }
}
