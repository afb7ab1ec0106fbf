//! Values without parts.

ghost use Rattle.std.specs.Prelude.{◌≡◌, ◌↔◌, IsTrue, [], length, OnOk, OnErr};
ghost use Rattle.gob_num.specs.Spelled.{Appends};
ghost use Rattle.gob_value.specs.View.{view};
ghost use Rattle.gob_value.specs.Written.{Written, HasParts, WrittenBytes};
ghost use Rattle.gob_value.specs.Fits.{FitsKind};

use crate::value::Value;
use gob_num::{Memory, write_int, write_pattern, write_uint};
use gob_types::{Basic, Kind};
use std::alloc::Global;

/// Whether a value without parts is one of the kind.
pub(crate) fn fits_leaf(kind: &Kind, value: &Value) -> bool
    requires { ¬ HasParts (view value.now) }
    ensures { IsTrue result ↔ FitsKind [] kind.now (view value.now) }
{
    match value {
        Value::Bool(_) => is_basic(kind, Basic::Bool),
        Value::Int(i) => {
            let _number = *i;
            is_basic(kind, Basic::Int)
        }
        Value::Uint(n) => {
            let _number = *n;
            is_basic(kind, Basic::Uint)
        }
        Value::Float(p) => {
            let _pattern = *p;
            is_basic(kind, Basic::Float)
        }
        Value::Complex(p, q) => {
            let _patterns = (*p, *q);
            is_basic(kind, Basic::Complex)
        }
        Value::Bytes(_) => is_basic(kind, Basic::Bytes),
        Value::Str(_) => is_basic(kind, Basic::Str),
        Value::Nil => is_basic(kind, Basic::Interface),
        Value::Opaque(_) => matches!(kind, Kind::Opaque(_)),
        Value::Many(_) | Value::Pairs(_) | Value::Fields(_) => unreachable!(),
    }
}

/// Appends the bytes of a value without parts. After `Memory` the vector may have grown.
pub(crate) fn write_leaf(alloc: Global, value: &Value, out: &mut Vec<u8>) -> Result<(), Memory>
    requires { ¬ HasParts (view value.now) }
    ensures ok { OnOk result (Appends (Written (view value.now)) out.old.items out.new.items) }
    ensures err { OnErr result (Appends (λ _. Unit {0}) out.old.items out.new.items) }
{
    match value {
        Value::Bool(x) => write_uint(alloc, u64::from(*x), out),
        Value::Int(i) => write_int(alloc, *i, out),
        Value::Uint(n) => write_uint(alloc, *n, out),
        Value::Float(p) => write_pattern(alloc, *p, out),
        Value::Complex(p, q) => {
            write_pattern(alloc, *p, out)?;
            write_pattern(alloc, *q, out)
        }
        Value::Nil => write_uint(alloc, 0, out),
        Value::Bytes(s) | Value::Str(s) | Value::Opaque(s) => write_bytes(alloc, s, out),
        Value::Many(_) | Value::Pairs(_) | Value::Fields(_) => unreachable!(),
    }
}

// Appends the count of the bytes and the bytes.
fn write_bytes(alloc: Global, bytes: &[u8], out: &mut Vec<u8>) -> Result<(), Memory>
    ensures ok { OnOk result (Appends (WrittenBytes bytes.now) out.old.items out.new.items) }
    ensures err { OnErr result (Appends (λ _. Unit {0}) out.old.items out.new.items) }
{
    write_uint(alloc, bytes.len() as u64, out)?;
    out.extend_from_slice(bytes)?;
    Ok(())
}

/// Whether the kind is this basic one.
pub(crate) fn is_basic(kind: &Kind, basic: Basic) -> bool
    ensures { IsTrue result ↔ (kind.now ≡ Kind.Basic basic) }
{
    match kind {
        Kind::Basic(b) => *b == basic,
        _ => false,
    }
}
