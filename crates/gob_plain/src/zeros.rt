//! The zeros of absent fields, which Go's encoder leaves out.

ghost use Rattle.std.specs.Prelude.{◌≡◌, slice_get};
ghost use Rattle.gob_plain.specs.AbsentFields.{AbsentTokens, SaysZero, ZeroTokens};
ghost use Rattle.gob_plain.specs.AbsentFields.{zero_kind_at, zero_kind_by, zero_kind_of};
ghost use Rattle.gob_plain.specs.Filled.{between};
ghost use Rattle.gob_plain.specs.WritesPlain.{WritesPlain, WritesSome};

use crate::leaf::{write_leaf, write_name};
use crate::style::Style;
use gob_json_writer::name_at;
use gob_tape::ValueKind;
use gob_types::{Basic, Field, Kind, Shapes};
use json::Writer;
use std::alloc::{AllocError, Global};
use std::ops::Range;

/// Writes the zeros of these fields, which are absent, where the style has zeros: a member for each field whose type
/// has one.
#[inline(always)]
pub(crate) fn write_absent<S: Shapes>(
    alloc: Global,
    types: &[Field],
    absent: Range<u64>,
    table: &S,
    style: Style<'_>,
    out: &mut Writer,
) -> Result<(), AllocError>
    ensures { WritesSome result out.old out.new
        (AbsentTokens style.entry (S.table table.now) types.now absent.start absent.end) }
{
    if style.zeros {
        write_zeros(alloc, types, absent, table, out)
    } else {
        Ok(())
    }
}

// Writes a member for each of these fields whose type has a zero. Numbers behind the last field count as none. Most
// values are printed without zeros, so it is apart from what asks for them.
#[inline(never)]
fn write_zeros<S: Shapes>(
    alloc: Global,
    types: &[Field],
    absent: Range<u64>,
    table: &S,
    out: &mut Writer,
) -> Result<(), AllocError>
    ensures { WritesSome result out.old out.new
        (ZeroTokens (S.table table.now) types.now absent.start (between types.now absent.start absent.end)) }
{
    let end = absent.end.min(types.len() as u64);
    for number in absent.start..end {
        write_zero(alloc, types, number, table, out)?;
    }
    Ok(())
}

// Writes a member for the field of this number, where its type has a zero.
fn write_zero<S: Shapes>(
    alloc: Global,
    types: &[Field],
    number: u64,
    table: &S,
    out: &mut Writer,
) -> Result<(), AllocError>
    ensures { WritesSome result out.old out.new (ZeroTokens (S.table table.now) types.now number 1) }
{
    match zero_kind_at(types, number, table) {
        Some(kind) => {
            write_name(alloc, name_at(types, number), out)?;
            write_zero_value(alloc, kind, out)
        }
        None => Ok(()),
    }
}

// Writes the zero of this kind.
fn write_zero_value(alloc: Global, kind: ValueKind, out: &mut Writer) -> Result<(), AllocError>
    ensures { WritesPlain result out.old out.new (SaysZero kind) }
{
    match kind {
        ValueKind::Many => {
            out.begin_array()?;
            out.end_array()
        }
        kind => write_leaf(alloc, kind, 0, 0, &[], out),
    }
}

// The kind of the zero of the field of this number, where its type has one.
fn zero_kind_at<S: Shapes>(types: &[Field], number: u64, table: &S) -> Option<ValueKind>
    ensures { result ≡ zero_kind_at (S.table table.now) (slice_get types.now number) }
{
    let field = types.get(number as usize)?;
    let shape = table.shape_of(field.id)?;
    zero_kind_by(&shape.kind)
}

// The kind of the zero that a struct leaves out of a field of this kind: of a basic type, or a slice without elements.
fn zero_kind_by(kind: &Kind) -> Option<ValueKind>
    ensures { result ≡ zero_kind_by kind.now }
{
    match kind {
        Kind::Basic(basic) => zero_kind_of(*basic),
        Kind::Slice { .. } => Some(ValueKind::Many),
        Kind::Array { .. } | Kind::Struct { .. } | Kind::Map { .. } | Kind::Opaque(_) => None,
    }
}

// The kind of the zero of a basic type, of which an interface has none.
fn zero_kind_of(basic: Basic) -> Option<ValueKind>
    ensures { result ≡ zero_kind_of basic }
{
    match basic {
        Basic::Bool => Some(ValueKind::Bool),
        Basic::Int => Some(ValueKind::Int),
        Basic::Uint => Some(ValueKind::Uint),
        Basic::Float => Some(ValueKind::Float),
        Basic::Complex => Some(ValueKind::Complex),
        Basic::Bytes => Some(ValueKind::Bytes),
        Basic::Str => Some(ValueKind::Str),
        Basic::Interface => None,
    }
}
