//! What comes next behind rows, in words.

ghost use Rattle.std.specs.Prelude.{◌≡◌, ◌++◌, OnOk, codes, length, min, slice_get, string_bytes};
ghost use Rattle.std.specs.Fmt.{decimal};
ghost use Rattle.gob_explain.specs.Awaited.{awaited_text, basic_text, deltas_text, kind_text};
ghost use Rattle.gob_explain.specs.Names.{field_name};

use crate::row::{Awaited, What};
use crate::text::names::push_name;
use gob_types::{Basic, Fields, Kind, Shapes};
use std::alloc::{AllocError, Global};

// So many fields are named at most.
const NAMED: u64 = 8;

/// Puts behind the text what comes next: `0, which ends the struct, 1 for Y`. Names of fields are those of the table,
/// with no character that a terminal obeys.
pub fn push_expected<S: Shapes>(
    alloc: Global,
    shapes: &S,
    awaited: &Awaited,
    out: &mut String,
) -> Result<(), AllocError>
    ensures { OnOk result
        (string_bytes out.new ≡ string_bytes out.old ++ awaited_text (S.table shapes.now) awaited.now) }
{
    match awaited.what {
        What::Tag => out.push_str("the tag, which is 0"),
        What::Imaginary => out.push_str("the imaginary part of a complex"),
        What::Raw => write!(out, "{} bytes", awaited.most),
        What::TypeNumber => out.push_str("a type number"),
        What::Segment => out.push_str("the count of a segment"),
        What::First | What::Delta => match shapes.shape_of(awaited.id) {
            Some(shape) => push_first(alloc, &shape.kind, awaited.most, out),
            None => Ok(()),
        },
    }
}

fn push_first(alloc: Global, kind: &Kind, most: u64, out: &mut String) -> Result<(), AllocError>
    ensures { OnOk result (string_bytes out.new ≡ string_bytes out.old ++ kind_text kind.now most) }
{
    match kind {
        Kind::Basic(basic) => out.push_str(basic_words(*basic)),
        Kind::Array { len, .. } => write!(out, "{len}, the count of the elements"),
        Kind::Slice { .. } => out.push_str("the count of the elements"),
        Kind::Map { .. } => out.push_str("the count of the pairs"),
        Kind::Opaque(_) => out.push_str("the count of the bytes"),
        Kind::Struct { fields } => push_fields(alloc, fields, most, out),
    }
}

fn basic_words(basic: Basic) -> &'static str
    ensures { result.now ≡ basic_text basic }
{
    match basic {
        Basic::Bool => "a bool, 0 or 1",
        Basic::Int => "an int",
        Basic::Uint => "a uint",
        Basic::Float => "a float",
        Basic::Complex => "the real part of a complex",
        Basic::Bytes | Basic::Str => "the count of the bytes",
        Basic::Interface => "0, an interface that is nil, or the count of a name",
    }
}

// The deltas that may come in a struct, of which the greatest is `most`.
fn push_fields(
    alloc: Global,
    fields: &Fields,
    most: u64,
    out: &mut String,
) -> Result<(), AllocError>
    ensures { OnOk result
        (string_bytes out.new ≡ string_bytes out.old ++ deltas_text fields.now (min most (length fields.now))) }
{
    out.push_str("0, which ends the struct")?;
    let count = fields.count();
    let left = most.min(count);
    let next = count - left;
    'deltas: for index in 0..left.min(NAMED) {
        push_delta(alloc, fields, next + index, index + 1, out)?;
    }
    if left > NAMED {
        out.push_str(" ..")?;
    }
    Ok(())
}

// A delta, and the name of the field of this number, to which it leads.
fn push_delta(
    alloc: Global,
    fields: &Fields,
    number: u64,
    delta: u64,
    out: &mut String,
) -> Result<(), AllocError>
    ensures { OnOk result (string_bytes out.new ≡ string_bytes out.old ++ (codes ", " ++ (decimal delta
        ++ (codes " for " ++ field_name (slice_get fields.now number))))) }
{
    write!(out, ", {delta} for ")?;
    match fields.get(number) {
        Some(field) => push_name(alloc, field.name.as_bytes(), out),
        None => Ok(()),
    }
}
