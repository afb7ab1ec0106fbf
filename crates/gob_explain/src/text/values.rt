//! What the numbers of a part mean.

use crate::row::Row;
use crate::text::names::{push_name, push_string};
use gob_num::{to_pattern, to_signed};
use gob_types::{Basic, Kind, Marshal, Shapes};
use ryu::Buffer;
use std::alloc::{AllocError, Global};

// The sign of a float's 64 bits, and the least of the others that are no finite float.
const SIGN: u64 = 0x8000_0000_0000_0000;

const INFINITY: u64 = 0x7ff0_0000_0000_0000;

/// Puts behind the text what the part is whose first number is that of the row, with what follows that number: the
/// second number of a complex, or its raw bytes.
pub(crate) fn push_value<S: Shapes>(
    alloc: Global,
    shapes: &S,
    first: &Row,
    behind: Behind<'_>,
    out: &mut String,
) -> Result<(), AllocError> {
    let Some(shape) = shapes.shape_of(first.id) else {
        return Ok(());
    };
    match &shape.kind {
        Kind::Basic(basic) => push_basic(*basic, first.number, behind, out),
        Kind::Array { .. } | Kind::Slice { .. } => push_count(first.number, "element", out),
        Kind::Map { .. } => push_count(first.number, "pair", out),
        Kind::Opaque(marshal) => {
            push_count(first.number, "byte", out)?;
            if !shape.name.as_bytes().is_empty() {
                out.push_str(" of ")?;
                push_name(alloc, shape.name.as_bytes(), out)?;
            }
            out.push_str(by_marshal(*marshal))
        }
        Kind::Struct { .. } => Ok(()),
    }
}

/// What stands behind the first number of a part, in it.
#[derive(Clone, Copy)]
pub(crate) enum Behind<'a> {
    /// Nothing.
    Nothing,
    /// The second number of a complex.
    Imaginary(u64),
    /// Raw bytes.
    Raw(&'a [u8]),
    /// It isn't there.
    Missing,
}

fn push_basic(
    basic: Basic,
    number: u64,
    behind: Behind<'_>,
    out: &mut String,
) -> Result<(), AllocError> {
    match basic {
        Basic::Bool => out.push_str(if number == 1 { "true" } else { "false" }),
        Basic::Int => write!(out, "{}", to_signed(number)),
        Basic::Uint => write!(out, "{number}"),
        Basic::Float => push_float(to_pattern(number), out),
        Basic::Interface => push_interface(number, behind, out),
        Basic::Complex => push_complex(number, behind, out),
        Basic::Bytes => push_count(number, "byte", out),
        Basic::Str => match behind {
            Behind::Raw(raw) => push_string(raw, out),
            Behind::Missing => push_count(number, "byte", out),
            _ => out.push_str("\"\""),
        },
    }
}

// Nil, or the name of what it holds.
fn push_interface(length: u64, behind: Behind<'_>, out: &mut String) -> Result<(), AllocError> {
    match behind {
        Behind::Raw(name) => {
            out.push_str("holds ")?;
            push_string(name, out)
        }
        Behind::Missing => {
            out.push_str("holds something, by a name of ")?;
            push_count(length, "byte", out)
        }
        _ => out.push_str("nil"),
    }
}

fn push_complex(number: u64, behind: Behind<'_>, out: &mut String) -> Result<(), AllocError> {
    push_float(to_pattern(number), out)?;
    if let Behind::Imaginary(second) = behind {
        out.push_str(" and ")?;
        push_float(to_pattern(second), out)?;
        out.push('i')?;
    }
    Ok(())
}

// Puts a float behind the text, in the fewest digits that read back as it.
fn push_float(pattern: u64, out: &mut String) -> Result<(), AllocError> {
    let size = pattern % SIGN;
    if size > INFINITY {
        return out.push_str("NaN");
    }
    out.push_str(Buffer::new().format(f64::from_bits(pattern)))
}

// Puts behind the text how many there are.
fn push_count(count: u64, noun: &str, out: &mut String) -> Result<(), AllocError> {
    write!(out, "{count} {noun}")?;
    if count == 1 {
        return Ok(());
    }
    out.push('s')
}

fn by_marshal(marshal: Marshal) -> &'static str {
    match marshal {
        Marshal::Gob => ", by GobEncode",
        Marshal::Binary => ", by MarshalBinary",
        Marshal::Text => ", by MarshalText",
    }
}
