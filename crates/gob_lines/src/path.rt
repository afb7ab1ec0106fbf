//! Where in a value something stands.

ghost use Rattle.std.specs.Prelude.{IfOk, string_bytes};
ghost use Rattle.gob_words.specs.Escaped.{IsUnobeyed};

use gob_num::Memory;
use gob_types::Name;
use gob_words::{escaped, shortened};
use std::alloc::Global;
use std::{fmt, str};

/// A step into a value. Display writes `.Name`, `[2]`, or `[2] key` to a key.
#[derive(Drop)]
pub enum PathStep {
    /// To the field of this name.
    Field(Name),
    /// To this element of an array or a slice, from 0.
    Element(u64),
    /// To the key of this pair of a map, from 0.
    Key(u64),
    /// To the element of this pair.
    Value(u64),
}

impl fmt::Display for PathStep {
    fn fmt<W: fmt::Write>(&self, f: &mut fmt::Formatter<W>) -> fmt::Result {
        match self {
            PathStep::Field(name) => match str::from_utf8(name.as_bytes()) {
                Ok(text) => write!(f, ".{text}"),
                Err(_) => {
                    f.write_str(".0x")?;
                    hex_text(name.as_bytes(), f)
                }
            },
            PathStep::Element(index) | PathStep::Value(index) => write!(f, "[{index}]"),
            PathStep::Key(index) => write!(f, "[{index}] key"),
        }
    }
}

// Writes bytes in lower case hexadecimal.
fn hex_text<W: fmt::Write>(bytes: &[u8], f: &mut fmt::Formatter<W>) -> fmt::Result {
    for byte in bytes {
        let byte = *byte;
        write!(f, "{byte:02x}")?;
    }
    Ok(())
}

/// The path of these steps, from the last to the first, as it stands in a line: of a long one the middle is left out,
/// so that it has 200 characters, of which a terminal obeys none.
pub fn path_text(alloc: Global, steps: &[PathStep]) -> Result<String, Memory>
    ensures { IfOk result (λ text. IsUnobeyed (string_bytes text)) }
{
    let mut path = String::new(alloc);
    for step in steps.iter().rev() {
        write!(path, "{step}")?;
    }
    let path = shortened(alloc, path.as_str())?;
    Ok(escaped(alloc, path.as_str())?)
}
