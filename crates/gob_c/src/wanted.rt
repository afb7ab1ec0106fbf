//! The stream by which another's values are received: the definitions of a wanted type, and its zero.

ghost use Rattle.std.specs.Prelude.{IfOk};
ghost use Rattle.gob_c.specs.Converting.{IsWantedOfNamed, IsWantedOfSource, IsZeroBehind};
ghost use Rattle.gob_c.specs.Writing.{named_by};

use crate::writing::{of_source, of_stream};
use gob_plain_writer::{OpenFault, PlainWriter, PutFault};
use std::alloc::{AllocError, Global};
use std::fmt;

// The plain JSON of the zero of a type.
const ZERO: &[u8] = b"null";

/// Why there is no wanted type. Display writes the line that the program prints, without the line feed.
#[derive(Clone, Copy)]
pub(crate) enum WantedFault<'a> {
    /// There are no types, or no memory for them.
    Types(OpenFault<'a>),
    /// It has no zero.
    NoZero,
    /// No memory was had for its zero.
    Memory,
}

impl fmt::Display for WantedFault<'_> {
    fn fmt<W: fmt::Write>(&self, f: &mut fmt::Formatter<W>) -> fmt::Result {
        match self {
            WantedFault::Types(fault) => write!(f, "{fault}"),
            WantedFault::NoZero => write!(f, "gob: types: the type has no zero"),
            WantedFault::Memory => write!(f, "gob: out of memory"),
        }
    }
}

impl<'a> From<OpenFault<'a>> for WantedFault<'a> {
    ghost use Rattle.std.specs.Prelude.{◌≡◌};
    ghost use Rattle.gob_c.specs.declared.wanted.WantedFault.TheVariants as wanting;

    ghost from_gives = { λ given fault. fault ≡ wanting.Types given };

    fn from(fault: OpenFault<'a>) -> WantedFault<'a> {
        WantedFault::Types(fault)
    }
}

impl<'a> From<AllocError> for WantedFault<'a> {
    ghost use Rattle.std.specs.Prelude.{◌≡◌};
    ghost use Rattle.gob_c.specs.declared.wanted.WantedFault.TheVariants as wanting;

    ghost from_gives = { λ _ fault. fault ≡ wanting.Memory };

    fn from(_: AllocError) -> WantedFault<'a> {
        WantedFault::Memory
    }
}

/// A stream of the declared type of this name, and without a name of the first that is declared: the definitions that
/// Go source gives of it, and its zero.
pub(crate) fn wanted_of_source<'a>(
    alloc: Global,
    source: &'a [u8],
    named: &'a [u8],
) -> Result<Vec<u8>, WantedFault<'a>>
    ensures { IfOk result (λ wanted. IsWantedOfSource source.now (named_by named.now) wanted.items) }
{
    let writer = of_source(alloc, source, named)?;
    zero_behind(alloc, writer)
}

/// A stream of the type that another stream has by this name or id: all definitions of that stream, and its zero.
pub(crate) fn wanted_of_stream<'a>(
    alloc: Global,
    bytes: &[u8],
    named: &[u8],
) -> Result<Vec<u8>, WantedFault<'a>>
    ensures { IfOk result (λ wanted. IsWantedOfNamed bytes.now (named_by named.now) wanted.items) }
{
    let writer = of_stream(alloc, bytes, named)?;
    zero_behind(alloc, writer)
}

// What the writer has written, and a zero of its type behind it.
fn zero_behind<'a>(alloc: Global, mut writer: Box<PlainWriter>) -> Result<Vec<u8>, WantedFault<'a>>
    ensures { IfOk result (λ wanted. IsZeroBehind writer.value wanted.items) }
{
    match writer.put(alloc, ZERO) {
        Ok(()) => Ok(Vec::from_slice(alloc, writer.waiting())?),
        Err(PutFault::Memory | PutFault::Failed) => Err(WantedFault::Memory),
        Err(_) => Err(WantedFault::NoZero),
    }
}
