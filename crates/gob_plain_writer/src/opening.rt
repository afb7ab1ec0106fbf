//! Writers under types that Go source or another stream gives.

ghost use Rattle.std.specs.Prelude.{IfOk, false};
ghost use Rattle.gob_stream.specs.Bounds.{within_trees};
ghost use Rattle.gob_words.specs.Words.{text_of};
ghost use Rattle.gob_plain_writer.specs.Opening.{IsWriterOfSource, IsWriterOfStream};

use crate::fault::OpenFault;
use crate::writer::PlainWriter;
use gob_stream::{Input, Limits};
use gob_write::{read_types, types_of_source};
use std::alloc::Global;

/// A writer under the types that Go source declares. Its values are of the declared type of this name, or of this id
/// where a comment gives it one, and without a name of the first that is declared. What that type leads to is defined,
/// and nothing else. No value may be deeper than `limits.depth()` or than 1000.
pub fn writer_of_source<'a>(
    alloc: Global,
    source: &'a [u8],
    named: Option<&'a str>,
    limits: Limits,
) -> Result<PlainWriter, OpenFault<'a>>
    ensures { IfOk result (λ writer. IsWriterOfSource (within_trees limits) source.now (text_of named.entry) writer) }
{
    let types = types_of_source(alloc, source, named, false)?;
    PlainWriter::new(alloc, &types, limits)
}

/// A writer under the types of a stream, all of whose definitions it writes. Its values are of the type of this name or
/// id there, and without a name of the type of the stream's first value. No value may be deeper than `limits.depth()`
/// or than 1000, those of the stream neither.
pub fn writer_of_stream<'a>(
    alloc: Global,
    bytes: &[u8],
    named: Option<&str>,
    limits: Limits,
) -> Result<PlainWriter, OpenFault<'a>>
    ensures { IfOk result (λ writer. IsWriterOfStream (within_trees limits) bytes.now (text_of named.entry) writer) }
{
    let mut input = Input::new(bytes);
    let types = read_types(alloc, &mut input, named, false, limits)?;
    PlainWriter::new(alloc, &types, limits)
}
