//! How a stream is converted.

use gob_rename::Rename;
use gob_stream::Limits;

/// How a stream is converted, beside the wanted type.
#[derive(Clone, Copy, Debug)]
pub struct ConvertOptions<'a> {
    /// Which fields of the wanted types have another name in the stream. Each is of the names that those before it
    /// leave.
    pub renames: &'a [Rename<'a>],
    /// Whether no field of a value may be left out.
    pub all: bool,
    /// The limits of each of the streams.
    pub limits: Limits,
}
