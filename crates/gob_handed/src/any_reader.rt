//! A reader of either grammar, as a caller in another language has it behind one pointer.

use crate::head::{HandedOut, Head};
use crate::reader::Reader;
use gob_go::GoSession;
use gob_num::Memory;
use gob_stream::{Fault, Limits, Session};
use gob_tape::{FlatNode, TapeBuilder};
use gob_types::TypeId;
use std::alloc::Global;

/// A reader of one stream.
#[derive(Drop)]
pub enum AnyReader {
    /// Of the documented format alone.
    Exact(Reader<Session<TapeBuilder>>),
    /// Of all that Go's encoder writes.
    Go(Reader<GoSession>),
}

impl AnyReader {
    ghost use Rattle.std.specs.Prelude.{◌≡◌, IfOk};
    ghost use Rattle.gob_handed.specs.Answers.{Feeds, Finishes, IsNew, Shapes, Takes};
    ghost use Rattle.gob_handed.specs.AnyReader.{GoesSo, IsExactly, IsSo};
    ghost use Rattle.gob_handed.specs.Waiting.{begin_of};

    /// A reader that has taken no byte, of the documented format alone where it is exact. No value may be deeper than
    /// these limits allow; of the documented format at most 65536, else 1000.
    pub fn new(alloc: Global, limits: Limits, exact: bool) -> Result<AnyReader, Memory>
        ensures new { IfOk result (λ reader. IsSo reader (λ X I Told d handouts r. IsNew d limits r)) }
        ensures exact { IfOk result (λ reader. IsExactly exact reader) }
    {
        if exact {
            return Ok(AnyReader::Exact(Reader::new(alloc, limits)?));
        }
        Ok(AnyReader::Go(Reader::new(alloc, limits)?))
    }

    /// As [`Reader::feed`].
    pub fn feed(&mut self, alloc: Global, piece: &[u8]) -> Result<(), Fault>
        ensures { GoesSo self.old self.new (λ X I Told d handouts old new.
            Feeds d handouts old new piece.now result) }
    {
        match self {
            AnyReader::Exact(reader) => reader.feed(alloc, piece),
            AnyReader::Go(reader) => reader.feed(alloc, piece),
        }
    }

    /// As [`Reader::finish`].
    pub fn finish(&mut self) -> Result<(), Fault>
        ensures { GoesSo self.old self.new (λ X I Told d handouts old new. Finishes d old new result) }
    {
        match self {
            AnyReader::Exact(reader) => reader.finish(),
            AnyReader::Go(reader) => reader.finish(),
        }
    }

    /// As [`Reader::begin`].
    pub fn begin(&self) -> u64
        ensures { IsSo self.now (λ X I Told d handouts r. result ≡ begin_of r) }
    {
        match self {
            AnyReader::Exact(reader) => reader.begin(),
            AnyReader::Go(reader) => reader.begin(),
        }
    }

    /// As [`Reader::take`].
    pub fn take(&mut self, heads: &mut [Head], nodes: &mut [FlatNode], pool: &mut [u8]) -> HandedOut
        ensures { GoesSo self.old self.new (λ X I Told d handouts old new. Takes d old new
            (record { heads = heads.old; nodes = nodes.old; pool = pool.old })
            (record { heads = heads.new; nodes = nodes.new; pool = pool.new }) result) }
    {
        match self {
            AnyReader::Exact(reader) => reader.take(heads, nodes, pool),
            AnyReader::Go(reader) => reader.take(heads, nodes, pool),
        }
    }

    /// As [`Reader::shape`].
    pub fn shape(&self, id: TypeId, nodes: &mut [FlatNode], pool: &mut [u8]) -> HandedOut
        ensures { IsSo self.now (λ X I Told d handouts r.
            Shapes d r id nodes.old nodes.new pool.old pool.new result) }
    {
        match self {
            AnyReader::Exact(reader) => reader.shape(id, nodes, pool),
            AnyReader::Go(reader) => reader.shape(id, nodes, pool),
        }
    }
}
