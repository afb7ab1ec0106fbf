//! A writer of values that are given as plain JSON.

ghost use Rattle.std.specs.Prelude.{◌≡◌, ℕ, List, [], IfOk, OnErr};
ghost use Rattle.std.specs.Option.{option_map};
ghost use Rattle.gob_types.specs.Table as known;
ghost use Rattle.gob_value.specs.View.{view};
ghost use Rattle.gob_make.specs.Tells.{SaysPlain};
ghost use Rattle.gob_stream.specs.Bounds.{Bounds, within_trees};
ghost use Rattle.gob_stream.specs.Calls.Ends.{writer_of};
ghost use Rattle.gob_stream.specs.Calls.Writing.{HasWritten, IsNew, writer_types};
ghost use Rattle.gob_stream.specs.Item.{StreamItem, puts};
ghost use Rattle.gob_plain_writer.specs.Writing.{IsAsBefore, OpenAnswers, PutAnswers, WritesFront};
ghost use Rattle.gob_plain_writer.specs.Writing.{WritesValue, waiting};

use crate::fault::{OpenFault, PutFault};
use gob_lines::LineFault;
use gob_make::{Making, read_plain};
use gob_stream::{Limits, Output, StreamWriter, WriteFault};
use gob_value::Value;
use gob_write::{Definition, Types};
use json::Scratch;
use std::alloc::Global;
use std::io::Write;
use std::mem::replace;
use std::str;

/// A writer of one stream of values of one type, each given as plain JSON. What it writes waits until it is taken.
pub struct PlainWriter {
    // Its types are those by which a text is read.
    stream: StreamWriter,
    making: Making,
    scratch: Scratch,
    // What is written, without what was taken.
    waiting: Vec<u8>,
}

// Not derived, so that a drop is one call in the proofs of what owns one.
impl Drop for PlainWriter {
    fn drop(self) {
        let PlainWriter {
            stream: _,
            making: _,
            scratch: _,
            waiting: _,
        } = self;
    }
}

impl PlainWriter {
    /// A writer that has written the definitions of the types, in order. Its values are of the wanted type. `Refused`
    /// where one of the definitions continues no stream. No value may be deeper than `limits.depth()` or than 1000.
    pub fn new<'a>(
        alloc: Global,
        types: &Types,
        limits: Limits,
    ) -> Result<PlainWriter, OpenFault<'a>>
        ensures { OpenAnswers (within_trees limits) types.now result }
    {
        let limits = limits.up_to(Limits::GREATEST_DEPTH);
        let mut stream = StreamWriter::new(alloc, limits)?;
        let mut output = Output::new(Vec::new(alloc));
        write_definitions(alloc, &types.definitions, &mut stream, &mut output)?;
        let making = Making {
            id: types.id,
            depth: limits.depth(),
            zeros: limits.item(),
            lenient: types.lenient,
        };
        Ok(PlainWriter {
            stream,
            making,
            scratch: Scratch::new(alloc),
            waiting: output.into_inner(),
        })
    }

    /// Writes the value of the wanted type that the text says in plain JSON, and nothing where there is no token in the
    /// text. `PutFault` says what each fault leaves.
    pub fn put(&mut self, alloc: Global, text: &[u8]) -> Result<(), PutFault>
        ensures puts { (items : List StreamItem) (bytes : List ℕ) (T : known.Table)
            → HasWritten self.old.stream items bytes T
            → PutAnswers self.old self.new items bytes T text.now result }
        ensures making { self.new.making ≡ self.old.making }
        ensures kept { OnErr result (waiting self.new ≡ waiting self.old) }
    {
        match self.said(alloc, text) {
            Ok(Some(value)) => Ok(self.write(alloc, &value)?),
            Ok(None) => Ok(()),
            Err(fault) => Err(PutFault::of_text(alloc, fault)),
        }
    }

    /// What is written and waits to be taken.
    pub fn waiting(&self) -> &[u8]
        ensures { result.now ≡ waiting self.now }
    {
        self.waiting.as_slice()
    }

    /// Takes what waits.
    pub fn pass(&mut self)
        ensures taken { waiting self.new ≡ [] }
        ensures stream { self.new.stream ≡ self.old.stream }
        ensures making { self.new.making ≡ self.old.making }
    {
        self.waiting.clear();
    }

    // The value that the text says, if it says one.
    fn said(&mut self, alloc: Global, text: &[u8]) -> Result<Option<Value>, LineFault>
        ensures said { IfOk result (λ found. SaysPlain self.old.making.lenient (writer_types self.old.stream)
            self.old.making.id text.now (option_map view found)) }
        ensures same { IsAsBefore self.old self.new }
        ensures making { self.new.making ≡ self.old.making }
    {
        let text = match str::from_utf8(text) {
            Ok(text) => text,
            Err(error) => return Err(LineFault::no_text(alloc, error.valid_up_to())),
        };
        let mut left_out = 0;
        read_plain(
            alloc,
            self.stream.table(),
            self.making,
            text,
            &mut self.scratch,
            &mut left_out,
        )
    }

    // Writes a value of the wanted type.
    fn write(&mut self, alloc: Global, value: &Value) -> Result<(), WriteFault>
        ensures writes { (items : List StreamItem) (bytes : List ℕ) (T : known.Table)
            → HasWritten self.old.stream items bytes T
            → WritesValue self.old self.new items bytes T (puts self.old.making.id (view value.now)) result }
        ensures making { self.new.making ≡ self.old.making }
        ensures kept { OnErr result (waiting self.new ≡ waiting self.old) }
    {
        let before = self.waiting.len();
        let mut output = Output::new(replace(&mut self.waiting, Vec::new(alloc)));
        let answer = self.stream.put(alloc, &mut output, self.making.id, value);
        self.waiting = output.into_inner();
        if answer.is_err() {
            self.waiting.truncate(before);
        }
        answer
    }
}

// Writes the definitions.
fn write_definitions<W: Write>(
    alloc: Global,
    definitions: &[Definition],
    stream: &mut StreamWriter,
    output: &mut Output<W>,
) -> Result<(), WriteFault>
    ensures { (L : Bounds) → IsNew stream.old (within_trees L)
        → WritesFront (within_trees L) definitions.now stream.new (W.contents (writer_of output.old))
        (W.contents (writer_of output.new)) result }
{
    for definition in definitions {
        stream.define(alloc, output, definition.id, &definition.described)?;
    }
    Ok(())
}
