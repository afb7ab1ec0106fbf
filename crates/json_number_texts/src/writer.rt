//! A writer whose numbers are texts in the writer below.

ghost use Rattle.std.specs.Prelude.{◌≤◌, vec_capacity};

use crate::pieces::push_texts;
use crate::place::Place;
use std::alloc::{AllocError, Global};
use std::io;
use std::io::{ErrorKind, Write};

// How many bytes a write takes at the most.
const PIECE: usize = 65536;

/// A writer of JSON text that hands it on with each number outside of strings as a text. It hands what a write takes to
/// the writer below with the next call, so a flush ends the text. It needs no memory but what it is made with.
#[derive(Drop)]
pub struct TextsWriter<W> {
    writer: W,
    place: Place,
    text: Vec<u8>,
    sent: usize,
    ghost room: { 131072 ≤ vec_capacity text },
}

impl<W: Drop> TextsWriter<W> {
    ghost use Rattle.std.specs.Prelude.{◌≡◌, [], IfOk};
    ghost use Rattle.json_number_texts.specs.Writer.{waiting};
    ghost use Rattle.json_number_texts.specs.declared.place.Place.TheVariants as place;

    /// Over this writer, at the beginning of a text. Without memory for twice a piece the writer is dropped.
    pub fn new(alloc: Global, writer: W) -> Result<TextsWriter<W>, AllocError>
        ensures writer { IfOk result (λ texts. texts.writer ≡ writer) }
        ensures begun { IfOk result (λ texts. (texts.place ≡ place.Outside) × (waiting texts ≡ [])) }
    {
        Ok(TextsWriter {
            writer,
            place: Place::Outside,
            text: Vec::with_capacity(alloc, 2 * PIECE)?,
            sent: 0,
        })
    }
}

impl<W: Write> TextsWriter<W> {
    ghost use Rattle.std.specs.Prelude.{◌≡◌, [], OnOk};
    ghost use Rattle.std.specs.Io.KnownBytes.{Keeps};
    ghost use Rattle.json_number_texts.specs.Writer.{passed_on, waiting};

    // Hands on what waits. It stops at the first write that fails, and what isn't out waits still.
    fn send(&mut self) -> io::Result<()>
        ensures kept { Keeps (passed_on W.contents self.old) (passed_on W.contents self.new) }
        ensures place { self.new.place ≡ self.old.place }
        ensures sent { OnOk result ((waiting self.new ≡ []) × (self.new.text.items ≡ []) × (self.new.sent ≡ 0)) }
    {
        while self.sent < self.text.len() {
            match self.writer.write(&self.text[self.sent..])? {
                0 => return Err(io::Error::from(ErrorKind::WriteZero)),
                count => self.sent += count,
            }
        }
        self.text.clear();
        self.sent = 0;
        Ok(())
    }
}

impl<W: Write> Write for TextsWriter<W> {
    ghost use Rattle.std.specs.Prelude.{◌≡◌, [], List, MatchResult, OnOk, IfOk, ℕ, ◌++◌, length, min, take};
    ghost use Rattle.std.specs.Io.{WritesAtMost};
    ghost use Rattle.json_number_texts.specs.Writer.{HasTaken, HasLines, waiting};

    fn write(&mut self, buf: &[u8]) -> io::Result<usize>
        ensures bound { WritesAtMost result buf.now }
        ensures count { IfOk result (λ n. n ≡ min (length buf.now) 65536) }
        ensures taken { (before given : List ℕ) → HasTaken W.contents self.old before given → MatchResult result
            (λ n. HasTaken W.contents self.new before (given ++ take n buf.now))
            (λ _. HasTaken W.contents self.new before given) }
    {
        self.send()?;
        let piece = &buf[..buf.len().min(PIECE)];
        let Ok(place) = push_texts(self.place, piece, &mut self.text) else {
            unreachable!()
        };
        self.place = place;
        Ok(piece.len())
    }

    fn flush(&mut self) -> io::Result<()>
        ensures sent { OnOk result (waiting self.new ≡ []) }
        ensures kept { (before given : List ℕ) → HasTaken W.contents self.old before given
            → HasTaken W.contents self.new before given }
        ensures lines { HasLines W.contents self.old self.new result }
    {
        self.send()?;
        self.writer.flush()
    }
}
