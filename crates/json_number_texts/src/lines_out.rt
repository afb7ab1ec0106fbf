//! A writer of lines of JSON that hands them on as they are, or with texts in place of their numbers.

use crate::writer::TextsWriter;
use std::alloc::{AllocError, Global};
use std::io;
use std::io::Write;

/// A writer of lines of JSON over another.
#[derive(Drop)]
pub enum LinesOut<W> {
    /// Hands the lines on as they are.
    Plain(W),
    /// Hands them on with each number as a text of its digits.
    Texts(TextsWriter<W>),
}

impl<W: Write + Drop> LinesOut<W> {
    ghost use Rattle.std.specs.Prelude.{IfOk};
    ghost use Rattle.json_number_texts.specs.Out.{IsOver};

    /// Over this writer, with texts in place of numbers or without. Without memory for these the writer is dropped.
    pub fn new(alloc: Global, writer: W, numbers_are_texts: bool) -> Result<LinesOut<W>, AllocError>
        ensures { IfOk result (IsOver writer numbers_are_texts) }
    {
        if numbers_are_texts {
            return Ok(LinesOut::Texts(TextsWriter::new(alloc, writer)?));
        }
        Ok(LinesOut::Plain(writer))
    }
}

impl<W: Write> Write for LinesOut<W> {
    ghost use Rattle.std.specs.Prelude.{◌≡◌, ◌++◌, IfOk, List, MatchResult, length, min, take, true, ℕ};
    ghost use Rattle.std.specs.Io.{WritesAtMost};
    ghost use Rattle.std.specs.Io.KnownBytes.{Keeps, WriteAppends};
    ghost use Rattle.json_number_texts.specs.Out.{HasGiven, PutsLines, has_texts, plain_contents};

    ghost contents = { plain_contents W.contents };

    fn write(&mut self, buf: &[u8]) -> io::Result<usize>
        ensures bound { WritesAtMost result buf.now }
        ensures bytes { WriteAppends (plain_contents W.contents self.old)
            (plain_contents W.contents self.new) result buf.now }
        ensures count { has_texts self.old ≡ true → IfOk result (λ n. n ≡ min (length buf.now) 65536) }
        ensures texts { has_texts self.new ≡ has_texts self.old }
        ensures given { (before given : List ℕ) → HasGiven W.contents self.old before given → MatchResult result
            (λ n. HasGiven W.contents self.new before (given ++ take n buf.now))
            (λ _. HasGiven W.contents self.new before given) }
    {
        match self {
            LinesOut::Plain(writer) => writer.write(buf),
            LinesOut::Texts(writer) => writer.write(buf),
        }
    }

    fn flush(&mut self) -> io::Result<()>
        ensures bytes { Keeps (plain_contents W.contents self.old) (plain_contents W.contents self.new) }
        ensures texts { has_texts self.new ≡ has_texts self.old }
        ensures given { (before given : List ℕ) → HasGiven W.contents self.old before given
            → HasGiven W.contents self.new before given }
        ensures lines { PutsLines W.contents self.old self.new result }
    {
        match self {
            LinesOut::Plain(writer) => writer.flush(),
            LinesOut::Texts(writer) => writer.flush(),
        }
    }
}
