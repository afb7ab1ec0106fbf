//! Lines that are flushed before the input may have to be waited for.

ghost use Rattle.std.specs.Prelude.{◌≡◌, []};
ghost use Rattle.gob_explain.specs.Putting.{PutsMore};

use gob_explain::{LineFault, LinesOut};
use gob_json::TextOut;
use gob_num::Memory;
use gob_stream::{Waiting, WriteFault};
use gob_tool::Sending;
use std::io::Write;

/// An output of text that can be flushed.
pub(crate) trait FlushedText: TextOut {
    ghost use Rattle.std.specs.Prelude.{[]};

    /// Flushes what was put out.
    fn flush_text(&mut self) -> Result<(), Self::Fault>
        ensures { Self.puts self.old self.new [] result };
}

impl FlushedText for Vec<u8> {
    fn flush_text(&mut self) -> Result<(), Memory> {
        Ok(())
    }
}

impl<W: Write> FlushedText for Sending<'_, W> {
    fn flush_text(&mut self) -> Result<(), WriteFault> {
        self.output.flush_written()
    }
}

/// Flushes the lines, where no byte of the input waits and there was no fault.
pub(crate) fn flush_before_waiting<O: FlushedText>(waiting: &Waiting, lines: &mut LinesOut<O>)
    ensures { PutsMore O.puts lines.old.out lines.old.fault lines.new.out lines.new.fault (λ text. text ≡ []) }
{
    if !waiting.bytes().is_empty() || lines.fault.is_some() {
        return;
    }
    if let Err(fault) = lines.out.flush_text() {
        lines.fault = Some(LineFault::Out(fault));
    }
}
