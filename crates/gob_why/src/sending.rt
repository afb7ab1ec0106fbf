//! How lines that were sent while they were made ended.

ghost use Rattle.std.specs.Prelude.{◌≡◌, None};
ghost use Rattle.gob_why.specs.Machine.Sending.{sending_answer};

use gob_explain::{LineFault, LinesOut};
use gob_tool::{Sending, ToolFault};
use std::io::Write;

/// Answers the first fault of the lines, if there was one.
pub(crate) fn sent<W: Write>(lines: &mut LinesOut<Sending<'_, W>>) -> Result<(), ToolFault>
    ensures answer { result ≡ sending_answer lines.old.fault }
    ensures fault { lines.new.fault ≡ None }
    ensures out { lines.new.out ≡ lines.old.out }
{
    match lines.fault.take() {
        None => Ok(()),
        Some(LineFault::Memory) => Err(ToolFault::Memory),
        Some(LineFault::Out(fault)) => Err(ToolFault::from(fault)),
    }
}
