//! How far a stream is written.

ghost use Rattle.std.specs.Prelude.{◌+◌, ◌^◌, ◌<◌, ◌++◌, length};
ghost use Rattle.gob_stream.specs.Calls.Ends.{failed_writes, writer_of};
ghost use Rattle.gob_stream.specs.Calls.Writing.{CountsWriterFaults, SendAnswers};

use crate::fault::WriteFault;
use crate::output::Output;
use std::io::Write;

/// Where the next item of a stream goes.
#[derive(Clone, Copy)]
pub(crate) struct WritePlace {
    /// How many bytes of the stream are out.
    pub(crate) offset: u64,
    /// Whether a write failed.
    pub(crate) failed: bool,
}

impl WritePlace {
    /// Sends the bytes of an item, and behind them the rest of its bytes. It counts as a failed write until the last of
    /// them is out.
    pub(crate) fn send<W: Write>(
        &mut self,
        output: &mut Output<W>,
        item: &[u8],
        rest: &[u8],
    ) -> Result<(), WriteFault>
        requires { self.old.offset + length (item.now ++ rest.now) < 2 ^ 64 }
        ensures sends { SendAnswers self.old self.new (item.now ++ rest.now)
            (W.contents (writer_of output.old)) (W.contents (writer_of output.new)) result }
        ensures counted { CountsWriterFaults (failed_writes output.old) (failed_writes output.new) result }
    {
        self.failed = true;
        output.send_all(item)?;
        output.send_all(rest)?;
        self.failed = false;
        self.offset += (item.len() + rest.len()) as u64;
        Ok(())
    }
}
