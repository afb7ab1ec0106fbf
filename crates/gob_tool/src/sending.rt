//! Text that is sent while it is made.

use gob_json::TextOut;
use gob_stream::{Output, WriteFault};
use std::io::Write;

/// An output that text is sent to while it is made. After a fault, which is the output's, a prefix of the text is
/// written. It is taken apart in the end, and not dropped: so what it did to the output is known.
pub struct Sending<'a, W: Write> {
    /// Where the text goes.
    pub output: &'a mut Output<W>,
}

impl<W: Write> TextOut for Sending<'_, W> {
    ghost use Rattle.gob_tool.specs.Sending.{Sends, sends_both, sends_more, sent_counts};
    ghost use Rattle.gob_stream.specs.Calls.Ends.{failed_writes, writer_of};
    ghost use Rattle.gob_stream.specs.Calls.Writing.{CountsWriterFaults};
    ghost use Rattle.std.proofs.Common.{◌≡◌, refl, ◌∙◌};
    ghost use Rattle.std.proofs.KnownBytes.{Appends-nil};

    type Fault = WriteFault;

    ghost puts = { λ old new text result. (new.output.ghost_name ≡ old.output.ghost_name)
        × Sends (W.contents (writer_of old.output.now)) (W.contents (writer_of new.output.now)) text result
        × CountsWriterFaults (failed_writes old.output.now) (failed_writes new.output.now) result };

    #[inline(always)]
    fn put(&mut self, text: &[u8]) -> Result<(), WriteFault> {
        self.output.send_all(text)
    }

    ghost nothing = { λ a. (refl, Appends-nil (W.contents (writer_of a.output.now)), refl) };

    ghost joined = { λ a b c x y r p q. (
      q.0 ∙ p.0,
      sends_both (W.contents (writer_of a.output.now)) (W.contents (writer_of b.output.now))
          (W.contents (writer_of c.output.now)) x y r p.1 q.1,
      sent_counts (failed_writes a.output.now) (failed_writes b.output.now) (failed_writes c.output.now) r p.2 q.2,
    ) };

    ghost cut = { λ a b x y e p. (
      p.0,
      sends_more (W.contents (writer_of a.output.now)) (W.contents (writer_of b.output.now)) x y e p.1,
      p.2,
    ) };
}
