//! A writer that counts its failed calls, and knows whether it was flushed since it was last written to.

ghost use Rattle.std.specs.Prelude.{◌≡◌, OnOk, OnErr, IfErr, MatchResult, true, false};
ghost use Rattle.gob_stream.specs.Devices.{WriteCounted, FlushCounted, counts_up};
ghost use Rattle.gob_stream.specs.Calls.Ends.{failed_writes, is_unflushed, writer_of};
ghost use Rattle.gob_stream.specs.Calls.Writing.{SentPrefix, CountsWriterFaults};
ghost use Rattle.std.specs.Io.KnownBytes.{Appends, WriteAppends, Keeps};
ghost use Rattle.std.specs.Io.{WritesAtMost};

use crate::fault::WriteFault;
use std::io;
use std::io::Write;

/// A writer that passes each write and flush on, and counts the calls that failed: an error, or no byte taken of
/// some. It notes whether there was a write since the last flush that went well.
#[derive(Drop)]
pub struct Output<W> {
    writer: W,
    failures: u64,
    unflushed: bool,
}

impl<W> Output<W> {
    /// Over this writer.
    pub fn new(writer: W) -> Output<W>
        ensures writer { writer_of result ≡ writer }
        ensures failures { failed_writes result ≡ 0 }
        ensures flushed { is_unflushed result ≡ false }
    {
        Output {
            writer,
            failures: 0,
            unflushed: false,
        }
    }

    /// The writer, as the writes so far left it.
    pub fn into_inner(self) -> W
        ensures { result ≡ writer_of self }
    {
        self.writer
    }

    /// How many calls failed so far. It stays at 2^64-1 once there.
    pub fn failures(&self) -> u64
        ensures { result ≡ failed_writes self.now }
    {
        self.failures
    }

    // Counts a failed call.
    fn count_failure(&mut self)
        ensures { self.new ≡ record self.old { failures = counts_up self.old.failures 1 } }
    {
        self.failures = self.failures.saturating_add(1);
    }
}

impl<W: Write> Output<W> {
    /// Sends all the bytes, in as many writes as the writer wants. It stops at the first write that fails, with
    /// `Write`; a prefix of the bytes is then out. A write that was interrupted is one that failed.
    pub fn send_all(&mut self, bytes: &[u8]) -> Result<(), WriteFault>
        ensures ok { OnOk result
            (Appends (W.contents (writer_of self.old)) (W.contents (writer_of self.new)) bytes.now) }
        ensures prefix { OnErr result
            (SentPrefix bytes.now (W.contents (writer_of self.old)) (W.contents (writer_of self.new))) }
        ensures fault { IfErr result (λ fault. fault ≡ WriteFault.Write) }
        ensures counted { CountsWriterFaults (failed_writes self.old) (failed_writes self.new) result }
    {
        let mut sent = 0;
        while sent < bytes.len() {
            match self.write(&bytes[sent..]) {
                Ok(n) if n > 0 => sent += n,
                _ => return Err(WriteFault::Write),
            }
        }
        Ok(())
    }

    /// Flushes, where there was a write since the last flush that went well.
    pub fn flush_written(&mut self) -> Result<(), WriteFault>
        ensures bytes { Keeps (W.contents (writer_of self.old)) (W.contents (writer_of self.new)) }
        ensures flushed { OnOk result (is_unflushed self.new ≡ false) }
        ensures fault { IfErr result (λ fault. fault ≡ WriteFault.Write) }
        ensures counted { CountsWriterFaults (failed_writes self.old) (failed_writes self.new) result }
    {
        if self.unflushed && self.flush().is_err() {
            return Err(WriteFault::Write);
        }
        Ok(())
    }
}

impl<W: Write> Write for Output<W> {
    ghost contents = { λ s. W.contents (writer_of s) };

    fn write(&mut self, buf: &[u8]) -> io::Result<usize>
        ensures bound { WritesAtMost result buf.now }
        ensures bytes { WriteAppends (W.contents (writer_of self.old)) (W.contents (writer_of self.new))
            result buf.now }
        ensures counted { WriteCounted (failed_writes self.old) (failed_writes self.new) result buf.now }
        ensures noted { is_unflushed self.new ≡ true }
    {
        self.unflushed = true;
        let result = self.writer.write(buf);
        let failed = match &result {
            Ok(n) => *n == 0 && !buf.is_empty(),
            Err(_) => true,
        };
        if failed {
            self.count_failure();
        }
        result
    }

    fn flush(&mut self) -> io::Result<()>
        ensures bytes { Keeps (W.contents (writer_of self.old)) (W.contents (writer_of self.new)) }
        ensures counted { FlushCounted (failed_writes self.old) (failed_writes self.new) result }
        ensures noted { MatchResult result (λ _. is_unflushed self.new ≡ false)
            (λ _. is_unflushed self.new ≡ is_unflushed self.old) }
    {
        let result = self.writer.flush();
        if result.is_err() {
            self.count_failure();
        } else {
            self.unflushed = false;
        }
        result
    }
}
