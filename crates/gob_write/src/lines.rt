//! The lines of an input.

ghost use Rattle.std.specs.Prelude.{◌≡◌, ◌<◌, ◌≤◌, ℕ, List, length, IfOk, IfErr};
ghost use Rattle.std.specs.Io.KnownBytes.{Keeps};
ghost use Rattle.gob_stream.specs.Calls.Ends.{failed_reads, failed_writes, reader_of, writer_of};
ghost use Rattle.gob_stream.specs.Calls.Waiting.{waiting, Brings};
ghost use Rattle.gob_write.specs.Faults.{CountsReads, CountsWrites};
ghost use Rattle.gob_write.specs.Lines.{IsLeft, IsDeviceFault, NextLine};

use crate::fault::LinesFault;
use gob_stream::{Input, Output, Waiting};
use memchr::memchr;
use std::io::{Read, Write};

/// How many bytes the next line has, with its line feed: none only at the end of the input. They wait then. The last
/// line may have no line feed. What was written is flushed where the input may have to be waited for. `number` is that
/// of the line, and no line may have more bytes than `most`.
pub(crate) fn next_line<R: Read, W: Write>(
    input: &mut Input<R>,
    buffered: &mut Waiting,
    output: &mut Output<W>,
    most: u64,
    number: u64,
) -> Result<usize, LinesFault>
    ensures line { (bytes : List ℕ) → IsLeft buffered.old (R.remaining (reader_of input.old)) bytes
        → NextLine most number bytes buffered.new (R.remaining (reader_of input.new)) result }
    ensures within { IfOk result (λ count. count ≤ length (waiting buffered.new)) }
    ensures sent { Keeps (W.contents (writer_of output.old)) (W.contents (writer_of output.new)) }
    ensures reads { CountsReads (failed_reads input.old) (failed_reads input.new) result }
    ensures writes { CountsWrites (failed_writes output.old) (failed_writes output.new) result }
{
    let mut searched = 0;
    loop {
        let rest = &buffered.bytes()[searched..];
        if let Some(place) = memchr(b'\n', rest) {
            return within(searched + place + 1, most, number);
        }
        searched = buffered.bytes().len();
        within(searched, most, number)?;
        if read_on(input, buffered, output)? == 0 {
            return Ok(searched);
        }
    }
}

/// The count, where a line or a text may have so many bytes.
pub(crate) fn within(count: usize, most: u64, number: u64) -> Result<usize, LinesFault>
    ensures count { IfOk result (λ n. (n ≡ count) × (count ≤ most)) }
    ensures long { IfErr result (λ f. (f ≡ LinesFault.TooLong number most) × (most < count)) }
{
    if count as u64 > most {
        return Err(LinesFault::TooLong { line: number, most });
    }
    Ok(count)
}

/// Reads behind the bytes that wait, and answers how many came. What was written is flushed before, where the input
/// may have to be waited for.
pub(crate) fn read_on<R: Read, W: Write>(
    input: &mut Input<R>,
    buffered: &mut Waiting,
    output: &mut Output<W>,
) -> Result<usize, LinesFault>
    ensures read { IfOk result (λ count. Brings (R.remaining (reader_of input.old)) (R.remaining (reader_of input.new))
        (waiting buffered.old) (waiting buffered.new) count) }
    ensures fault { IfErr result IsDeviceFault }
    ensures sent { Keeps (W.contents (writer_of output.old)) (W.contents (writer_of output.new)) }
    ensures reads { CountsReads (failed_reads input.old) (failed_reads input.new) result }
    ensures writes { CountsWrites (failed_writes output.old) (failed_writes output.new) result }
{
    if buffered.has_room() {
        if let Err(_) = output.flush_written() {
            return Err(LinesFault::Write);
        }
    }
    Ok(buffered.read_more(input)?)
}
