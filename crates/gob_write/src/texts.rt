//! The texts of an input, each of which says one JSON value at most.

ghost use Rattle.std.specs.Prelude.{◌≡◌, ◌≤◌, ℕ, List, length, IfOk, IsFalse, IsTrue};
ghost use Rattle.std.specs.Io.KnownBytes.{Keeps};
ghost use Rattle.gob_stream.specs.Calls.Ends.{failed_reads, failed_writes, reader_of, writer_of};
ghost use Rattle.gob_stream.specs.Calls.Waiting.{waiting};
ghost use Rattle.gob_write.specs.Faults.{CountsReads, CountsWrites};
ghost use Rattle.gob_write.specs.Lines.{IsLeft};
ghost use Rattle.gob_write.specs.Texts.{EndsIn, IsSearched, NextText, begun_by, byte_mark, closed_in, open_behind};
ghost use Rattle.gob_write.specs.Texts.{open_in_brackets};

use crate::fault::LinesFault;
use crate::lines::{read_on, within};
use gob_stream::{Input, Output, Waiting};
use std::io::{Read, Write};

/// What is open behind the bytes of a text.
#[derive(Clone, Copy, Debug, PartialEq, Eq)]
pub(crate) enum Open {
    /// Nothing: there is white space alone.
    Nothing,
    /// A number or a word.
    Word,
    /// So many brackets and braces, one at least. The number stays at the greatest once there.
    Brackets(usize),
    /// A string within so many brackets and braces.
    Str(usize),
    /// An escape in a string within so many brackets and braces.
    Escape(usize),
}

/// What a byte is to the end of a text.
#[derive(Clone, Copy, Debug, PartialEq, Eq)]
pub(crate) enum Mark {
    /// A line feed.
    Feed,
    /// Other white space.
    Blank,
    /// A bracket or a brace that opens.
    Opening,
    /// One that closes.
    Closing,
    /// A quote of a string.
    Quote,
    /// A backslash.
    Backslash,
    /// Any other byte.
    Other,
}

/// How far the end of a text was searched for.
#[derive(Clone, Copy, Debug, PartialEq, Eq)]
pub(crate) struct Searched {
    /// How many bytes were searched.
    pub count: usize,
    /// What is open behind them.
    pub unclosed: Open,
}

/// How many bytes the next text has: none only at the end of the input. They wait then. What was written is flushed
/// where the input may have to be waited for. `line` is that at which the text begins, and no text may have more bytes
/// than `most`.
pub(crate) fn next_text<R: Read, W: Write>(
    input: &mut Input<R>,
    buffered: &mut Waiting,
    output: &mut Output<W>,
    most: u64,
    line: u64,
) -> Result<usize, LinesFault>
    ensures text { (bytes : List ℕ) → IsLeft buffered.old (R.remaining (reader_of input.old)) bytes
        → NextText most line bytes buffered.new (R.remaining (reader_of input.new)) result }
    ensures within { IfOk result (λ count. count ≤ length (waiting buffered.new)) }
    ensures sent { Keeps (W.contents (writer_of output.old)) (W.contents (writer_of output.new)) }
    ensures reads { CountsReads (failed_reads input.old) (failed_reads input.new) result }
    ensures writes { CountsWrites (failed_writes output.old) (failed_writes output.new) result }
{
    let mut searched = Searched {
        count: 0,
        unclosed: Open::Nothing,
    };
    'reads: loop {
        if searched.ends_in(buffered.bytes()) {
            return within(searched.count, most, line);
        }
        within(searched.count, most, line)?;
        if read_on(input, buffered, output)? == 0 {
            return Ok(searched.count);
        }
    }
}

impl Searched {
    /// Searches on in the bytes of the text and what may stand behind it. True: the text ends behind those that were
    /// searched. False: it goes on behind all bytes.
    fn ends_in(&mut self, bytes: &[u8]) -> bool
        requires { IsSearched self.old bytes.now }
        ensures ends { IsTrue result → EndsIn self.new bytes.now }
        ensures goes_on { IsFalse result → IsSearched self.new bytes.now × (self.new.count ≡ length bytes.now) }
    {
        'bytes: while self.count < bytes.len() {
            let mark = mark_of(bytes[self.count]);
            self.count += 1;
            match left_open(self.unclosed, mark) {
                Some(unclosed) => self.unclosed = unclosed,
                None => return true,
            }
        }
        false
    }
}

/// What is open behind one more byte. None: the text ends behind it.
fn left_open(unclosed: Open, mark: Mark) -> Option<Open>
    ensures { result ≡ open_behind unclosed mark }
{
    match unclosed {
        Open::Nothing => match mark {
            Mark::Feed => None,
            Mark::Blank => Some(Open::Nothing),
            mark => begun(mark),
        },
        Open::Word => match mark {
            Mark::Feed | Mark::Blank => None,
            mark => begun(mark),
        },
        Open::Brackets(depth) => within_brackets(depth, mark),
        Open::Str(depth) => match mark {
            Mark::Feed => None,
            Mark::Quote => closed(depth),
            Mark::Backslash => Some(Open::Escape(depth)),
            _ => Some(Open::Str(depth)),
        },
        Open::Escape(depth) => match mark {
            Mark::Feed => None,
            _ => Some(Open::Str(depth)),
        },
    }
}

// What is open behind a byte that is no white space, where nothing was but a number or a word.
fn begun(mark: Mark) -> Option<Open>
    ensures { result ≡ begun_by mark }
{
    match mark {
        Mark::Opening => Some(Open::Brackets(1)),
        Mark::Closing => None,
        Mark::Quote => Some(Open::Str(0)),
        _ => Some(Open::Word),
    }
}

// What is open behind a byte that stands within so many brackets and braces.
fn within_brackets(depth: usize, mark: Mark) -> Option<Open>
    ensures { result ≡ open_in_brackets depth mark }
{
    match mark {
        Mark::Opening => Some(Open::Brackets(depth.saturating_add(1))),
        Mark::Closing => closed(depth.saturating_sub(1)),
        Mark::Quote => Some(Open::Str(depth)),
        _ => Some(Open::Brackets(depth)),
    }
}

// What is open where so many brackets and braces are, behind the end of a string or of another bracket.
fn closed(depth: usize) -> Option<Open>
    ensures { result ≡ closed_in depth }
{
    if depth == 0 {
        return None;
    }
    Some(Open::Brackets(depth))
}

// What the byte is to the end of a text.
fn mark_of(byte: u8) -> Mark
    ensures { result ≡ byte_mark byte }
{
    match byte {
        b'\n' => Mark::Feed,
        b' ' | b'\t' | b'\r' => Mark::Blank,
        b'{' | b'[' => Mark::Opening,
        b'}' | b']' => Mark::Closing,
        b'"' => Mark::Quote,
        b'\\' => Mark::Backslash,
        _ => Mark::Other,
    }
}
