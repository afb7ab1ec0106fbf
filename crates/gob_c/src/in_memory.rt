//! Runs over bytes that are held in memory, to an output there.

ghost use Rattle.std.specs.Prelude.{IfOk};
ghost use Rattle.gob_stream.specs.Bounds.{within_trees};
ghost use Rattle.gob_c.specs.Converting.{IsConverted};
ghost use Rattle.gob_c.specs.Streams.{IsLinesStream};
ghost use Rattle.gob_c.specs.Texts.{IsShownOf};

use gob_convert::{ConvertFault, ConvertOptions, run_convert};
use gob_left_out::Tally;
use gob_num::Memory;
use gob_stream::{Input, Limits, Output};
use gob_tool::run_show_go;
use gob_why::Said;
use gob_write::{LinesFault, ShownLines, run_write};
use std::alloc::Global;

// The most bytes that a line may have, with its line feed.
const LONGEST_LINE: u64 = 268435456;

/// The stream that lines say, and how the run that wrote it ended.
pub(crate) struct LinesStream {
    /// That of the lines before the fault.
    pub(crate) stream: Vec<u8>,
    pub(crate) answer: Result<(), LinesFault>,
}

// Not derived, so that a drop is one call in the proofs of what owns one.
impl Drop for LinesStream {
    fn drop(self) {
        let LinesStream {
            stream: _,
            answer: _,
        } = self;
    }
}

/// The stream of the values that were converted, how the run that wrote it ended, and what they leave out.
pub(crate) struct Converted {
    /// That of the values before the fault.
    pub(crate) stream: Vec<u8>,
    pub(crate) answer: Result<(), ConvertFault>,
    pub(crate) left_out: Tally,
}

// Not derived, for the same reason.
impl Drop for Converted {
    fn drop(self) {
        let Converted {
            stream: _,
            answer: _,
            left_out: _,
        } = self;
    }
}

/// What [`run_show_go`] writes of these bytes, which are all of a stream: of a refused one the lines of the items
/// before. No value may be deeper than `limits.depth()` or than 1000; what an interface holds is one deeper than the
/// interface.
pub(crate) fn shown_of(alloc: Global, bytes: &[u8], limits: Limits) -> Result<Said, Memory>
    ensures { IfOk result (IsShownOf (within_trees limits) bytes.now) }
{
    let mut input = Input::new(bytes);
    let mut output = Output::new(Vec::new(alloc));
    let answer = run_show_go(alloc, &mut input, &mut output, limits);
    Said::of(answer, output.into_inner())
}

/// What [`run_write`] writes of this text, whose lines are all that there are, with what interfaces hold.
pub(crate) fn stream_of_lines(alloc: Global, text: &[u8]) -> LinesStream
    ensures { IsLinesStream text.now result }
{
    let mut input = Input::new(text);
    let mut output = Output::new(Vec::new(alloc));
    let lines = ShownLines {
        most: LONGEST_LINE,
        holds: true,
    };
    let answer = run_write(alloc, &mut input, &mut output, Limits::standard(), lines);
    LinesStream {
        stream: output.into_inner(),
        answer,
    }
}

/// What [`run_convert`] writes of these bytes, which are all of a stream, for the type of the first value of `wanted`,
/// which is all of another. No value may be deeper than `limits.depth()` or than 1000; what an interface holds is one
/// deeper than the interface.
pub(crate) fn conversion_of(
    alloc: Global,
    options: &ConvertOptions<'_>,
    wanted: &[u8],
    bytes: &[u8],
) -> Converted
    ensures { IsConverted options.now.renames.now options.now.all (within_trees options.now.limits) wanted.now bytes.now
        result }
{
    let mut types = Input::new(wanted);
    let mut input = Input::new(bytes);
    let mut output = Output::new(Vec::new(alloc));
    let mut left_out = Tally::new(alloc);
    let answer = run_convert(
        alloc,
        options,
        &mut types,
        &mut input,
        &mut output,
        &mut left_out,
    );
    Converted {
        stream: output.into_inner(),
        answer,
        left_out,
    }
}
