//! What is said of a file: whether it is a whole stream.

ghost use Rattle.std.specs.Prelude.{◌≡◌, ℕ, List, Some, IfOk};
ghost use Rattle.gob_stream.specs.Bounds.{within_trees};
ghost use Rattle.gob_stream.specs.Calls.Ends.{reader_of};
ghost use Rattle.gob_views.specs.Verify.{IsSaid, IsToldOf, told_of};

use gob_num::Memory;
use gob_stream::{Input, Limits, Output};
use gob_tool::{ToolFault, run_check_go};
use gob_words::escaped;
use std::alloc::Global;
use std::io::Read;

/// What is said of a file, and why it is no whole stream, where it is none.
#[derive(Drop)]
pub struct ToldFile {
    /// The line with the name of the file, as `a.gob: ok: 3 items, 2 types, 1040 bytes`, or with the reason. It ends in
    /// a line feed.
    pub line: Vec<u8>,
    /// Ok exactly for a whole stream. Else it is refused, or a read failed.
    pub answer: Result<(), ToolFault>,
}

/// Reads a stream of Go's encoder to its end, and says what there is in it behind the name of its file. What it takes
/// in memory grows with the types and the largest item alone. No value may be deeper than `limits.depth()` or than
/// 1000; what an interface holds is one deeper than the interface.
pub fn tell_file<R: Read>(
    alloc: Global,
    name: &str,
    input: &mut Input<R>,
    limits: Limits,
) -> Result<ToldFile, Memory>
    ensures { IfOk result (λ told. (bytes : List ℕ) → R.remaining (reader_of input.old) ≡ Some bytes
        → IsToldOf name.now (within_trees limits) bytes (R.remaining (reader_of input.new)) told.answer
        told.line.items) }
{
    let mut counts = Output::new(Vec::new(alloc));
    let answer = run_check_go(alloc, input, &mut counts, limits);
    let said = said_of(alloc, &answer, counts.into_inner())?;
    let line = line_about(alloc, name, &said)?;
    Ok(ToldFile { line, answer })
}

/// What is said behind the name of a file of which a check answered this and wrote this line. `Memory` also where the
/// check ended by no fault of the file.
fn said_of(alloc: Global, answer: &Result<(), ToolFault>, line: Vec<u8>) -> Result<Vec<u8>, Memory>
    ensures { IfOk result (λ said. IsSaid answer.now line.items said.items) }
{
    match answer {
        Ok(()) => Ok(line),
        Err(ToolFault::Refused(refusal)) => Ok(format!(in alloc; "{refusal}\n")?.into_bytes()),
        Err(ToolFault::Read) => Ok(b"read fault\n".to_vec(alloc)?),
        Err(_) => Err(Memory),
    }
}

/// The line about the file of this name.
fn line_about(alloc: Global, name: &str, said: &[u8]) -> Result<Vec<u8>, Memory>
    ensures { IfOk result (λ line. line.items ≡ told_of name.now said.now) }
{
    let mut line = escaped(alloc, name)?.into_bytes();
    line.extend_from_slice(b": ")?;
    line.extend_from_slice(said)?;
    Ok(line)
}
