//! Why a stream that is held in memory is refused, or how much is in a whole one.

ghost use Rattle.std.specs.Prelude.{IfOk};
ghost use Rattle.gob_stream.specs.Bounds.{within_trees};
ghost use Rattle.gob_why.specs.Said.{IsSaidOf};

use crate::run::run_why;
use crate::said::Said;
use gob_num::Memory;
use gob_stream::{Input, Limits, Output};
use std::alloc::Global;

/// What [`run_why`] writes of these bytes, which are all of a stream, the last line with its line feed. No value may be
/// deeper than `limits.depth()` or than 1000; what an interface holds is one deeper than the interface. `name` is that
/// of the file that they are of, if it has one: what to type has it in place of IN.
pub fn why_of(
    alloc: Global,
    bytes: &[u8],
    limits: Limits,
    name: Option<&str>,
) -> Result<Said, Memory>
    ensures { IfOk result (IsSaidOf (within_trees limits) bytes.now) }
{
    let mut input = Input::new(bytes);
    let mut output = Output::new(Vec::new(alloc));
    let answer = run_why(alloc, &mut input, &mut output, limits, name);
    Said::of(answer, output.into_inner())
}
