//! What is in a stream that is held in memory: its types as Go source, and its values as plain JSON.

ghost use Rattle.std.specs.Prelude.{IfOk};
ghost use Rattle.gob_stream.specs.Bounds.{within_trees};
ghost use Rattle.gob_views.specs.InMemory.{AreLinesIn, IsSourceOf};

use crate::types::{SourceForm, run_types};
use crate::value_line::ValueLines;
use crate::values::run_values;
use gob_num::Memory;
use gob_stream::{Input, Limits, Output};
use gob_why::Said;
use std::alloc::Global;

/// What [`run_types`] writes of these bytes, which are all of a stream: of a refused one the types of the items before.
/// No value may be deeper than `limits.depth()` or than 1000; what an interface holds is one deeper than the interface.
pub fn types_of(
    alloc: Global,
    bytes: &[u8],
    limits: Limits,
    form: SourceForm,
) -> Result<Said, Memory>
    ensures { IfOk result (IsSourceOf form (within_trees limits) bytes.now) }
{
    let mut input = Input::new(bytes);
    let mut output = Output::new(Vec::new(alloc));
    let answer = run_types(alloc, &mut input, &mut output, limits, form);
    Said::of(answer, output.into_inner())
}

/// What [`run_values`] writes of these bytes, which are all of a stream: of a refused one the lines of the values
/// before. No value may be deeper than `limits.depth()` or than 1000; what an interface holds is one deeper than the
/// interface.
pub fn values_of(
    alloc: Global,
    bytes: &[u8],
    limits: Limits,
    lines: ValueLines<'_>,
) -> Result<Said, Memory>
    ensures { IfOk result (AreLinesIn lines.entry (within_trees limits) bytes.now) }
{
    let mut input = Input::new(bytes);
    let mut output = Output::new(Vec::new(alloc));
    let answer = run_values(alloc, &mut input, &mut output, limits, lines);
    Said::of(answer, output.into_inner())
}
