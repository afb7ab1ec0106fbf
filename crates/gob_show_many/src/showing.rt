//! What is shown of a vector.

use crate::fault::Fault;
use crate::vector::Vector;
use gob_stream::{Input, Output};
use gob_tool::run_show;
use std::alloc::Global;
use std::io::Write;

/// Appends the lines of a vector's items, the line of the fault where there is one, and an empty line.
pub(crate) fn show(alloc: Global, vector: Vector<'_>, out: &mut Vec<u8>) -> Result<(), Fault> {
    let Vector { limits, pieces } = vector;
    let mut input = Input::new(pieces);
    let mut output = Output::new(&mut *out);
    let shown = run_show(alloc, &mut input, &mut output, limits);
    if let Err(fault) = shown {
        writeln!(out, "{fault}")?;
    }
    out.push(b'\n')?;
    Ok(())
}
