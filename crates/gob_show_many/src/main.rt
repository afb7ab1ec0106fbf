//! Shows many streams in one run, each in the pieces in which it is to come, so that what the library makes of them can
//! be compared with what a judge does (`tools/judge-mutants`).
//!
//! Standard input has vectors, one behind another: a stream with its limits and how it is cut (see `Vector`). Of each
//! the lines that `gob show` prints stand on standard output, that of a fault too, and then an empty line. The exit
//! status is 0, or 1 with a line on standard error.
#![tactic(auto)]

mod fault;
mod pieces;
mod showing;
mod vector;

use fault::Fault;
use showing::show;
use std::alloc::Global;
use std::io::{Read, Write};
use std::process::ExitCode;
use vector::Vector;

fn main(rt: HostRuntime) -> ExitCode {
    match run(&rt) {
        Ok(()) => ExitCode::SUCCESS,
        Err(fault) => {
            // Where standard error takes no line, the status still tells.
            let _ = eprintln!(rt; "gob_show_many: {fault}");
            ExitCode::from(1)
        }
    }
}

fn run(rt: &HostRuntime) -> Result<(), Fault> {
    let mut input = Vec::new(rt.alloc());
    rt.stdin().read_to_end(&mut input)?;
    let mut out = Vec::new(rt.alloc());
    show_all(rt.alloc(), input.as_slice(), &mut out)?;
    rt.stdout().write_all(out.as_slice())?;
    Ok(())
}

// Appends what is shown of each of these vectors.
fn show_all(alloc: Global, bytes: &[u8], out: &mut Vec<u8>) -> Result<(), Fault> {
    let mut rest = bytes;
    // each vector takes a byte at least
    for _ in 0..bytes.len() {
        if rest.is_empty() {
            break;
        }
        let Some((vector, behind)) = Vector::split_from(rest) else {
            return Err(Fault::Vector);
        };
        show(alloc, vector, out)?;
        rest = behind;
    }
    Ok(())
}
