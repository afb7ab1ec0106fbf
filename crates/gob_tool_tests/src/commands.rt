//! Runs of the commands, and how they end.

use gob_convert::{ConvertFault, ConvertOptions};
use gob_left_out::Tally;
use gob_rename::Rename;
use gob_stream::{Input, Limits, Output};
use gob_tool::{ToolFault, run_check, run_convert, run_rewrite, run_show, run_take};
use std::alloc::Global;
use std::io::{Read, Write};

/// A command, with the wanted stream where it takes one.
#[derive(Clone, Copy)]
pub(crate) enum Command<'a> {
    Show,
    Check,
    Rewrite,
    Take(&'a [u8]),
    Convert(&'a [u8]),
    /// The conversion of a stream of Go's encoder, with fields that have other names there. Each fits the wanted types.
    ConvertGo(&'a [u8], &'a [Rename<'a>]),
    /// The lines of what such a conversion writes.
    TakeGo(&'a [u8]),
}

impl<'a> Command<'a> {
    /// How a run over these devices ends.
    pub(crate) fn run<R: Read + Drop, W: Write + Drop>(
        self,
        alloc: Global,
        limits: Limits,
        reader: R,
        writer: W,
    ) -> Result<(), ToolFault> {
        let mut input = Input::new(reader);
        let mut output = Output::new(writer);
        self.run_over(alloc, limits, &mut input, &mut output)
    }

    /// How a run over these ends.
    pub(crate) fn run_over<R: Read, W: Write>(
        self,
        alloc: Global,
        limits: Limits,
        input: &mut Input<R>,
        output: &mut Output<W>,
    ) -> Result<(), ToolFault> {
        match self {
            Command::Show => run_show(alloc, input, output, limits),
            Command::Check => run_check(alloc, input, output, limits),
            Command::Rewrite => run_rewrite(alloc, input, output, limits),
            Command::Take(wanted) => {
                let mut wanted = Input::new(wanted);
                run_take(alloc, &mut wanted, input, output, limits)
            }
            Command::Convert(wanted) => {
                let mut wanted = Input::new(wanted);
                run_convert(alloc, &mut wanted, input, output, limits)
            }
            Command::ConvertGo(wanted, renames) => {
                let options = ConvertOptions {
                    renames,
                    all: false,
                    limits,
                };
                let mut left_out = Tally::new(alloc);
                fitting(
                    alloc,
                    convert_go(alloc, &options, wanted, input, output, &mut left_out),
                )
            }
            Command::TakeGo(wanted) => {
                let options = ConvertOptions {
                    renames: &[],
                    all: false,
                    limits,
                };
                let mut left_out = Tally::new(alloc);
                fitting(
                    alloc,
                    take_go(alloc, &options, wanted, input, output, &mut left_out),
                )
            }
        }
    }
}

/// How the conversion of a stream of Go's encoder ends.
pub(crate) fn convert_go<R: Read, W: Write>(
    alloc: Global,
    options: &ConvertOptions<'_>,
    wanted: &[u8],
    input: &mut Input<R>,
    output: &mut Output<W>,
    left_out: &mut Tally,
) -> Result<(), ConvertFault> {
    let mut wanted = Input::new(wanted);
    gob_convert::run_convert(alloc, options, &mut wanted, input, output, left_out)
}

/// How the run ends that prints what such a conversion writes.
pub(crate) fn take_go<R: Read, W: Write>(
    alloc: Global,
    options: &ConvertOptions<'_>,
    wanted: &[u8],
    input: &mut Input<R>,
    output: &mut Output<W>,
    left_out: &mut Tally,
) -> Result<(), ConvertFault> {
    let mut wanted = Input::new(wanted);
    gob_convert::run_take_go(alloc, options, &mut wanted, input, output, left_out)
}

// How a conversion ended whose renames fit, and which isn't full.
fn fitting(alloc: Global, ended: Result<(), ConvertFault>) -> Result<(), ToolFault> {
    match ended {
        Ok(()) => Ok(()),
        Err(ConvertFault::Run(fault)) => Err(fault),
        Err(ConvertFault::Clash(mut clash)) => {
            let none = Vec::new(alloc);
            Err(ToolFault::Clash {
                path: std::mem::replace(&mut clash.path, none),
                reason: clash.reason,
            })
        }
        Err(ConvertFault::Misfits { .. } | ConvertFault::Full(_)) => Err(ToolFault::NoWantedType),
    }
}

/// Whether a run ended by a fault with this line, or without one where the line is empty.
pub(crate) fn ends_so(alloc: Global, ended: Result<(), ToolFault>, line: &[u8]) -> bool {
    match ended {
        Ok(()) => line.is_empty(),
        Err(fault) => has_line(alloc, &fault, line),
    }
}

fn has_line(alloc: Global, fault: &ToolFault, line: &[u8]) -> bool {
    match fault.to_string(alloc) {
        Ok(text) => text.as_bytes() == line,
        Err(_) => false,
    }
}

/// Whether a run over this reader writes this, and ends by a fault with this line, or without one where the line is
/// empty.
pub(crate) fn is_run<R: Read + Drop>(
    alloc: Global,
    command: Command<'_>,
    limits: Limits,
    reader: R,
    written: &[u8],
    due: &[u8],
) -> bool {
    let mut held = Vec::new(alloc);
    let is_ended = ends_so(alloc, command.run(alloc, limits, reader, &mut held), due);
    is_ended && held.as_slice() == written
}
