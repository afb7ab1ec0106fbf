//! Runs whose readers or writers fail in one of their calls.

use crate::commands::{Command, ends_so, is_run};
use crate::devices::{PieceReader, SlowWriter, Trouble};
use crate::streams::THREE;
use crate::takes::{A_AND_B, B_AND_C, X_TWICE};
use crate::trials::{HELD, TAKEN, Trial, trials};
use gob_stream::{Input, Limits, Output};
use gob_tool::{run_show, run_take};
use std::alloc::Global;
use std::io::ErrorKind;
use std::test::*;

// How readers fail.
const KINDS: [ErrorKind; 2] = [ErrorKind::Interrupted, ErrorKind::Other];

// What trouble writers make.
const TROUBLES: [Trouble; 3] = [
    Trouble::Error(ErrorKind::Interrupted),
    Trouble::Error(ErrorKind::Other),
    Trouble::TakesNothing,
];

// What is written, and the line of the fault, where a reader that gives a byte a call fails in this one. There is a
// call for each byte, one for the end of the stream, and none behind it.
fn due_of_reader(trial: &Trial, fails_at: usize) -> (&'static [u8], &'static [u8]) {
    if fails_at <= trial.stream.len() {
        (trial.written_within(fails_at), b"gob: read fault")
    } else {
        (trial.written, b"")
    }
}

// The call in which a reader fails so that something else is written, or the run ends otherwise.
fn wrong_read(alloc: Global, trial: &Trial, kind: ErrorKind) -> Option<usize> {
    for fails_at in 0..=trial.stream.len().saturating_add(1) {
        let (written, due) = due_of_reader(trial, fails_at);
        let reader = PieceReader::failing(trial.stream, 1, fails_at, kind);
        if !is_run(
            alloc,
            trial.command,
            Limits::standard(),
            reader,
            written,
            due,
        ) {
            return Some(fails_at);
        }
    }
    None
}

#[test]
fn readers_fail_once(rt: HostRuntime) {
    for trial in &trials() {
        for kind in KINDS {
            let wrong = wrong_read(rt.alloc(), trial, kind);
            assert!(rt; wrong.is_none(), "{}, fails at {wrong:?}", trial.what);
        }
    }
}

// Whether a writer that makes trouble in this call ends the run so, and a byte was written in each call before.
fn writer_fails_so(
    alloc: Global,
    trial: &Trial,
    fails_at: usize,
    trouble: Trouble,
    due: &[u8],
) -> bool {
    let mut device = SlowWriter::new(alloc, fails_at, trouble, false);
    let limits = Limits::standard();
    let ended = trial.command.run(alloc, limits, trial.stream, &mut device);
    let written = trial.written.get(..fails_at).unwrap_or(trial.written);
    ends_so(alloc, ended, due) && device.held.as_slice() == written
}

// The call in which a writer makes trouble so that this isn't so. There is a call for each byte, and none behind it.
fn wrong_write(alloc: Global, trial: &Trial, trouble: Trouble) -> Option<usize> {
    let calls = trial.written.len();
    for fails_at in 0..=calls.saturating_add(1) {
        let due: &[u8] = if fails_at < calls {
            b"gob: write fault"
        } else {
            b""
        };
        if !writer_fails_so(alloc, trial, fails_at, trouble, due) {
            return Some(fails_at);
        }
    }
    None
}

#[test]
fn writers_fail_once(rt: HostRuntime) {
    for trial in &trials() {
        for trouble in TROUBLES {
            let wrong = wrong_write(rt.alloc(), trial, trouble);
            assert!(rt; wrong.is_none(), "{}, fails at {wrong:?}", trial.what);
        }
    }
}

#[test]
fn a_reader_of_held_values_fails_once(rt: HostRuntime) {
    for trial in &[HELD, TAKEN] {
        let wrong = wrong_read(rt.alloc(), trial, ErrorKind::Other);
        assert!(rt; wrong.is_none(), "{}, fails at {wrong:?}", trial.what);
    }
}

#[test]
fn a_writer_of_held_values_fails_once(rt: HostRuntime) {
    for trial in &[HELD, TAKEN] {
        let wrong = wrong_write(rt.alloc(), trial, Trouble::TakesNothing);
        assert!(rt; wrong.is_none(), "{}, fails at {wrong:?}", trial.what);
    }
}

// Whether a reader of the wanted stream that fails in this call ends the run, and nothing is written.
fn wanted_fails_so(alloc: Global, fails_at: usize, kind: ErrorKind) -> bool {
    let mut held = Vec::new(alloc);
    let mut wanted = Input::new(PieceReader::failing(B_AND_C, 1, fails_at, kind));
    let mut input = Input::new(A_AND_B);
    let mut output = Output::new(&mut held);
    let limits = Limits::standard();
    let ended = run_take(alloc, &mut wanted, &mut input, &mut output, limits);
    ends_so(alloc, ended, b"gob: read fault") && held.is_empty()
}

#[test]
fn readers_of_the_wanted_stream_fail_once(rt: HostRuntime) {
    for kind in KINDS {
        // A call for each byte, and one for the end of the wanted stream.
        for fails_at in 0..33usize {
            let is_right = wanted_fails_so(rt.alloc(), fails_at, kind);
            assert!(rt; is_right, "fails at {fails_at}");
        }
    }
}

// A command, the stream, and the line of the fault where the writer fails to be flushed, which comes last: a run that
// is refused ends by the refusal all the same.
const FLUSHES: [(Command<'static>, &[u8], &str); 7] = [
    (Command::Check, THREE, "gob: write fault"),
    (Command::Check, b"\x00", "gob: refused 5 Short at 1 seen 1"),
    (Command::Rewrite, THREE, "gob: write fault"),
    (
        Command::Rewrite,
        b"\x00",
        "gob: refused 5 Short at 1 seen 1",
    ),
    (Command::Take(B_AND_C), A_AND_B, "gob: write fault"),
    (Command::Take(b""), A_AND_B, "gob: refused 35 NoWantedType"),
    (
        Command::Take(X_TWICE),
        A_AND_B,
        "gob: clash 31 RepeatedName at top",
    ),
];

// Whether a run over these bytes, whose writer fails to be flushed, ends by a fault of this line.
fn flush_fails_so(alloc: Global, command: Command<'_>, bytes: &[u8], due: &str) -> bool {
    let mut device = SlowWriter::new(alloc, 1000, Trouble::TakesNothing, true);
    let ended = command.run(alloc, Limits::standard(), bytes, &mut device);
    ends_so(alloc, ended, due.as_bytes())
}

#[test]
fn flushes_fail_last(rt: HostRuntime) {
    for (command, bytes, due) in FLUSHES {
        let is_right = flush_fails_so(rt.alloc(), command, bytes, due);
        assert!(rt; is_right, "{due}");
    }
}

// Two whole items, and one before a refusal, with the line of the fault.
const SHOWN: [(&[u8], &str); 2] = [
    (b"\x03\x04\x00\x06\x03\x02\x00\x01", "gob: write fault"),
    (b"\x03\x04\x00\x06\x00", "gob: refused 5 Short at 5 seen 5"),
];

// Whether a run over these bytes, whose writer fails to be flushed, ends so, and one failure is counted.
fn is_counted(alloc: Global, bytes: &[u8], due: &str) -> bool {
    let mut device = SlowWriter::new(alloc, 1000, Trouble::TakesNothing, true);
    let mut input = Input::new(bytes);
    let mut output = Output::new(&mut device);
    let ended = run_show(alloc, &mut input, &mut output, Limits::standard());
    ends_so(alloc, ended, due.as_bytes()) && output.failures() == 1
}

#[test]
fn flushes_that_fail_are_counted(rt: HostRuntime) {
    for (bytes, due) in SHOWN {
        assert!(rt; is_counted(rt.alloc(), bytes, due), "{due}");
    }
}
