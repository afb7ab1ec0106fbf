//! What is told on standard error of how far a reading is.

use gob_progress::{Meter, Watched};
use std::fs::File;
use std::io::Stderr;
use std::time::Instant;

/// The reader, which tells how far it is, of so many bytes where that is known, if that is asked for.
pub(crate) fn watched<R>(
    rt: &HostRuntime,
    reader: R,
    size: Option<u64>,
    is_asked: bool,
) -> Watched<'_, R, Stderr, HostRuntime> {
    // Without a clock nothing is told.
    let started = if is_asked {
        Instant::now(rt).ok()
    } else {
        None
    };
    Watched::new(
        rt.alloc(),
        reader,
        Meter::new(rt.stderr(), rt, started, size),
    )
}

/// How many bytes the file has. None: it is no file on a disk, as a pipe, or the system doesn't say.
pub(crate) fn size_of(file: &File) -> Option<u64> {
    let metadata = file.metadata().ok()?;
    if metadata.is_file() {
        Some(metadata.len())
    } else {
        None
    }
}
