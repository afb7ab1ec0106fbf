//! The stream that is split into files.

use crate::opening::open;
use crate::part_files::PartFiles;
use crate::way_on::with_way_on;
use crate::{Exit, opened_by_name, unopened_line};
use gob_split::{PartSize, run_split};
use gob_stream::Input;
use gob_tool::ToolFault;
use gob_views::limits_of;
use gob_words::{PartWords, Splitting, View};
use std::fs;
use std::io::Read;

/// Opens the input, makes the directory where there is none, and splits the stream into files there.
pub(crate) fn split(rt: &HostRuntime, view: &View, splitting: &Splitting) -> Result<(), Exit> {
    let ending = match view.input {
        None => split_into_files(rt, view, splitting, rt.stdin()),
        Some(path) => {
            let file = opened_by_name(rt.alloc(), path, open(rt, path))?;
            split_into_files(rt, view, splitting, file)
        }
    };
    with_way_on(rt.alloc(), view, ending)
}

// Splits what the reader gives, and says how many parts there are, unless a file wasn't written.
fn split_into_files<R: Read + Drop>(
    rt: &HostRuntime,
    view: &View,
    splitting: &Splitting,
    reader: R,
) -> Result<(), Exit> {
    make_directory(rt, splitting.directory)?;
    let mut input = Input::new(reader);
    let mut files = PartFiles::new(rt, splitting.directory);
    let size = size_of_parts(splitting.size);
    let answer = run_split(rt.alloc(), &mut input, &mut files, limits_of(view), size);
    if !matches!(answer, Err(ToolFault::Write)) {
        let count = files.count();
        let parts = if count == 1 { "part" } else { "parts" };
        // Where standard error takes no line, the status still tells.
        let _ = eprintln!(rt; "gob: {count} {parts}");
    }
    files.ending(answer)
}

// Makes the directory, and those around it, where there is none.
fn make_directory(rt: &HostRuntime, name: &str) -> Result<(), Exit> {
    if name.is_empty() {
        // The files of no directory would be those of the root.
        let line = format!(in rt.alloc(); "no directory has an empty name")?;
        return Err(Exit::View(line));
    }
    match fs::create_dir_all(rt, name) {
        Ok(()) => Ok(()),
        Err(error) => Err(Exit::View(unopened_line(rt.alloc(), name, &error)?)),
    }
}

// How large parts are, by the words.
fn size_of_parts(size: PartWords) -> PartSize {
    match size {
        PartWords::Bytes(most) => PartSize::Bytes(most),
        PartWords::Values(most) => PartSize::Values(most),
    }
}
