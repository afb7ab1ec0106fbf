//! The files that views read.

use std::fs::File;
use std::io;
use std::io::ErrorKind;

/// Opens the file of this name to read it. A directory, which the system opens too, is no such file.
pub(crate) fn open(rt: &HostRuntime, name: &str) -> io::Result<File> {
    let file = File::open(rt, name)?;
    match file.metadata() {
        Ok(metadata) if metadata.is_dir() => Err(io::Error::from(ErrorKind::IsADirectory)),
        _ => Ok(file),
    }
}
