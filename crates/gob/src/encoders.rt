//! Files to which several encoders wrote.

use crate::opening::open;
use crate::progress::size_of;
use gob_appended::Appended;
use std::fs::File;

/// The file without the definitions that are said again. None: it is none on a disk, so it can't be read once more, or
/// isn't opened, or there is no memory.
pub(crate) fn appended_file(rt: &HostRuntime, path: &str) -> Option<Appended<File>> {
    let file = open(rt, path).ok()?;
    size_of(&file)?;
    Appended::new(rt.alloc(), file).ok()
}

/// How many encoders are seen to have written what was read. It stays at 2^64-1 once there.
pub(crate) fn encoders_of<R>(appended: &Appended<R>) -> u64 {
    appended.encoders_anew().saturating_add(1)
}
