//! What `gob why` tells of how much `gob salvage` keeps of a refused file.

use crate::Exit;
use crate::opening::open;
use crate::progress::size_of;
use crate::verify::sent;
use gob_salvage::{kept_line, salvage_all};
use gob_stream::Input;
use gob_views::limits_of;
use gob_words::View;
use std::io::Read;

// Of a larger file it isn't told, since all of it is kept in memory.
const MOST: u64 = 64 << 20;

/// Says on standard output how much is kept of the file that the view is of. Nothing is said where nothing is kept,
/// where there is no memory for it or the file can't be read once more, and of standard input. An error is a failed
/// write.
pub(crate) fn say_kept(rt: &HostRuntime, view: &View) -> Result<(), Exit> {
    match line_of_kept(rt, view) {
        Some(line) => sent(println!(rt; "{line}")),
        None => Ok(()),
    }
}

// The line of it, where one is said.
fn line_of_kept(rt: &HostRuntime, view: &View) -> Option<String> {
    let file = open(rt, view.input?).ok()?;
    if size_of(&file)? > MOST {
        return None;
    }
    let mut input = Input::new(file.take(MOST));
    let kept = salvage_all(rt.alloc(), &mut input, limits_of(view)).ok()?;
    if kept.items == 0 {
        return None;
    }
    kept_line(rt.alloc(), &kept).ok()
}
