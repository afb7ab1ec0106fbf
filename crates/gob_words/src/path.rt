//! Paths into a value, as they stand in a line.

ghost use Rattle.std.specs.Prelude.{◌≡◌, IfOk, string_bytes};
ghost use Rattle.std.specs.Str.{chars};
ghost use Rattle.gob_words.specs.Paths.{shortened_path};

use std::alloc::{AllocError, Global};

// The most characters of a path.
const MOST_PATH: usize = 200;

// What stands in place of its middle.
const LEFT_OUT: &str = " .. ";

// The characters on each side of that.
const SIDE: usize = (MOST_PATH - LEFT_OUT.len()) / 2;

/// The path as it stands in a line: of a long one the middle is left out, so that it has 200 characters.
pub fn shortened(alloc: Global, path: &str) -> Result<String, AllocError>
    ensures { IfOk result (λ short. chars (string_bytes short) ≡ shortened_path (chars path.now)) }
{
    let count = path.chars().count();
    if count <= MOST_PATH {
        return String::from_str(alloc, path);
    }
    let end = path.chars().skip(count - SIDE);
    path.chars()
        .take(SIDE)
        .chain(LEFT_OUT.chars())
        .chain(end)
        .collect(alloc)
}
