//! Paths as they stand in a line.

use gob_words::shortened;
use std::alloc::{AllocError, Global};
use std::test::*;

// What stands between the first and the last 98 characters of a path, and what stands there in a line.
const MIDDLES: [(&str, &str); 5] = [
    ("", ""),
    ("[0]", "[0]"),
    ("[éé]", "[éé]"),
    ("[ééé]", " .. "),
    ("[1] key.Name", " .. "),
];

// The text, with 98 characters of two bytes before it, and 98 others behind it.
fn between_sides(alloc: Global, middle: &str) -> Result<String, AllocError> {
    let mut path = String::new(alloc);
    for _ in 0..98 {
        path.push('é')?;
    }
    path.push_str(middle)?;
    for _ in 0..98 {
        path.push('ü')?;
    }
    Ok(path)
}

fn is_shortened(alloc: Global, middle: &str, due: &str) -> Result<bool, AllocError> {
    let path = between_sides(alloc, middle)?;
    let line = shortened(alloc, path.as_str())?;
    Ok(line.as_str() == between_sides(alloc, due)?.as_str())
}

#[test]
fn long_paths_stand_without_their_middle(rt: HostRuntime) {
    for (middle, due) in &MIDDLES {
        assert!(rt;
            is_shortened(rt.alloc(), middle, due) == Ok(true),
            "{middle}"
        );
    }
}
