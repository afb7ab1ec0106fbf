//! Names of files, as words give them, and as words of a shell.

use crate::lines::words_of;
use gob_words::{files_of, quoted};
use std::alloc::{AllocError, Global};
use std::test::*;

// Words behind the program's name, and the files that they name, in lines one after the other.
const FILES: &str = "\
verify a.gob
a.gob
verify a b a
a b a
verify --depth 5 a --item 7 - b
a - b
verify a -- --go -
a --go -
join a - b
a - b
values a

verify

verify --go a
";

// The names, with a space between two.
fn joined(alloc: Global, files: &[&str]) -> Result<String, AllocError> {
    let mut text = String::new(alloc);
    for file in files {
        if !text.is_empty() {
            text.push(' ')?;
        }
        text.push_str(file)?;
    }
    Ok(text)
}

// Whether the words of the line name these files.
fn names(alloc: Global, line: &str, due: &str) -> Result<bool, AllocError> {
    let words = words_of(alloc, line)?;
    let files = files_of(alloc, &words)?;
    Ok(joined(alloc, &files)?.as_str() == due)
}

// The words that name others.
fn otherwise_named(alloc: Global) -> Option<&'static str> {
    let mut lines = FILES.lines();
    while let Some(line) = lines.next() {
        if names(alloc, line, lines.next().unwrap_or("")) != Ok(true) {
            return Some(line);
        }
    }
    None
}

#[test]
fn words_name_files(rt: HostRuntime) {
    let otherwise = otherwise_named(rt.alloc());
    assert!(rt; otherwise.is_none(), "{otherwise:?}");
}

// Names, and how a shell is told them.
const QUOTED: [(&str, &str); 8] = [
    ("cache.gob", "cache.gob"),
    ("/a_b/C-1.gob", "/a_b/C-1.gob"),
    ("", "''"),
    ("a b", "'a b'"),
    ("it's", "'it'\\''s'"),
    ("~$x;`é", "'~$x;`é'"),
    ("a\\b", "'a\\b'"),
    ("a\u{1b}b", "'a\\u{1b}b'"),
];

fn is_quoted(alloc: Global, name: &str, due: &str) -> bool {
    match quoted(alloc, name) {
        Ok(word) => word.as_str() == due,
        Err(_) => false,
    }
}

#[test]
fn names_are_words_of_a_shell(rt: HostRuntime) {
    for (name, due) in &QUOTED {
        assert!(rt; is_quoted(rt.alloc(), name, due), "{due}");
    }
}
