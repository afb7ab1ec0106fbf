//! Words that say which field has another name in a stream.

use gob_rename::{Rename, WordFault};
use std::test::*;

// Words, and the names that they say: of a struct or none, the old one and the new one.
const SAID: [(&str, Option<&[u8]>, &[u8], &[u8]); 5] = [
    ("User=Name", None, b"User", b"Name"),
    ("Login.User=Name", Some(b"Login"), b"User", b"Name"),
    ("main.Pair.A=B", Some(b"main.Pair"), b"A", b"B"),
    ("a=b=c.d", None, b"a", b"b=c.d"),
    (" =é", None, b" ", b"\xc3\xa9"),
];

#[test]
fn words_say_renames(rt: HostRuntime) {
    for (word, of, old, new) in &SAID {
        let due = Rename {
            of: *of,
            old: *old,
            new: *new,
        };
        assert!(rt; Rename::said_by(word) == Ok(due), "{word}");
    }
}

// Words that say nothing, and why.
const UNSAID: [(&str, WordFault); 8] = [
    ("", WordFault::NoEqualsSign),
    ("User", WordFault::NoEqualsSign),
    ("Login.User", WordFault::NoEqualsSign),
    ("=", WordFault::EmptyName),
    ("User=", WordFault::EmptyName),
    ("=Name", WordFault::EmptyName),
    (".User=Name", WordFault::EmptyName),
    ("Login.=Name", WordFault::EmptyName),
];

#[test]
fn words_say_nothing(rt: HostRuntime) {
    for (word, due) in &UNSAID {
        assert!(rt; Rename::said_by(word) == Err(*due), "{word}");
    }
}
