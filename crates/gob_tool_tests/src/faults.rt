//! The lines and the statuses of faults.

use gob_match::{ClashReason, TypeStep};
use gob_stream::Refusal;
use gob_tool::{ToolFault, status};
use gob_types::{Name, Reason, TypeId};
use std::alloc::{AllocError, Global};
use std::test::*;

// Faults, their lines and their statuses.
const FAULTS: [(ToolFault, &str, u8); 7] = [
    (
        ToolFault::Refused(Refusal {
            place: 4,
            seen: 4,
            reason: Reason::Extra,
        }),
        "gob: refused 6 Extra at 4 seen 4",
        1,
    ),
    (
        ToolFault::Refused(Refusal {
            place: 1,
            seen: 2,
            reason: Reason::ReservedType(TypeId(63)),
        }),
        "gob: refused 7 ReservedType(63) at 1 seen 2",
        1,
    ),
    (
        ToolFault::Wanted(Refusal {
            place: 3,
            seen: 3,
            reason: Reason::Ended,
        }),
        "gob: wanted: refused 22 Ended at 3 seen 3",
        1,
    ),
    (ToolFault::NoWantedType, "gob: refused 35 NoWantedType", 1),
    (ToolFault::Read, "gob: read fault", 2),
    (ToolFault::Write, "gob: write fault", 2),
    (ToolFault::Memory, "gob: out of memory", 2),
];

// Whether the fault has this line and this status.
fn is_said(alloc: Global, fault: &ToolFault, line: &str, code: u8) -> bool {
    match fault.to_string(alloc) {
        Ok(text) => text.as_str() == line && status(fault) == code,
        Err(_) => false,
    }
}

#[test]
fn faults_have_lines_and_statuses(rt: HostRuntime) {
    for (fault, line, code) in &FAULTS {
        assert!(rt; is_said(rt.alloc(), fault, line, *code), "{line}");
    }
}

fn named(alloc: Global, name: &[u8]) -> Result<TypeStep, AllocError> {
    Ok(TypeStep::Named(Name::new(Vec::from_slice(alloc, name)?)))
}

// The steps that the words are: [] an element, {} a key, else a field of this name.
fn path_of(alloc: Global, words: &[&[u8]]) -> Result<Vec<TypeStep>, AllocError> {
    let mut path = Vec::new(alloc);
    for word in words {
        match *word {
            b"[]" => path.push(TypeStep::Element)?,
            b"{}" => path.push(TypeStep::Key)?,
            name => path.push(named(alloc, name)?)?,
        }
    }
    Ok(path)
}

// Paths, why types clash there, and the lines.
const CLASHES: [(&[&[u8]], ClashReason, &str); 3] = [
    (
        &[],
        ClashReason::RepeatedName,
        "gob: clash 31 RepeatedName at top",
    ),
    (
        &[b"Next", b"V"],
        ClashReason::DifferentKind,
        "gob: clash 33 DifferentKind at .Next.V",
    ),
    (
        &[b"[]", b"{}", b"\xff\x0a"],
        ClashReason::DifferentLength,
        "gob: clash 34 DifferentLength at []{}.0xff0a",
    ),
];

// Whether a clash at the path has this line.
fn is_clash(alloc: Global, words: &[&[u8]], reason: ClashReason, line: &str) -> bool {
    match path_of(alloc, words) {
        Ok(path) => is_said(alloc, &ToolFault::Clash { path, reason }, line, 1),
        Err(_) => false,
    }
}

#[test]
fn clashes_have_lines(rt: HostRuntime) {
    for (words, reason, line) in CLASHES {
        assert!(rt; is_clash(rt.alloc(), words, reason, line), "{line}");
    }
}

// Whether a field at the path that isn't wanted, of the third value, has this line.
fn is_left_out(alloc: Global, words: &[&[u8]], line: &str) -> bool {
    match path_of(alloc, words) {
        Ok(path) => is_said(alloc, &ToolFault::LeftOut { path, value: 3 }, line, 1),
        Err(_) => false,
    }
}

#[test]
fn fields_left_out_have_a_line(rt: HostRuntime) {
    let line = "gob: value 3 has [].Next.0xff0a, which isn't wanted";
    assert!(rt;
        is_left_out(rt.alloc(), &[b"[]", b"Next", b"\xff\x0a"], line),
        "{line}"
    );
}
