//! Reads of any size, of readers that give little at a time and fail. An item is a count, a type number, negative in a
//! definition, and a byte; the reader looks no further.

use crate::Appended;
use std::alloc::Global;
use std::io;
use std::io::{ErrorKind, Read};

// A definition, a value, the definition again, another, a value, both definitions again, a value, and half an item.
const INPUT: &[u8] =
    b"\x03\xff\x81\x07\x03\xff\x82\x05\x03\xff\x81\x07\x03\xff\x83\x07\x03\xff\x82\x06\
\x03\xff\x81\x07\x03\xff\x83\x07\x03\xff\x82\x08\x03\xff";

// What is given of `INPUT`, each definition once.
const GIVEN: &[u8] =
    b"\x03\xff\x81\x07\x03\xff\x82\x05\x03\xff\x83\x07\x03\xff\x82\x06\x03\xff\x82\x08\x03\xff";

// How many bytes a read of either reader has at the most.
const SIZES: [usize; 5] = [1, 2, 3, 7, 65536];

// A reader that gives so many bytes a call, and fails in one of its calls, counted from 0.
#[derive(Drop)]
struct Pieces {
    bytes: &'static [u8],
    most: usize,
    fails_at: usize,
    calls: usize,
}

impl Read for Pieces {
    fn read(&mut self, buf: &mut [u8]) -> io::Result<usize> {
        let call = self.calls;
        self.calls = self.calls.saturating_add(1);
        if call == self.fails_at {
            return Err(io::Error::from(ErrorKind::BrokenPipe));
        }
        let count = self.most.min(buf.len());
        self.bytes.read(&mut buf[..count])
    }
}

fn reader_of(most: usize, fails_at: usize) -> Pieces {
    Pieces {
        bytes: INPUT,
        most,
        fails_at,
        calls: 0,
    }
}

// Appends all that is given by reads of so many bytes, up to a fault.
fn read_all(
    alloc: Global,
    reader: &mut Appended<Pieces>,
    room: usize,
    out: &mut Vec<u8>,
) -> io::Result<()> {
    let mut buf = vec![in alloc; 0; room]?;
    for _ in 0..1000 {
        let count = reader.read(buf.as_mut_slice())?;
        if count == 0 {
            return Ok(());
        }
        out.extend_from_slice(&buf[..count])?;
    }
    Err(io::Error::from(ErrorKind::Other))
}

// Whether all is given so, by the offsets of the input, where one read fails and reading goes on.
fn is_given(alloc: Global, most: usize, room: usize, fails_at: usize) -> io::Result<bool> {
    let mut reader = Appended::new(alloc, reader_of(most, fails_at))?;
    let mut out = Vec::new(alloc);
    if let Err(error) = read_all(alloc, &mut reader, room, &mut out) {
        if error.kind() != ErrorKind::BrokenPipe {
            return Err(error);
        }
        read_all(alloc, &mut reader, room, &mut out)?;
    }
    Ok(out.as_slice() == GIVEN && tells_offsets(&reader) && tells_encoders(&reader))
}

fn tells_offsets(reader: &Appended<Pieces>) -> bool {
    [
        (0, 0),
        (7, 7),
        (8, 12),
        (15, 19),
        (16, 28),
        (21, 33),
        (22, 34),
    ]
    .iter()
    .all(|row| reader.place_in_input(row.0) == row.1)
        && reader.end_in_input(0) == 0
        && reader.end_in_input(16) == 20
        && reader.end_in_input(17) == 29
}

// The second encoder is seen by the first definition, and so is the third, which says the other again too.
fn tells_encoders(reader: &Appended<Pieces>) -> bool {
    reader.encoders_anew() == 2
        && reader.places_anew() == [8, 20].as_slice()
        && reader.left_out() == 12
}

#[test]
fn definitions_that_are_said_again_are_left_out(rt: HostRuntime) {
    for most in SIZES {
        for room in SIZES {
            for fails_at in 0..12 {
                let given = is_given(rt.alloc(), most, room, fails_at);
                assert!(rt;
                    given.unwrap_or(false),
                    "pieces of {most}, reads of {room}, fault at {fails_at}"
                );
            }
        }
    }
}
