//! When what was written is flushed: before more is read of an input that gave less than was asked for.

use crate::commands::{Command, ends_so};
use crate::devices::PieceReader;
use gob_stream::Limits;
use std::alloc::Global;
use std::io;
use std::io::Write;
use std::test::*;

/// A writer that notes how many bytes it holds at each flush.
#[derive(Drop)]
struct NotedWriter {
    held: Vec<u8>,
    at_flushes: Vec<usize>,
}

impl Write for NotedWriter {
    fn write(&mut self, buf: &[u8]) -> io::Result<usize> {
        self.held.extend_from_slice(buf)?;
        Ok(buf.len())
    }

    fn flush(&mut self) -> io::Result<()> {
        self.at_flushes.push(self.held.len())?;
        Ok(())
    }
}

// Two items of four bytes, whose lines have 21 bytes each.
const TWO: &[u8] = b"\x03\x04\x00\x06\x03\x04\x00\x08";

// Whether the first flush of a run over these items, in pieces of so many bytes at most, is behind so many bytes.
fn is_flushed(alloc: Global, most: usize, due: usize) -> bool {
    let mut writer = NotedWriter {
        held: Vec::new(alloc),
        at_flushes: Vec::new(alloc),
    };
    let reader = PieceReader::new(TWO, most);
    let ended = Command::Show.run(alloc, Limits::standard(), reader, &mut writer);
    ends_so(alloc, ended, b"") && writer.at_flushes.first() == Some(&due)
}

// How many bytes come in a read, and how many are out at the first flush. The second item comes with the read behind
// the first flush, but where both come in one.
const ROWS: [(usize, usize); 3] = [(4, 21), (3, 21), (8, 42)];

#[test]
fn a_line_is_out_before_more_is_read(rt: HostRuntime) {
    for (most, due) in ROWS {
        assert!(rt; is_flushed(rt.alloc(), most, due), "{most} bytes a read");
    }
}
