//! What is tried with devices that fail and with want of memory: each command over a short stream.

use crate::commands::Command;
use crate::streams::{THREE, THREE_LINES};
use crate::takes::{
    A_AND_B, A_AND_I, B_ALONE, B_AND_A_AS_C, B_AND_C, B_LINE, I_AND_A, I_AND_A_LINES,
    I_AND_A_RECEIVED,
};
use gob_rename::Rename;

/// What is tried: a command, and a stream that it goes through to the end.
#[derive(Clone, Copy)]
pub(crate) struct Trial {
    /// What it is.
    pub(crate) what: &'static str,
    pub(crate) command: Command<'static>,
    pub(crate) stream: &'static [u8],
    /// All that is written.
    pub(crate) written: &'static [u8],
    /// How much of that is written of a prefix of the stream, behind which a reader fails: from so many bytes on, so
    /// many.
    pub(crate) ends: &'static [(usize, usize)],
}

impl Trial {
    /// What is written of so many bytes of the stream, behind which a reader fails.
    pub(crate) fn written_within(&self, bytes: usize) -> &'static [u8] {
        let mut count = 0usize;
        for (end, written) in self.ends {
            if *end <= bytes {
                count = *written;
            }
        }
        self.written.get(..count).unwrap_or(b"")
    }
}

// The trials.
const TRIALS: [Trial; 6] = [
    Trial {
        what: "three items shown: whole lines are written",
        command: Command::Show,
        stream: THREE,
        written: THREE_LINES,
        ends: &[(32, 72), (40, 116), (44, 137)],
    },
    Trial {
        what: "three items counted: the line is written whole, or not at all",
        command: Command::Check,
        stream: THREE,
        written: b"ok: 3 items, 1 types, 44 bytes\n",
        ends: &[],
    },
    Trial {
        what: "three tidy items written again: whole items are written",
        command: Command::Rewrite,
        stream: THREE,
        written: THREE,
        ends: &[(32, 32), (40, 40), (44, 44)],
    },
    Trial {
        what: "a struct, a value of it with X 0 and Y 33, and an int: the value's tidy form is made from its bytes",
        command: Command::Rewrite,
        stream: b"\
            \x1f\xff\x81\x03\x01\x01\x05\x50\x6f\x69\x6e\x74\x01\xff\x82\x00\
            \x01\x02\x01\x01\x58\x01\x04\x00\x01\x01\x59\x01\x04\x00\x00\x00\
            \x07\xff\x82\x01\x00\x01\x42\x00\
            \x03\x04\x00\x06",
        written: b"\
            \x1f\xff\x81\x03\x01\x01\x05\x50\x6f\x69\x6e\x74\x01\xff\x82\x00\
            \x01\x02\x01\x01\x58\x01\x04\x00\x01\x01\x59\x01\x04\x00\x00\x00\
            \x05\xff\x82\x02\x42\x00\
            \x03\x04\x00\x06",
        ends: &[(32, 32), (40, 38), (44, 42)],
    },
    Trial {
        what: "the value of A and B received as one of B and C: its line is written whole, or not at all",
        command: Command::Take(B_AND_C),
        stream: A_AND_B,
        written: B_LINE,
        ends: &[(36, 32)],
    },
    Trial {
        what: "the value of A and B received as one of B and C: the definition is written first",
        command: Command::Convert(B_AND_C),
        stream: A_AND_B,
        written: B_ALONE,
        ends: &[(0, 28), (36, 34)],
    },
];

/// A conversion of a stream of Go's encoder, with renames.
pub(crate) const RENAMED: Trial = Trial {
    what: "the value received by another name of C: the types are renamed before the definition is written",
    command: Command::ConvertGo(B_AND_C, &A_AS_C),
    stream: A_AND_B,
    written: B_AND_A_AS_C,
    ends: &[(0, 28), (36, 36)],
};

/// Such a conversion, with values in interfaces.
pub(crate) const HELD: Trial = Trial {
    what: "structs in an interface, the first with its definition: that is written in front of the value",
    command: Command::ConvertGo(I_AND_A, &[]),
    stream: A_AND_I,
    written: I_AND_A_RECEIVED,
    ends: &[(0, 28), (65, 65), (80, 80)],
};

/// The lines of what it writes.
pub(crate) const TAKEN: Trial = Trial {
    what: "structs in an interface: the lines of each item that is written go out whole",
    command: Command::TakeGo(I_AND_A),
    stream: A_AND_I,
    written: I_AND_A_LINES,
    ends: &[(0, 68), (65, 225), (80, 322)],
};

// The field C has the name A in the stream.
const A_AS_C: [Rename<'static>; 1] = [Rename {
    of: None,
    old: b"A",
    new: b"C",
}];

/// The trials.
pub(crate) fn trials() -> [Trial; 6] {
    TRIALS
}
