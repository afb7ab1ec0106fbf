//! Values with interface values in them, as Go's encoder writes them: the definitions of the profile that takes them,
//! and their laws. No code rests on them yet.
//!
//! A *filled value* is a value of the format with nil in the places of its interfaces, its *skeleton*, and for each of
//! these nils that isn't nil what fills it: a name, definitions, the concrete type, and its value, which may be filled
//! again. Its spelling is the skeleton's, where the `00` of each filled nil is replaced. A definition ends the
//! *segment* that it stands in, and each segment has a count of its own: at the top the segments are messages of the
//! stream, in an interface they stand one behind another in the segment around them.
//!
//! ```text
//! type Outer struct { N int; I interface{}; M int }     65, sent before
//! type Wrap  struct { N int; I interface{}; S string }  66
//! type Reg   struct { Reg int }                         67
//!
//! Outer { N 1, I Wrap { N 2, I Reg { 3 }, S "s" }, M 4 }
//!
//! 33                            the first segment of the item: 0x33 bytes
//!    ff 82                         type 65, level 0
//!    01 02  01                     N 1, and the delta of I; then what fills its nil:
//!       09 "main.Wrap"                a name
//!       ff 83 03 ..                   the definition of 66, which ends the segment
//! 34                            the second segment
//!       ff 84                         the concrete type, 66
//!       23                            the first segment of its value, level 1: 0x23 bytes
//!          01 04  01                     N 2, and the delta of I; then what fills its nil:
//!             08 "main.Reg"                 a name
//!             ff 85 03 ..                   the definition of 67, which ends the segment
//!       0a                            the second segment of level 1
//!             ff 86                         the concrete type, 67
//!             03  01 06 00                  its value, level 2: 3 bytes, Reg 3
//!          01 01 73  00                  S "s", and the end of Wrap
//!    01 08  00                     M 4, and the end of Outer
//!
//! skeletons   level 0: 01 02 01 00 01 08 00     level 1: 01 04 01 00 01 01 73 00     level 2: 01 06 00
//! ```
//!
//! So each level is read as the format reads its skeleton, and a filling begins where the format refuses an interface
//! value. Everywhere else the profile refuses what the format does, at the same place and for the same reason.
//!
//! - `specs/Definition.antt`: a definition, whose description may say another id than the defined one, as Go writes it.
//! - `specs/Filled.antt`: filled values and their spellings, in letters: bytes, and the cut behind each definition.
//! - `specs/Stream.antt`: items in segments, and streams of them.
//! - `specs/Standing.antt`: how far bytes have come in an item, level by level.
//! - `specs/Outcome.antt`: why bytes are refused, and what any bytes give.
//! - `specs/Uncounted.antt`: the bytes of a filled value without the counts of its segments.
//! - `specs/Honest.antt`: what the bytes begin before the place of a refusal, and those that show it.
//! - [`laws`] has the laws: no spelling begins another, what the format takes or refuses stays so, and any bytes have
//!   one outcome.
#![tactic(auto)]

pub mod laws;
