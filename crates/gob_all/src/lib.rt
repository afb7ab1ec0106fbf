//! The library in one crate: what a program that reads, writes or converts gob streams calls, under one name.
//!
//! ```text
//! let id, value                 = Item::Put { id, value }, as a `StreamReader` gives it
//! let number                    = field_number(stream.table().shape_of(id)?, b"Y")?
//! as_int(field(value, number)?) = Some(33)     of Point { X 22, Y 33 }
//! ```
//!
//! - Streams: [`StreamReader`] and [`StreamWriter`], with [`Input`], [`Output`] and [`Limits`]. [`Session`] takes bytes
//!   that come from elsewhere.
//! - Values and types: [`Value`], [`Shape`] and [`Table`]; [`fits`], [`describe`] and [`tidy`].
//! - Types that match: [`match_types`] and [`receive`].
//! - Values kept flat: [`Tape`] and its [`View`]s.
//! - What stands in a value: [`field_number`], [`field`], [`as_int`] and its like.
//!
//! What the contracts of these say, and laws of it, stands in the crates that they come from.
#![tactic(auto)]

mod leaves;
mod look_ups;

pub use gob_match::{ClashReason, KeptMatch, MatchFault, Matched, PathText, match_types, receive};
pub use gob_num::Memory;
pub use gob_read::{Builder, CheckBuilder, Counts, SkipBuilder, TreeBuilder};
pub use gob_stream::{
    Advance, Fault, Input, Item, Limits, Output, Refusal, Session, StreamReader, StreamWriter,
    WriteFault, WriteStop, read_stream, write_stream,
};
pub use gob_tape::{Children, Tape, TapeBuilder, ValueKind, View, tidy_tape};
pub use gob_types::{
    Basic, DefineFault, Field, Fields, Kind, Marshal, Name, NotReady, Reason, Shape, Shapes, Table,
    TypeId,
};
pub use gob_value::{
    Misfit, ShapeFault, SpellFault, Value, describe, fits, is_whole, shape_from,
    shape_from_loosely, spell, tidy,
};
pub use leaves::{as_bool, as_float, as_int, as_text, as_uint};
pub use look_ups::{field, field_number};
