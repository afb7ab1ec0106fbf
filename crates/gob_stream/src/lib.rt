//! Gob streams: items of definitions and values, one after another.
//!
//! ```text
//! stream      item item item ..
//! item        count body                  the count of the body's bytes, unsigned
//! body        type number, description    of the type whose id the number is below 0: a definition
//!             type number, value          of the type with that id
//!
//! 03 04 00 06                             one item of three bytes: type 2, int, the tag, the number 3
//! ```
//!
//! A reader takes the bytes from an `Input` and gives `Item`s; a writer puts the bytes of items into an `Output`.
//! Both keep to `Limits`, and both say where a stream stands: a `Refusal` names the first refused byte and why.
//!
//! [`laws`] has what is true of all streams:
//!
//! - [`laws::streams_are_read_back`], [`laws::streams_are_read_back_in_pieces`]: what was written is read back.
//! - [`laws::streams_have_one_reading`], [`laws::bytes_give_one_list`], [`laws::bytes_have_one_outcome`]: bytes tell
//!   their items, and how they end.
//! - [`laws::shown_refusals_stay`], [`laws::refused_bytes_are_no_item`]: a refusal is the same whatever follows, and
//!   right.
//! - [`laws::sessions_give_what_they_read`], [`laws::items_have_one_table`], [`laws::limits_stay`]: what a session
//!   stands for.
//! - [`laws::streams_stay`], [`laws::one_refusal`]: of limits, and of what isn't written.
#![tactic(auto)]

mod body;
mod count;
mod denial;
mod fault;
mod feeding;
mod input;
mod item;
mod item_bytes;
pub mod laws;
mod limits;
mod next_item;
mod output;
mod read_items;
mod reader_of;
mod session;
mod session_steps;
mod stage;
mod steps;
mod stream_writer;
mod type_number;
mod values;
mod waiting;
mod whole;
mod write_items;
mod write_place;

pub use count::{body_of, ended, refusal};
pub use denial::{define_admitted, judge_id, judge_type};
pub use fault::{Fault, Refusal, WriteFault, WriteStop};
pub use feeding::feed;
pub use input::Input;
pub use item::Item;
pub use limits::Limits;
pub use output::Output;
pub use read_items::read_stream;
pub use reader_of::{Ahead, ReaderOf, StreamReader};
pub use session::{Advance, Session};
pub use stage::Extent;
pub use steps::Steps;
pub use stream_writer::StreamWriter;
pub use values::{Passed, whole_values};
pub use waiting::Waiting;
pub use whole::{Awaited, Whole, awaited_value, whole_value};
pub use write_items::write_stream;
