//! Streams of Go's encoder, read one item after another: with what interfaces hold, and with the ids that Go says of
//! types that encode themselves. Each stream that `gob_stream` reads is one of these, with the same items.
//!
//! A [`GoSession`] takes the bytes in pieces of any lengths and gives [`GoItem`]s. A value is kept as its skeleton,
//! which is the spelling of a value with nil in its interfaces, and as what fills these nils: see [`Filled`].
//!
//! A [`GoReader`] is the reader of `gob_stream` over such a session. A [`PassingSession`] reads the same streams, and
//! keeps nothing of a value. Between two items each goes on as the other.
#![tactic(auto)]

mod around;
mod count;
mod definition;
mod description;
mod filled;
mod filled_whole;
mod held;
mod ids;
mod inner_count;
mod item;
mod keeping;
mod level;
mod levels;
mod name;
mod next_count;
mod number;
mod part;
mod passing;
mod put;
mod session;
mod skeleton;
mod stage;
mod steps;
mod type_number;
mod value;
mod values;
mod whole;

pub use filled::{Definition, Filled, Filling};
pub use filled_whole::{held_type, is_filled_whole};
pub use ids::{push_ids, push_inner_ids};
pub use item::GoItem;
pub use passing::PassingSession;
pub use session::GoSession;
pub use steps::GoReader;
