//! Which types of one stream match types of another, and values received under a match.
//!
//! A reader that wants values of a type of its own, and a stream that describes types of its own, agree by shape
//! and by the names of fields. Type names and type ids don't matter, nor does the order of fields:
//!
//! ```text
//! the stream's type               the wanted type                 what comes of it
//! struct { A int; B int }         struct { B int; C int }         a match: of { A 1, B 2 } comes { B 2 }
//! struct { A int; B int }         struct { A int; B uint }        DifferentKind at .B
//! Node struct { V int; Next Node} A struct { Next B },            DifferentKind at .Next.V
//!                                 B struct { V uint; Next A }
//! ```
//!
//! - [`match_types`] says whether two types match, or gives a clash with the fewest steps: the path to a pair of
//!   types whose shapes don't match, and why. It is a breadth-first search over pairs of types: each pair is looked
//!   at once, and what becomes of its values is worked out then and kept, in a [`Matched`].
//! - [`receive`] makes of a value of the stream's type the value of the wanted type that matches it. [`receive_whole`]
//!   does so of the bytes that spell one, in bytes, and makes no tree.
//! - [`laws`] has what the definitions in `specs/` entail: two ready types match or clash, and not both.
#![tactic(auto)]

mod adding;
mod body_part;
mod common;
mod conversion;
mod fault;
mod found;
mod kept;
mod kinds;
pub mod laws;
mod matched;
mod matching;
mod names;
mod pair;
mod places;
mod reason;
mod receiving;
mod receiving_whole;
mod step;

pub use fault::MatchFault;
pub use kept::KeptMatch;
pub use matched::Matched;
pub use matching::match_types;
pub use pair::TypePair;
pub use reason::ClashReason;
pub use receiving::receive;
pub use receiving_whole::receive_whole;
pub use step::{PathText, TypeStep};
