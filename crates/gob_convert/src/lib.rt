//! Streams of Go's encoder converted: one stream of the values of another, received as values of a wanted type, with
//! what their interfaces hold.
//!
//! ```text
//! the stream    dS S{ A 1, B "x", C 7 }           S: struct { A int; B, C interface }
//! wanted        dR R{}                            R: struct { C interface; A int }
//! written      dR R{ C 7, A 1 }                  the definitions in front of the wanted value, and the values received
//! ```
//!
//! [`run_convert`] is the run, and [`run_take_go`] prints what it writes. [`ConvertOptions`] say which fields of the
//! wanted type have another name in the stream, and whether no field of a value may be left out. A [`Clash`] says which
//! value doesn't match, where and why. [`WordText`] and [`MisfitText`] say what is wrong with the words of renames.
#![tactic(auto)]

mod clash;
mod clashing;
mod conversion;
mod fault;
mod options;
mod run;
mod said;
mod shown;
mod take;
mod wanted;

pub use clash::{Clash, ValueKind};
pub use fault::ConvertFault;
pub use options::ConvertOptions;
pub use run::run_convert;
pub use said::{MisfitText, WordText};
pub use take::run_take_go;
