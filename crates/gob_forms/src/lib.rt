//! What bytes are that are no gob stream, as far as they show it themselves.
//!
//! ```text
//! 1f 8b ..                       form_of: gzip
//! 7b 22 .. (a text of JSON)      is_json
//! "1fff8103.."                   Spelling::Hex: the bytes 1f ff 81 03 ..
//! .. 07 ff 82 .. 07 ff 82 ..     chain_from: items, as their counts and type numbers say
//! ```
//!
//! Whether something is a stream is judged elsewhere: what is said here is what it may be else.
#![tactic(auto)]

mod chain;
mod dump;
mod form;
mod head;
mod http;
mod maps;
mod quoted;
mod spelling;
mod text;
mod wide;

pub use chain::{Chain, begins_item, chain_from, defines_at};
pub use form::{Form, form_of};
pub use head::{Head, head_of};
pub use http::http_head;
pub use maps::form_of_maps;
pub use quoted::{Quoted, next_quoted};
pub use spelling::Spelling;
pub use text::{is_json, is_text};
pub use wide::form_of_wide;
