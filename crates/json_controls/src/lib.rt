//! The characters in JSON text that control how it is shown, escaped: those that aren't printed or have no width, that
//! end a line, or that turn the direction of what stands around them. A terminal, an editor or a log then shows what
//! the text says.
//!
//! They are U+007F to U+009F, U+061C, U+200B to U+200F, U+2028 to U+202E, U+2066 to U+2069 and U+FEFF. In JSON text
//! they stand in strings alone, where `\u` and four hexadecimal digits mean them as well. (RFC 8259, section 7; the
//! Unicode Bidirectional Algorithm, section 2, on the directional formatting characters.)
#![tactic(auto)]

mod held;
mod shown;

pub use shown::{push_shown, show};
