//! Declarations of Go's types, read from source as people write it and as `gob types` does: which types they declare,
//! each by its parts.
//!
//! ```text
//! type Login struct {
//!     User string
//!     At   time.Time
//! }
//! ```
#![tactic(auto)]

mod beginning;
mod declarations;
mod descent;
mod fault;
mod go_type;
mod lexer;
mod note;
mod number;
mod piece;
mod scan;
mod source;
mod token;
mod tokens;
mod word;

pub use beginning::begins_as_source;
pub use declarations::{GoSource, declared_by};
pub use fault::{Due, Fault, Wrong};
pub use go_type::{Declaration, GoField, GoType};
pub use lexer::{LexFault, Lexed, tokens_in};
pub use source::{Position, SourceFault, declared_in, position_of};
pub use token::{Mark, Note, Token};
