//! The types of a stream as Go source: a file that gofmt leaves as it is, that compiles, and whose types Go decodes the
//! stream into.
//!
//! ```text
//! package types
//!
//! import (
//!     "time"
//! )
//!
//! // type 65
//! type Rec struct {
//!     ID   int
//!     When time.Time
//! }
//!
//! // type 66, which encodes itself by GobEncode
//! type Time = time.Time
//! ```
#![tactic(auto)]

mod by_type;
mod declared;
mod definitions;
mod field_names;
mod fields;
mod library;
mod names;
mod program;
mod registered;
mod registrations;
mod text;
mod types;

pub use definitions::{named_source_of, source_of};
pub use program::program_of;
pub use registered::{Registered, RegisteredNames};
