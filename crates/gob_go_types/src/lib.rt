//! What Go's encoder makes of types that source declares: definitions of a gob stream.
//!
//! ```text
//! type Login struct {               65  struct Login { User 6, Tries 2, At 66, Tags 68 }
//!     User  string                  66  opaque Time, by GobEncode
//!     Tries int                     67  slice of 2
//!     At    time.Time               68  map of 6 to 67
//!     Tags  map[string][]int
//! }
//! ```
//!
//! [`types_of`] makes them of one declared type and of all that it leads to.
#![tactic(auto)]

mod code;
mod define;
mod fault;
mod fields;
mod free;
mod kinds;
mod library;
mod made;
mod numbers;
mod sight;
mod types;

pub use fault::TypesFault;
pub use numbers::Defined;
pub use types::{GoTypes, types_of};
