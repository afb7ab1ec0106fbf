//! What reading the Go source that `gob types` writes gives: types that are alike to those that it was written of, no
//! two under one name. No code rests on it, so it is a crate of its own.
//!
//! ```text
//! type Point struct {                     what is written of a stream's type Point
//!     X int
//! }
//!
//! // type 66, which encodes itself by GobEncode
//! type Time = time.Time                   of its type Time, which is opaque
//! ```
#![tactic(auto)]

pub mod laws;
