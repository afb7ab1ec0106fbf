//! What tests share: rows in the notation of docs/FORMAT.md, with types, values and bodies, lists of them that are
//! judged, the spelling of values, and the reading of bodies in pieces.
#![tactic(auto)]

mod body;
mod list;
mod reading;
mod row;
mod spelling;
mod types;
mod value;

pub use body::Body;
pub use list::{Judge, List, wrong_row, wrong_row_wanting};
pub use reading::{is_refusal, read, reader};
pub use row::{Row, body_of, bytes_of, number, numbers, part};
pub use spelling::is_spelled;
pub use types::{define, shape_of, table_of, type_of};
pub use value::value_of;
