//! What the bytes of a gob stream are, row by row.
//!
//! ```text
//! 01        Delta    field 0 of a Point comes next
//! 2c        First    an int: signed 22
//! 01        Delta    field 1
//! 42        First    signed 33
//! 00        Delta    the struct ends
//! ```
//!
//! Where an interface holds something, the rows of what fills it stand there, as Go's encoder writes it: a name, types
//! that are defined, the type of what is held, and its value.
//!
//! ```text
//! 03        First       an interface: the count of a name
//! 69 6e 74  Raw         the name
//! 04        TypeNumber  signed 2: an int is held
//! 02        Segment     in 2 bytes
//! 00        Tag         as before each value that is no struct
//! 0a        First       an int: signed 5
//! ```
#![tactic(auto)]

mod body;
mod laws;
mod leaf;
mod path;
mod row;
mod sink;
mod stop;
mod text;
mod walk;

pub use body::{Walked, walk_body};
pub use laws::{
    rows_are_cut_alike, rows_join_to_the_spelling, rows_lead_everywhere,
    rows_lead_over_whole_values, rows_lead_to_the_place, rows_of_fillings_are_cut_alike,
    rows_stand_where_expected, spellings_have_rows, values_have_one_list_of_rows,
    whole_items_are_shown,
};
pub use path::path_to;
pub use row::{Awaited, PartStep, Row, RowPart, What};
pub use sink::RowSink;
pub use text::expected::push_expected;
pub use text::item::{Reached, push_first_bytes};
pub use text::labels::path_text;
pub use text::lines::push_line;
pub use text::lines_out::{LineFault, LinesOut};
pub use text::names::{push_name, push_type_name};
pub use text::printer::push_body;
