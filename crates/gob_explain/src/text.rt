//! The rows of a body as lines of text.

pub(crate) mod expected;
pub(crate) mod heads;
pub(crate) mod item;
pub(crate) mod labels;
pub(crate) mod lines;
pub(crate) mod lines_out;
pub(crate) mod names;
pub(crate) mod printer;
pub(crate) mod values;
