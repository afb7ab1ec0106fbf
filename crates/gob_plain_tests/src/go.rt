//! Values that hold others: their JSON, as it is read back and as plain JSON.

mod filled_lines;
mod filled_values;
