//! Values of streams of Go's encoder as plain JSON: an interface is shown as what it holds.

mod level;
mod nils;
mod parting;
mod placing;
mod text;

pub use text::filled_text;
