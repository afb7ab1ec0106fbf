//! The words of the command line of the program `gob`: which order they make
//! or what they ask to be shown, and what is said of words that make neither.
#![tactic(auto)]

mod command_line;
mod converting;
mod decimal;
mod files;
mod help;
mod kinds;
mod making;
mod matched;
mod message;
mod numbers;
mod orders;
mod path;
mod shell;
mod splitting;
mod taking;
mod view;
mod views;
mod words;

pub use converting::{Converting, converting_of};
pub use decimal::number_of;
pub use files::files_of;
pub use help::VERSION;
pub use kinds::{OpaqueKind, TypeKind};
pub use making::{Making, making_of};
pub use message::escaped;
pub use numbers::numbers_are_texts;
pub use orders::order_of;
pub use path::shortened;
pub use shell::quoted;
pub use splitting::{PartWords, Splitting, splitting_of};
pub use taking::go_taking_of;
pub use view::{View, ViewCommand, ViewFault};
pub use views::view_of;
pub use words::{Chosen, Order, OrderFault};
