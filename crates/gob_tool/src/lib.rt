//! Gob streams as JSON lines, and the runs of the program `gob`, over streams of Go's encoder too.
//!
//! ```text
//! 03 04 00 06                             an item: the int 3
//! {"type":2,"value":3}                    its line
//!
//! 0a 10 00 03 69 6e 74 04 02 00 0a        an item of Go's: the int 5 in an interface, under the name int
//! ok: 1 items, 0 types, 11 bytes          what is said of it
//! {"type":8,"value":{"interface":{"name":"int","type":2,"value":5}}}      its line
//! 0a 10 00 03 69 6e 74 04 02 00 0a        its tidy form: it was tidy
//! ```
#![tactic(auto)]

mod check;
mod end;
mod fault;
mod go;
mod item_json;
mod item_line;
pub mod laws;
mod received;
mod received_form;
mod receiver;
mod rewrite;
mod run;
mod sending;
mod show;
mod take;
mod text_steps;
mod texts;
mod tidied;
mod wanted;

pub use check::{Tally, run_check, run_check_in};
pub use end::{end_run, flush_before_waiting};
pub use fault::{ToolFault, status};
pub use go::{push_lines, run_check_go, run_rewrite_go, run_show_go};
pub use gob_words::{Chosen, Order, OrderFault, order_of};
pub use item_json::{json_of, json_of_tape};
pub use item_line::push_whole_line;
pub use rewrite::run_rewrite;
pub use run::{limits_of, run_order};
pub use sending::Sending;
pub use show::run_show;
pub use take::{run_convert, run_take};
pub use texts::{ItemTexts, MOST_GATHERED, Sent, run_texts, write_next_texts};
