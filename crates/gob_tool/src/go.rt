//! The runs of the commands over streams of Go's encoder, with what interfaces hold.

mod check;
mod forms;
mod item_lines;
mod rewrite;
mod show;
mod whole_form;

pub use check::run_check_go;
pub use item_lines::push_lines;
pub use rewrite::run_rewrite_go;
pub use show::run_show_go;
