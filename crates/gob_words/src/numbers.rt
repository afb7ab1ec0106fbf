//! Whether the words ask for texts in place of numbers.

ghost use Rattle.std.specs.Prelude.{IfErr, IfOk, map};
ghost use Rattle.clap.specs.Words.{subcommand_of};
ghost use Rattle.gob_words.specs.Numbers.{AsksForTexts, IsNoMemory};
ghost use Rattle.gob_words.specs.Words.{HasNoFault, program};

use crate::command_line::program;
use crate::matched::has_flag;
use crate::words::OrderFault;
use std::alloc::Global;

/// Whether the words, the program's name first among them, ask `show` for each number as a text. They are words that
/// [`crate::order_of`] or [`crate::view_of`] takes; a fault is want of memory.
pub fn numbers_are_texts<'a>(alloc: Global, words: &'a [&'a str]) -> Result<bool, OrderFault>
    ensures asked { let asked = map (λ word. word.now) words.entry.now in
        HasNoFault asked → IfOk result (AsksForTexts (subcommand_of program asked)) }
    ensures memory { IfErr result IsNoMemory }
{
    match program(alloc)?.try_get_matches_from(words) {
        Ok(matches) => Ok(has_flag(&matches, "numbers-as-text")),
        Err(_) => Err(OrderFault::Memory),
    }
}
