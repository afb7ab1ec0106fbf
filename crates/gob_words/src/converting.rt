//! What the words ask of a conversion, beside the order that they make.

ghost use Rattle.std.specs.Prelude.{IfOk, map};
ghost use Rattle.clap.specs.Words.{subcommand_of, subcommand_rows_of};
ghost use Rattle.gob_words.specs.Converting.{AsksOfConversion};
ghost use Rattle.gob_words.specs.Words.{HasNoFault, program};

use crate::command_line::program;
use crate::matched::{has_flag, words_among};
use clap::ArgMatches;
use std::alloc::{AllocError, Global};

/// What is asked of a conversion.
#[derive(Debug, Drop)]
pub struct Converting<'a> {
    /// The words that say which fields have another name in the stream, each as it was typed, in order.
    pub renames: Vec<&'a str>,
    /// Whether the conversion stops at a value that has a field which isn't wanted.
    pub all: bool,
}

/// What the words, the program's name first among them, ask of a conversion. They are words for which
/// [`crate::order_of`] gives [`crate::Chosen::Convert`]: no others say anything of it.
pub fn converting_of<'a>(alloc: Global, words: &'a [&'a str]) -> Result<Converting<'a>, AllocError>
    ensures { let asked = map (λ word. word.now) words.entry.now in
        HasNoFault asked → IfOk result (AsksOfConversion (subcommand_of program asked)) }
{
    match program(alloc)?.try_get_matches_from(words) {
        Ok(matches) => converting_in(alloc, &matches),
        Err(_) => Err(AllocError),
    }
}

// What clap's matches ask of it.
fn converting_in<'a>(alloc: Global, matches: &ArgMatches<'a>) -> Result<Converting<'a>, AllocError>
    ensures { IfOk result (AsksOfConversion (subcommand_rows_of matches.now)) }
{
    let renames = words_among(alloc, matches, "rename")?;
    let all = has_flag(matches, "all");
    Ok(Converting { renames, all })
}
