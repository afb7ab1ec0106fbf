//! What clap's matches have of the command that was met: the words of an argument, and whether a flag is given.

ghost use Rattle.std.specs.Prelude.{◌≡◌, IfOk, map};
ghost use Rattle.clap.specs.Words.{subcommand_rows_of};
ghost use Rattle.gob_words.specs.Views.{IsFlagIn, IsGiven, words_in};
ghost use Rattle.gob_words.specs.Words.{text_of};

use clap::ArgMatches;
use std::alloc::{AllocError, Global};

/// The words of the argument of this name, in order; none without a command.
pub(crate) fn words_among<'a>(
    alloc: Global,
    matches: &ArgMatches<'a>,
    name: &str,
) -> Result<Vec<&'a str>, AllocError>
    ensures { IfOk result (λ found.
        map (λ word. word.now) found.items ≡ words_in name.now (subcommand_rows_of matches.now)) }
{
    let Some((_, matches)) = matches.subcommand() else {
        return Ok(Vec::new(alloc));
    };
    match matches.get_strs(name) {
        Some(found) => found.to_vec(alloc),
        None => Ok(Vec::new(alloc)),
    }
}

/// Whether the flag of this name is given; it isn't without a command.
pub(crate) fn has_flag(matches: &ArgMatches<'_>, name: &str) -> bool
    ensures { IsFlagIn name.now (subcommand_rows_of matches.now) result }
{
    let Some((_, matches)) = matches.subcommand() else {
        return false;
    };
    is_true(matches.get_str(name))
}

/// Whether a flag is given, by clap's value of it.
pub(crate) fn is_true(value: Option<&str>) -> bool
    ensures { IsGiven (text_of value.entry) result }
{
    matches!(value, Some("true"))
}
