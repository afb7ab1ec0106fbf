//! Under which types the words ask to write a stream of plain JSON.

ghost use Rattle.std.specs.Prelude.{MatchOption, MatchResult, map};
ghost use Rattle.clap.specs.Words.{subcommand_of, subcommand_rows_of};
ghost use Rattle.gob_words.specs.Making.{AsksToMake, RefusesToMake};
ghost use Rattle.gob_words.specs.Words.{HasNoFault, program};

use crate::command_line::program;
use crate::matched::is_true;
use crate::view::ViewFault;
use crate::words::OrderFault;
use clap::ArgMatches;
use std::alloc::Global;

/// Under which types a stream is written.
#[derive(Clone, Copy, Debug, PartialEq, Eq)]
pub struct Making<'a> {
    /// The name of the file that has the types: of a stream, or of Go source.
    pub types: Option<&'a str>,
    /// The name or the id of the type of the values in that file; without a file the types themselves, as Go source.
    /// None: the type is that of the first value of the stream, or the first one that the source declares.
    pub named: Option<&'a str>,
    /// Whether members that no field has are left out.
    pub lenient: bool,
}

/// Under which types the words ask to write a stream, the program's name first among them, for which
/// [`crate::view_of`] gives [`crate::ViewCommand::Make`]. For [`crate::ViewCommand::Salvage`] they say the file alone,
/// of the stream whose types are known.
pub fn making_of<'a>(alloc: Global, words: &'a [&'a str]) -> Result<Making<'a>, ViewFault>
    ensures { let asked = map (λ word. word.now) words.entry.now in
        HasNoFault asked → MatchResult result (AsksToMake (subcommand_of program asked))
        (RefusesToMake (subcommand_of program asked)) }
{
    match program(alloc)?.try_get_matches_from(words) {
        Ok(matches) => making_met(&matches),
        Err(_) => Err(ViewFault::Order(OrderFault::Memory)),
    }
}

// What clap's matches ask for.
fn making_met<'a>(matches: &ArgMatches<'a>) -> Result<Making<'a>, ViewFault>
    ensures { MatchResult result (AsksToMake (subcommand_rows_of matches.now))
        (RefusesToMake (subcommand_rows_of matches.now)) }
{
    match making_in(matches) {
        Some(making) => Ok(making),
        None => Err(ViewFault::Order(OrderFault::Words)),
    }
}

// What clap's matches ask for. None: no command is named.
fn making_in<'a>(matches: &ArgMatches<'a>) -> Option<Making<'a>>
    ensures { MatchOption result ((making : Making) → ¬ AsksToMake (subcommand_rows_of matches.now) making)
        (AsksToMake (subcommand_rows_of matches.now)) }
{
    let (_, matches) = matches.subcommand()?;
    Some(Making {
        types: matches.get_str("types"),
        named: matches.get_str("type"),
        lenient: is_true(matches.get_str("lenient")),
    })
}
