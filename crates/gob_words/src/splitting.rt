//! Into what the words ask to split a stream.

ghost use Rattle.std.specs.Prelude.{◌≡◌, ℕ, MatchOption, MatchResult, map};
ghost use Rattle.clap.specs.Words.{found_of, rows_of, subcommand_of, subcommand_rows_of};
ghost use Rattle.gob_words.specs.Splitting.{AreUnits, AsksToSplit, IsPartSize, IsSizeWord, RefusesToSplit};
ghost use Rattle.gob_words.specs.Views.{IsWordAtFault};
ghost use Rattle.gob_words.specs.Words.{HasNoFault, program, text_of};

use crate::command_line::program;
use crate::decimal::number_of;
use crate::message::{number_line, size_line, sizes_line};
use crate::view::ViewFault;
use crate::views::said;
use crate::words::OrderFault;
use clap::ArgMatches;
use clap::error::ErrorKind;
use std::alloc::Global;

// How many bytes a part has where the words don't say it.
const USUAL_SIZE: u64 = 67108864;

// How many bytes the units are.
const KILO: u64 = 1024;

const MEGA: u64 = 1048576;

const GIGA: u64 = 1073741824;

/// How large a part is to be: it ends with the first item with which it has as much, or more.
#[derive(Clone, Copy, Debug, PartialEq, Eq)]
pub enum PartWords {
    /// So many bytes.
    Bytes(u64),
    /// So many values.
    Values(u64),
}

/// Into what a stream is to be split.
#[derive(Clone, Copy, Debug, PartialEq, Eq)]
pub struct Splitting<'a> {
    /// The name of the directory of the parts.
    pub directory: &'a str,
    /// How large a part is.
    pub size: PartWords,
}

/// Into what the words ask to split a stream, the program's name first among them, for which [`crate::view_of`] gives
/// [`crate::ViewCommand::Split`].
pub fn splitting_of<'a>(alloc: Global, words: &'a [&'a str]) -> Result<Splitting<'a>, ViewFault>
    ensures { let asked = map (λ word. word.now) words.entry.now in
        HasNoFault asked → MatchResult result (AsksToSplit (subcommand_of program asked))
        (RefusesToSplit (subcommand_of program asked)) }
{
    match program(alloc)?.try_get_matches_from(words) {
        Ok(matches) => splitting_met(alloc, &matches),
        Err(_) => Err(ViewFault::Order(OrderFault::Memory)),
    }
}

// What clap's matches ask for.
fn splitting_met<'a>(alloc: Global, matches: &ArgMatches<'a>) -> Result<Splitting<'a>, ViewFault>
    ensures { MatchResult result (AsksToSplit (subcommand_rows_of matches.now))
        (RefusesToSplit (subcommand_rows_of matches.now)) }
{
    match splitting_in(matches) {
        Some(splitting) => Ok(splitting),
        None => Err(size_fault(alloc, matches)),
    }
}

// What they ask for. None: no command with a directory is named, or the size of a part is none, or there are two.
fn splitting_in<'a>(matches: &ArgMatches<'a>) -> Option<Splitting<'a>>
    ensures { MatchOption result ((splitting : Splitting) → ¬ AsksToSplit (subcommand_rows_of matches.now) splitting)
        (AsksToSplit (subcommand_rows_of matches.now)) }
{
    let (_, matches) = matches.subcommand()?;
    let directory = matches.get_str("DIR")?;
    let size = size_in(matches.get_str("size"), matches.get_str("values"))?;
    Some(Splitting { directory, size })
}

// How large a part is, by the words for its bytes and its values. None: one of them says no number, or both are there.
fn size_in(bytes: Option<&str>, values: Option<&str>) -> Option<PartWords>
    ensures { MatchOption result ((size : PartWords) → ¬ IsPartSize (text_of bytes.entry) (text_of values.entry) size)
        (IsPartSize (text_of bytes.entry) (text_of values.entry)) }
{
    match (bytes, values) {
        (None, None) => Some(PartWords::Bytes(USUAL_SIZE)),
        (Some(word), None) => Some(PartWords::Bytes(bytes_of(word)?)),
        (None, Some(word)) => Some(PartWords::Values(number_of(Some(word), 0)?)),
        (Some(_), Some(_)) => None,
    }
}

// The number of bytes that a word says: digits, and behind them K, M or G where they count units. None: it is anything
// else, or the number has more than 64 bits.
fn bytes_of(word: &str) -> Option<u64>
    ensures { MatchOption result ((n : ℕ) → ¬ IsSizeWord word.now n) (IsSizeWord word.now) }
{
    if let Some(digits) = word.strip_suffix('K') {
        return units_of(digits, KILO);
    }
    if let Some(digits) = word.strip_suffix('M') {
        return units_of(digits, MEGA);
    }
    if let Some(digits) = word.strip_suffix('G') {
        return units_of(digits, GIGA);
    }
    number_of(Some(word), 0)
}

// The number of bytes of as many units as the digits say.
fn units_of(digits: &str, unit: u64) -> Option<u64>
    ensures { MatchOption result ((n : ℕ) → ¬ AreUnits digits.now unit n) (AreUnits digits.now unit) }
{
    number_of(Some(digits), 0)?.checked_mul(unit)
}

// The fault of words that say no size.
fn size_fault(alloc: Global, matches: &ArgMatches<'_>) -> ViewFault
    ensures { IsWordAtFault result }
{
    let Some((_, matches)) = matches.subcommand() else {
        return ViewFault::Order(OrderFault::Words);
    };
    match (matches.get_str("size"), matches.get_str("values")) {
        (Some(_), Some(_)) => said(sizes_line(alloc)),
        (Some(word), None) => said(size_line(alloc, word)),
        (None, Some(word)) => said(number_line(alloc, "values", word, 0, u64::MAX)),
        (None, None) => ViewFault::Order(OrderFault::Words),
    }
}
