//! What the words of the command line ask for.

ghost use Rattle.std.specs.Prelude.{◌≡◌, ◌≢◌, ℕ, IfOk, IfSome, MatchBool, MatchOption, MatchResult, map, string_bytes};
ghost use Rattle.clap.specs.Words.{found_of, rows_of, subcommand_rows_of};
ghost use Rattle.gob_words.specs.declared.words.Chosen.{Chosen};
ghost use Rattle.gob_words.specs.declared.words.Order.{Order};
ghost use Rattle.gob_words.specs.Words.{Asks, HasNoFault, IsFaultOf, IsOrderOf, IsWithoutLast, Refuses};
ghost use Rattle.gob_words.specs.Words.{IsSet, name_of, text_of, wanted_in};

use crate::command_line::program;
use crate::decimal::number_of;
use crate::words::{Chosen, Order, OrderFault};
use clap::ArgMatches;
use clap::error::ErrorKind;
use std::alloc::{AllocError, Global};
use std::fmt::Display;

pub(crate) const USUAL_DEPTH: u64 = 1000;

pub(crate) const USUAL_ITEM: u64 = 67108864;

/// What the words ask for, the program's name first: a command, its files and its options. The words `help`, `-h` and
/// `--help` are answered with [`OrderFault::Help`].
pub fn order_of<'a>(alloc: Global, words: &'a [&'a str]) -> Result<Order<'a>, OrderFault>
    ensures order { MatchResult result (Asks (map (λ word. word.now) words.entry.now))
        (Refuses (map (λ word. word.now) words.entry.now)) }
    ensures accepted { IfOk result (λ _. HasNoFault (map (λ word. word.now) words.entry.now)) }
{
    match program(alloc)?.try_get_matches_from(words) {
        Ok(matches) => order_in(&matches).ok_or(OrderFault::Words),
        Err(error) => Err(fault_of(alloc, error.kind(), &error)),
    }
}

// The fault of words that clap answers with an error of this kind, which shows this. It is one function for all that is
// shown, since clap's contracts don't say what its own error shows.
pub(crate) fn fault_of<D: Display>(alloc: Global, kind: ErrorKind, shown: &D) -> OrderFault
    ensures { IsFaultOf kind (D.output shown.now) result }
{
    match kind {
        ErrorKind::DisplayHelp => match help_in(alloc, shown) {
            Ok(text) => OrderFault::Help(text),
            Err(_) => OrderFault::Memory,
        },
        ErrorKind::OutOfMemory => OrderFault::Memory,
        _ => OrderFault::Words,
    }
}

// The help that is shown, without its last character, which is a line feed.
fn help_in<D: Display>(alloc: Global, shown: &D) -> Result<String, AllocError>
    ensures { IfOk result (λ text. IfSome (D.output shown.now) (λ bytes. IsWithoutLast bytes (string_bytes text))) }
{
    let mut text = shown.to_string(alloc)?;
    text.pop();
    Ok(text)
}

// The order that clap's matches make. None: no command is named, a number is none or out of its range, or what is asked
// for is a view.
fn order_in<'a>(matches: &ArgMatches<'a>) -> Option<Order<'a>>
    ensures { MatchOption result
        ((order : Order) → ¬ IsOrderOf (subcommand_rows_of matches.now) order)
        (IsOrderOf (subcommand_rows_of matches.now)) }
{
    let (name, matches) = matches.subcommand()?;
    let command = command_of(name)?;
    if is_set(matches.get_str("go")) || is_set(matches.get_str("hoist")) {
        return None;
    }
    if is_set(matches.get_str("progress")) || is_set(matches.get_str("salvage")) {
        return None;
    }
    let wanted = wanted_in(command, matches);
    let depth = number_of(matches.get_str("depth"), USUAL_DEPTH)?;
    let item = number_of(matches.get_str("item"), USUAL_ITEM)?;
    if depth < 1 || depth > command.most_depth() || wanted.is_some() != command.wants_type() {
        return None;
    }
    Some(Order {
        command,
        wanted,
        input: matches.get_str("IN"),
        depth,
        item,
    })
}

// Whether a flag is given, by clap's value of it: the word true where it is.
pub(crate) fn is_set(value: Option<&str>) -> bool
    ensures { MatchBool result (IsSet (text_of value.entry)) (¬ IsSet (text_of value.entry)) }
{
    matches!(value, Some("true"))
}

// The command of this name.
fn command_of(name: &str) -> Option<Chosen>
    ensures { MatchOption result ((command : Chosen) → name_of command ≢ name.now)
        (λ command. name_of command ≡ name.now) }
{
    match name {
        "show" => Some(Chosen::Show),
        "check" => Some(Chosen::Check),
        "rewrite" => Some(Chosen::Rewrite),
        "take" => Some(Chosen::Take),
        "convert" => Some(Chosen::Convert),
        _ => None,
    }
}

// The name of the file that has the wanted type, where the command has one.
fn wanted_in<'a>(command: Chosen, matches: &ArgMatches<'a>) -> Option<&'a str>
    ensures { text_of result ≡ wanted_in command (rows_of (found_of matches.now)) }
{
    match command {
        Chosen::Show | Chosen::Check | Chosen::Rewrite => None,
        Chosen::Take | Chosen::Convert => matches.get_str("WANTED"),
    }
}
