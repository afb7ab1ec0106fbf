//! What the words ask of `take --go`.

ghost use Rattle.std.specs.Prelude.{IfOk, MatchBool, MatchOption, MatchResult, map};
ghost use Rattle.clap.specs.Words.{subcommand_rows_of};
ghost use Rattle.gob_words.specs.declared.words.Order.{Order};
ghost use Rattle.gob_words.specs.Taking.{AsksToTakeGo, IsGoTaking, IsGoTakingOf, IsNoGoTaking, RefusesToTakeGo};
ghost use Rattle.gob_words.specs.Views.{IsWordAtFault};
ghost use Rattle.gob_words.specs.Words.{HasNoFault, text_of};

use crate::command_line::program;
use crate::decimal::number_of;
use crate::orders::{USUAL_DEPTH, USUAL_ITEM, is_set};
use crate::view::{GREATEST_DEPTH, ViewFault};
use crate::views::{has_flag, limit_fault, word_fault};
use crate::words::{Chosen, Order, OrderFault};
use clap::ArgMatches;
use std::alloc::Global;

// The command, and the flag without which it is an order.
const TAKE: &str = "take";

const GO: &str = "--go";

/// What the words ask of `take --go`, the program's name first: the order of [`Chosen::Take`], which asks to print what
/// [`Chosen::Convert`] writes as `show --go` prints it. [`crate::order_of`] gives no order for words with that flag,
/// and [`crate::view_of`] no view.
pub fn go_taking_of<'a>(alloc: Global, words: &'a [&'a str]) -> Result<Order<'a>, ViewFault>
    ensures taking { MatchResult result (AsksToTakeGo (map (λ word. word.now) words.entry.now))
        (RefusesToTakeGo (map (λ word. word.now) words.entry.now)) }
    ensures accepted { IfOk result (λ _. HasNoFault (map (λ word. word.now) words.entry.now)) }
{
    match program(alloc)?.try_get_matches_from(words) {
        Ok(matches) => go_taking_met(alloc, &matches),
        Err(error) => Err(word_fault(alloc, names_taking(words), error.kind(), &error)),
    }
}

// What clap's matches ask for.
fn go_taking_met<'a>(alloc: Global, matches: &ArgMatches<'a>) -> Result<Order<'a>, ViewFault>
    ensures { MatchResult result (IsGoTakingOf (subcommand_rows_of matches.now))
        (IsNoGoTaking (subcommand_rows_of matches.now)) }
{
    match go_taking_in(matches) {
        Some(order) => Ok(order),
        None => Err(taking_fault(alloc, matches)),
    }
}

// What clap's matches ask for. None: another command or none is named, or a number is none or out of its range.
fn go_taking_in<'a>(matches: &ArgMatches<'a>) -> Option<Order<'a>>
    ensures { MatchOption result
        ((order : Order) → ¬ IsGoTakingOf (subcommand_rows_of matches.now) order)
        (IsGoTakingOf (subcommand_rows_of matches.now)) }
{
    let (name, matches) = matches.subcommand()?;
    if !is_go_taking(name, matches.get_str("go")) {
        return None;
    }
    let wanted = matches.get_str("WANTED")?;
    let depth = number_of(matches.get_str("depth"), USUAL_DEPTH)?;
    let item = number_of(matches.get_str("item"), USUAL_ITEM)?;
    if depth < 1 || depth > GREATEST_DEPTH {
        return None;
    }
    Some(Order {
        command: Chosen::Take,
        wanted: Some(wanted),
        input: matches.get_str("IN"),
        depth,
        item,
    })
}

// Whether the command of this name is the one, by clap's value of its flag.
fn is_go_taking(name: &str, go: Option<&str>) -> bool
    ensures { MatchBool result (IsGoTaking name.now (text_of go.entry)) (¬ IsGoTaking name.now (text_of go.entry)) }
{
    name == TAKE && is_set(go)
}

// The fault of words that clap takes and that ask for none of it: of the numbers, where they name the command.
fn taking_fault(alloc: Global, matches: &ArgMatches<'_>) -> ViewFault
    ensures { IsWordAtFault result }
{
    let Some((name, matches)) = matches.subcommand() else {
        return ViewFault::Order(OrderFault::Words);
    };
    if !is_go_taking(name, matches.get_str("go")) {
        return ViewFault::Order(OrderFault::Words);
    }
    match limit_fault(alloc, matches) {
        Some(fault) => fault,
        None => ViewFault::Order(OrderFault::Words),
    }
}

// Whether the word behind the program's name is the command, and the flag is behind it.
fn names_taking(words: &[&str]) -> bool {
    match words.get(1) {
        Some(name) => *name == TAKE && has_flag(words, GO),
        None => false,
    }
}
