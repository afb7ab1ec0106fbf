//! What the words ask for.

ghost use Rattle.std.specs.Prelude.{◌≡◌, MatchBool, MatchResult, map};
ghost use Rattle.gob.specs.Asked.{AsksFor, RefusesAll, RefusesShown, TakesFiles};
ghost use Rattle.gob_words.specs.declared.view.ViewFault.TheVariants as fault;
ghost use Rattle.gob_words.specs.declared.words.OrderFault.TheVariants as order_fault;

use gob_words::{
    Making, Order, OrderFault, Splitting, View, ViewCommand, ViewFault, files_of, go_taking_of,
    making_of, order_of, splitting_of, view_of,
};
use std::alloc::Global;

/// What the words ask for: an exact command, a view of one stream, one of some files, files of a stream's parts, a
/// stream of plain JSON, or the lines of what is received with what interfaces hold.
#[derive(Drop)]
pub(crate) enum Asked<'a> {
    Order(Order<'a>),
    View(View<'a>),
    Files(View<'a>, Vec<&'a str>),
    Parts(View<'a>, Splitting<'a>),
    Made(View<'a>, Making<'a>),
    GoTaking(Order<'a>),
}

/// What the words ask for, the program's name first: the order that they are, and else what they ask to be shown, or
/// received and shown.
pub(crate) fn asked_by<'a>(alloc: Global, words: &'a [&'a str]) -> Result<Asked<'a>, ViewFault>
    ensures { MatchResult result (AsksFor (map (λ word. word.now) words.entry.now))
        (RefusesAll (map (λ word. word.now) words.entry.now)) }
{
    match order_of(alloc, words) {
        Ok(order) => Ok(Asked::Order(order)),
        Err(OrderFault::Words) => shown_or_taken_by(alloc, words),
        Err(fault) => Err(ViewFault::Order(fault)),
    }
}

// What the words ask for, which are no order.
fn shown_or_taken_by<'a>(alloc: Global, words: &'a [&'a str]) -> Result<Asked<'a>, ViewFault>
    ensures { MatchResult result (AsksFor (map (λ word. word.now) words.entry.now))
        (RefusesAll (map (λ word. word.now) words.entry.now)) }
{
    match shown_by(alloc, words) {
        Ok(asked) => Ok(asked),
        Err(ViewFault::Order(OrderFault::Words)) => taken_by(alloc, words),
        Err(fault) => Err(fault),
    }
}

// What the words ask to be received, which ask for nothing to be shown.
fn taken_by<'a>(alloc: Global, words: &'a [&'a str]) -> Result<Asked<'a>, ViewFault>
    requires { RefusesShown (map (λ word. word.now) words.now) (fault.Order order_fault.Words) }
    ensures { MatchResult result (AsksFor (map (λ word. word.now) words.entry.now))
        (RefusesAll (map (λ word. word.now) words.entry.now)) }
{
    let order = go_taking_of(alloc, words)?;
    Ok(Asked::GoTaking(order))
}

// What the words ask to be shown, which are no order.
fn shown_by<'a>(alloc: Global, words: &'a [&'a str]) -> Result<Asked<'a>, ViewFault>
    ensures { MatchResult result (AsksFor (map (λ word. word.now) words.entry.now))
        (RefusesShown (map (λ word. word.now) words.entry.now)) }
{
    let view = view_of(alloc, words)?;
    if view.command == ViewCommand::Split {
        let splitting = splitting_of(alloc, words)?;
        return Ok(Asked::Parts(view, splitting));
    }
    if view.command == ViewCommand::Make {
        let making = making_of(alloc, words)?;
        return Ok(Asked::Made(view, making));
    }
    if !takes_files(view.command) {
        return Ok(Asked::View(view));
    }
    let files = files_of(alloc, words)?;
    Ok(Asked::Files(view, files))
}

// Whether the command takes some files.
fn takes_files(command: ViewCommand) -> bool
    ensures { MatchBool result (TakesFiles command) (¬ TakesFiles command) }
{
    matches!(command, ViewCommand::Verify | ViewCommand::Join)
}
