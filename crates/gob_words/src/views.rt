//! What the words of the command line ask to be shown to people and to other programs, beside the orders.

ghost use Rattle.std.specs.Prelude.{◌≡◌, ◌≢◌, ◌⊎◌, ℕ, Option, IfOk, IfSome, MatchBool, MatchOption, MatchResult, map};
ghost use Rattle.std.specs.Prelude.{string_bytes};
ghost use Rattle.clap.specs.Words.{subcommand_rows_of};
ghost use Rattle.gob_words.specs.declared.view.View.{View};
ghost use Rattle.gob_words.specs.declared.view.ViewCommand.{ViewCommand};
ghost use Rattle.gob_words.specs.Escaped.{IsUnobeyed};
ghost use Rattle.gob_words.specs.Views.{AsksToView, IsFileOf, IsViewFaultOf, IsViewOf, RefusesToView, view_name};
ghost use Rattle.gob_words.specs.Views.{IsAskedFor, IsFaultFlagOf, IsFlagOf, IsGoFlagOf, IsHoistFlagOf, IsOnlyOf};
ghost use Rattle.gob_words.specs.Views.{IsNoView, IsPlaceIn, IsPlaceOf, IsVersionView, IsWordAtFault, SaysNoKinds};
ghost use Rattle.gob_words.specs.Views.{kind_words_in};
ghost use Rattle.gob_words.specs.Kinds.{SayKinds};
ghost use Rattle.gob_words.specs.Words.{HasNoFault, text_of};

use crate::command_line::program;
use crate::decimal::number_of;
use crate::kinds::{TypeKind, kinds_in};
use crate::message::{number_line, shown_line};
use crate::orders::{USUAL_DEPTH, USUAL_ITEM, fault_of, is_set};
use crate::view::{GREATEST_DEPTH, View, ViewCommand, ViewFault};
use crate::words::OrderFault;
use clap::ArgMatches;
use clap::error::ErrorKind;
use std::alloc::{AllocError, Global};
use std::fmt::Display;

/// What the words ask to be shown, the program's name first. Words that [`crate::order_of`] takes ask for none of it.
/// The words `help`, `-h` and `--help` are answered with [`OrderFault::Help`], as they are there. No other words in
/// which clap finds a fault ask for anything, but for the option that asks for the version.
pub fn view_of<'a>(alloc: Global, words: &'a [&'a str]) -> Result<View<'a>, ViewFault>
    ensures view { MatchResult result (AsksToView (map (λ word. word.now) words.entry.now))
        (RefusesToView (map (λ word. word.now) words.entry.now)) }
    ensures accepted { IfOk result (λ view. HasNoFault (map (λ word. word.now) words.entry.now)
        ⊎ IsVersionView view) }
{
    match program(alloc)?.try_get_matches_from(words) {
        Ok(matches) => view_met(alloc, &matches),
        Err(error) => match error.kind() {
            ErrorKind::DisplayVersion => Ok(version_view(alloc)),
            kind => Err(word_fault(alloc, names_view(words), kind, &error)),
        },
    }
}

// The most bytes of a line that is read, with its line feed, where the words don't say it.
const USUAL_LINE: u64 = 268435456;

// What the option that asks for the version stands for.
fn version_view<'a>(alloc: Global) -> View<'a>
    ensures { IsVersionView result }
{
    View {
        command: ViewCommand::Version,
        input: None,
        depth: USUAL_DEPTH,
        item: USUAL_ITEM,
        zeros: false,
        raw: false,
        tagged: false,
        typed: false,
        only: None,
        each: false,
        kinds: Vec::new(alloc),
        main: false,
        progress: false,
        salvage: false,
        hoist: false,
        fault: false,
        at: None,
        line: USUAL_LINE,
        go: false,
    }
}

// What clap's matches ask for.
fn view_met<'a>(alloc: Global, matches: &ArgMatches<'a>) -> Result<View<'a>, ViewFault>
    ensures { MatchResult result (IsViewOf (subcommand_rows_of matches.now))
        (IsNoView (subcommand_rows_of matches.now)) }
{
    let kinds = kinds_met(alloc, matches)?;
    match view_in(matches, kinds) {
        Some(view) => Ok(view),
        None => Err(number_fault(alloc, matches)),
    }
}

// What clap's matches say of types.
fn kinds_met(alloc: Global, matches: &ArgMatches<'_>) -> Result<Vec<TypeKind>, ViewFault>
    ensures { MatchResult result (λ kinds. SayKinds (kind_words_in (subcommand_rows_of matches.now)) kinds.items)
        (SaysNoKinds (kind_words_in (subcommand_rows_of matches.now))) }
{
    let Some((_, matches)) = matches.subcommand() else {
        return Ok(Vec::new(alloc));
    };
    match matches.get_strs("as") {
        Some(words) => kinds_in(alloc, words),
        None => Ok(Vec::new(alloc)),
    }
}

// What clap's matches ask for, which say these kinds of types. None: no such command is named, or a number is none or
// out of its range.
fn view_in<'a>(matches: &ArgMatches<'a>, kinds: Vec<TypeKind>) -> Option<View<'a>>
    requires { SayKinds (kind_words_in (subcommand_rows_of matches.now)) kinds.items }
    ensures { MatchOption result
        ((view : View) → ¬ IsViewOf (subcommand_rows_of matches.now) view)
        (IsViewOf (subcommand_rows_of matches.now)) }
{
    let (name, matches) = matches.subcommand()?;
    let command = command_of(name)?;
    if !is_asked(
        command,
        matches.get_str("go"),
        matches.get_str("hoist"),
        matches.get_str("salvage"),
    ) {
        return None;
    }
    let depth = number_of(matches.get_str("depth"), USUAL_DEPTH)?;
    let item = number_of(matches.get_str("item"), USUAL_ITEM)?;
    let at = place_of(command, matches.get_str("at"))?;
    let line = number_of(matches.get_str("line"), USUAL_LINE)?;
    if depth < 1 || depth > GREATEST_DEPTH {
        return None;
    }
    Some(View {
        command,
        input: file_of(matches.get_str("IN")),
        depth,
        item,
        zeros: is_given(command, matches.get_str("zeros")),
        raw: is_given(command, matches.get_str("raw")),
        tagged: is_given(command, matches.get_str("tagged")),
        typed: is_given(command, matches.get_str("typed")),
        only: only_of(command, matches.get_str("only")),
        each: is_set(matches.get_str("each")),
        kinds,
        main: is_set(matches.get_str("main")),
        progress: is_set(matches.get_str("progress")),
        salvage: is_set(matches.get_str("salvage")),
        hoist: is_hoist_asked(command, matches.get_str("hoist")),
        fault: is_fault_asked(command, matches.get_str("fault")),
        at,
        line,
        go: is_go_asked(command, matches.get_str("go")),
    })
}

// The command of this name.
fn command_of(name: &str) -> Option<ViewCommand>
    ensures { MatchOption result ((command : ViewCommand) → view_name command ≢ name.now)
        (λ command. view_name command ≡ name.now) }
{
    match name {
        "values" => Some(ViewCommand::Values),
        "types" => Some(ViewCommand::Types),
        "why" => Some(ViewCommand::Why),
        "explain" => Some(ViewCommand::Explain),
        "verify" => Some(ViewCommand::Verify),
        "salvage" => Some(ViewCommand::Salvage),
        "split" => Some(ViewCommand::Split),
        "join" => Some(ViewCommand::Join),
        "write" => Some(ViewCommand::Write),
        "make" => Some(ViewCommand::Make),
        "version" => Some(ViewCommand::Version),
        "show" => Some(ViewCommand::ShowGo),
        "check" => Some(ViewCommand::CheckGo),
        "rewrite" => Some(ViewCommand::RewriteGo),
        _ => None,
    }
}

// Whether the command is a view, by clap's values of the flags for streams of Go's encoder: an exact command is one
// with such a flag alone.
fn is_asked(
    command: ViewCommand,
    go: Option<&str>,
    hoist: Option<&str>,
    salvage: Option<&str>,
) -> bool
    ensures { MatchBool result
        (IsAskedFor command (text_of go.entry) (text_of hoist.entry) (text_of salvage.entry))
        (¬ IsAskedFor command (text_of go.entry) (text_of hoist.entry) (text_of salvage.entry)) }
{
    match command {
        ViewCommand::ShowGo => is_set(go) || is_set(salvage),
        ViewCommand::CheckGo => is_set(go),
        ViewCommand::RewriteGo => is_set(go) || is_set(hoist),
        ViewCommand::Values
        | ViewCommand::Types
        | ViewCommand::Why
        | ViewCommand::Explain
        | ViewCommand::Verify
        | ViewCommand::Salvage
        | ViewCommand::Split
        | ViewCommand::Join
        | ViewCommand::Write
        | ViewCommand::Make
        | ViewCommand::Version => true,
    }
}

// Whether the flag of explain is given, by clap's value of it.
fn is_fault_asked(command: ViewCommand, value: Option<&str>) -> bool
    ensures { IsFaultFlagOf command (text_of value.entry) result }
{
    match command {
        ViewCommand::Explain => matches!(value, Some("true")),
        ViewCommand::Values
        | ViewCommand::Types
        | ViewCommand::Why
        | ViewCommand::Verify
        | ViewCommand::Salvage
        | ViewCommand::Split
        | ViewCommand::Join
        | ViewCommand::Write
        | ViewCommand::Make
        | ViewCommand::Version
        | ViewCommand::ShowGo
        | ViewCommand::CheckGo
        | ViewCommand::RewriteGo => false,
    }
}

// Whether definitions are to stand before the values that hold them, by clap's value of the flag of rewrite.
fn is_hoist_asked(command: ViewCommand, value: Option<&str>) -> bool
    ensures { IsHoistFlagOf command (text_of value.entry) result }
{
    match command {
        ViewCommand::RewriteGo => matches!(value, Some("true")),
        ViewCommand::Values
        | ViewCommand::Types
        | ViewCommand::Why
        | ViewCommand::Explain
        | ViewCommand::Verify
        | ViewCommand::Salvage
        | ViewCommand::Split
        | ViewCommand::Join
        | ViewCommand::Write
        | ViewCommand::Make
        | ViewCommand::Version
        | ViewCommand::ShowGo
        | ViewCommand::CheckGo => false,
    }
}

// Whether lines are those of `show --go`, by clap's value of the flag of write.
fn is_go_asked(command: ViewCommand, value: Option<&str>) -> bool
    ensures { IsGoFlagOf command (text_of value.entry) result }
{
    match command {
        ViewCommand::Write => matches!(value, Some("true")),
        ViewCommand::Values
        | ViewCommand::Types
        | ViewCommand::Why
        | ViewCommand::Explain
        | ViewCommand::Verify
        | ViewCommand::Salvage
        | ViewCommand::Split
        | ViewCommand::Join
        | ViewCommand::Make
        | ViewCommand::Version
        | ViewCommand::ShowGo
        | ViewCommand::CheckGo
        | ViewCommand::RewriteGo => false,
    }
}

// The offset that the word of explain gives, if one is there. None: the word is no number.
fn place_of(command: ViewCommand, word: Option<&str>) -> Option<Option<u64>>
    ensures { MatchOption result ((at : Option ℕ) → ¬ IsPlaceOf command (text_of word.entry) at)
        (IsPlaceOf command (text_of word.entry)) }
{
    match command {
        ViewCommand::Explain => place_in(word),
        ViewCommand::Values
        | ViewCommand::Types
        | ViewCommand::Why
        | ViewCommand::Verify
        | ViewCommand::Salvage
        | ViewCommand::Split
        | ViewCommand::Join
        | ViewCommand::Write
        | ViewCommand::Make
        | ViewCommand::Version
        | ViewCommand::ShowGo
        | ViewCommand::CheckGo
        | ViewCommand::RewriteGo => { Some(None) }
    }
}

// The offset that the word gives, if one is there. None: the word is no number.
fn place_in(word: Option<&str>) -> Option<Option<u64>>
    ensures { MatchOption result ((at : Option ℕ) → ¬ IsPlaceIn (text_of word.entry) at)
        (IsPlaceIn (text_of word.entry)) }
{
    let Some(digits) = word else {
        return Some(None);
    };
    match number_of(Some(digits), 0) {
        Some(place) => Some(Some(place)),
        None => None,
    }
}

// Whether a flag of values is given, by clap's value of it: the word true where it is.
fn is_given(command: ViewCommand, value: Option<&str>) -> bool
    ensures { IsFlagOf command (text_of value.entry) result }
{
    match command {
        ViewCommand::Values => matches!(value, Some("true")),
        ViewCommand::Types
        | ViewCommand::Why
        | ViewCommand::Explain
        | ViewCommand::Verify
        | ViewCommand::Salvage
        | ViewCommand::Split
        | ViewCommand::Join
        | ViewCommand::Write
        | ViewCommand::Make
        | ViewCommand::Version
        | ViewCommand::ShowGo
        | ViewCommand::CheckGo
        | ViewCommand::RewriteGo => { false }
    }
}

// The word that says of which type values are shown, where the command has one.
fn only_of<'a>(command: ViewCommand, word: Option<&'a str>) -> Option<&'a str>
    ensures { IsOnlyOf command (text_of word.entry) (text_of result) }
{
    match command {
        ViewCommand::Values => word,
        ViewCommand::Types
        | ViewCommand::Why
        | ViewCommand::Explain
        | ViewCommand::Verify
        | ViewCommand::Salvage
        | ViewCommand::Split
        | ViewCommand::Join
        | ViewCommand::Write
        | ViewCommand::Make
        | ViewCommand::Version
        | ViewCommand::ShowGo
        | ViewCommand::CheckGo
        | ViewCommand::RewriteGo => None,
    }
}

// The name of the file that is read: none where a minus sign stands for standard input.
fn file_of<'a>(word: Option<&'a str>) -> Option<&'a str>
    ensures { IsFileOf (text_of word.entry) (text_of result) }
{
    match word {
        Some("-") => None,
        _ => word,
    }
}

// The fault of words that clap takes and that are no view: of the numbers, where they name a command of these.
fn number_fault(alloc: Global, matches: &ArgMatches<'_>) -> ViewFault
    ensures { IsWordAtFault result }
{
    let Some((name, matches)) = matches.subcommand() else {
        return ViewFault::Order(OrderFault::Words);
    };
    let Some(command) = command_of(name) else {
        return ViewFault::Order(OrderFault::Words);
    };
    if !is_asked(
        command,
        matches.get_str("go"),
        matches.get_str("hoist"),
        matches.get_str("salvage"),
    ) {
        return ViewFault::Order(OrderFault::Words);
    }
    if let Some(fault) = limit_fault(alloc, matches) {
        return fault;
    }
    match (matches.get_str("at"), matches.get_str("line")) {
        (Some(word), _) => said(number_line(alloc, "at", word, 0, u64::MAX)),
        (None, Some(word)) => said(number_line(alloc, "line", word, 0, u64::MAX)),
        (None, None) => ViewFault::Order(OrderFault::Words),
    }
}

// The fault of the numbers that each command has, where one of them is none or out of its range.
pub(crate) fn limit_fault(alloc: Global, matches: &ArgMatches<'_>) -> Option<ViewFault>
    ensures { IfSome result IsWordAtFault }
{
    if let Some(word) = matches.get_str("depth")
        && !is_number(word, 1, GREATEST_DEPTH)
    {
        return Some(said(number_line(alloc, "depth", word, 1, GREATEST_DEPTH)));
    }
    if let Some(word) = matches.get_str("item")
        && !is_number(word, 0, u64::MAX)
    {
        return Some(said(number_line(alloc, "item", word, 0, u64::MAX)));
    }
    None
}

fn is_number(word: &str, least: u64, most: u64) -> bool {
    match number_of(Some(word), 0) {
        Some(number) => least <= number && number <= most,
        None => false,
    }
}

// The fault of words that clap answers with an error of this kind, which shows this: it is told in a line of words that
// name one of the commands.
pub(crate) fn word_fault<D: Display>(
    alloc: Global,
    are_named: bool,
    kind: ErrorKind,
    shown: &D,
) -> ViewFault
    ensures { IsViewFaultOf kind result }
{
    match fault_of(alloc, kind, shown) {
        OrderFault::Words if are_named => said(shown_line(alloc, shown)),
        fault => ViewFault::Order(fault),
    }
}

// Whether the word behind the program's name is one of these commands: an exact command is one with a flag for Go's
// encoder alone, which is none behind the word --.
fn names_view(words: &[&str]) -> bool {
    match words.get(1) {
        Some(name) => match command_of(name) {
            Some(ViewCommand::ShowGo) => has_flag(words, "--go") || has_flag(words, "--salvage"),
            Some(ViewCommand::CheckGo) => has_flag(words, "--go"),
            Some(ViewCommand::RewriteGo) => has_flag(words, "--go") || has_flag(words, "--hoist"),
            Some(_) => true,
            None => false,
        },
        None => false,
    }
}

// Whether the flag is among the words, before the word -- where that is one of them.
pub(crate) fn has_flag(words: &[&str], flag: &str) -> bool {
    words
        .iter()
        .take_while(|word| **word != "--")
        .any(|word| *word == flag)
}

// A fault that is told by this line.
pub(crate) fn said(line: Result<String, AllocError>) -> ViewFault
    requires { IfOk line (λ text. IsUnobeyed (string_bytes text)) }
    ensures { IsWordAtFault result }
{
    match line {
        Ok(line) => ViewFault::Word(line),
        Err(_) => ViewFault::Order(OrderFault::Memory),
    }
}
