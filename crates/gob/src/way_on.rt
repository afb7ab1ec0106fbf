//! What a user is told behind a refusal.

ghost use Rattle.std.specs.Prelude.{◌≡◌, ◌++◌, IfOk, codes, string_bytes};
ghost use Rattle.gob_words.specs.Words.{text_of};
ghost use Rattle.gob.specs.WayOn.{IsWayOn, TellsWayOn, WithWayOn, end_of_options, is_told, told_name};

use crate::Exit;
use gob_tool::ToolFault;
use gob_words::{View, ViewCommand, escaped, quoted};
use std::alloc::{AllocError, Global};

/// The ending of a view's run, with the name of the file and the way on where that is refused.
pub(crate) fn with_way_on(
    alloc: Global,
    view: &View<'_>,
    ending: Result<(), Exit>,
) -> Result<(), Exit>
    ensures { WithWayOn view.now ending result }
{
    let Some(name) = told_name(view) else {
        return ending;
    };
    match ending {
        Ok(()) => Ok(()),
        Err(stop) => Err(stop_in(alloc, name, stop)),
    }
}

// The name of the file that a refusal is told with, where it is.
fn told_name<'a>(view: &View<'a>) -> Option<&'a str>
    ensures { text_of result ≡ told_name view.now }
{
    if is_told(view.command) {
        view.input
    } else {
        None
    }
}

// Whether the refusals of this command are told with the way on. Why tells more itself, and of several files each has
// a line.
fn is_told(command: ViewCommand) -> bool
    ensures { result ≡ is_told command }
{
    match command {
        ViewCommand::Values
        | ViewCommand::Types
        | ViewCommand::Explain
        | ViewCommand::ShowGo
        | ViewCommand::CheckGo
        | ViewCommand::RewriteGo
        | ViewCommand::Split => true,
        ViewCommand::Why
        | ViewCommand::Verify
        | ViewCommand::Salvage
        | ViewCommand::Join
        | ViewCommand::Write
        | ViewCommand::Make
        | ViewCommand::Version => false,
    }
}

// What stops the program in place of this, where the file has this name.
fn stop_in(alloc: Global, name: &str, stop: Exit) -> Exit
    ensures { TellsWayOn name.now stop result }
{
    match stop {
        Exit::Run(fault) => fault_in(alloc, name, fault),
        stop => stop,
    }
}

// What stops the program where this stopped the run.
fn fault_in(alloc: Global, name: &str, fault: ToolFault) -> Exit
    ensures { TellsWayOn name.now (Exit.Run fault) result }
{
    match fault {
        ToolFault::Refused(refusal) => match way_on(alloc, name) {
            Ok(line) => Exit::RefusedFile(ToolFault::Refused(refusal), line),
            // Without memory for the line the refusal is told alone.
            Err(_) => Exit::Run(ToolFault::Refused(refusal)),
        },
        fault => Exit::Run(fault),
    }
}

/// The line that names the file, and the command that says why it is refused.
pub(crate) fn way_on(alloc: Global, name: &str) -> Result<String, AllocError>
    ensures { IfOk result (λ line. IsWayOn name.now (string_bytes line)) }
{
    let shown = escaped(alloc, name)?;
    let word = quoted(alloc, name)?;
    joined(alloc, shown.as_str(), end_of_options(name), word.as_str())
}

// The line of these parts.
fn joined(alloc: Global, shown: &str, before: &str, word: &str) -> Result<String, AllocError>
    ensures { IfOk result (λ line. string_bytes line
        ≡ codes "gob: in " ++ (shown.now ++ (codes "; type: gob why " ++ (before.now ++ word.now)))) }
{
    format!(in alloc; "gob: in {shown}; type: gob why {before}{word}")
}

// What stands before a name that begins with a minus sign: the word that ends the options.
fn end_of_options(name: &str) -> &'static str
    ensures { result.now ≡ end_of_options name.now }
{
    if name.as_bytes().first() == Some(&b'-') {
        "-- "
    } else {
        ""
    }
}
