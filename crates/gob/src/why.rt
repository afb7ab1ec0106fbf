//! The run of `gob why`, also over a file to which several encoders wrote.

ghost use Rattle.std.specs.Prelude.{◌≡◌, ◌≢◌, [], ℕ, List, Some};
ghost use Rattle.gob_stream.specs.Calls.Ends.{reader_of};
ghost use Rattle.gob_tool.specs.declared.fault.ToolFault.TheVariants as fault;
ghost use Rattle.gob_views.specs.Running.{ViewAnswers};

use crate::appended::refusal_in_input;
use crate::encoders::{appended_file, encoders_of};
use crate::kept::say_kept;
use crate::opening::open;
use crate::verify::sent;
use crate::{Exit, ended, opened_by_name, told_once};
use gob_appended::Appended;
use gob_stream::{Input, Output, Refusal};
use gob_tool::ToolFault;
use gob_types::Reason;
use gob_views::run_view;
use gob_words::View;
use std::alloc::{AllocError, Global};
use std::io::{Read, Write};

/// What is said of an input, and what the run has answered.
#[derive(Drop)]
struct Told {
    text: Vec<u8>,
    answer: Result<(), ToolFault>,
}

/// Says on standard output why the input is refused, and how much `gob salvage` keeps of it; or how much is in it. Of a
/// file that is whole but for definitions that other encoders say again, it says that, and how many encoders there are;
/// of one that is refused behind these too, where that is.
pub(crate) fn why(rt: &HostRuntime, view: &View) -> Result<(), Exit> {
    let told = told_of(rt, view)?;
    sent(rt.stdout().write_all(&told.text))?;
    let ending = told_once(ended(in_memory(told.answer), false));
    if matches!(&ending, Err(Exit::Told(_))) {
        say_kept(rt, view)?;
    }
    ending
}

// How a run ends whose text is made in memory: a write that failed lacked that.
fn in_memory(answer: Result<(), ToolFault>) -> Result<(), ToolFault>
    ensures lacks { answer ≡ Err fault.Write → result ≡ Err fault.Memory }
    ensures others { answer ≢ Err fault.Write → result ≡ answer }
{
    match answer {
        Err(ToolFault::Write) => Err(ToolFault::Memory),
        answer => answer,
    }
}

// What is said of the input.
fn told_of(rt: &HostRuntime, view: &View) -> Result<Told, Exit> {
    let Some(path) = view.input else {
        return Ok(tell(rt.alloc(), view, &mut Input::new(rt.stdin())));
    };
    let file = opened_by_name(rt.alloc(), path, open(rt, path))?;
    let told = tell(rt.alloc(), view, &mut Input::new(file));
    if is_defined_twice(&told.answer) {
        return Ok(told_again(rt, view, path, told)?);
    }
    Ok(told)
}

// What the run says of what a reader gives.
fn tell<R: Read>(alloc: Global, view: &View<'_>, input: &mut Input<R>) -> Told
    ensures { (bytes : List ℕ) → R.remaining (reader_of input.old) ≡ Some bytes
        → ViewAnswers view.now bytes (R.remaining (reader_of input.new)) (Some []) (Some result.text.items)
        result.answer }
{
    let mut output = Output::new(Vec::new(alloc));
    let answer = run_view(alloc, view, input, &mut output, &mut None);
    Told {
        text: output.into_inner(),
        answer,
    }
}

// Whether a stream is refused since it defines a type twice.
fn is_defined_twice(answer: &Result<(), ToolFault>) -> bool {
    match answer {
        Err(ToolFault::Refused(refusal)) => matches!(refusal.reason, Reason::DefinedTwice(_)),
        _ => false,
    }
}

// What is said of a file of which this was told, since it defines a type twice: how much is in it without the
// definitions that are said again, or else this, and where it is refused without them. Where it can't be read once more
// this stays.
fn told_again(
    rt: &HostRuntime,
    view: &View,
    path: &str,
    mut told: Told,
) -> Result<Told, AllocError> {
    let Some(file) = appended_file(rt, path) else {
        return Ok(told);
    };
    let mut input = Input::new(file);
    let mut again = tell(rt.alloc(), view, &mut input);
    let appended = input.into_inner();
    match again.answer {
        Ok(()) => {
            let line = encoders_line(rt.alloc(), &appended)?;
            again.text.extend_from_slice(line.as_bytes())?;
            return Ok(again);
        }
        Err(ToolFault::Refused(refusal)) if appended.left_out() > 0 => {
            let line = later_line(rt.alloc(), &appended, refusal)?;
            told.text.extend_from_slice(line.as_bytes())?;
        }
        Err(_) => {}
    }
    Ok(told)
}

// Where the file is refused without the definitions that are said again.
fn later_line<R>(
    alloc: Global,
    appended: &Appended<R>,
    refusal: Refusal,
) -> Result<String, AllocError> {
    let refusal = refusal_in_input(appended, refusal);
    let bytes = appended.left_out();
    format!(in alloc; "then: {refusal}, without {bytes} bytes that define types again\n")
}

// How many encoders wrote, and where that was seen.
fn encoders_line<R>(alloc: Global, appended: &Appended<R>) -> Result<String, AllocError> {
    let encoders = encoders_of(appended);
    let places = places_text(alloc, appended)?;
    let bytes = appended.left_out();
    format!(in alloc;
        "encoders: {encoders}, seen to begin anew at byte {places}; {bytes} bytes that define types again \
        aren't counted\n"
    )
}

// The first places where one is seen to begin anew, and how many more there are.
fn places_text<R>(alloc: Global, appended: &Appended<R>) -> Result<String, AllocError> {
    let places = appended.places_anew();
    let mut text = String::new(alloc);
    for index in 0..places.len() {
        let comma = if index == 0 { "" } else { ", " };
        let place = places[index];
        write!(text, "{comma}{place}")?;
    }
    let more = appended.encoders_anew().saturating_sub(places.len() as u64);
    if more > 0 {
        write!(text, " and {more} more")?;
    }
    Ok(text)
}
