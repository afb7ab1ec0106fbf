//! What is told of what was kept and left out.

ghost use Rattle.std.specs.Prelude.{◌≡◌, IfOk};
ghost use Rattle.std.specs.String.{string_bytes};
ghost use Rattle.gob_salvage.specs.Report.{amount_text, gap_text, kept_text, left_text, more_text, plural};
ghost use Rattle.gob_salvage.specs.Report.{repeated_id, report_text, total_text, why_text};

use crate::gap::Gap;
use crate::keeping::Salvaged;
use gob_types::{Reason, TypeId};
use std::alloc::{AllocError, Global};

// So many gaps are told one by one.
const TOLD: usize = 20;

/// The lines that tell what was left out, of the first twenty gaps and how many more there are, and at last how much
/// was kept: all but the last line feed.
pub fn report(alloc: Global, kept: &Salvaged) -> Result<String, AllocError>
    ensures { IfOk result (λ text. string_bytes text ≡ report_text kept.now) }
{
    let told = &kept.gaps[..kept.gaps.len().min(TOLD)];
    let mut text = String::new(alloc);
    for gap in told {
        text.push_str(gap_line(alloc, gap)?.as_str())?;
    }
    let more = (kept.gaps.len() - told.len()) as u64;
    text.push_str(more_line(alloc, more)?.as_str())?;
    text.push_str(total_line(alloc, kept)?.as_str())?;
    Ok(text)
}

// What is left out, and why.
fn gap_line(alloc: Global, gap: &Gap) -> Result<String, AllocError>
    ensures { IfOk result (λ text. string_bytes text ≡ gap_text gap.now) }
{
    let count = gap.length();
    let s = plural(count);
    let begin = gap.begin;
    let last = gap.end.saturating_sub(1);
    let why = why_left_out(alloc, gap)?;
    format!(in alloc; "gob: left out {count} byte{s}, {begin} to {last}: {why}\n")
}

fn why_left_out(alloc: Global, gap: &Gap) -> Result<String, AllocError>
    ensures { IfOk result (λ text. string_bytes text ≡ why_text gap.now) }
{
    if let Some(id) = repeated_type(gap) {
        return format!(in alloc; "type {id} is defined again, in the same way");
    }
    let reason = gap.reason;
    let place = gap.place;
    format!(in alloc; "{reason} at {place}")
}

// The type that they define again, where they do so in the same way.
fn repeated_type(gap: &Gap) -> Option<TypeId>
    ensures { result ≡ repeated_id gap.now }
{
    match gap.reason {
        Reason::DefinedTwice(id) if gap.is_repeated => Some(id),
        _ => None,
    }
}

// How many gaps are not told one by one, if there are any.
fn more_line(alloc: Global, more: u64) -> Result<String, AllocError>
    ensures { IfOk result (λ text. string_bytes text ≡ more_text more) }
{
    if more == 0 {
        return Ok(String::new(alloc));
    }
    let s = plural(more);
    format!(in alloc; "gob: and {more} place{s} more\n")
}

/// The line by which `gob why` tells how much [`run_salvage`](crate::run_salvage) keeps of a refused file: all but the
/// last line feed.
pub fn kept_line(alloc: Global, kept: &Salvaged) -> Result<String, AllocError>
    ensures { IfOk result (λ text. string_bytes text ≡ kept_text kept.now) }
{
    let amount = amount(alloc, kept)?;
    let left = left_out(alloc, kept)?;
    format!(in alloc; "kept: gob salvage keeps {amount}, and leaves out {left}")
}

// How much was kept, and how much wasn't.
fn total_line(alloc: Global, kept: &Salvaged) -> Result<String, AllocError>
    ensures { IfOk result (λ text. string_bytes text ≡ total_text kept.now) }
{
    let amount = amount(alloc, kept)?;
    let left = left_out(alloc, kept)?;
    format!(in alloc; "gob: kept {amount}; left out {left}")
}

// How many items and bytes were kept.
fn amount(alloc: Global, kept: &Salvaged) -> Result<String, AllocError>
    ensures { IfOk result (λ text. string_bytes text ≡ amount_text kept.now) }
{
    let items = kept.items;
    let items_s = plural(items);
    let bytes = kept.bytes.len() as u64;
    let bytes_s = plural(bytes);
    format!(in alloc; "{items} item{items_s}, {bytes} byte{bytes_s}")
}

fn left_out(alloc: Global, kept: &Salvaged) -> Result<String, AllocError>
    ensures { IfOk result (λ text. string_bytes text ≡ left_text kept.now.gaps.items) }
{
    let gaps = kept.gaps.len() as u64;
    if gaps == 0 {
        return String::from_str(alloc, "nothing");
    }
    let left = kept.left_out();
    let left_s = plural(left);
    let gaps_s = plural(gaps);
    format!(in alloc; "{left} byte{left_s} in {gaps} place{gaps_s}")
}

fn plural(number: u64) -> &'static str
    ensures { result.now ≡ plural number }
{
    if number == 1 { "" } else { "s" }
}
