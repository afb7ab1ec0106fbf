//! Into which part the text of an item goes.

ghost use Rattle.std.specs.Prelude.{◌≡◌, ◌≢◌, ◌≤◌, ℕ, List, [], ◌∷◌, ◌++◌, Option, None, IfErr, OnErr, OnOk, length};
ghost use Rattle.gob_tool.specs.declared.fault.ToolFault.TheVariants as fault;
ghost use Rattle.gob_split.specs.Split.{StreamPart, all_parts, value_count, with_text};
ghost use Rattle.gob_split.specs.Text.{Text};
ghost use Rattle.gob_split.specs.Machine.Cutting.{BeginsPart, CountsLast, CountsPart, IsCutting, PutsText};
ghost use Rattle.gob_split.specs.Machine.Cutting.{TurnAnswers};
ghost use Rattle.gob_split.specs.Machine.Items.{text_in};

use crate::item_text::ItemText;
use crate::part_size::PartSize;
use crate::parts::{NotWritten, Parts};
use gob_num::Memory;
use gob_tool::ToolFault;
use std::alloc::Global;

/// How much there is in the last part, as far as 64 bits say it.
#[derive(Clone, Copy)]
pub(crate) struct Filling {
    pub(crate) bytes: u64,
    pub(crate) values: u64,
    /// Whether its last item is a value.
    pub(crate) ends_with_value: bool,
}

impl Filling {
    // With the text of an item behind it.
    fn with(self, text: &ItemText) -> Filling
        requires { text.now.definitions ≤ length text.now.bytes.items }
        ensures { (p : StreamPart) → CountsPart self p → CountsPart result (with_text p (text_in text.now)) }
    {
        let values = values_in(text);
        Filling {
            bytes: self.bytes.saturating_add(text.bytes.len() as u64),
            values: self.values.saturating_add(values),
            ends_with_value: values > 0,
        }
    }
}

// How many values the text has.
fn values_in(text: &ItemText) -> u64
    ensures { result ≡ value_count (text_in text.now).value }
{
    if text.definitions < text.bytes.len() {
        1
    } else {
        0
    }
}

/// What decides where parts end.
#[derive(Drop)]
pub(crate) struct Cutter {
    pub(crate) size: PartSize,
    /// The bytes of the definitions in force.
    pub(crate) defining: Vec<u8>,
    /// How much there is in the last part, if there is one.
    pub(crate) last: Option<Filling>,
}

impl Cutter {
    /// No item was put yet.
    pub(crate) fn new(alloc: Global, size: PartSize) -> Cutter
        ensures { IsCutting size result [] [] None }
    {
        Cutter {
            size,
            defining: Vec::new(alloc),
            last: None,
        }
    }

    /// Puts the text of an item behind the others: into the last part, or into a new one where that is done.
    pub(crate) fn put<P: Parts>(&mut self, parts: &mut P, text: &ItemText) -> Result<(), ToolFault>
        requires { text.now.definitions ≤ length text.now.bytes.items }
        ensures put { (how : PartSize) (texts : List Text) (full : List (List ℕ)) (last : Option StreamPart)
            (before : List (List ℕ)) → IsCutting how self.old texts full last
            → P.are parts.old (before ++ all_parts full last)
            → PutsText how self.new texts full last (text_in text.now) (λ made. P.are parts.new (before ++ made))
            result }
        ensures failed { IfErr result (λ given. given ≡ fault.Write → P.has_failed parts.new) }
        ensures unread { IfErr result (λ given. given ≢ fault.Read) }
    {
        let known = self.defining.len();
        append(&mut self.defining, &text.bytes[..text.definitions])?;
        let filling = turn(parts, self.size, self.last, &self.defining[..known])?;
        parts.send(&text.bytes)?;
        self.last = Some(filling.with(text));
        Ok(())
    }
}

// Appends bytes.
fn append(bytes: &mut Vec<u8>, more: &[u8]) -> Result<(), Memory>
    ensures { OnOk result (bytes.new.items ≡ bytes.old.items ++ more.now) }
{
    Ok(bytes.extend_from_slice(more)?)
}

// Begins a new part with the definitions in force, where the last one is done or there is none. How much there is in
// the part to which the next item goes.
fn turn<P: Parts>(
    parts: &mut P,
    size: PartSize,
    last: Option<Filling>,
    defining: &[u8],
) -> Result<Filling, NotWritten>
    ensures turned { (full : List (List ℕ)) (part : Option StreamPart) (before : List (List ℕ)) → CountsLast last part
        → P.are parts.old (before ++ all_parts full part)
        → TurnAnswers size defining.now full part (λ made. P.are parts.new (before ++ made)) result }
    ensures failed { OnErr result (P.has_failed parts.new) }
{
    match last {
        Some(filling) if !size.is_done(filling) => Ok(filling),
        _ => begin(parts, defining),
    }
}

// Begins a part with these bytes.
fn begin<P: Parts>(parts: &mut P, defining: &[u8]) -> Result<Filling, NotWritten>
    ensures begun { (all : List (List ℕ)) → P.are parts.old all
        → BeginsPart defining.now all (P.are parts.new) result }
    ensures failed { OnErr result (P.has_failed parts.new) }
{
    let filling = Filling {
        bytes: defining.len() as u64,
        values: 0,
        ends_with_value: false,
    };
    parts.begin()?;
    parts.send(defining)?;
    Ok(filling)
}
