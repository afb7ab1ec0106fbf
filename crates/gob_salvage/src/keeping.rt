//! What isn't damaged.

ghost use Rattle.std.specs.Prelude.{◌≡◌, ◌+◌, ◌-◌, ◌^◌, ◌<◌, ◌≤◌, ◌⊎◌, ℕ, length, take, None, Some, IfOk, IfSome};
ghost use Rattle.std.specs.Prelude.{IsTrue, List, OnOk, true};
ghost use Rattle.gob_types.specs.Defined.{types};
ghost use Rattle.gob_stream.specs.Bounds.{within_trees};
ghost use Rattle.gob_stream.specs.Devices.{counts_up};
ghost use Rattle.gob_filled.specs.Stream.{FilledItem};
ghost use Rattle.gob_salvage.specs.Evidence.{IsFrame};
ghost use Rattle.gob_salvage.specs.Keeping.{from_nothing, GoesOn, HasDefinitions, HasKeptFront, IsKeeping};
ghost use Rattle.gob_salvage.specs.Keeping.{IsKeptOf, IsRefusedNext, KeepsMore, Start};
ghost use Rattle.gob_salvage.specs.Breaks.{IsTwice};
ghost use Rattle.gob_salvage.specs.Searching.{AreNoted, HasSpent, IsNextPlace, IsUnknown};
ghost use Rattle.gob_salvage.specs.Salvage.{HasTypeAt, IsDefinedAgain};
ghost use Rattle.gob_salvage.specs.Taking.{NotesItem};
ghost use Rattle.gob_salvage.specs.Again.{IsAgain, RepeatsNext};

use crate::again::read_again;
use crate::frame::{Frame, Span, frame_at, has_piece};
use crate::gap::Gap;
use crate::item::take_item;
use crate::later::{Clash, Later, later_stream};
use crate::search::Search;
use gob_go::GoSession;
use gob_num::Memory;
use gob_stream::{Fault, Limits, Passed, Refusal};
use gob_types::{DefineFault, Reason, Table, TypeId};
use std::alloc::Global;

/// What is kept of bytes in which some are damaged, and what is left out.
#[derive(Drop)]
pub struct Salvaged {
    /// How many items are kept.
    pub items: u64,
    /// Their bytes, one behind another: a stream.
    pub bytes: Vec<u8>,
    /// What is left out, in order.
    pub gaps: Vec<Gap>,
}

impl Salvaged {
    ghost use Rattle.std.specs.Prelude.{◌≡◌, ◌-◌, min};
    ghost use Rattle.gob_salvage.specs.Salvage.{is_damaged, left_out};

    /// How many bytes are left out, as many as a `u64` can say.
    pub fn left_out(&self) -> u64
        ensures { result ≡ min (left_out self.now.gaps.items) (2 ^ 64 - 1) }
    {
        let mut bytes = 0u64;
        'gaps: for gap in &self.gaps {
            bytes = bytes.saturating_add(gap.length());
        }
        bytes
    }

    /// Whether anything is left out but definitions that are kept already.
    pub fn is_damaged(&self) -> bool
        ensures { result ≡ is_damaged self.now.gaps.items }
    {
        self.gaps.iter().any(|gap| !gap.is_repeated)
    }
}

// How far the bytes were gone through.
#[derive(Drop)]
struct Keeper {
    // It stands behind what defines the types of the items that are kept.
    session: GoSession,
    // Those of these items that define types.
    defining: Vec<u8>,
    // Where those stand in what is kept.
    defined: Vec<Span>,
    kept: Salvaged,
    // The offset of the first byte that is neither kept nor left out.
    at: usize,
    // How many bytes the session has read.
    read: usize,
    // Whether an item that is kept ends there, or one that is left out by its count.
    in_step: bool,
    // Another encoder's stream, if one was found. Nothing is kept of that.
    later: Option<Later>,
    search: Search,
}

// A definition that stands there again.
#[derive(Clone, Copy)]
struct Again {
    id: TypeId,
    // Where its type number begins.
    place: usize,
    end: usize,
}

/// What is kept of one encoder's stream.
#[derive(Drop)]
pub(crate) struct Kept {
    pub kept: Salvaged,
    /// Another encoder's stream, if one was found. All of it is left out.
    pub later: Option<Later>,
    /// How many bytes may still be looked at in vain.
    pub left: u64,
}

/// Keeps what isn't damaged of the bytes up to another encoder's stream, while so many may be looked at in vain. An
/// item is kept exactly where one stands that continues what was kept before, and what is kept is a stream. From a
/// place where none stands some bytes are left out, up to where values are found again.
pub(crate) fn keep_stream(
    alloc: Global,
    limits: Limits,
    front: &[u8],
    bytes: &[u8],
    left: u64,
) -> Result<Kept, Memory>
    requires { length front.now + length bytes.now ≤ limits.stream }
    ensures { IfOk result (IsKeptOf (within_trees limits) front.now bytes.now) }
{
    let mut keeper = Keeper::behind(alloc, limits, front, left)?;
    'items: while keeper.at < bytes.len() {
        keeper.go_on(alloc, bytes)?;
    }
    let left = keeper.search.left();
    Ok(Kept {
        kept: keeper.kept,
        later: keeper.later,
        left,
    })
}

impl Keeper {
    // The front is kept, and nothing yet of the bytes behind it.
    fn behind(alloc: Global, limits: Limits, front: &[u8], left: u64) -> Result<Keeper, Memory>
        requires { length front.now ≤ limits.stream }
        ensures { IfOk result (HasKeptFront (within_trees limits) front.now) }
    {
        let mut keeper = Keeper::new(alloc, limits, left)?;
        'front: while keeper.at < front.len() {
            keeper.go_on(alloc, front)?;
        }
        if !keeper.has_definitions() {
            // Of a stream of definitions all is kept.
            return Err(Memory);
        }
        keeper.at = 0;
        keeper.in_step = true;
        Ok(keeper)
    }

    // Whether all was kept so far, and no value.
    fn has_definitions(&self) -> bool
        ensures { IsTrue result → HasDefinitions self.now }
    {
        self.kept.gaps.is_empty() && self.search.has_no_value()
    }

    // Nothing is kept yet.
    fn new(alloc: Global, limits: Limits, left: u64) -> Result<Keeper, Memory>
        ensures keeping { (bytes : List ℕ) → length bytes ≤ limits.stream
            → IfOk result (λ keeper. IsKeeping (from_nothing (within_trees limits)) keeper bytes) }
        ensures later { IfOk result (λ keeper. keeper.later ≡ None) }
    {
        let session = GoSession::new(alloc, limits)?;
        Ok(Keeper {
            session,
            defining: Vec::new(alloc),
            defined: Vec::new(alloc),
            kept: Salvaged {
                items: 0,
                bytes: Vec::new(alloc),
                gaps: Vec::new(alloc),
            },
            at: 0,
            read: 0,
            in_step: true,
            later: None,
            search: Search::new(alloc, limits, left),
        })
    }

    // Keeps the items of values that stand next, or what else does, or leaves out some bytes.
    fn go_on(&mut self, alloc: Global, bytes: &[u8]) -> Result<(), Memory>
        requires more { self.old.at < length bytes.now }
        requires keeping { (S : Start) × IsKeeping S self.old bytes.now }
        ensures { (S : Start) → IsKeeping S self.old bytes.now
            → OnOk result (GoesOn S self.old self.new bytes.now) }
    {
        let piece = &bytes[self.at..];
        let passed = self.session.pass_values(piece);
        if passed.items > 0 {
            self.search.keep_values(&piece[..passed.used])?;
            return self.keep(piece, passed);
        }
        if let Some(again) = self.repeated(bytes) {
            return self.pass_repeated(again);
        }
        self.take(alloc, bytes)
    }

    // The definition that stands next, if it is kept already in its very bytes, and so would be refused. The session is
    // not told it: that would have to read all definitions once more.
    fn repeated(&self, bytes: &[u8]) -> Option<Again>
        ensures { IfSome result (RepeatsNext self.now bytes.now) }
    {
        if !self.in_step {
            return None;
        }
        let limits = self.session.limits();
        let frame = frame_at(&limits, bytes, self.at)?;
        let again = self.again(frame)?;
        if frame.body > frame.end || !self.defines_again(bytes, frame) {
            return None;
        }
        Some(again)
    }

    // That of this frame, if its type is defined.
    fn again(&self, frame: Frame) -> Option<Again>
        ensures { IfSome result (IsAgain self.now frame) }
    {
        if frame.number >= 0 {
            return None;
        }
        let id = TypeId(frame.number.unsigned_abs());
        match self.session.table().admits(id) {
            Err(DefineFault::DefinedTwice) => Some(Again {
                id,
                place: frame.head,
                end: frame.end,
            }),
            _ => None,
        }
    }

    // Leaves out a definition that is kept already.
    fn pass_repeated(&mut self, again: Again) -> Result<(), Memory>
        ensures { (S : Start) (bytes : List ℕ) → IsKeeping S self.old bytes → RepeatsNext self.old bytes again
            → OnOk result (GoesOn S self.old self.new bytes) }
    {
        self.kept.gaps.push(Gap {
            begin: self.at as u64,
            end: again.end as u64,
            reason: Reason::DefinedTwice(again.id),
            place: again.place as u64,
            is_repeated: true,
        })?;
        self.at = again.end;
        Ok(())
    }

    // Keeps the item that stands next, or leaves out some bytes.
    fn take(&mut self, alloc: Global, bytes: &[u8]) -> Result<(), Memory>
        requires more { self.old.at < length bytes.now }
        requires keeping { (S : Start) × IsKeeping S self.old bytes.now }
        ensures { (S : Start) → IsKeeping S self.old bytes.now
            → OnOk result (GoesOn S self.old self.new bytes.now) }
    {
        let piece = &bytes[self.at..];
        let known = self.session.table().count();
        match take_item(alloc, &mut self.session, piece) {
            Ok(used) => {
                let count = self.session.table().count();
                let begin = self.kept.bytes.len();
                let end = begin.saturating_add(used);
                note_place(&mut self.defined, known, count, Span { begin, end })?;
                note(&mut self.defining, known, count, &piece[..used])?;
                self.search.keep_item(&piece[..used])?;
                self.keep(piece, Passed { items: 1, used })
            }
            Err(Fault::Refused(refusal)) => self.leave_out(alloc, bytes, refusal),
            Err(_) => Err(Memory),
        }
    }

    // Keeps the first bytes of the piece, which are so many items.
    fn keep(&mut self, piece: &[u8], passed: Passed) -> Result<(), Memory>
        requires within { passed.used ≤ length piece.now }
        requires few { self.old.kept.items + passed.items < 2 ^ 64 }
        requires near { self.old.at + passed.used < 2 ^ 64 }
        requires read { self.old.read + passed.used < 2 ^ 64 }
        ensures { OnOk result (KeepsMore self.old self.new passed (take passed.used piece.now)) }
    {
        self.kept.bytes.extend_from_slice(&piece[..passed.used])?;
        self.kept.items += passed.items;
        self.at += passed.used;
        self.read += passed.used;
        self.in_step = true;
        Ok(())
    }

    // Leaves out what begins with the refused item, up to where items go on.
    fn leave_out(&mut self, alloc: Global, bytes: &[u8], refusal: Refusal) -> Result<(), Memory>
        requires more { self.old.at < length bytes.now }
        requires refused { (S : Start) × IsRefusedNext S self.old bytes.now refusal }
        ensures { (S : Start) → IsRefusedNext S self.old bytes.now refusal
            → OnOk result (GoesOn S self.old self.new bytes.now) }
    {
        let limits = self.session.limits();
        let alone = self.end_alone(&limits, refusal.reason, bytes);
        let clash = self.clash_at(refusal.reason, alone);
        let later = later_stream(alloc, &mut self.search, &self.defining, bytes, clash)?;
        self.session = read_again(alloc, limits, &self.defining)?;
        let known = known_end(alone, &later, bytes.len());
        let table = self.session.table();
        let next = place_behind(alloc, &mut self.search, table, bytes, self.at, known)?;
        self.kept.gaps.push(Gap {
            begin: self.at as u64,
            end: next as u64,
            reason: refusal.reason,
            place: place_from(self.at as u64, refusal.place, self.read as u64),
            is_repeated: false,
        })?;
        self.read = self.defining.len();
        self.at = next;
        self.in_step = alone.is_some();
        self.later = later;
        Ok(())
    }

    // Where the refused item ends, if it is left out alone: behind an end that is known it is a value of a type that
    // isn't known.
    fn end_alone(&self, limits: &Limits, reason: Reason, bytes: &[u8]) -> Option<usize>
        ensures step { IfSome result (λ _. self.now.in_step ≡ true) }
        ensures frame { IfSome result (λ end. IsFrame bytes.now self.now.at end) }
        ensures why { IfSome result (λ _. IsUnknown reason) }
        ensures behind { IfSome result (λ end. self.now.at < end) }
        ensures within { IfSome result (λ end. end ≤ length bytes.now) }
    {
        if !self.in_step || self.search.is_spent() || !is_of_unknown_type(reason) {
            return None;
        }
        let frame = frame_at(limits, bytes, self.at)?;
        Some(frame.end)
    }

    // The refused item, if it isn't left out alone and defines a type again behind an item that is kept.
    fn clash_at(&self, reason: Reason, alone: Option<usize>) -> Option<Clash>
        ensures here { IfSome result (λ clash. clash.at ≡ self.now.at) }
        ensures again { IfSome result (λ _. IsTwice reason) }
        ensures alone { IfSome result (λ _. alone ≡ None) }
    {
        match reason {
            Reason::DefinedTwice(id) if self.in_step && alone.is_none() => {
                Some(Clash { at: self.at, id })
            }
            _ => None,
        }
    }

    // Whether the item of this frame defines a type, and is kept already.
    fn defines_again(&self, bytes: &[u8], frame: Frame) -> bool
        requires order { self.now.at ≤ frame.end }
        requires inside { frame.end ≤ length bytes.now }
        requires number { HasTypeAt bytes.now self.now.at frame.number }
        ensures { IsTrue result → IsDefinedAgain bytes.now self.now.at frame.end self.now.kept.bytes.items }
    {
        frame.number < 0 && has_piece(&self.kept.bytes, &self.defined, &bytes[self.at..frame.end])
    }
}

// Whether what is refused so is a value of a type that isn't known.
fn is_of_unknown_type(reason: Reason) -> bool
    ensures { IsTrue result → IsUnknown reason }
{
    matches!(reason, Reason::UndefinedType(id) if id.0 >= 64)
}

// The place that a session refuses, which has read so many bytes, in what goes on at the offset.
fn place_from(at: u64, place: u64, read: u64) -> u64
    ensures { result ≡ counts_up at (place - read) }
{
    at.saturating_add(place.saturating_sub(read))
}

// Where what is left out ends, if that is known: where an item is left out alone, or another encoder's stream begins.
fn known_end(alone: Option<usize>, later: &Option<Later>, end: usize) -> Option<usize>
    ensures alone { IfSome alone (λ known. result ≡ Some known) }
    ensures later { IfSome later.now (λ _. alone ≡ None → result ≡ Some end) }
    ensures none { alone ≡ None → later.now ≡ None → result ≡ None }
    ensures behind { (at : ℕ) → at < end → IfSome alone (λ known. at < known) → IfSome result (λ known. at < known) }
    ensures within { IfSome alone (λ known. known ≤ end) → IfSome result (λ known. known ≤ end) }
{
    match later {
        Some(_) if alone.is_none() => Some(end),
        _ => alone,
    }
}

// The place behind what is left out: the end that is known, or else where items go on.
fn place_behind(
    alloc: Global,
    search: &mut Search,
    table: &Table,
    bytes: &[u8],
    at: usize,
    known: Option<usize>,
) -> Result<usize, Memory>
    requires more { at < length bytes.now }
    requires behind { IfSome known (λ end. at < end) }
    requires within { IfSome known (λ end. end ≤ length bytes.now) }
    ensures spent { HasSpent search.old search.new }
    ensures behind { IfOk result (λ next. at < next) }
    ensures within { IfOk result (λ next. next ≤ length bytes.now) }
    ensures known { IfSome known (λ end. IfOk result (λ next. next ≡ end)) }
    ensures shown { known ≡ None → (kept : List FilledItem) → AreNoted search.old.kept_types kept
        → IfOk result (λ next.
        IsNextPlace (within_trees search.old.limits) (types table.now) kept bytes.now at next) }
{
    match known {
        Some(end) => Ok(end),
        None => search.resume(alloc, table, bytes, at),
    }
}

// Appends the place of the item in what is kept, where it has defined types.
fn note_place(
    defined: &mut Vec<Span>,
    before: u64,
    behind: u64,
    place: Span,
) -> Result<(), Memory> {
    if before < behind {
        defined.push(place)?;
    }
    Ok(())
}

// Appends the item where it has defined types, of which there are so many before and behind it.
fn note(defining: &mut Vec<u8>, before: u64, behind: u64, item: &[u8]) -> Result<(), Memory>
    ensures { OnOk result (NotesItem before behind defining.old.items defining.new.items item.now) }
{
    if behind != before {
        defining.extend_from_slice(item)?;
    }
    Ok(())
}
