//! Where items go on behind one that is refused. That is found by evidence: values of known types that stand whole one
//! behind another.

ghost use Rattle.std.specs.Prelude.{◌≡◌, ◌+◌, ◌^◌, ◌<◌, ◌≤◌, length, drop, min, List, None, IfOk, IfSome, IsTrue};
ghost use Rattle.std.specs.Prelude.{[], OnOk, true, false};
ghost use Rattle.gob_types.specs.Defined.{types};
ghost use Rattle.gob_types.specs.Ready.{IsReady};
ghost use Rattle.gob_stream.specs.Bounds.{greatest_depth, within_trees};
ghost use Rattle.gob_filled.specs.Stream.{FilledItem};
ghost use Rattle.gob_go.specs.Whole.{IsFilledWhole};
ghost use Rattle.gob_salvage.specs.Evidence.{AllDefine, BeginsAnew, GoOn, HasValue, ReachesEnd, StandsUpTo};
ghost use Rattle.gob_salvage.specs.Searching.{AreNoted, HasSpent, IsNextPlace, NotesItemOf, NotesItemsOf, Suffices};
ghost use Rattle.gob_salvage.specs.Searching.{ValueStands};
ghost use Rattle.gob_salvage.specs.declared.search.There.TheVariants as what;

use crate::again::read_some;
use crate::frame::frame_at;
use crate::kept_types::KeptTypes;
use gob_go::is_filled_whole;
use gob_num::Memory;
use gob_read::{BodyReader, SkipBuilder, Stop};
use gob_stream::{Limits, whole_value};
use gob_types::{Reason, Table, TypeId};
use gob_value::is_whole;
use std::alloc::Global;

// So many values of types of which a value was kept show that items go on.
const ENOUGH: u64 = 3;

// So many items do where no value was kept.
const ENOUGH_ANEW: u64 = 32;

// So many other items may stand among the values.
const MOST_OTHERS: u64 = 16;

// A session is made in the time in which so many bytes of values are looked at, and reads a definition in it.
const A_SESSION: u64 = 16384;

// A definition takes so many times as long as a value of as many bytes.
const TIMES_A_VALUE: usize = 100;

// So many bytes of definitions are read in about the time in which sessions are made, and aren't counted.
const FREE: usize = 1024;

/// The search for the places where items go on, with what it may still cost over all of the bytes.
pub(crate) struct Search {
    limits: Limits,
    kept_types: KeptTypes,
    // How many bytes may be looked at in vain.
    left: u64,
}

impl Drop for Search {
    fn drop(self) {
        let Search {
            limits: _,
            kept_types: _,
            left: _,
        } = self;
    }
}

// What may stand at a place.
#[derive(Clone, Copy)]
enum There {
    // A value of a type of which one was kept.
    Value,
    // A definition, or another value, as one of a type that isn't known.
    Other,
    // No item.
    Nothing,
}

// What stands one behind another from the front of a piece on, up to the end.
#[derive(Clone, Copy)]
struct Row {
    values: u64,
    others: u64,
    end: usize,
}

impl Row {
    // The row, and behind it what stands there up to the end.
    fn and(self, there: There, end: usize) -> Option<Row>
        requires { self.values + self.others < 32 }
        ensures end { IfSome result (λ row. row.end ≡ end) }
        ensures count { IfSome result (λ row. row.values + row.others ≡ self.values + self.others + 1) }
        ensures value { there ≡ what.Value → IfSome result (λ row. row.others ≡ self.others) }
        ensures other { there ≡ what.Other → IfSome result (λ row. row.values ≡ self.values) }
        ensures nothing { there ≡ what.Nothing → result ≡ None }
    {
        match there {
            There::Value => Some(Row {
                values: self.values + 1,
                others: self.others,
                end,
            }),
            There::Other => Some(Row {
                values: self.values,
                others: self.others + 1,
                end,
            }),
            There::Nothing => None,
        }
    }

    // Whether it shows that items go on, where a value was kept or none, and where the bytes end with it or not.
    fn is_enough(self, is_first: bool, is_last: bool) -> bool
        requires { self.values + self.others < 2 ^ 64 }
        ensures first { IsTrue result → is_first ≡ true → Suffices 32 2 (self.values + self.others) is_last }
        ensures few { IsTrue result → is_first ≡ false → self.others ≤ 16 }
        ensures later { IsTrue result → is_first ≡ false → Suffices 3 1 self.values is_last }
    {
        if is_first {
            return suffices(ENOUGH_ANEW, 2, self.values + self.others, is_last);
        }
        self.others <= MOST_OTHERS && suffices(ENOUGH, 1, self.values, is_last)
    }
}

// Whether so many are enough, or fewer if they are the last.
fn suffices(many: u64, few: u64, count: u64, is_last: bool) -> bool
    ensures { IsTrue result → Suffices many few count is_last }
{
    count >= many || is_last && count >= few
}

impl Search {
    /// Nothing was kept yet, and so many bytes may be looked at in vain.
    pub(crate) fn new(alloc: Global, limits: Limits, left: u64) -> Search
        ensures limits { result.limits ≡ limits }
        ensures noted { AreNoted result.kept_types [] }
    {
        Search {
            limits,
            kept_types: KeptTypes::new(alloc),
            left,
        }
    }

    /// The limits.
    pub(crate) fn limits(&self) -> Limits
        ensures { result ≡ self.now.limits }
    {
        self.limits
    }

    /// How many bytes may still be looked at in vain.
    pub(crate) fn left(&self) -> u64 {
        self.left
    }

    /// This item is kept.
    pub(crate) fn keep_item(&mut self, item: &[u8]) -> Result<(), Memory>
        ensures limits { self.new.limits ≡ self.old.limits }
        ensures noted { OnOk result (NotesItemOf item.now self.old.kept_types self.new.kept_types) }
    {
        self.kept_types.note_item(&self.limits, item)
    }

    /// These items are kept: values that define nothing.
    pub(crate) fn keep_values(&mut self, values: &[u8]) -> Result<(), Memory>
        ensures limits { self.new.limits ≡ self.old.limits }
        ensures noted { OnOk result (NotesItemsOf values.now self.old.kept_types self.new.kept_types) }
    {
        self.kept_types.note_values(&self.limits, values)
    }

    /// Whether no value was kept.
    pub(crate) fn has_no_value(&self) -> bool
        ensures { IsTrue result → (kept : List FilledItem) → AreNoted self.now.kept_types kept → AllDefine kept }
    {
        self.kept_types.is_empty()
    }

    /// So many bytes were looked at in vain.
    pub(crate) fn spend(&mut self, bytes: usize)
        ensures { HasSpent self.old self.new }
    {
        self.left = self.left.saturating_sub(bytes as u64);
    }

    /// So many bytes of definitions were read again.
    pub(crate) fn spend_definitions(&mut self, bytes: usize)
        ensures { HasSpent self.old self.new }
    {
        self.spend(bytes.saturating_sub(FREE).saturating_mul(TIMES_A_VALUE));
    }

    /// Whether the search may cost no more.
    pub(crate) fn is_spent(&self) -> bool {
        self.left == 0
    }

    /// Where items go on behind the refused one at the place: where its count says, if some go on there or the bytes
    /// end, else at the next place where some do. Where the search would cost too much, all that follows is given up.
    pub(crate) fn resume(
        &mut self,
        alloc: Global,
        table: &Table,
        bytes: &[u8],
        at: usize,
    ) -> Result<usize, Memory>
        requires { at < length bytes.now }
        ensures spent { HasSpent self.old self.new }
        ensures behind { IfOk result (λ next. at < next) }
        ensures within { IfOk result (λ next. next ≤ length bytes.now) }
        ensures shown { (kept : List FilledItem) → AreNoted self.old.kept_types kept → IfOk result (λ next.
            IsNextPlace (within_trees self.old.limits) (types table.now) kept bytes.now at next) }
    {
        if self.is_spent() {
            return Ok(bytes.len());
        }
        if let Some(frame) = frame_at(&self.limits, bytes, at) {
            if reaches_end(bytes, frame.end) {
                return Ok(frame.end);
            }
            if self.goes_on(alloc, table, bytes, frame.end)? {
                return Ok(frame.end);
            }
        }
        self.next_place(alloc, table, bytes, at)
    }

    // The next place where items go on, or else the end.
    fn next_place(
        &mut self,
        alloc: Global,
        table: &Table,
        bytes: &[u8],
        at: usize,
    ) -> Result<usize, Memory>
        requires { at < length bytes.now }
        ensures spent { HasSpent self.old self.new }
        ensures behind { IfOk result (λ next. at < next) }
        ensures within { IfOk result (λ next. next ≤ length bytes.now) }
        ensures shown { (kept : List FilledItem) → AreNoted self.old.kept_types kept → IfOk result (λ next.
            IsNextPlace (within_trees self.old.limits) (types table.now) kept bytes.now at next) }
    {
        'places: for place in at + 1..bytes.len() {
            if self.begin_there(alloc, table, bytes, place)? {
                return Ok(place);
            }
            if self.is_spent() {
                return Ok(bytes.len());
            }
        }
        Ok(bytes.len())
    }

    // Whether items go on at the place.
    fn goes_on(
        &mut self,
        alloc: Global,
        table: &Table,
        bytes: &[u8],
        at: usize,
    ) -> Result<bool, Memory>
        requires { at ≤ length bytes.now }
        ensures spent { HasSpent self.old self.new }
        ensures shown { (kept : List FilledItem) → AreNoted self.old.kept_types kept → IfOk result (λ found.
            IsTrue found → GoOn (within_trees self.old.limits) (types table.now) kept (drop at bytes.now)) }
    {
        let Some(frame) = frame_at(&self.limits, bytes, at) else {
            return Ok(false);
        };
        let piece = &bytes[at..];
        if self.kept_types.is_empty()
            && frame.number <= -64
            && self.describes(alloc, table, frame.body_in(bytes))?
            && self.begins_anew(alloc, piece, ENOUGH_ANEW)?
        {
            return Ok(true);
        }
        self.values_go_on(alloc, table, piece)
    }

    // Whether items go on at the place, no byte of which is counted by an item before it: where a value was kept, not
    // with one of a type that isn't known.
    fn begin_there(
        &mut self,
        alloc: Global,
        table: &Table,
        bytes: &[u8],
        at: usize,
    ) -> Result<bool, Memory>
        requires { at ≤ length bytes.now }
        ensures spent { HasSpent self.old self.new }
        ensures shown { (kept : List FilledItem) → AreNoted self.old.kept_types kept → IfOk result (λ found.
            IsTrue found → GoOn (within_trees self.old.limits) (types table.now) kept (drop at bytes.now)) }
    {
        if !self.may_begin(table, bytes, at) {
            return Ok(false);
        }
        self.goes_on(alloc, table, bytes, at)
    }

    // Whether the first of them may be one.
    fn may_begin(&self, table: &Table, bytes: &[u8], at: usize) -> bool {
        match frame_at(&self.limits, bytes, at) {
            Some(frame) => !is_unknown(table, frame.number) || self.kept_types.is_empty(),
            None => false,
        }
    }

    // Whether so many items stand at the front of the piece, of types that are defined there, or fewer up to its end.
    fn begins_anew(&mut self, alloc: Global, piece: &[u8], enough: u64) -> Result<bool, Memory>
        ensures spent { HasSpent self.old self.new }
        ensures shown { IfOk result (λ found.
            IsTrue found → BeginsAnew (within_trees self.old.limits) enough piece.now) }
    {
        let (items, end) = read_some(alloc, self.limits, piece, enough)?;
        if suffices(enough, 2, items, reaches_end(piece, end)) {
            return Ok(true);
        }
        self.spend(end);
        self.spend_session(items);
        Ok(false)
    }

    /// A session has read so many items in vain.
    pub(crate) fn spend_session(&mut self, items: u64)
        ensures { HasSpent self.old self.new }
    {
        let bytes = items.saturating_add(1).saturating_mul(A_SESSION);
        self.left = self.left.saturating_sub(bytes);
    }

    // Whether so many values stand at the front of the piece, among few other items, or fewer up to the end.
    fn values_go_on(&mut self, alloc: Global, table: &Table, piece: &[u8]) -> Result<bool, Memory>
        ensures spent { HasSpent self.old self.new }
        ensures shown { (kept : List FilledItem) → AreNoted self.old.kept_types kept → IfOk result (λ found.
            IsTrue found → GoOn (within_trees self.old.limits) (types table.now) kept piece.now) }
    {
        let is_first = self.kept_types.is_empty();
        let mut row = Row {
            values: 0,
            others: 0,
            end: 0,
        };
        'items: for _ in 0..ENOUGH_ANEW {
            let Some(longer) = self.longer_row(alloc, table, piece, row)? else {
                break;
            };
            row = longer;
            if row.is_enough(is_first, reaches_end(piece, row.end)) {
                return Ok(true);
            }
            if row.others > MOST_OTHERS && !is_first {
                break;
            }
        }
        self.spend(row.end);
        Ok(false)
    }

    // The row, with what stands behind it, if an item does.
    fn longer_row(
        &mut self,
        alloc: Global,
        table: &Table,
        piece: &[u8],
        row: Row,
    ) -> Result<Option<Row>, Memory>
        requires few { row.values + row.others < 32 }
        requires within { row.end ≤ length piece.now }
        ensures spent { HasSpent self.old self.new }
        ensures count { IfOk result (λ longer. IfSome longer (λ more.
            more.values + more.others ≡ row.values + row.others + 1)) }
        ensures within { IfOk result (λ longer. IfSome longer (λ more. more.end ≤ length piece.now)) }
        ensures stands { (kept : List FilledItem) → AreNoted self.old.kept_types kept
            → StandsUpTo (within_trees self.old.limits) (types table.now) kept piece.now row.values row.others row.end
            → IfOk result (λ longer. IfSome longer (λ more. StandsUpTo (within_trees self.old.limits) (types table.now)
            kept piece.now more.values more.others more.end)) }
    {
        let Some(frame) = frame_at(&self.limits, piece, row.end) else {
            return Ok(None);
        };
        let there = self.look_at(alloc, table, &piece[row.end..])?;
        Ok(row.and(there, frame.end))
    }

    // What stands at the front of the piece.
    fn look_at(&mut self, alloc: Global, table: &Table, piece: &[u8]) -> Result<There, Memory>
        ensures spent { HasSpent self.old self.new }
        ensures value { (kept : List FilledItem) → AreNoted self.old.kept_types kept → IfOk result (λ there.
            there ≡ what.Value → ValueStands (within_trees self.old.limits) (types table.now) kept piece.now) }
    {
        if let Some(value) = whole_value(table, &self.limits, 0, piece) {
            return self.value_there(alloc, table, value.id, value.body);
        }
        self.other_there(alloc, table, piece)
    }

    // Whether the body is a value of the type, of which one was kept or not.
    fn value_there(
        &mut self,
        alloc: Global,
        table: &Table,
        id: TypeId,
        body: &[u8],
    ) -> Result<There, Memory>
        requires { IsReady (types table.now) id }
        ensures spent { HasSpent self.old self.new }
        ensures known { (kept : List FilledItem) → AreNoted self.old.kept_types kept → IfOk result (λ there.
            there ≡ what.Value → HasValue kept id.0) }
        ensures whole { IfOk result (λ there. there ≡ what.Value
            → IsFilledWhole (types table.now) id (min self.old.limits.depth greatest_depth) body.now) }
    {
        let depth = self.limits.depth().min(Limits::GREATEST_DEPTH);
        if is_filled_whole(table, id, body, depth) {
            return Ok(self.value_of(id));
        }
        self.spend_on(alloc, table, id, body)
    }

    // A value of the type.
    fn value_of(&self, id: TypeId) -> There
        ensures { result ≡ what.Value → (kept : List FilledItem) → AreNoted self.now.kept_types kept
            → HasValue kept id.0 }
    {
        if self.kept_types.has(id) {
            There::Value
        } else {
            There::Other
        }
    }

    // The body may be a value of the type only if types are defined in it: how much of it was looked at in vain.
    fn spend_on(
        &mut self,
        alloc: Global,
        table: &Table,
        id: TypeId,
        body: &[u8],
    ) -> Result<There, Memory>
        requires { IsReady (types table.now) id }
        ensures spent { HasSpent self.old self.new }
        ensures none { IfOk result (λ there. there ≡ what.Value → ⊥) }
    {
        let depth = Limits::GREATEST_DEPTH;
        let mut reader = BodyReader::<SkipBuilder>::new(alloc, id, body.len() as u64, depth)?;
        match reader.push(alloc, table, body) {
            Ok(_) => Ok(There::Nothing),
            Err(Stop::Refused { seen, reason, .. }) => {
                self.spend(seen as usize);
                if matches!(reason, Reason::InterfaceValue) {
                    return Ok(There::Other);
                }
                Ok(There::Nothing)
            }
            Err(_) => Err(Memory),
        }
    }

    // Whether a definition may stand at the front of the piece, or a value of a type that isn't known.
    fn other_there(&mut self, alloc: Global, table: &Table, piece: &[u8]) -> Result<There, Memory>
        ensures spent { HasSpent self.old self.new }
        ensures none { IfOk result (λ there. there ≡ what.Value → ⊥) }
    {
        match frame_at(&self.limits, piece, 0) {
            Some(frame) if frame.number <= -64 => {
                let describes = self.describes(alloc, table, frame.body_in(piece))?;
                Ok(other_if(describes))
            }
            Some(frame) => Ok(other_if(is_unknown(table, frame.number))),
            None => Ok(There::Nothing),
        }
    }

    // Whether the body of a definition is a whole description, of whatever type.
    fn describes(
        &mut self,
        alloc: Global,
        table: &Table,
        body: Option<&[u8]>,
    ) -> Result<bool, Memory>
        ensures { HasSpent self.old self.new }
    {
        let Some(body) = body else {
            return Ok(false);
        };
        let id = TypeId::WIRE_TYPE;
        // wireType is ready in each table of a stream
        if !table.kept(id) || is_whole(table, id, body, Limits::GREATEST_DEPTH) {
            return Ok(true);
        }
        self.spend_on(alloc, table, id, body)?;
        Ok(false)
    }
}

// An item that is no value of which one was kept, or none.
fn other_if(is_item: bool) -> There
    ensures { result ≡ what.Value → ⊥ }
{
    if is_item {
        There::Other
    } else {
        There::Nothing
    }
}

// Whether it is the number of a type that isn't known, or not all that it leads to.
fn is_unknown(table: &Table, number: i64) -> bool {
    number >= 64 && !table.kept(TypeId(number as u64))
}

// Whether the bytes end at the place, or with a line feed there.
fn reaches_end(bytes: &[u8], at: usize) -> bool
    requires { at ≤ length bytes.now }
    ensures { IsTrue result → ReachesEnd bytes.now at }
{
    at == bytes.len() || at + 1 == bytes.len() && bytes[at] == b'\n'
}
