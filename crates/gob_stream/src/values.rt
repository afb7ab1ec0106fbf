//! Items of values that stand whole one behind another at the front of a piece.

ghost use Rattle.std.specs.Prelude.{◌≡◌, ℕ, ◌+◌, ◌<◌, ◌≤◌, IfSome, length};
ghost use Rattle.gob_types.specs.Defined.{types};
ghost use Rattle.gob_stream.specs.Bounds.{Bounds, no_deeper};
ghost use Rattle.gob_stream.specs.Calls.Session.{HasFailed, IsBetweenItems, ReadsItems, StaysAsItWas};
ghost use Rattle.gob_stream.specs.Calls.Session.{table_of, taken_of, limits_of};
ghost use Rattle.gob_stream.specs.Whole.{AllowsIn, AreItemsBetween, IsOpenKind, IsValueBetween};

use crate::limits::Limits;
use crate::session::Session;
use crate::whole::{type_of, value_type};
use gob_num::uint_at;
use gob_read::Builder;
use gob_types::{Kind, Shapes, Table, TypeId};
use gob_value::whole_end;

/// Items of values that were found to be whole, one behind another.
#[derive(Clone, Copy, Debug, PartialEq, Eq)]
pub struct Passed {
    /// How many items.
    pub items: u64,
    /// Where the last of them ends in the piece.
    pub used: usize,
}

impl Passed {
    /// None, at the front of the piece.
    pub const NONE: Passed = Passed { items: 0, used: 0 };
}

impl<B: Builder> Session<B> {
    /// Goes past the items of values that stand whole at the front of the piece, one behind another, and keeps nothing
    /// of the values. It takes no memory. It may pass fewer than stand there, or none, which says nothing of the piece:
    /// [`Session::step`] reads on, and refuses what is to be refused. After a fault it passes none.
    pub fn pass_values(&mut self, piece: &[u8]) -> Passed
        ensures passed { ReadsItems B.building self.old self.new result.items result.used piece.now }
        ensures between { 0 < result.used → IsBetweenItems self.new }
        ensures both { 0 < result.items → IsBetweenItems self.old × IsBetweenItems self.new }
        ensures stays { HasFailed self.old → (result.items ≡ 0) × (result.used ≡ 0) × StaysAsItWas self.old self.new }
        ensures taken { taken_of self.new ≡ taken_of self.old + result.used }
        ensures types { table_of self.new ≡ table_of self.old }
        ensures limits { limits_of self.new ≡ limits_of self.old }
    {
        if !self.is_between() {
            return Passed::NONE;
        }
        let passed = whole_values(&self.types, &self.limits, B::DEPTH, self.taken, piece);
        self.go_past(passed.used);
        passed
    }
}

/// The items of values that stand whole at the front of the piece, one behind another, where the piece begins between
/// two items at this offset of a stream that has these types and limits. None of the values is deeper than the limits
/// allow, or than `depth`. It takes no memory. It may find fewer than stand there, or none, which says nothing of the
/// piece.
pub fn whole_values(table: &Table, limits: &Limits, depth: u64, offset: u64, piece: &[u8]) -> Passed
    ensures { AreItemsBetween (no_deeper depth limits.now) (types table.now) offset result.items piece.now
        0 result.used }
{
    let room = limits.stream().saturating_sub(offset);
    let near = room.min(piece.len() as u64) as usize;
    let depth = limits.depth().min(depth);
    runs_of(table, limits.item(), &piece[..near], depth)
}

// The items of values that stand whole at the front of the piece, none of more than `most` bytes behind its count and
// none of a value that is deeper than `depth`.
fn runs_of(table: &Table, most: u64, piece: &[u8], depth: u64) -> Passed
    ensures are { (L : Bounds) (offset : ℕ) → AllowsIn L most depth offset piece.now
        → AreItemsBetween L (types table.now) offset result.items piece.now 0 result.used }
{
    let mut passed = Passed::NONE;
    'runs: for _ in 0..piece.len() {
        let Some((id, kind)) = kind_at(table, piece, passed.used) else {
            return passed;
        };
        let run = values_of(table, id, kind, most, piece, passed.used, depth);
        if run.items == 0 {
            return passed;
        }
        passed = Passed {
            items: passed.items + run.items,
            used: run.used,
        };
    }
    passed
}

// The type of the item at the place, and its kind, where values of it may come now.
fn kind_at<'a>(table: &'a Table, piece: &[u8], at: usize) -> Option<(TypeId, &'a Kind)>
    ensures { IfSome result (λ found. IsOpenKind (types table.now) found.0 found.1.now) }
{
    let (_, head) = uint_at(piece, at)?;
    let named = type_of(table, piece, head)?;
    let shape = table.shape_of(named.id)?;
    Some((named.id, &shape.kind))
}

// The items of values of this type that stand whole in the piece from the place on, one behind another. The type is
// known, so that it is looked up once for all of them.
fn values_of(
    table: &Table,
    id: TypeId,
    kind: &Kind,
    most: u64,
    piece: &[u8],
    begin: usize,
    depth: u64,
) -> Passed
    requires place { begin ≤ length piece.now }
    requires open_ { IsOpenKind (types table.now) id kind.now }
    ensures are { (L : Bounds) (offset : ℕ) → AllowsIn L most depth offset piece.now
        → AreItemsBetween L (types table.now) offset result.items piece.now begin result.used }
    ensures few { result.items + begin ≤ result.used }
    ensures inside { result.used ≤ length piece.now }
{
    let mut at = begin;
    'values: for items in 0..piece.len() as u64 {
        let Some(end) = value_end(table, id, kind, most, piece, at, depth) else {
            return Passed { items, used: at };
        };
        at = end;
    }
    Passed {
        items: piece.len() as u64,
        used: at,
    }
}

// Where the item ends that stands whole in the piece from the place on, if it is a value of this type.
#[inline(always)]
fn value_end(
    table: &Table,
    id: TypeId,
    kind: &Kind,
    most: u64,
    piece: &[u8],
    at: usize,
    depth: u64,
) -> Option<usize>
    requires { IsOpenKind (types table.now) id kind.now }
    ensures value { IfSome result (λ end. (L : Bounds) (offset : ℕ) → AllowsIn L most depth offset piece.now
        → IsValueBetween L (types table.now) offset id piece.now at end) }
    ensures onward { IfSome result (λ end. at < end) }
    ensures inside { IfSome result (λ end. end ≤ length piece.now) }
{
    let (count, head) = uint_at(piece, at)?;
    if count > most || count > (piece.len() - head) as u64 {
        return None;
    }
    let end = head + count as usize;
    let (number, begin) = uint_at(piece, head)?;
    if value_type(number)?.0 != id.0 {
        return None;
    }
    match whole_end(table, kind, piece, begin, depth) {
        Some(place) if place == end => Some(end),
        _ => None,
    }
}
