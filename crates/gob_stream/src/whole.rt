//! Items of values that stand whole at the front of a piece.

ghost use Rattle.std.specs.Prelude.{◌≡◌, ◌+◌, ◌^◌, ◌<◌, ℕ, List, pos, IsTrue, IfSome};
ghost use Rattle.gob_num.specs.Unsigned.{IsUnsigned};
ghost use Rattle.gob_num.specs.Signed.{IsSigned};
ghost use Rattle.gob_types.specs.Defined.{types};
ghost use Rattle.gob_stream.specs.Body.{MayPut};
ghost use Rattle.gob_stream.specs.Calls.Session.{HasFailed, IsBetweenItems, table_of, taken_of, limits_of};
ghost use Rattle.gob_stream.specs.Calls.Session.{HasBodyNext, HasBegunNext, HasItemNext, HasItemsNext, ReadsOn};
ghost use Rattle.gob_stream.specs.Calls.Session.{ReadsAll};
ghost use Rattle.gob_stream.specs.Whole.{HasBegun, HasBody, HasCount, NamesTypeAt};

use crate::limits::Limits;
use crate::session::Session;
use crate::stage::Stage;
use gob_num::{to_signed, uint_at};
use gob_read::Builder;
use gob_types::{Table, TypeId};

/// An item of a value that stands whole at the front of a piece.
#[derive(Clone, Copy)]
pub struct Whole<'a> {
    /// The id of its type.
    pub id: TypeId,
    /// What stands behind its type number.
    pub body: &'a [u8],
    /// How many bytes of the piece are in it.
    pub used: usize,
}

/// An item of a value of which the first bytes stand in a piece, and not yet all.
#[derive(Clone, Copy, Debug, PartialEq, Eq)]
pub struct Awaited {
    /// The id of its type.
    pub id: TypeId,
    /// How many bytes stand before its body: its count and its type number.
    pub head: usize,
    /// How many bytes are in it, more than the piece has.
    pub size: u64,
}

// The count of an item.
#[derive(Clone, Copy)]
struct Announced {
    count: u64,
    used: usize,
}

// The type of an item's value.
#[derive(Clone, Copy)]
pub(crate) struct Named {
    pub(crate) id: TypeId,
    // Where the type number ends.
    pub(crate) end: usize,
}

impl<B: Builder> Session<B> {
    /// The item of a value that stands whole at the front of the piece, where no byte of an item is under way: its type
    /// is ready and the limits allow its length. It takes no memory, and looks at no byte of the value. None says
    /// nothing of the piece, and is the answer after a fault.
    #[inline(always)]
    pub fn whole_value<'a>(&self, piece: &'a [u8]) -> Option<Whole<'a>>
        ensures between { IfSome result (λ whole. IsBetweenItems self.now) }
        ensures body { IfSome result (λ whole.
            HasBodyNext self.now whole.id whole.body.now whole.used piece.now) }
    {
        if !self.is_between() {
            return None;
        }
        whole_value(&self.types, &self.limits, self.taken, piece)
    }

    /// The item of a value at the front of the piece, where no byte of an item is under way and more bytes of it are to
    /// come: its type is ready and the limits allow its length. It takes no memory, and looks at no byte of the value.
    /// None says nothing of the piece, and is the answer after a fault.
    pub fn awaited(&self, piece: &[u8]) -> Option<Awaited>
        ensures between { IfSome result (λ awaited. IsBetweenItems self.now) }
        ensures begun { IfSome result (λ awaited.
            HasBegunNext self.now awaited.id awaited.head awaited.size piece.now) }
    {
        if !self.is_between() {
            return None;
        }
        awaited_value(&self.types, &self.limits, self.taken, piece)
    }

    /// Whether no byte of an item is under way, and there was no fault.
    #[inline(always)]
    pub(crate) fn is_between(&self) -> bool
        ensures between { IsTrue result → IsBetweenItems self.now }
        ensures failed { IsTrue result → ¬ HasFailed self.now }
    {
        match &self.stage {
            Stage::Count(count) => count.begin == self.taken,
            _ => false,
        }
    }

    /// Goes past so many bytes, which the caller has found to be an item that defines nothing.
    pub fn pass(&mut self, used: usize)
        requires between { IsBetweenItems self.old }
        requires item { HasItemNext B.building self.old used }
        ensures passed { ReadsOn B.building self.old self.new used }
        ensures between { IsBetweenItems self.new }
        ensures taken { taken_of self.new ≡ taken_of self.old + used }
        ensures types { table_of self.new ≡ table_of self.old }
        ensures limits { limits_of self.new ≡ limits_of self.old }
    {
        self.go_past(used);
    }

    /// Goes past so many bytes, which are items that define nothing.
    pub(crate) fn go_past(&mut self, used: usize)
        requires between { IsBetweenItems self.old }
        requires items { HasItemsNext B.building self.old used }
        ensures passed { ReadsAll B.building self.old self.new used }
        ensures between { IsBetweenItems self.new }
        ensures taken { taken_of self.new ≡ taken_of self.old + used }
        ensures types { table_of self.new ≡ table_of self.old }
        ensures limits { limits_of self.new ≡ limits_of self.old }
    {
        // its contract says that no stream is so long that the sum wraps
        let _most = self.limits.stream();
        self.taken += used as u64;
        if let Stage::Count(count) = &mut self.stage {
            count.begin = self.taken;
        }
    }
}

/// The item of a value that stands whole at the front of the piece, where the piece begins between two items at this
/// offset of a stream that has these types and limits: its type is ready and the limits allow its length. It takes no
/// memory, and looks at no byte of the value. None says nothing of the piece.
#[inline(always)]
pub fn whole_value<'a>(
    table: &Table,
    limits: &Limits,
    offset: u64,
    piece: &'a [u8],
) -> Option<Whole<'a>>
    ensures { IfSome result (λ whole.
        HasBody limits.now (types table.now) offset whole.id whole.body.now whole.used piece.now) }
{
    let announced = front_count(limits, offset, piece)?;
    let head = announced.used;
    if announced.count > (piece.len() - head) as u64 {
        return None;
    }
    let used = head + announced.count as usize;
    let named = type_of(table, piece, head)?;
    if named.end > used {
        return None;
    }
    Some(Whole {
        id: named.id,
        body: &piece[named.end..used],
        used,
    })
}

/// The item of a value of which the piece has the first bytes, and more are to come, where the piece begins between two
/// items at this offset of a stream that has these types and limits: its type is ready and the limits allow its length.
/// It takes no memory, and looks at no byte of the value. None says nothing of the piece.
pub fn awaited_value(table: &Table, limits: &Limits, offset: u64, piece: &[u8]) -> Option<Awaited>
    ensures { IfSome result (λ awaited.
        HasBegun limits.now (types table.now) offset awaited.id awaited.head awaited.size piece.now) }
{
    let announced = front_count(limits, offset, piece)?;
    let count_end = announced.used;
    if announced.count <= (piece.len() - count_end) as u64 {
        return None;
    }
    let named = type_of(table, piece, count_end)?;
    Some(Awaited {
        id: named.id,
        head: named.end,
        size: count_end as u64 + announced.count,
    })
}

// The count of an item at the front of the piece, where the limits allow its length at this offset.
#[inline(always)]
fn front_count(limits: &Limits, offset: u64, piece: &[u8]) -> Option<Announced>
    ensures count { IfSome result (λ announced.
        HasCount limits.now offset announced.count announced.used piece.now) }
    ensures fits { IfSome result (λ announced. announced.used + announced.count < 2 ^ 64) }
{
    let (count, used) = uint_at(piece, 0)?;
    let room = limits.stream().saturating_sub(offset);
    if count > limits.item() || count > room || used as u64 > room - count {
        return None;
    }
    Some(Announced { count, used })
}

// The type number that stands in the piece from the place on, where values of the type may come now. It is looked for
// in the piece, and not in the item alone: near the end of its bytes a number is found byte by byte.
#[inline(always)]
pub(crate) fn type_of(table: &Table, piece: &[u8], at: usize) -> Option<Named>
    ensures names { IfSome result (λ named. NamesTypeAt named.id piece.now at named.end) }
    ensures may { IfSome result (λ named. MayPut (types table.now) named.id) }
{
    let (number, end) = uint_at(piece, at)?;
    let id = value_type(number)?;
    if !may_put(table, id) {
        return None;
    }
    Some(Named { id, end })
}

// The type whose number this is, where it is that of a value.
#[inline(always)]
pub(crate) fn value_type(number: u64) -> Option<TypeId>
    ensures { IfSome result (λ id. (bytes : List ℕ) → IsUnsigned number bytes → IsSigned (pos id.0) bytes) }
{
    let number = to_signed(number);
    if number < 0 {
        return None;
    }
    Some(TypeId(number as u64))
}

// Whether values of the type may come now.
#[inline(always)]
fn may_put(table: &Table, id: TypeId) -> bool
    ensures { IsTrue result → MayPut (types table.now) id }
{
    if id.0 == TypeId::GOB_ENCODER_TYPE.0 {
        return false;
    }
    table.kept(id)
}
