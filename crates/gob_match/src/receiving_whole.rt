//! What is received of a value under a match, straight from the bytes that spell the value: no tree is made. It
//! recurses as deep as the value is, at most 1000.

ghost use Rattle.std.specs.Prelude.{◌≡◌, ◌≢◌, ◌≤◌, ℕ, IfSome, IsTrue, None, Some, length, drop, slice_get};
ghost use Rattle.gob_value.specs.Machine.Begins.{HoldsBetween};
ghost use Rattle.gob_match.specs.declared.common.CommonField.{CommonField};
ghost use Rattle.gob_match.specs.Calls.Matched.{IsSound, stream_of, stream_type, wanted_types_of, wanted_type};
ghost use Rattle.gob_match.specs.ReceivedWhole.{ReceivesWhole};
ghost use Rattle.gob_match.specs.Machine.Receiving.{IsPairOf};
ghost use Rattle.gob_match.specs.Machine.ReceivingWhole.{GivesEach, GivesFields, GivesList, GivesMap, GivesTop};
ghost use Rattle.gob_match.specs.Machine.ReceivingWhole.{GivesTyped, HasLength, HaveFieldsOf, RiseFrom, Skips};

use crate::body_part::{Part, copy_each, each_end, is_tagged, put_delta, put_number, put_tag};
use crate::common::CommonField;
use crate::conversion::Conversion;
use crate::matched::Matched;
use crate::pair::TypePair;
use crate::places::{place_of, present_fields};
use crate::receiving::conversion_of;
use gob_types::{Fields, Kind, Shapes, TypeId};
use gob_value::{field_number, number_at};
use std::alloc::Global;

// How deep a value may be that is looked at: each level is a call within a call.
const MOST_DEPTH: u64 = 1000;

// How many structs whose fields have another order than the wanted ones may stand in one another.
const MOST_TURNS: u64 = 16;

// How many elements a list may have.
#[derive(Clone, Copy)]
enum Length {
    Any,
    Of(u64),
}

impl Length {
    ghost use Rattle.std.specs.Prelude.{IsTrue};
    ghost use Rattle.gob_match.specs.Machine.ReceivingWhole.{Admits};

    fn admits(self, count: u64) -> bool
        ensures { IsTrue result → Admits self count }
    {
        match self {
            Length::Any => true,
            Length::Of(length) => count == length,
        }
    }
}

/// Makes in `received` the bytes of what is received of the value that `body` spells; each stands behind its tag where
/// it isn't a struct. True says that `body` spells a value of the stream's type, no deeper than `depth`, and that these
/// are the bytes. False says nothing: there may be no such value, or one that is deeper than 1000, or in which more
/// than 16 structs whose fields have another order than the wanted ones stand in one another, or memory was wanting.
pub fn receive_whole<S: Shapes, T: Shapes>(
    alloc: Global,
    matched: &Matched<'_, S, T>,
    body: &[u8],
    depth: u64,
    received: &mut Vec<u8>,
) -> bool
    requires { IsSound S.table T.table matched.now }
    ensures { let m = matched.now in IsTrue result → ReceivesWhole (S.table (stream_of m)) (T.table (wanted_types_of m))
        (stream_type m) (wanted_type m) depth body.now received.new.items }
{
    received.clear();
    match receive_top(alloc, matched, body, depth.min(MOST_DEPTH), received) {
        Some(end) => end == body.len(),
        None => false,
    }
}

// Receives the value that stands in the body behind its tag, where it isn't a struct, and tells where it ends.
fn receive_top<S: Shapes, T: Shapes>(
    alloc: Global,
    matched: &Matched<'_, S, T>,
    body: &[u8],
    depth: u64,
    out: &mut Vec<u8>,
) -> Option<usize>
    requires sound { IsSound S.table T.table matched.now }
    requires depth { depth ≤ 1000 }
    ensures { let m = matched.now in IfSome result (λ end.
        HoldsBetween (GivesTop (S.table (stream_of m)) (T.table (wanted_types_of m)) (stream_type m) (wanted_type m)
        depth out.old.items out.new.items) body.now 0 end) }
{
    let pair = TypePair {
        stream: matched.id,
        wanted: matched.wanted_id,
    };
    if let Conversion::Fields(_) = conversion_of(matched, pair) {
        return receive_typed(
            alloc,
            matched,
            pair,
            Part {
                body,
                at: 0,
                depth,
                turns: MOST_TURNS,
            },
            out,
        );
    }
    if !is_tagged(body) {
        return None;
    }
    put_tag(out)?;
    receive_typed(
        alloc,
        matched,
        pair,
        Part {
            body,
            at: 1,
            depth,
            turns: MOST_TURNS,
        },
        out,
    )
}

// Receives the value of the pair's type of the stream that stands there, and tells where it ends.
#[cycle(receive_whole)]
fn receive_typed<S: Shapes, T: Shapes>(
    alloc: Global,
    matched: &Matched<'_, S, T>,
    pair: TypePair,
    part: Part<'_>,
    out: &mut Vec<u8>,
) -> Option<usize>
    requires pair { IsPairOf S.table T.table matched.now pair }
    requires depth { part.depth ≤ 1000 }
    requires place { part.at ≤ length part.body.now }
    ensures { let m = matched.now in IfSome result (λ end.
        HoldsBetween (GivesTyped (S.table (stream_of m)) (T.table (wanted_types_of m)) pair part.entry.depth
        out.old.items out.new.items) part.entry.body.now part.entry.at end) }
{
    if part.depth == 0 {
        return None;
    }
    let inside = Part {
        body: part.body,
        at: part.at,
        depth: part.depth - 1,
        turns: part.turns,
    };
    match conversion_of(matched, pair) {
        Conversion::Unchanged => copy_each(matched.stream, pair.stream, 1, part, out),
        Conversion::Elements(elem) => {
            let size = length_of(matched.stream, pair.stream)?;
            receive_list(alloc, matched, *elem, size, inside, out)
        }
        Conversion::Entries { key, elem } => {
            receive_map(alloc, matched, *key, *elem, inside, out)
        }
        Conversion::Fields(common) => {
            let types = matched.stream.shape_of(pair.stream)?.kind.fields()?;
            receive_struct(alloc, matched, types, common, inside, out)
        }
    }
}

// Receives the elements of a list behind their count, which is this one where the list is an array.
#[cycle(receive_whole)]
fn receive_list<S: Shapes, T: Shapes>(
    alloc: Global,
    matched: &Matched<'_, S, T>,
    elem: TypePair,
    size: Length,
    part: Part<'_>,
    out: &mut Vec<u8>,
) -> Option<usize>
    requires pair { IsPairOf S.table T.table matched.now elem }
    requires depth { part.depth ≤ 1000 }
    requires place { part.at ≤ length part.body.now }
    ensures { let m = matched.now in IfSome result (λ end.
        HoldsBetween (GivesList (S.table (stream_of m)) (T.table (wanted_types_of m)) elem size part.entry.depth
        out.old.items out.new.items) part.entry.body.now part.entry.at end) }
{
    let (count, begin) = number_at(part.body, part.at)?;
    if !size.admits(count) {
        return None;
    }
    put_number(alloc, count, out)?;
    let first = Part {
        body: part.body,
        at: begin,
        depth: part.depth,
        turns: part.turns,
    };
    receive_each(alloc, matched, elem, count, first, out)
}

// Receives so many elements.
#[cycle(receive_whole)]
fn receive_each<S: Shapes, T: Shapes>(
    alloc: Global,
    matched: &Matched<'_, S, T>,
    elem: TypePair,
    count: u64,
    part: Part<'_>,
    out: &mut Vec<u8>,
) -> Option<usize>
    requires pair { IsPairOf S.table T.table matched.now elem }
    requires depth { part.depth ≤ 1000 }
    requires place { part.at ≤ length part.body.now }
    ensures { let m = matched.now in IfSome result (λ end.
        HoldsBetween (GivesEach (S.table (stream_of m)) (T.table (wanted_types_of m)) elem count part.entry.depth
        out.old.items out.new.items) part.entry.body.now part.entry.at end) }
{
    if let Conversion::Unchanged = conversion_of(matched, elem) {
        return copy_each(matched.stream, elem.stream, count, part, out);
    }
    let mut at = part.at;
    'elements: for _ in 0..count {
        let next = Part {
            body: part.body,
            at,
            depth: part.depth,
            turns: part.turns,
        };
        at = receive_typed(alloc, matched, elem, next, out)?;
    }
    Some(at)
}

// Receives the keys and the elements of a map behind their count.
#[cycle(receive_whole)]
fn receive_map<S: Shapes, T: Shapes>(
    alloc: Global,
    matched: &Matched<'_, S, T>,
    key: TypePair,
    elem: TypePair,
    part: Part<'_>,
    out: &mut Vec<u8>,
) -> Option<usize>
    requires key { IsPairOf S.table T.table matched.now key }
    requires elem { IsPairOf S.table T.table matched.now elem }
    requires depth { part.depth ≤ 1000 }
    requires place { part.at ≤ length part.body.now }
    ensures { let m = matched.now in IfSome result (λ end.
        HoldsBetween (GivesMap (S.table (stream_of m)) (T.table (wanted_types_of m)) key elem part.entry.depth
        out.old.items out.new.items) part.entry.body.now part.entry.at end) }
{
    let (count, begin) = number_at(part.body, part.at)?;
    put_number(alloc, count, out)?;
    let mut at = begin;
    'entries: for _ in 0..count {
        let first = Part {
            body: part.body,
            at,
            depth: part.depth,
            turns: part.turns,
        };
        let behind = receive_typed(alloc, matched, key, first, out)?;
        let second = Part {
            body: part.body,
            at: behind,
            depth: part.depth,
            turns: part.turns,
        };
        at = receive_typed(alloc, matched, elem, second, out)?;
    }
    Some(at)
}

// Receives the fields of a struct of these types.
#[cycle(receive_whole)]
fn receive_struct<S: Shapes, T: Shapes>(
    alloc: Global,
    matched: &Matched<'_, S, T>,
    types: &Fields,
    common: &[CommonField],
    part: Part<'_>,
    out: &mut Vec<u8>,
) -> Option<usize>
    requires fields { HaveFieldsOf S.table T.table matched.now types.now common.now }
    requires depth { part.depth ≤ 1000 }
    requires place { part.at ≤ length part.body.now }
    ensures { let m = matched.now in IfSome result (λ end.
        HoldsBetween (GivesFields (S.table (stream_of m)) (T.table (wanted_types_of m)) types.now common.now 0 0
        part.entry.depth out.old.items out.new.items) part.entry.body.now part.entry.at end) }
{
    if rise(common) {
        return receive_in_order(alloc, matched, types, common, part, out);
    }
    receive_reordered(alloc, matched, types, common, part, out)
}

// Receives the fields of a struct where those that both structs have stand in one order, as they come.
#[cycle(receive_whole)]
fn receive_in_order<S: Shapes, T: Shapes>(
    alloc: Global,
    matched: &Matched<'_, S, T>,
    types: &Fields,
    common: &[CommonField],
    part: Part<'_>,
    out: &mut Vec<u8>,
) -> Option<usize>
    requires fields { HaveFieldsOf S.table T.table matched.now types.now common.now }
    requires rise { RiseFrom 0 common.now }
    requires depth { part.depth ≤ 1000 }
    requires place { part.at ≤ length part.body.now }
    ensures { let m = matched.now in IfSome result (λ end.
        HoldsBetween (GivesFields (S.table (stream_of m)) (T.table (wanted_types_of m)) types.now common.now 0 0
        part.entry.depth out.old.items out.new.items) part.entry.body.now part.entry.at end) }
{
    let mut at = part.at;
    let mut next = 0;
    let mut wanted = 0;
    let mut index = 0;
    'fields: loop {
        let (delta, behind) = number_at(part.body, at)?;
        if delta == 0 {
            put_number(alloc, 0, out)?;
            return Some(behind);
        }
        let number = field_number(next, delta)?;
        let value = Part {
            body: part.body,
            at: behind,
            depth: part.depth,
            turns: part.turns,
        };
        let own = types.get(number)?;
        next = number + 1;
        index = first_from(common, index, number);
        let Some(field) = common_at(common, index, number) else {
            at = each_end(matched.stream, own.id, 1, value)?;
            continue 'fields;
        };
        put_delta(alloc, wanted, field.wanted, out)?;
        at = receive_typed(alloc, matched, field.pair, value, out)?;
        wanted = field.wanted as u64 + 1;
        index += 1;
    }
}

// Receives the fields of a struct where the wanted one has them in another order, by the places where they stand. They
// are gone past first: so a struct in such a struct is gone over twice, and only so many may stand in one another.
#[cycle(receive_whole)]
fn receive_reordered<S: Shapes, T: Shapes>(
    alloc: Global,
    matched: &Matched<'_, S, T>,
    types: &Fields,
    common: &[CommonField],
    part: Part<'_>,
    out: &mut Vec<u8>,
) -> Option<usize>
    requires fields { HaveFieldsOf S.table T.table matched.now types.now common.now }
    requires depth { part.depth ≤ 1000 }
    requires place { part.at ≤ length part.body.now }
    ensures { let m = matched.now in IfSome result (λ end.
        HoldsBetween (GivesFields (S.table (stream_of m)) (T.table (wanted_types_of m)) types.now common.now 0 0
        part.entry.depth out.old.items out.new.items) part.entry.body.now part.entry.at end) }
{
    let turns = part.turns.checked_sub(1)?;
    let mut places = Vec::new(alloc);
    let end = present_fields(matched.stream, types, part, &mut places)?;
    let mut wanted = 0;
    for field in common {
        let Some(at) = place_of(&places, field.stream as u64) else {
            continue;
        };
        let value = Part {
            body: part.body,
            at,
            depth: part.depth,
            turns,
        };
        put_delta(alloc, wanted, field.wanted, out)?;
        receive_typed(alloc, matched, field.pair, value, out)?;
        wanted = field.wanted as u64 + 1;
    }
    put_number(alloc, 0, out)?;
    Some(end)
}

// Whether the stream's numbers of the fields rise, too.
fn rise(common: &[CommonField]) -> bool
    ensures { IsTrue result → RiseFrom 0 common.now }
{
    let mut next = 0;
    for field in common {
        let number = field.stream as u64;
        if number < next || number == u64::MAX {
            return false;
        }
        next = number + 1;
    }
    true
}

// The first of the common fields, from this one on, whose number in the stream is no lower.
fn first_from(common: &[CommonField], from: usize, number: u64) -> usize
    ensures skipped { Skips number (drop from common.now) (drop result common.now) }
    ensures rises { (low : ℕ) → RiseFrom low (drop from common.now) → RiseFrom number (drop result common.now) }
{
    let mut index = from;
    'fields: while index < common.len() && (common[index].stream as u64) < number {
        index += 1;
    }
    index
}

// The common field at this place, if it has this number in the stream.
fn common_at(common: &[CommonField], index: usize, number: u64) -> Option<&CommonField>
    ensures found { IfSome result (λ field.
        (slice_get common.now index ≡ Some field.now) × (field.now.stream ≡ number)) }
    ensures none { result ≡ None → (c : CommonField) → slice_get common.now index ≡ Some c → c.stream ≢ number }
{
    let field = common.get(index)?;
    if field.stream as u64 != number {
        return None;
    }
    Some(field)
}

// How many elements the values of a type of lists have: so many, where they are arrays.
fn length_of<S: Shapes>(stream: &S, id: TypeId) -> Option<Length>
    ensures { IfSome result (λ size. HasLength (S.table stream.now) id size) }
{
    match stream.shape_of(id)?.kind {
        Kind::Array { len, .. } => Some(Length::Of(len)),
        _ => Some(Length::Any),
    }
}
