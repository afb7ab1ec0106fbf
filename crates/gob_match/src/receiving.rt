//! Values received under a match.

ghost use Rattle.std.specs.Prelude.{◌≡◌, IfOk, MatchOption};
ghost use Rattle.gob_value.specs.Fits.{Fits};
ghost use Rattle.gob_value.specs.Tree.{depth};
ghost use Rattle.gob_value.specs.View.{view, views, pair_views, field_views};
ghost use Rattle.gob_value.specs.Within.{FitsWithin};
ghost use Rattle.gob_value.specs.Written.{HasParts};
ghost use Rattle.gob_match.specs.Calls.Matched.{IsSound, stream_of, stream_type, wanted_types_of, wanted_type};
ghost use Rattle.gob_match.specs.Received.{Receives, IsPresent, IsAbsent};
ghost use Rattle.gob_match.specs.Machine.Receiving.{CanReceive, CanReceiveEach, CanReceivePairs, CanReceiveFields};
ghost use Rattle.gob_match.specs.Machine.Receiving.{GivesTree, GivesEach, GivesPairs, GivesCommonFields};
ghost use Rattle.gob_match.specs.Machine.Receiving.{HasConversion, IsPairOf};
ghost use Rattle.gob_match.specs.Machine.Receiving.{HaveRisingNumbers};

use crate::common::CommonField;
use crate::conversion::Conversion;
use crate::matched::Matched;
use crate::pair::TypePair;
use gob_num::Memory;
use gob_types::Shapes;
use gob_value::Value;
use std::alloc::Global;

/// The value that is received of a value of the stream's type: the fields of its structs are taken by name, in the
/// order of the wanted struct, and what is absent stays absent. (docs/LIBRARY.md, Matching and receiving.)
///
/// The match is one that [`match_types`](crate::match_types) gave, and the value fits the type of the stream that
/// was matched, however deep it is; so what is received fits the wanted type, and is no deeper. Recursion is as deep
/// as the value. After `Memory` nothing has changed.
pub fn receive<S: Shapes, T: Shapes>(
    alloc: Global,
    matched: &Matched<'_, S, T>,
    value: &Value,
) -> Result<Value, Memory>
    requires sound { IsSound S.table T.table matched.now }
    requires fits { let m = matched.now in
        Fits (S.table (stream_of m)) (stream_type m) (view value.now) }
    ensures received { let m = matched.now in IfOk result (λ w.
        Receives (S.table (stream_of m)) (T.table (wanted_types_of m)) (stream_type m) (wanted_type m)
        (view value.now) (view w)) }
    ensures fits { let m = matched.now in IfOk result (λ w.
        FitsWithin (T.table (wanted_types_of m)) (wanted_type m) (depth (view value.now)) (view w)) }
{
    let pair = TypePair {
        stream: matched.id,
        wanted: matched.wanted_id,
    };
    receive_value(alloc, matched, pair, value)
}

#[cycle(receive)]
fn receive_value<S: Shapes, T: Shapes>(
    alloc: Global,
    matched: &Matched<'_, S, T>,
    pair: TypePair,
    value: &Value,
) -> Result<Value, Memory>
    requires { CanReceive S.table T.table matched.now pair (view value.now) }
    ensures { IfOk result (λ w. GivesTree S.table T.table matched.now pair (view value.now) (view w)) }
{
    match conversion_of(matched, pair) {
        Conversion::Unchanged => copied_leaf(alloc, value),
        Conversion::Elements(elem) => match value {
            Value::Many(parts) => Ok(Value::Many(receive_each(alloc, matched, *elem, parts)?)),
            _ => unreachable!(),
        },
        Conversion::Entries { key, elem } => match value {
            Value::Pairs(parts) => {
                Ok(Value::Pairs(receive_pairs(alloc, matched, *key, *elem, parts)?))
            }
            _ => unreachable!(),
        },
        Conversion::Fields(common) => match value {
            Value::Fields(parts) => {
                Ok(Value::Fields(receive_fields(alloc, matched, common, parts)?))
            }
            _ => unreachable!(),
        },
    }
}

#[cycle(receive)]
fn receive_each<S: Shapes, T: Shapes>(
    alloc: Global,
    matched: &Matched<'_, S, T>,
    pair: TypePair,
    parts: &[Value],
) -> Result<Vec<Value>, Memory>
    requires { CanReceiveEach S.table T.table matched.now pair (views parts.now) }
    ensures { IfOk result (λ ws. GivesEach S.table T.table matched.now pair (views parts.now) (views ws.items)) }
{
    let mut received = Vec::new(alloc);
    for part in parts {
        received.push(receive_value(alloc, matched, pair, part)?)?;
    }
    Ok(received)
}

#[cycle(receive)]
fn receive_pairs<S: Shapes, T: Shapes>(
    alloc: Global,
    matched: &Matched<'_, S, T>,
    key: TypePair,
    elem: TypePair,
    parts: &[(Value, Value)],
) -> Result<Vec<(Value, Value)>, Memory>
    requires { CanReceivePairs S.table T.table matched.now key elem (pair_views parts.now) }
    ensures { IfOk result (λ ws.
        GivesPairs S.table T.table matched.now key elem (pair_views parts.now) (pair_views ws.items)) }
{
    let mut received = Vec::new(alloc);
    for (k, e) in parts {
        let k = receive_value(alloc, matched, key, k)?;
        let e = receive_value(alloc, matched, elem, e)?;
        received.push((k, e))?;
    }
    Ok(received)
}

#[cycle(receive)]
fn receive_fields<S: Shapes, T: Shapes>(
    alloc: Global,
    matched: &Matched<'_, S, T>,
    common: &[CommonField],
    parts: &[(u64, Value)],
) -> Result<Vec<(u64, Value)>, Memory>
    requires { CanReceiveFields S.table T.table matched.now common.now (field_views parts.now) }
    ensures { IfOk result (λ ws.
        GivesCommonFields S.table T.table matched.now common.now (field_views parts.now) (field_views ws.items)) }
{
    let mut received = Vec::new(alloc);
    for field in common {
        let Some(part) = part_at(parts, field.stream as u64) else {
            continue;
        };
        let part = receive_value(alloc, matched, field.pair, part)?;
        received.push((field.wanted as u64, part))?;
    }
    Ok(received)
}

/// The conversion of a pair of the match.
pub(crate) fn conversion_of<'a, S: Shapes, T: Shapes>(
    matched: &'a Matched<'_, S, T>,
    pair: TypePair,
) -> &'a Conversion
    requires { IsPairOf S.table T.table matched.now pair }
    ensures { HasConversion S.table T.table matched.now pair result.now }
{
    let Some(place) = matched.found.place_of(pair) else {
        unreachable!()
    };
    &matched.conversions[place]
}

// The value of the field of this number, where it is present.
fn part_at(parts: &[(u64, Value)], number: u64) -> Option<&Value>
    requires { HaveRisingNumbers parts.now }
    ensures { MatchOption result
        (IsAbsent number (field_views parts.now)) (λ part. IsPresent number (view part.now) (field_views parts.now)) }
{
    match parts.binary_search_by_key(&number, |part| part.0) {
        Ok(place) => Some(&parts[place].1),
        Err(_) => None,
    }
}

// A copy of a value without parts.
fn copied_leaf(alloc: Global, value: &Value) -> Result<Value, Memory>
    requires { ¬ HasParts (view value.now) }
    ensures { IfOk result (λ copy. view copy ≡ view value.now) }
{
    match value {
        Value::Bool(x) => Ok(Value::Bool(*x)),
        Value::Int(i) => Ok(Value::Int(*i)),
        Value::Uint(n) => Ok(Value::Uint(*n)),
        Value::Float(p) => Ok(Value::Float(*p)),
        Value::Complex(p, q) => Ok(Value::Complex(*p, *q)),
        Value::Bytes(s) => Ok(Value::Bytes(Vec::from_slice(alloc, s)?)),
        Value::Str(s) => Ok(Value::Str(Vec::from_slice(alloc, s)?)),
        Value::Opaque(s) => Ok(Value::Opaque(Vec::from_slice(alloc, s)?)),
        Value::Nil => Ok(Value::Nil),
        Value::Many(_) | Value::Pairs(_) | Value::Fields(_) => unreachable!(),
    }
}
