//! Whether two shapes match.

ghost use Rattle.std.specs.Prelude.{◌≡◌, OnOk, IfOk, IfErr};
ghost use Rattle.gob_match.specs.Pairs.{of_types};
ghost use Rattle.gob_match.specs.Matching.{HaveDistinctNames};
ghost use Rattle.gob_match.specs.Machine.Struct.{AreCommonFields, AreNames};
ghost use Rattle.gob_match.specs.Machine.Exploring.{Converts, MatchAnswers, IsPairFault};

use crate::common::{CommonField, common_fields};
use crate::conversion::Conversion;
use crate::fault::PairFault;
use crate::names::{NameSet, names_of, repeats_name};
use crate::pair::TypePair;
use crate::reason::ClashReason;
use gob_types::{Basic, Fields, Kind, Marshal, TypeId};
use std::alloc::Global;

/// The conversion of two shapes that match, or the first reason why they don't.
pub(crate) fn match_kinds(
    alloc: Global,
    stream: &Kind,
    wanted: &Kind,
) -> Result<Conversion, PairFault>
    ensures converts { IfOk result (Converts stream.now wanted.now) }
    ensures fault { IfErr result (IsPairFault stream.now wanted.now) }
{
    match stream {
        Kind::Basic(basic) => Ok(match_basic(*basic, wanted)?),
        Kind::Opaque(marshal) => Ok(match_opaque(*marshal, wanted)?),
        Kind::Array { elem, len } => Ok(match_array(*elem, *len, wanted)?),
        Kind::Slice { elem } => Ok(match_slice(*elem, wanted)?),
        Kind::Map { key, elem } => Ok(match_map(*key, *elem, wanted)?),
        Kind::Struct { fields } => match_struct(alloc, fields, wanted),
    }
}

fn match_basic(basic: Basic, wanted: &Kind) -> Result<Conversion, ClashReason>
    ensures { MatchAnswers (Kind.Basic basic) wanted.now result }
{
    let Kind::Basic(other) = wanted else {
        return Err(ClashReason::DifferentKind);
    };
    if basic == *other {
        Ok(Conversion::Unchanged)
    } else {
        Err(ClashReason::DifferentKind)
    }
}

fn match_opaque(marshal: Marshal, wanted: &Kind) -> Result<Conversion, ClashReason>
    ensures { MatchAnswers (Kind.Opaque marshal) wanted.now result }
{
    let Kind::Opaque(other) = wanted else {
        return Err(ClashReason::DifferentKind);
    };
    if marshal == *other {
        Ok(Conversion::Unchanged)
    } else {
        Err(ClashReason::DifferentKind)
    }
}

fn match_array(elem: TypeId, len: u64, wanted: &Kind) -> Result<Conversion, ClashReason>
    ensures { MatchAnswers (Kind.Array elem len) wanted.now result }
{
    let Kind::Array {
        elem: other,
        len: other_len,
    } = wanted
    else {
        return Err(ClashReason::DifferentKind);
    };
    if len == *other_len {
        Ok(Conversion::Elements(pair_of(elem, *other)))
    } else {
        Err(ClashReason::DifferentLength)
    }
}

fn match_slice(elem: TypeId, wanted: &Kind) -> Result<Conversion, ClashReason>
    ensures { MatchAnswers (Kind.Slice elem) wanted.now result }
{
    match wanted {
        Kind::Slice { elem: other } => Ok(Conversion::Elements(pair_of(elem, *other))),
        _ => Err(ClashReason::DifferentKind),
    }
}

fn match_map(key: TypeId, elem: TypeId, wanted: &Kind) -> Result<Conversion, ClashReason>
    ensures { MatchAnswers (Kind.Map key elem) wanted.now result }
{
    match wanted {
        Kind::Map {
            key: other_key,
            elem: other,
        } => Ok(Conversion::Entries {
            key: pair_of(key, *other_key),
            elem: pair_of(elem, *other),
        }),
        _ => Err(ClashReason::DifferentKind),
    }
}

fn match_struct(alloc: Global, fields: &Fields, wanted: &Kind) -> Result<Conversion, PairFault>
    ensures converts { IfOk result (Converts (Kind.Struct fields.now) wanted.now) }
    ensures fault { IfErr result (IsPairFault (Kind.Struct fields.now) wanted.now) }
{
    let Kind::Struct { fields: wanted } = wanted else {
        return Err(PairFault::Clash(ClashReason::DifferentKind));
    };
    match_fields(alloc, fields, wanted)
}

fn match_fields(alloc: Global, stream: &Fields, wanted: &Fields) -> Result<Conversion, PairFault>
    ensures converts { IfOk result (Converts (Kind.Struct stream.now) (Kind.Struct wanted.now)) }
    ensures fault { IfErr result (IsPairFault (Kind.Struct stream.now) (Kind.Struct wanted.now)) }
{
    let Some(names) = names_of(alloc, stream.as_slice())? else {
        return Err(PairFault::Clash(ClashReason::RepeatedName));
    };
    match_named(alloc, stream, &names, wanted)
}

// Matches the fields of a struct, where these are the names of the stream's.
fn match_named(
    alloc: Global,
    stream: &Fields,
    names: &NameSet<'_>,
    wanted: &Fields,
) -> Result<Conversion, PairFault>
    requires { AreNames stream.now names.now }
    ensures converts { IfOk result (Converts (Kind.Struct stream.now) (Kind.Struct wanted.now)) }
    ensures fault { IfErr result (IsPairFault (Kind.Struct stream.now) (Kind.Struct wanted.now)) }
{
    if repeats_name(alloc, wanted.as_slice())? {
        return Err(PairFault::Clash(ClashReason::RepeatedName));
    }
    let common = common_fields(alloc, stream, names, wanted.as_slice())?;
    Ok(match_common(common, stream, wanted)?)
}

// The conversion of two structs that repeat no name, with their common fields.
fn match_common(
    common: Vec<CommonField>,
    stream: &Fields,
    wanted: &Fields,
) -> Result<Conversion, ClashReason>
    requires distinct { HaveDistinctNames stream.now wanted.now }
    requires common { AreCommonFields stream.now 0 wanted.now common.items }
    ensures { MatchAnswers (Kind.Struct stream.now) (Kind.Struct wanted.now) result }
{
    if common.len() > 0 {
        return Ok(Conversion::Fields(common));
    }
    if stream.count() > 0 {
        return Err(ClashReason::NoCommonField);
    }
    if wanted.count() > 0 {
        return Err(ClashReason::NoCommonField);
    }
    Ok(Conversion::Fields(common))
}

fn pair_of(stream: TypeId, wanted: TypeId) -> TypePair
    ensures { result ≡ of_types stream wanted }
{
    TypePair { stream, wanted }
}
