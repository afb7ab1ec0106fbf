//! The fields that two structs have in common.

ghost use Rattle.std.specs.Prelude.{◌≡◌, ◌∷◌, [], IfOk, IfErr, OnOk, MatchResult};
ghost use Rattle.gob_match.specs.Machine.Struct.{AreCommonFields, AreNames};

use crate::names::NameSet;
use crate::pair::TypePair;
use crate::step::copied_name;
use gob_num::Memory;
use gob_types::{Field, Fields, Name};
use std::alloc::Global;

/// A field whose name is in both structs.
#[derive(Drop)]
pub(crate) struct CommonField {
    /// The name.
    pub(crate) name: Name,
    /// Its number in the stream's struct, counted from 0.
    pub(crate) stream: usize,
    /// Its number in the wanted struct, counted from 0.
    pub(crate) wanted: usize,
    /// Its two types.
    pub(crate) pair: TypePair,
}

/// The fields that are in both structs, in the wanted order. `names` are those of the stream's fields: each
/// wanted field is looked up once.
pub(crate) fn common_fields(
    alloc: Global,
    stream: &Fields,
    names: &NameSet<'_>,
    wanted: &[Field],
) -> Result<Vec<CommonField>, Memory>
    requires { AreNames stream.now names.now }
    ensures { IfOk result (λ common. AreCommonFields stream.now 0 wanted.now common.items) }
{
    let mut common = Vec::new(alloc);
    for (number, field) in wanted.iter().enumerate() {
        let Some(place) = names.number_of(field.name.as_bytes()) else {
            continue;
        };
        let Some(other) = stream.get(place as u64) else {
            unreachable!()
        };
        let pair = TypePair {
            stream: other.id,
            wanted: field.id,
        };
        let name = copied_name(alloc, &field.name)?;
        common.push(CommonField {
            name,
            stream: place,
            wanted: number,
            pair,
        })?;
    }
    Ok(common)
}
