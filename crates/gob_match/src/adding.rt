//! Pairs that a conversion leads to are added to a search.

ghost use Rattle.std.specs.Prelude.{◌≡◌, OnOk};
ghost use Rattle.gob_match.specs.Machine.Search.{AddsPairs};
ghost use Rattle.gob_match.specs.Machine.Conversions.{ConversionNames, HasCommon};

use crate::common::CommonField;
use crate::conversion::Conversion;
use crate::found::Found;
use crate::step::{TypeStep, copied_name};
use gob_num::Memory;
use std::alloc::Global;

/// Adds the pairs that the conversion leads to, found from the pair at `place`.
pub(crate) fn add_named(
    alloc: Global,
    found: &mut Found,
    place: usize,
    conversion: &Conversion,
) -> Result<(), Memory>
    ensures { OnOk result (AddsPairs found.old found.new place (ConversionNames conversion.now)) }
{
    match conversion {
        Conversion::Unchanged => {}
        Conversion::Elements(pair) => {
            found.add(*pair, place, TypeStep::Element)?;
        }
        Conversion::Entries { key, elem } => {
            found.add(*key, place, TypeStep::Key)?;
            found.add(*elem, place, TypeStep::Element)?;
        }
        Conversion::Fields(common) => add_fields(alloc, found, place, common)?,
    }
    Ok(())
}

fn add_fields(
    alloc: Global,
    found: &mut Found,
    place: usize,
    common: &[CommonField],
) -> Result<(), Memory>
    ensures { OnOk result (AddsPairs found.old found.new place (HasCommon common.now)) }
{
    for field in common {
        let step = TypeStep::Named(copied_name(alloc, &field.name)?);
        found.add(field.pair, place, step)?;
    }
    Ok(())
}
