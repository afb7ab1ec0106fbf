//! The segments of a value, level by level. Recursion is as deep as interfaces hold others.

ghost use Rattle.std.specs.Prelude.{◌^◌, ◌<◌, IfErr, MatchBool, OnOk};
ghost use Rattle.gob_num.specs.Spelled.{Appends, IsSpelled};
ghost use Rattle.gob_num.specs.Unsigned.{AreBytes};
ghost use Rattle.gob_types.specs.Base.{wire_type};
ghost use Rattle.gob_types.specs.Defined.{types};
ghost use Rattle.gob_value.specs.Spelling.{Spells};
ghost use Rattle.gob_value.specs.View.{view};
ghost use Rattle.gob_value.specs.Within.{FitsWithin, IsWithin};
ghost use Rattle.gob_stream.specs.Bounds.{greatest_depth};
ghost use Rattle.gob_go_writer.specs.Machine.Letters.{AreSpelledBytes, TakesSpelled};
ghost use Rattle.gob_go_writer.specs.Machine.Unfit.{IsUnfit};
ghost use Rattle.gob_go_writer.specs.Spelling.{SpellDefinitions, SpellsDefinition, SpellsFilling, SpellsValue};

use crate::segments::Segments;
use gob_go::{Definition, Filled, Filling};
use gob_stream::Limits;
use gob_types::{Denial, Reason, Table, TypeId};
use gob_value::{SpellFault, Value, spell};
use std::alloc::Global;

/// The answer where what is kept has no spelling, or isn't what was read.
pub(crate) const NO_ITEM: Denial = Denial::Refused(Reason::DoesNotFit);

// The greatest id that is below 2^63, so that it has a type number.
const GREATEST_ID: u64 = 9223372036854775807;

/// Goes on with the definition of a type: the id below 0, and the description.
pub(crate) fn put_definition(
    alloc: Global,
    table: &Table,
    id: TypeId,
    described: &Value,
    segments: &mut Segments,
) -> Result<(), Denial>
    ensures ok { OnOk result (TakesSpelled
        (AreSpelledBytes (SpellsDefinition (types table.now) id (view described.now))) segments.old segments.new) }
    ensures refused { IfErr result
        (IsUnfit (IsSpelled (SpellsDefinition (types table.now) id (view described.now)))) }
{
    if id.0 == 0 || !has_number(id) {
        return Err(NO_ITEM);
    }
    segments.put_int(alloc, -(id.0 as i64))?;
    write_description(alloc, table, described, &mut segments.last)?;
    Ok(())
}

/// Whether there is a number of the type.
pub(crate) fn has_number(id: TypeId) -> bool
    ensures { MatchBool result (id.0 < 2 ^ 63) (¬ (id.0 < 2 ^ 63)) }
{
    id.0 <= GREATEST_ID
}

/// Appends a description, where it is one of trees that are no deeper than 1000.
pub(crate) fn write_description(
    alloc: Global,
    table: &Table,
    described: &Value,
    out: &mut Vec<u8>,
) -> Result<(), Denial>
    ensures spelled { OnOk result (Appends (Spells (types table.now) wire_type (view described.now)) out.old.items
        out.new.items) }
    ensures within { OnOk result (IsWithin greatest_depth (view described.now)) }
    ensures bytes { OnOk result (AreBytes out.new.items) }
    ensures refused { IfErr result
        (IsUnfit (FitsWithin (types table.now) wire_type greatest_depth (view described.now))) }
{
    let most = Limits::GREATEST_DEPTH;
    match spell(alloc, table, TypeId::WIRE_TYPE, described, most, out) {
        Ok(()) => Ok(()),
        Err(SpellFault::Memory) => Err(Denial::Memory),
        Err(SpellFault::TooDeep | SpellFault::DoesNotFit) => Err(NO_ITEM),
    }
}

// Goes on with definitions in a value, each of which ends its segment.
fn put_definitions(
    alloc: Global,
    table: &Table,
    definitions: &[Definition],
    segments: &mut Segments,
) -> Result<(), Denial>
    ensures ok { OnOk result
        (TakesSpelled (SpellDefinitions (types table.now) definitions.now) segments.old segments.new) }
    ensures refused { IfErr result (IsUnfit (IsSpelled (SpellDefinitions (types table.now) definitions.now))) }
{
    for definition in definitions {
        put_definition(alloc, table, definition.id, &definition.described, segments)?;
        segments.cut(alloc)?;
    }
    Ok(())
}

/// Goes on with a value: its skeleton, where each filling stands in the place of one byte.
#[cycle(value)]
pub(crate) fn put_value(
    alloc: Global,
    table: &Table,
    value: &Filled,
    segments: &mut Segments,
) -> Result<(), Denial>
    ensures ok { OnOk result (TakesSpelled (SpellsValue (types table.now) value.now) segments.old segments.new) }
    ensures refused { IfErr result (IsUnfit (IsSpelled (SpellsValue (types table.now) value.now))) }
{
    let mut done = 0;
    for filling in &value.fillings {
        if filling.place < done as u64 || filling.place >= value.skeleton.len() as u64 {
            return Err(NO_ITEM);
        }
        let place = filling.place as usize;
        segments.put(&value.skeleton[done..place])?;
        put_filling(alloc, table, filling, segments)?;
        done = place + 1;
    }
    segments.put(&value.skeleton[done..])?;
    Ok(())
}

// Goes on with what fills a nil: a name, definitions, the type number, and the segments of the value.
#[cycle(value)]
fn put_filling(
    alloc: Global,
    table: &Table,
    filling: &Filling,
    segments: &mut Segments,
) -> Result<(), Denial>
    ensures ok { OnOk result (TakesSpelled (SpellsFilling (types table.now) filling.now) segments.old segments.new) }
    ensures refused { IfErr result (IsUnfit (IsSpelled (SpellsFilling (types table.now) filling.now))) }
{
    segments.put_name(alloc, &filling.name)?;
    put_definitions(alloc, table, &filling.definitions, segments)?;
    if !has_number(filling.id) {
        return Err(NO_ITEM);
    }
    segments.put_int(alloc, filling.id.0 as i64)?;
    let mut held = Segments::new(alloc);
    put_value(alloc, table, &filling.value, &mut held)?;
    held.append_to(alloc, &mut segments.last)?;
    Ok(())
}
