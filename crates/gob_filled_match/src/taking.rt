//! Numbers taken out of the places of nils.

ghost use Rattle.std.specs.Prelude.{◌≤◌, ◌+◌, length, IfOk, OnOk};
ghost use Rattle.gob_types.specs.Defined.{types};
ghost use Rattle.gob_types.specs.Ready.{IsReady};
ghost use Rattle.gob_filled_match.specs.Machine.Taking.{StandsSomewhere, TakesAll, TakesNil};
ghost use Rattle.gob_filled_match.specs.Machine.Taking.{TakesNumber, TakesNumbers};

use gob_num::Memory;
use gob_read::laws::nils_stay;
use gob_read::{BodyReader, CheckBuilder, Progress, Reached};
use gob_stream::Limits;
use gob_types::{Table, TypeId};
use gob_value::number_at;
use std::alloc::Global;

/// A nil that is filled.
#[derive(Clone, Copy)]
pub(crate) struct FilledNil {
    /// How many bytes of the skeleton stand before it.
    pub(crate) place: u64,
    /// The number of what fills it, from 1 on.
    pub(crate) number: u64,
}

/// A skeleton, and which of its nils are filled.
#[derive(Drop)]
pub(crate) struct Skeleton {
    pub(crate) bytes: Vec<u8>,
    pub(crate) nils: Vec<FilledNil>,
}

/// The skeleton of a value of the type that is spelled with numbers in the places of its filled nils. `Memory` also
/// where these bytes are none.
pub(crate) fn take_numbers(
    alloc: Global,
    table: &Table,
    id: TypeId,
    numbered: &[u8],
) -> Result<Skeleton, Memory>
    requires { IsReady (types table.now) id }
    ensures { IfOk result (λ skeleton. TakesNumbers (types table.now) id skeleton numbered.now) }
{
    let mut skeleton = Skeleton {
        bytes: Vec::new(alloc),
        nils: Vec::new(alloc),
    };
    let mut reader = BodyReader::<CheckBuilder>::new(
        alloc,
        id,
        numbered.len() as u64,
        Limits::DEEPEST,
    )?;
    nils_stay(&reader);
    take_nils(alloc, table, numbered, &mut reader, &mut skeleton)?;
    Ok(skeleton)
}

// Takes nil by nil, up to the end of the value.
fn take_nils(
    alloc: Global,
    table: &Table,
    numbered: &[u8],
    reader: &mut BodyReader<CheckBuilder>,
    skeleton: &mut Skeleton,
) -> Result<(), Memory>
    requires { StandsSomewhere (types table.now) numbered.now 0 reader.old skeleton.old }
    ensures { OnOk result (TakesAll (types table.now) numbered.now 0 reader.old skeleton.old skeleton.new) }
{
    let mut at = 0;
    'nils: for _ in 0..numbered.len() {
        match take_nil(alloc, table, numbered, at, reader, skeleton)? {
            Some(behind) => at = behind,
            None => return Ok(()),
        }
    }
    Err(Memory)
}

// Takes the bytes up to the next nil, and nil in the place of the number that stands there. Tells where that ends, or
// that the value does.
fn take_nil(
    alloc: Global,
    table: &Table,
    numbered: &[u8],
    at: usize,
    reader: &mut BodyReader<CheckBuilder>,
    skeleton: &mut Skeleton,
) -> Result<Option<usize>, Memory>
    requires { StandsSomewhere (types table.now) numbered.now at reader.old skeleton.old }
    ensures { IfOk result (TakesNil (types table.now) numbered.now at reader.old reader.new skeleton.old skeleton.new) }
{
    match reader.push_to_nil(alloc, table, &numbered[at..]) {
        Ok(Reached::Nil { used }) => {
            let behind = take_number(numbered, at, used, skeleton)?;
            reader.announce((numbered.len() - behind) as u64 + 1);
            match reader.fill(alloc, table) {
                Ok(Progress::More) => Ok(Some(behind)),
                Ok(Progress::Done { .. }) => Ok(None),
                Err(_) => Err(Memory),
            }
        }
        Ok(Reached::Done { out: _, used }) => {
            skeleton.bytes.extend_from_slice(&numbered[at..at + used])?;
            Ok(None)
        }
        _ => Err(Memory),
    }
}

// Takes the bytes up to a nil, and nil in the place of the number that stands there. Tells where that ends.
fn take_number(
    numbered: &[u8],
    at: usize,
    used: usize,
    skeleton: &mut Skeleton,
) -> Result<usize, Memory>
    requires { at + used ≤ length numbered.now }
    ensures { IfOk result (λ behind. TakesNumber numbered.now at used behind skeleton.old skeleton.new) }
{
    skeleton.bytes.extend_from_slice(&numbered[at..at + used])?;
    let Some((number, behind)) = number_at(numbered, at + used) else {
        return Err(Memory);
    };
    if number > 0 {
        let place = skeleton.bytes.len() as u64;
        skeleton.nils.push(FilledNil { place, number })?;
    }
    skeleton.bytes.push(0)?;
    Ok(behind)
}
