//! Why an item isn't read, or isn't written: which ids and types are refused, and what a denial is as a fault.

ghost use Rattle.std.specs.Prelude.{◌≡◌, ◌^◌, ◌<◌, OnOk, MatchResult};
ghost use Rattle.gob_types.specs.Base.{base_table};
ghost use Rattle.gob_types.specs.Definable.{IsDefinable};
ghost use Rattle.gob_types.specs.Defined.{types, IsTable, Admits};
ghost use Rattle.gob_stream.specs.Bounds.{Bounds};
ghost use Rattle.gob_stream.specs.Body.{MayDefine, MayPut};
ghost use Rattle.gob_stream.specs.WriterRefusal.{RefusesId, RefusesType};
ghost use Rattle.gob_types.specs.declared.denial.Denial.{Denial};
ghost use Rattle.gob_types.specs.Denial.{IsDenial};
ghost use Rattle.gob_value.specs.Faults.{value_denial};
ghost use Rattle.gob_stream.specs.Machine.Denial.{AddAnswers, fault_at, write_fault};

use crate::count::refusal;
use crate::fault::{Fault, WriteFault};
use gob_types::{DefineFault, Denial, Reason, Shape, Table, TypeId};
use gob_value::SpellFault;
use std::alloc::Global;

impl Fault {
    /// The fault of a reader that meets the denial at the place, shown by so many bytes of the stream.
    pub fn of(denial: Denial, place: u64, seen: u64) -> Fault
        ensures { result ≡ fault_at place seen denial }
    {
        match denial {
            Denial::Refused(reason) => Fault::Refused(refusal(place, seen, reason)),
            Denial::Memory => Fault::Memory,
        }
    }
}

impl From<Denial> for WriteFault {
    ghost from_gives = { λ denial fault. fault ≡ write_fault denial };

    fn from(denial: Denial) -> WriteFault {
        match denial {
            Denial::Refused(reason) => WriteFault::Refused(reason),
            Denial::Memory => WriteFault::Memory,
        }
    }
}

// For callers that spell a value themselves, for `StreamWriter::put_spelled`.
impl From<SpellFault> for WriteFault {
    ghost from_gives = { λ given fault. fault ≡ write_fault (value_denial given) };

    fn from(fault: SpellFault) -> WriteFault {
        Denial::from(fault).into()
    }
}

/// Whether the id may be defined now.
pub fn judge_id(table: &Table, id: TypeId) -> Result<(), Reason>
    ensures judged { (L : Bounds) → table.now.most ≡ L.types → let T = types table.now in
        MatchResult result (λ _. MayDefine base_table L T id) (RefusesId base_table L T id) }
    ensures admitted { OnOk result (Admits table.now id) }
    ensures known { IsTable (types table.now) }
{
    match table.admits(id) {
        Ok(()) => Ok(()),
        Err(DefineFault::ReservedType) => Err(Reason::ReservedType(id)),
        Err(DefineFault::DefinedTwice) => Err(Reason::DefinedTwice(id)),
        Err(DefineFault::TooManyTypes) => Err(Reason::TooManyTypes),
        // the question takes no memory
        Err(DefineFault::Memory) => unreachable!(),
    }
}

/// Defines a type that the table admits, so that nothing but memory can be wanting.
pub fn define_admitted(
    alloc: Global,
    table: &mut Table,
    id: TypeId,
    shape: Shape,
) -> Result<(), Denial>
    requires definable { IsDefinable shape }
    requires admitted { Admits table.old id }
    ensures { AddAnswers id shape table.old table.new result }
{
    match table.define(alloc, id, shape) {
        Ok(()) => Ok(()),
        Err(DefineFault::Memory) => Err(Denial::Memory),
        // the table admits the type
        Err(_) => unreachable!(),
    }
}

/// Whether values of the type may come now.
pub fn judge_type(alloc: Global, table: &Table, id: TypeId) -> Result<(), Denial>
    ensures judged { let T = types table.now in
        MatchResult result (λ _. MayPut T id) (IsDenial (RefusesType T id)) }
    ensures small { OnOk result (id.0 < 2 ^ 63) }
{
    if id.0 == TypeId::GOB_ENCODER_TYPE.0 {
        return Err(Denial::Refused(Reason::UndefinedType(id)));
    }
    table.ready(alloc, id)?;
    Ok(())
}
