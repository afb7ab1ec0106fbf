//! The definitions of a declared type and of all that it leads to.

ghost use Rattle.std.specs.Prelude.{◌≡◌, ◌<◌, ◌+◌, IfOk, OnOk, Some, length, take};
ghost use Rattle.std.specs.Option.{option_copied};
ghost use Rattle.gob_go_types.specs.Code.{DistinctNames};
ghost use Rattle.gob_go_types.specs.Machine.{AllDone, Keeps, Sound};
ghost use Rattle.gob_go_types.specs.Types.{AreTypesOf, wanted_of};

use crate::code::Code;
use crate::fault::TypesFault;
use crate::kinds::{id_of, kind_at};
use crate::numbers::{Defined, Numbers};
use gob_go_source::GoSource;
use gob_types::TypeId;
use std::alloc::Global;

// No part of a type without a name is deeper.
const DEEPEST: u64 = 1000;

// A stream has no more definitions than ids for them.
const MOST: usize = 2147483584;

/// Definitions of a stream.
pub struct GoTypes {
    /// The definitions, each of another id, in the order in which their types are met.
    pub definitions: Vec<Defined>,
    /// The id of the type that was asked for.
    pub id: TypeId,
}

impl Drop for GoTypes {
    fn drop(self) {
        let GoTypes {
            definitions: _,
            id: _,
        } = self;
    }
}

/// The definitions of the declared type of this name, or of the first that is declared, and of all that it leads to:
/// as Go's encoder makes them, but for ids and for the names of types that have none in the source, which are empty.
pub fn types_of<'a>(
    alloc: Global,
    source: &GoSource<'a>,
    named: Option<&[u8]>,
) -> Result<GoTypes, TypesFault<'a>>
    ensures types { IfOk result (λ r. AreTypesOf source.now (option_copied named.entry) r.definitions.items r.id) }
    ensures distinct { OnOk result (DistinctNames source.now.declarations.items) }
{
    let code = Code::new(alloc, source)?;
    let wanted = wanted_of(&code, named)?;
    let sight = code.look_declared(wanted)?;
    let mut numbers = Numbers::new(alloc, &source.declarations)?;
    let id = id_of(&code, DEEPEST, sight, &mut numbers)?;
    finish(&code, &mut numbers)?;
    let definitions = numbers.into_definitions(alloc)?;
    Ok(GoTypes { definitions, id })
}

// Where the declaration of the type that is asked for stands.
fn wanted_of<'a>(code: &Code<'_, 'a>, named: Option<&[u8]>) -> Result<usize, TypesFault<'a>>
    ensures { IfOk result (λ i. wanted_of code.now.source.now.declarations.items (option_copied named.entry) ≡ Some i) }
{
    if let Some(name) = named {
        let place = code.declaration_of(name);
        return place.ok_or(TypesFault::NotThere);
    }
    match code.source.declarations.as_slice() {
        [] => Err(TypesFault::NoTypes),
        _ => Ok(0),
    }
}

// Gives each definition that is open its kind, those too that are met meanwhile.
fn finish<'a>(code: &Code<'_, 'a>, numbers: &mut Numbers<'a>) -> Result<(), TypesFault<'a>>
    requires { Sound code.now.source.now numbers.old }
    ensures sound { OnOk result (Sound code.now.source.now numbers.new) }
    ensures keeps { OnOk result (Keeps numbers.old numbers.new) }
    ensures done { OnOk result (AllDone numbers.new.slots.items) }
{
    'slots: for at in 0..MOST {
        if at >= numbers.slots.len() {
            return Ok(());
        }
        settle(code, at, numbers)?;
    }
    Err(TypesFault::TooMany)
}

// Gives the definition at a place its kind, if it is open.
fn settle<'a>(
    code: &Code<'_, 'a>,
    at: usize,
    numbers: &mut Numbers<'a>,
) -> Result<(), TypesFault<'a>>
    requires sound { Sound code.now.source.now numbers.old }
    requires within { at < length numbers.old.slots.items }
    requires done { AllDone (take at numbers.old.slots.items) }
    ensures sound { OnOk result (Sound code.now.source.now numbers.new) }
    ensures keeps { OnOk result (Keeps numbers.old numbers.new) }
    ensures done { OnOk result (AllDone (take (at + 1) numbers.new.slots.items)) }
{
    let parts = numbers.open_at(at);
    let Some(place) = parts else {
        return Ok(());
    };
    let kind = kind_at(code, DEEPEST, place, numbers)?;
    numbers.close(at, kind);
    Ok(())
}
