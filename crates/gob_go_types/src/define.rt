//! Definitions of types that are met.

ghost use Rattle.std.specs.Prelude.{IfOk, OnOk};
ghost use Rattle.gob_go_types.specs.declared.sight.Sight.TheVariants as sight;
ghost use Rattle.gob_go_types.specs.Types.{Has, IsNumbered, defined};
ghost use Rattle.gob_go_types.specs.Machine.{Goes, IsLed, PutsId, PutsMade, Sound, finished};

use crate::code::Code;
use crate::fault::TypesFault;
use crate::made::{Made, made_kind};
use crate::numbers::{Form, Numbers};
use gob_types::{Kind, TypeId};
use indexmap::IndexMap;
use std::alloc::AllocError;

/// The id of the type that is declared at a place and has the parts of another: a new one, where it has none yet.
pub(crate) fn own_id<'a>(
    code: &Code<'_, 'a>,
    place: usize,
    parts: usize,
    numbers: &mut Numbers<'a>,
) -> Result<TypeId, TypesFault<'a>>
    requires sound { Sound code.now.source.now numbers.old }
    requires led { IsLed code.now.source.now (sight.Own place parts) }
    ensures sound { OnOk result (Sound code.now.source.now numbers.new) }
    ensures goes { OnOk result (Goes numbers.old numbers.new) }
    ensures numbered { IfOk result (λ t. IsNumbered numbers.new.ids.entries place t) }
{
    if let Some(id) = numbers.id_of(place) {
        return Ok(id);
    }
    let declaration = code.declaration(place)?;
    let id = numbers.add(declaration.note.id, declaration.name, Form::Open(parts))?;
    put_id(place, id, &mut numbers.ids)?;
    Ok(id)
}

/// The id of the type of a name and a kind: a new one, where none has both, or the kind has fields.
pub(crate) fn defined_id<'a>(
    code: &Code<'_, 'a>,
    name: &'a [u8],
    kind: Kind,
    numbers: &mut Numbers<'a>,
) -> Result<TypeId, TypesFault<'a>>
    requires { Sound code.now.source.now numbers.old }
    ensures sound { OnOk result (Sound code.now.source.now numbers.new) }
    ensures goes { OnOk result (Goes numbers.old numbers.new) }
    ensures there { IfOk result (λ t. Has (finished numbers.new.slots.items) (defined t name.entry.now kind)) }
{
    let Some(made) = made_kind(&kind) else {
        return numbers.add(None, name, Form::Done(kind));
    };
    let key = Made { name, kind: made };
    if let Some(id) = numbers.made_id(key) {
        return Ok(id);
    }
    let id = numbers.add(code.noted_id(name), name, Form::Done(kind))?;
    put_made(key, id, &mut numbers.made)?;
    Ok(id)
}

// Puts the id of the type that is declared at a place.
fn put_id(place: usize, id: TypeId, ids: &mut IndexMap<usize, TypeId>) -> Result<(), AllocError>
    ensures { OnOk result (PutsId place id ids.old.entries ids.new.entries) }
{
    ids.insert(place, id)?;
    Ok(())
}

// Puts the id of a type that is told apart by its shape.
fn put_made<'a>(
    key: Made<'a>,
    id: TypeId,
    made: &mut IndexMap<Made<'a>, TypeId>,
) -> Result<(), AllocError>
    ensures { OnOk result (PutsMade key.entry id made.old.entries made.new.entries) }
{
    made.insert(key, id)?;
    Ok(())
}
