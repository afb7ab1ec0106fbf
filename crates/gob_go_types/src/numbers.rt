//! Definitions that are being made.

ghost use Rattle.std.specs.Prelude.{◌≡◌, ◌∷◌, ◌++◌, ◌<◌, [], IfOk, OnOk, length, false, nat_eq};
ghost use Rattle.std.specs.Map.{lookup};
ghost use Rattle.gob_go_types.specs.Machine.{AllDone, Closes, Numbered, finished, finished_one, is_open, open_at};
ghost use Rattle.gob_go_types.specs.Machine.{open_place};
ghost use Rattle.gob_go_types.specs.Machine.{same_made};

use crate::fault::TypesFault;
use crate::free::FreeIds;
use crate::made::Made;
use gob_go_source::Declaration;
use gob_types::{Kind, Name, Shape, TypeId};
use indexmap::IndexMap;
use std::alloc::{AllocError, Global};

/// A definition of a stream: a shape for a type id.
pub struct Defined {
    /// The id.
    pub id: TypeId,
    /// The shape.
    pub shape: Shape,
}

impl Drop for Defined {
    fn drop(self) {
        let Defined { id: _, shape: _ } = self;
    }
}

/// What is known of the kind of a definition.
#[derive(Drop)]
pub(crate) enum Form {
    /// The place of the type that has its parts, which aren't looked at yet.
    Open(usize),
    /// The kind.
    Done(Kind),
}

/// A definition that is being made.
#[derive(Drop)]
pub(crate) struct Slot<'a> {
    /// Its id.
    pub id: TypeId,
    /// The name of its shape.
    pub name: &'a [u8],
    /// The kind of its shape.
    pub form: Form,
}

/// The definitions, in the order in which their types are met, and what is found among them by hashes.
pub(crate) struct Numbers<'a> {
    /// The definitions.
    pub slots: Vec<Slot<'a>>,
    /// The id of each declared type that is met, by the place of its declaration.
    pub ids: IndexMap<usize, TypeId>,
    /// The id of each type that is told apart by its shape.
    pub made: IndexMap<Made<'a>, TypeId>,
    free: FreeIds,
}

impl Drop for Numbers<'_> {
    fn drop(self) {
        let Numbers {
            slots: _,
            ids: _,
            made: _,
            free: _,
        } = self;
    }
}

impl<'a> Numbers<'a> {
    /// No definitions yet. The ids that comments say are kept for the types that they are of.
    pub(crate) fn new(alloc: Global, declarations: &[Declaration<'_>]) -> Result<Self, AllocError>
        ensures slots { IfOk result (λ ns. ns.slots.items ≡ []) }
        ensures ids { IfOk result (λ ns. ns.ids.entries ≡ []) }
        ensures made { IfOk result (λ ns. ns.made.entries ≡ []) }
    {
        Ok(Numbers {
            slots: Vec::new(alloc),
            ids: IndexMap::new(alloc),
            made: IndexMap::new(alloc),
            free: FreeIds::new(alloc, declarations)?,
        })
    }

    /// Adds a definition with a new id: the one that a comment says, if it is free, else the next one that is.
    pub(crate) fn add(
        &mut self,
        noted: Option<u64>,
        name: &'a [u8],
        form: Form,
    ) -> Result<TypeId, TypesFault<'a>>
        requires { Numbered self.old.slots.items self.old.free }
        ensures numbered { OnOk result (Numbered self.new.slots.items self.new.free) }
        ensures added { IfOk result (λ t. self.new.slots.items
            ≡ self.old.slots.items ++ record { id = t; name = name.entry; form = form } ∷ []) }
        ensures ids { self.new.ids ≡ self.old.ids }
        ensures made { self.new.made ≡ self.old.made }
    {
        let id = self.free.give(noted)?;
        self.slots
            .push(Slot { id, name, form })
            .map_err(AllocError::from)?;
        Ok(id)
    }

    /// The id of the type that is declared at a place, if it is met.
    pub(crate) fn id_of(&self, place: usize) -> Option<TypeId>
        ensures { result ≡ lookup (nat_eq place) self.now.ids.entries }
    {
        self.ids.get(&place).copied()
    }

    /// The id of a type that is told apart by its shape, if there is one.
    pub(crate) fn made_id(&self, key: Made<'a>) -> Option<TypeId>
        ensures { result ≡ lookup (same_made key.entry) self.now.made.entries }
    {
        self.made.get(&key).copied()
    }

    /// The place of the parts of a definition whose kind isn't known yet.
    pub(crate) fn open_at(&self, at: usize) -> Option<usize>
        ensures { result ≡ open_at self.now.slots.items at }
    {
        match self.slots.get(at) {
            Some(slot) => open_place(&slot.form),
            None => None,
        }
    }

    /// Gives a definition its kind.
    pub(crate) fn close(&mut self, at: usize, kind: Kind)
        requires { at < length self.old.slots.items }
        ensures slots { Closes self.old.slots.items self.new.slots.items at kind }
        ensures ids { self.new.ids ≡ self.old.ids }
        ensures made { self.new.made ≡ self.old.made }
        ensures free { self.new.free ≡ self.old.free }
    {
        self.slots[at].form = Form::Done(kind);
    }

    /// The definitions, all of which are done.
    pub(crate) fn into_definitions(self, alloc: Global) -> Result<Vec<Defined>, AllocError>
        requires { AllDone self.slots.items }
        ensures { IfOk result (λ ds. ds.items ≡ finished self.entry.slots.items) }
    {
        let Numbers {
            slots,
            ids: _,
            made: _,
            free: _,
        } = self;
        definitions_of(alloc, slots)
    }
}

// What these say, all of which are done.
fn definitions_of(alloc: Global, slots: Vec<Slot<'_>>) -> Result<Vec<Defined>, AllocError>
    requires { AllDone slots.items }
    ensures { IfOk result (λ ds. ds.items ≡ finished slots.entry.items) }
{
    let mut left = slots;
    let mut definitions = Vec::new(alloc);
    'slots: while let Some(slot) = left.pop() {
        let definition = definition_of(alloc, slot)?;
        definitions.push(definition)?;
    }
    definitions.reverse();
    Ok(definitions)
}

// What one says that is done.
fn definition_of(alloc: Global, slot: Slot<'_>) -> Result<Defined, AllocError>
    requires { is_open slot.form ≡ false }
    ensures { IfOk result (λ d. finished_one slot.entry ≡ d ∷ []) }
{
    let Slot { id, name, form } = slot;
    match form {
        Form::Open(_) => unreachable!(),
        Form::Done(kind) => {
            let name = Name::new(name.to_vec(alloc)?);
            Ok(Defined {
                id,
                shape: Shape { name, kind },
            })
        }
    }
}

fn open_place(form: &Form) -> Option<usize>
    ensures { result ≡ open_place form.now }
{
    match form {
        Form::Open(place) => Some(*place),
        Form::Done(_) => None,
    }
}
