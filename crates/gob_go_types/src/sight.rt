//! What stands behind the names of types.

ghost use Rattle.std.specs.Prelude.{◌≡◌, IfOk, IsTrue};
ghost use Rattle.gob_go_types.specs.Machine.{IsLed};
ghost use Rattle.gob_go_types.specs.Sight.{Ends, EndsLibrary, EndsName, EndsSlice, Leads, LeadsFrom, Seen, SeenFrom};
ghost use Rattle.gob_go_types.specs.Sight.{Underlies};
ghost use Rattle.gob_go_types.specs.Sight.{is_byte_type, parts_sight};

use crate::code::Code;
use crate::fault::TypesFault;
use crate::library::{Known, basic_named, is_byte, known_of};
use gob_go_source::GoType;
use gob_types::{Marshal, TypeId};

// How many names and pointers stand between a type and what gob makes of it, so that no look is long.
const MOST_NAMES: usize = 100;

const WHOLE: TypeId = TypeId(2);

const BYTES: TypeId = TypeId(5);

const INTERFACE: TypeId = TypeId(8);

/// What gob makes of a type.
#[derive(Clone, Copy)]
pub(crate) enum Sight<'a> {
    /// One of its basic types.
    Basic(TypeId),
    /// Values that encode themselves so, of a type of this name.
    Opaque(&'a [u8], Marshal),
    /// The values of a declared type, by the places of its declaration and of the type that has its parts.
    Own(usize, usize),
    /// The values of the type at this place, which has no name.
    Parts(usize),
    /// Nothing: the values are channels or functions.
    Unsent,
}

/// Where a look at a type leads.
#[derive(Clone, Copy)]
pub(crate) enum Step<'a> {
    /// To another type, by its place.
    On(usize),
    /// To its end.
    At(Sight<'a>),
}

impl<'s, 'a> Code<'s, 'a> {
    /// What gob makes of the type at a place: names and pointers are seen through.
    pub(crate) fn look(&self, place: usize) -> Result<Sight<'a>, TypesFault<'a>>
        ensures seen { IfOk result (λ sight. Seen self.now.source.now sight place) }
        ensures led { IfOk result (λ sight. IsLed self.now.source.now sight) }
    {
        let mut at = place;
        'looks: for _ in 0..MOST_NAMES {
            let step = self.step(at)?;
            match step {
                Step::On(next) => at = next,
                Step::At(sight) => return Ok(sight),
            }
        }
        Err(TypesFault::Endless)
    }

    /// What gob makes of the type that is declared at a place.
    pub(crate) fn look_declared(&self, place: usize) -> Result<Sight<'a>, TypesFault<'a>>
        ensures seen { IfOk result (λ sight. SeenFrom self.now.source.now place sight) }
        ensures led { IfOk result (λ sight. IsLed self.now.source.now sight) }
    {
        let step = self.step_declared(place)?;
        match step {
            Step::On(next) => self.look(next),
            Step::At(sight) => Ok(sight),
        }
    }

    // Where a look at the type leads.
    fn step(&self, place: usize) -> Result<Step<'a>, TypesFault<'a>>
        ensures { IfOk result (λ step. Leads self.now.source.now place step) }
    {
        let declared = self.declared_at(place)?;
        match declared {
            Some(declaration) => self.step_declared(declaration),
            None => self.end(None, place),
        }
    }

    // Where a look at a declared type leads.
    fn step_declared(&self, place: usize) -> Result<Step<'a>, TypesFault<'a>>
        ensures { IfOk result (λ step. LeadsFrom self.now.source.now place step) }
    {
        let declaration = self.declaration(place)?;
        if let Some(marshal) = declaration.note.marshal {
            return Ok(Step::At(Sight::Opaque(declaration.name, marshal)));
        }
        let is_alias = declaration.is_alias;
        if is_alias {
            return Ok(Step::On(declaration.of));
        }
        let under = self.underlying(declaration.of)?;
        self.end(Some(place), under)
    }

    // The place of the type behind the declared names at a place.
    fn underlying(&self, place: usize) -> Result<usize, TypesFault<'a>>
        ensures { IfOk result (λ end. Underlies self.now.source.now place end) }
    {
        let mut at = place;
        'names: for _ in 0..MOST_NAMES {
            let declared = self.declared_at(at)?;
            match declared {
                Some(place) => {
                    let declaration = self.declaration(place)?;
                    at = declaration.of;
                }
                None => return Ok(at),
            }
        }
        Err(TypesFault::Endless)
    }

    // Where a look at a type that is no declared name leads: it is that of this declaration, or has no name.
    fn end(&self, owner: Option<usize>, place: usize) -> Result<Step<'a>, TypesFault<'a>>
        ensures { IfOk result (λ step. Ends self.now.source.now owner place step) }
    {
        let found = self.type_at(place)?;
        match found {
            GoType::Pointer(to) => Ok(Step::On(*to)),
            GoType::Name(name) => end_of_name(*name),
            GoType::Qualified(path, name) => end_of_library(owner, *path, *name),
            GoType::Slice(elem) => self.end_of_slice(owner, *elem, place),
            GoType::Array(_, _) => Ok(Step::At(parts_sight(owner, place))),
            GoType::Map(_, _) => Ok(Step::At(parts_sight(owner, place))),
            GoType::Struct(_) => Ok(Step::At(parts_sight(owner, place))),
            GoType::Interface => Ok(Step::At(Sight::Basic(INTERFACE))),
            GoType::Unsent => Ok(Step::At(Sight::Unsent)),
        }
    }

    // So of a slice of these elements.
    fn end_of_slice(
        &self,
        owner: Option<usize>,
        elem: usize,
        place: usize,
    ) -> Result<Step<'a>, TypesFault<'a>>
        ensures { IfOk result (λ step. EndsSlice self.now.source.now owner elem place step) }
    {
        let under = self.underlying(elem)?;
        let found = self.type_at(under)?;
        if is_byte_type(found) {
            return Ok(Step::At(Sight::Basic(BYTES)));
        }
        Ok(Step::At(parts_sight(owner, place)))
    }
}

// So of a name that isn't declared.
fn end_of_name<'a>(name: &'a [u8]) -> Result<Step<'a>, TypesFault<'a>>
    ensures { IfOk result (λ step. EndsName name.now step) }
{
    match basic_named(name) {
        Some(id) => Ok(Step::At(Sight::Basic(id))),
        None => Err(TypesFault::Undeclared(name)),
    }
}

// So of a type of a package. A declared type has none of the methods of the one that it is declared by.
fn end_of_library<'a>(
    owner: Option<usize>,
    path: &'a [u8],
    name: &'a [u8],
) -> Result<Step<'a>, TypesFault<'a>>
    ensures { IfOk result (λ step. EndsLibrary owner path.now name.entry step) }
{
    match known_of(path, name) {
        Some(Known::Whole) => Ok(Step::At(Sight::Basic(WHOLE))),
        Some(Known::Opaque(marshal)) if is_unowned(owner) => {
            Ok(Step::At(Sight::Opaque(name, marshal)))
        }
        Some(Known::Opaque(_)) => Err(TypesFault::Methodless(path, name)),
        None => Err(TypesFault::Unknown(path, name)),
    }
}

// Whether the type isn't that of a declaration.
fn is_unowned(owner: Option<usize>) -> bool
    ensures { IsTrue result → owner ≡ None }
{
    matches!(owner, None)
}

// A type with parts.
fn parts_sight<'a>(owner: Option<usize>, place: usize) -> Sight<'a>
    ensures { result ≡ parts_sight owner place }
{
    match owner {
        Some(declaration) => Sight::Own(declaration, place),
        None => Sight::Parts(place),
    }
}

// Whether this is the name of bytes.
fn is_byte_type(found: &GoType<'_>) -> bool
    ensures { result ≡ is_byte_type found.now }
{
    match found {
        GoType::Name(name) => is_byte(*name),
        _ => false,
    }
}
