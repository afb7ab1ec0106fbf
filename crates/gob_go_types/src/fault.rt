//! Why types have no definitions.

ghost use Rattle.std.specs.Prelude.{◌≡◌};

use std::alloc::AllocError;

/// Why declared types aren't made into definitions.
#[derive(Clone, Copy)]
pub enum TypesFault<'a> {
    /// The source declares no type.
    NoTypes,
    /// The source declares no type of the name that is asked for.
    NotThere,
    /// The source declares two types of this name.
    Twice(&'a [u8]),
    /// The source declares no type of this name, and Go knows none.
    Undeclared(&'a [u8]),
    /// Nothing is known here of the type behind the point, of the package before it.
    Unknown(&'a [u8], &'a [u8]),
    /// A declared type has this one of a package as its own, without the methods by which that encodes itself.
    Methodless(&'a [u8], &'a [u8]),
    /// A type stands for itself alone, or for another behind more than 100 names or pointers.
    Endless,
    /// The parts of a type stand too deep in one another.
    Deep,
    /// The values of a type are channels or functions, or hold some, which gob can't send.
    Unsent,
    /// The struct that is asked for has no field that gob sends.
    NoFields,
    /// An array has so many elements, more than a definition can say.
    Long(u64),
    /// A stream has no more type ids.
    TooMany,
    /// No type stands at a place that another names.
    Broken,
    /// Memory is wanting.
    Memory,
}

impl<'a> From<AllocError> for TypesFault<'a> {
    ghost use Rattle.gob_go_types.specs.declared.fault.TypesFault.TheVariants as fault;

    ghost from_gives = { λ e r. r ≡ fault.Memory };

    fn from(_: AllocError) -> TypesFault<'a> {
        TypesFault::Memory
    }
}
