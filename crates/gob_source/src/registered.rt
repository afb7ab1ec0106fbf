//! The names under which types fill interfaces.

ghost use Rattle.std.specs.Prelude.{◌≡◌, [], OnOk};
ghost use Rattle.gob_source.specs.Registered.{namings, with_naming};

use gob_types::TypeId;
use indexmap::IndexSet;
use std::alloc::{AllocError, Global};
use std::marker::Model;

/// A type that fills an interface, and the name under which its writer registered it.
#[derive(Drop, PartialEq, Eq, Hash)]
pub struct Registered {
    /// The id of the type.
    pub id: TypeId,
    /// The name. It need not be UTF-8.
    pub name: Vec<u8>,
}

/// The names of types that fill interfaces, each of them once, in the order in which they were added.
#[derive(Drop)]
pub struct RegisteredNames {
    names: IndexSet<Registered>,
}

impl Model for RegisteredNames {
    ghost use Rattle.std.specs.Prelude.{List};
    ghost use Rattle.gob_source.specs.Registered.{Naming, namings};

    ghost Value = { List Naming };

    ghost view = { λ s. namings s.names.keys };
}

impl RegisteredNames {
    /// No names.
    pub fn new(alloc: Global) -> RegisteredNames
        ensures { result ≡ [] }
    {
        RegisteredNames {
            names: IndexSet::new(alloc),
        }
    }

    /// Adds a name of a type, last, unless it is there.
    pub fn add(&mut self, alloc: Global, id: TypeId, name: &[u8]) -> Result<(), AllocError>
        ensures { OnOk result (self.new ≡ with_naming self.old (id, name.now)) }
    {
        let name = Vec::from_slice(alloc, name)?;
        self.names.insert_full(Registered { id, name })?;
        Ok(())
    }

    /// All of them, in order.
    pub fn as_slice(&self) -> &[Registered]
        ensures { namings result.now ≡ self.now }
    {
        self.names.as_slice()
    }
}
