//! Ids that no definition has yet.

ghost use Rattle.std.specs.Prelude.{◌≡◌, IfOk, IfSome, IsTrue, false};
ghost use Rattle.gob_types.specs.Definable.{IsOwnId};
ghost use Rattle.gob_types.specs.Base.{id};
ghost use Rattle.gob_go_types.specs.Machine.{GivesId, is_given};

use crate::fault::TypesFault;
use gob_go_source::Declaration;
use gob_types::TypeId;
use indexmap::IndexSet;
use std::alloc::{AllocError, Global};

// The first id that Go's encoder gives a type of a program.
const FIRST: u64 = 65;

// The least id that a definition may give.
const LEAST: u64 = 64;

/// The ids that are given, and those that are kept for the types of which comments say them.
pub(crate) struct FreeIds {
    given: IndexSet<u64>,
    noted: IndexSet<u64>,
    next: u64,
}

impl Drop for FreeIds {
    fn drop(self) {
        let FreeIds {
            given: _,
            noted: _,
            next: _,
        } = self;
    }
}

impl FreeIds {
    /// All ids. Those that comments of these declarations say are kept for them.
    pub(crate) fn new(alloc: Global, declarations: &[Declaration<'_>]) -> Result<Self, AllocError> {
        Ok(FreeIds {
            given: IndexSet::new(alloc),
            noted: noted_in(alloc, declarations)?,
            next: FIRST,
        })
    }

    /// Gives an id: the one that a comment says, if there is one and it is free, else the next one that is.
    pub(crate) fn give<'a>(&mut self, noted: Option<u64>) -> Result<TypeId, TypesFault<'a>>
        ensures { IfOk result (λ t. GivesId self.old self.new t) }
    {
        let number = self.free_number(noted).ok_or(TypesFault::TooMany)?;
        self.given.insert(number).map_err(AllocError::from)?;
        Ok(TypeId(number))
    }

    // The number of a free id.
    fn free_number(&mut self, noted: Option<u64>) -> Option<u64>
        ensures free { IfSome result (λ n. IsOwnId (id n)) }
        ensures fresh { IfSome result (λ n. is_given self.old n ≡ false) }
        ensures given { self.new.given ≡ self.old.given }
    {
        if let Some(number) = noted {
            if self.is_free(number) {
                return Some(number);
            }
        }
        self.next_number()
    }

    // The number of the next free id that no comment says.
    fn next_number(&mut self) -> Option<u64>
        ensures free { IfSome result (λ n. IsOwnId (id n)) }
        ensures fresh { IfSome result (λ n. is_given self.old n ≡ false) }
        ensures given { self.new.given ≡ self.old.given }
    {
        'ids: while self.next <= TypeId::GREATEST.0 {
            let number = self.next;
            self.next += 1;
            if !self.noted.contains(&number) && self.is_free(number) {
                return Some(number);
            }
        }
        None
    }

    // Whether a definition may give the id, and none does.
    fn is_free(&self, number: u64) -> bool
        ensures own { IsTrue result → IsOwnId (id number) }
        ensures fresh { IsTrue result → is_given self.now number ≡ false }
    {
        LEAST <= number && number <= TypeId::GREATEST.0 && !self.given.contains(&number)
    }
}

// The ids that comments say.
fn noted_in(alloc: Global, declarations: &[Declaration<'_>]) -> Result<IndexSet<u64>, AllocError> {
    let mut noted = IndexSet::new(alloc);
    for declaration in declarations {
        if let Some(number) = declaration.note.id {
            noted.insert(number)?;
        }
    }
    Ok(noted)
}
