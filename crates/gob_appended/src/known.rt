//! The definitions that were met.

ghost use Rattle.std.specs.Prelude.{◌≡◌, [], IfOk, OnErr, OnOk, is_some};
ghost use Rattle.gob_appended.specs.Known.{is_known, known, with_definition};

use crate::encoders::Encoders;
use indexmap::IndexSet;
use std::alloc::{AllocError, Global};

/// The definitions that were met, and which encoder said each of them last.
pub(crate) struct Known {
    // Their bytes, each once.
    met: IndexSet<Vec<u8>>,
    // In their order, how many encoders were seen when each was said last.
    said: Vec<u64>,
    encoders: Encoders,
    alloc: Global,
}

impl Drop for Known {
    fn drop(self) {
        let Known {
            met: _,
            said: _,
            encoders: _,
            alloc: _,
        } = self;
    }
}

impl Known {
    /// None.
    pub(crate) fn new(alloc: Global) -> Known
        ensures { known result ≡ [] }
    {
        Known {
            met: IndexSet::new(alloc),
            said: Vec::new(alloc),
            encoders: Encoders::new(),
            alloc,
        }
    }

    /// The encoders behind the first one, as these definitions show them.
    pub(crate) fn encoders(&self) -> &Encoders
        ensures { result.now ≡ self.now.encoders }
    {
        &self.encoders
    }

    /// The place of the definition among those that were met, if it is one of them.
    pub(crate) fn place_of(&self, definition: &[u8]) -> Result<Option<usize>, AllocError>
        ensures { IfOk result (λ place. is_some place ≡ is_known (known self.now) definition.now) }
    {
        let bytes = definition.to_vec(self.alloc)?;
        Ok(self.met.get_index_of(&bytes))
    }

    /// Takes note of a definition. Without memory they are the same.
    pub(crate) fn add(&mut self, definition: &[u8]) -> Result<(), AllocError>
        ensures noted { OnOk result (known self.new ≡ with_definition (known self.old) definition.now) }
        ensures err { OnErr result (known self.new ≡ known self.old) }
    {
        let bytes = definition.to_vec(self.alloc)?;
        self.said.push(self.encoders.count())?;
        match self.met.insert(bytes) {
            Ok(_) => Ok(()),
            Err(failed) => {
                let _ = self.said.pop();
                Err(AllocError::from(failed))
            }
        }
    }

    /// Takes note that the definition at this place is said again, at this offset of the input: by another encoder than
    /// the last one, if that has said it.
    pub(crate) fn say_again(&mut self, place: usize, offset: u64)
        ensures { known self.new ≡ known self.old }
    {
        let Some(last) = self.said.get_mut(place) else {
            return;
        };
        if *last == self.encoders.count() {
            self.encoders.begin(offset);
        }
        *last = self.encoders.count();
    }
}
