//! A value that an interface holds.

use gob_tape::Tape;
use gob_types::TypeId;

/// A value that an interface holds, with what stands in its own nils. It shows as
/// `{"interface":{"name":n,"type":t,"value":v}}`.
#[derive(Drop)]
pub struct Held<N: Drop> {
    /// The name of its type. It need not be UTF-8.
    pub name: Vec<u8>,
    /// The id of its type.
    pub id: TypeId,
    /// The value, with nil in the place of each value that an interface in it holds.
    pub tape: Tape,
    /// What stands in its nils.
    pub nils: N,
}
