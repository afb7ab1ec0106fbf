//! What is handed out at once.

ghost use Rattle.std.specs.Prelude.{◌≡◌, ◌++◌, ◌∷◌, [], OnErr, OnOk};
ghost use Rattle.gob_handed.specs.Machine.Putting.{Extends};
ghost use Rattle.gob_handed.specs.Unfolded.{definition_handouts, handout};

use crate::flat::FlatValue;
use gob_num::Memory;
use gob_tape::Tape;
use gob_types::TypeId;

/// Where an item stands in the stream, in bytes from its front.
#[derive(Clone, Copy)]
pub struct Span {
    /// Where it begins.
    pub begin: u64,
    /// Where the bytes behind it begin.
    pub end: u64,
}

/// What is handed out at once: of an item the definition that it is, those that stand in its value, or its value.
#[derive(Drop)]
pub struct Handout {
    /// The type that is defined, or that the value has.
    pub(crate) id: TypeId,
    /// Where its item stands.
    pub(crate) span: Span,
    /// What it gives.
    pub(crate) content: Content,
}

/// What a handout gives.
#[derive(Drop)]
pub enum Content {
    /// The definition of its type.
    Definition,
    /// A value that holds no others, of which this is the tape.
    Tape(Tape),
    /// A value with the others that it holds.
    Filled(FlatValue),
    /// Nothing more, since it was handed out.
    Handed,
}

/// Appends a handout.
pub(crate) fn push_handout(
    id: TypeId,
    span: Span,
    content: Content,
    out: &mut Vec<Handout>,
) -> Result<(), Memory>
    ensures pushed { OnOk result (out.new.items ≡ out.old.items ++ handout id span content ∷ []) }
    ensures kept { OnErr result (out.new.items ≡ out.old.items) }
    ensures extends { Extends out.old.items out.new.items }
{
    Ok(out.push(Handout { id, span, content })?)
}

/// Appends the definitions of these types, which an item gives.
pub(crate) fn push_definitions(
    ids: &[TypeId],
    span: Span,
    out: &mut Vec<Handout>,
) -> Result<(), Memory>
    ensures pushed { OnOk result (out.new.items ≡ out.old.items ++ definition_handouts span ids.now) }
    ensures extends { Extends out.old.items out.new.items }
{
    'ids: for place in 0..ids.len() {
        push_handout(ids[place], span, Content::Definition, out)?;
    }
    Ok(())
}
