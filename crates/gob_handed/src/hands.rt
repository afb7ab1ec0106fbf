//! Sessions whose items can be handed out.

use crate::handout::{Content, Handout, Span};
use gob_num::Memory;
use gob_stream::Steps;
use gob_types::{Table, TypeId};
use std::alloc::Global;

/// A value whose item stands whole at the front of a piece.
#[derive(Drop)]
pub struct WholeValue {
    /// The id of its type.
    pub(crate) id: TypeId,
    /// How many bytes of the piece are in the item.
    pub(crate) used: usize,
    /// The value, as it is handed out.
    pub(crate) content: Content,
}

/// A session whose items can be handed out: [`gob_stream::Session`] for the documented format, and
/// [`gob_go::GoSession`] for all that Go's encoder writes.
pub trait Hands: Steps {
    ghost use Rattle.std.specs.Prelude.{◌≡◌, ◌<◌, ◌≤◌, List, IfSome, OnErr, OnOk, length, take};
    ghost use Rattle.gob_types.specs.Defined.{types};
    ghost use Rattle.gob_types.specs.Table as seen;
    ghost use Rattle.gob_stream.specs.Reading.{Given};
    ghost use Rattle.gob_handed.specs.Reading.{IsHandedNext};
    ghost use Rattle.gob_handed.specs.declared.handout.Handout as declared;
    ghost use Rattle.gob_handed.specs.declared.handout.Span as placed;

    // What is handed out of an item, which stands there, by the types behind it.
    ghost handouts: { seen.Table → Self.Item → placed.Span → List declared.Handout → Type 0 };

    /// Appends what is handed out of an item, which stands there. The types are those behind it. Without memory nothing
    /// is appended.
    fn unfold(
        alloc: Global,
        table: &Table,
        item: Self::Item,
        span: Span,
        out: &mut Vec<Handout>,
    ) -> Result<(), Memory>
        ensures unfolded { OnOk result (Given out.old.items out.new.items (λ given.
            handouts (types table.now) item span given)) }
        ensures kept { OnErr result (out.new.items ≡ out.old.items) };

    /// The value of the item that stands whole at the front of the piece, where no byte of an item is under way, no
    /// type is defined in the value, and no interface in it holds another. None says nothing of the piece.
    fn whole(&self, alloc: Global, piece: &[u8]) -> Option<WholeValue>
        ensures between { IfSome result (λ whole. Self.stepping.between self.now) }
        ensures some { IfSome result (λ whole. 0 < whole.used) }
        ensures within { IfSome result (λ whole. whole.used ≤ length piece.now) }
        ensures handed { IfSome result (λ whole.
            IsHandedNext Self.stepping handouts self.now whole.id whole.content (take whole.used piece.now)) };
}
