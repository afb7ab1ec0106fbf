//! The items of the documented format, as they are handed out.

use crate::handout::{Content, Handout, Span, push_handout};
use crate::hands::{Hands, WholeValue};
use gob_num::Memory;
use gob_read::Builder;
use gob_stream::{Item, Session};
use gob_tape::Tape;
use gob_types::Table;
use std::alloc::Global;

impl<B: Builder<Out = Tape>> Hands for Session<B> {
    ghost use Rattle.gob_handed.specs.Unfolded.{handouts_by};

    ghost handouts = { handouts_by B.building.means };

    fn unfold(
        _alloc: Global,
        _table: &Table,
        item: Item<Tape>,
        span: Span,
        out: &mut Vec<Handout>,
    ) -> Result<(), Memory> {
        match item {
            Item::Define { id, .. } => push_handout(id, span, Content::Definition, out),
            Item::Put { id, value } => push_handout(id, span, Content::Tape(value), out),
        }
    }

    fn whole(&self, _alloc: Global, _piece: &[u8]) -> Option<WholeValue> {
        None
    }
}
