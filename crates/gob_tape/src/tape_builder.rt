//! Building the tape of a value.

ghost use Rattle.std.specs.Prelude.{◌≡◌, ℕ, ◌+◌, ◌<◌, ◌^◌, List, [], ◌∷◌, ◌++◌, OnOk, Some, length, reverse, slice_get};
ghost use Rattle.gob_read.specs.Event.{Event, raw_start, raw_more, leave};
ghost use Rattle.gob_tape.specs.Machine.Received.{AreTaped, TapeGoesOn};
ghost use Rattle.gob_tape.specs.Machine.Tidying.{name_told, content_told, IsPooled};
ghost use Rattle.gob_tape.specs.Machine.State.{pushed_node, opened_node, added_node, with_begun, counted, ended_in};
ghost use Rattle.gob_tape.specs.declared.node.Node.{Node};
ghost use Rattle.gob_tape.specs.Machine.View.{flat_of, state_of};
ghost use Rattle.gob_tape.specs.Meaning.{MeansSome};

use crate::node::{Begun, Content, Node};
use crate::raw::raw_bytes;
use crate::tape::Tape;
use gob_num::Memory;
use gob_read::{Builder, GroupKind, RawKind, Stores};
use gob_types::Basic;
use std::alloc::Global;

/// A [`Builder`] that makes a [`Tape`]. It keeps the open parts on a stack of its own, and the node of a part says
/// how much is in it once the part has ended.
#[derive(Drop)]
pub struct TapeBuilder {
    alloc: Global,
    nodes: Vec<Node>,
    pool: Vec<u8>,
    /// The parts that have begun and not ended, innermost last.
    begun: Vec<Begun>,
    /// The number of the next part, in a struct.
    field: Option<u32>,
    /// The depth of the deepest part so far.
    deepest: u64,
    held: u64,
}

impl TapeBuilder {
    /// A part begins.
    fn push(&mut self, content: Content) -> Result<(), Memory>
        ensures state { OnOk result (state_of self.new ≡ pushed_node (state_of self.old) content) }
        ensures held { self.new.held ≡ self.old.held }
    {
        self.deepest = self.deepest.max(self.begun.len() as u64 + 1);
        let field = self.field.take();
        self.nodes.push(Node::new(field, content))?;
        Ok(())
    }

    /// A part begins, and stays open.
    fn open(&mut self, content: Content) -> Result<(), Memory>
        ensures state { OnOk result (state_of self.new ≡ opened_node (state_of self.old) content) }
        ensures held { self.new.held ≡ self.old.held }
    {
        let node = self.nodes.len();
        self.push(content)?;
        self.begun.push(Begun { node, parts: 0 })?;
        Ok(())
    }

    /// A part without parts comes.
    fn add(&mut self, content: Content) -> Result<(), Memory>
        ensures state { OnOk result (state_of self.new ≡ added_node (state_of self.old) content) }
        ensures held { self.new.held ≡ self.old.held }
        ensures small { length self.new.nodes.items < 2 ^ 63 }
    {
        self.push(content)?;
        self.count();
        Ok(())
    }

    /// One more part has ended in the innermost open one.
    fn count(&mut self)
        ensures state { state_of self.new ≡ with_begun (state_of self.old) (counted (reverse self.old.begun.items)) }
        ensures held { self.new.held ≡ self.old.held }
        ensures small { length self.new.nodes.items < 2 ^ 63 }
    {
        let _ = self.nodes.len();
        if let Some(begun) = self.begun.last_mut() {
            begun.parts = begun.parts.saturating_add(1);
        }
    }

    /// The node of a part says where it ends.
    fn end(&mut self, begun: Begun)
        ensures state { (x : Node) → slice_get self.old.nodes.items begun.node ≡ Some x
            → state_of self.new ≡ ended_in (state_of self.old) begun x }
        ensures held { self.new.held ≡ self.old.held }
    {
        let nodes = self.nodes.len();
        let pool = self.pool.len();
        if let Some(node) = self.nodes.get_mut(begun.node) {
            *node = Node::new(node.kept_field(), node.content().ended(begun, nodes, pool));
        }
    }

    /// The innermost open part ends.
    pub(crate) fn close(&mut self)
        ensures told { (us : List Event) (held : ℕ) → AreTaped (state_of self.old) held us
            → AreTaped (state_of self.new) held (us ++ leave ∷ []) }
        ensures held { self.new.held ≡ self.old.held }
    {
        if let Some(begun) = self.begun.pop() {
            self.end(begun);
            self.count();
        }
    }

    /// The number of the next part, where it is a field of a struct.
    pub(crate) fn name(&mut self, field: Option<u32>)
        ensures { TapeGoesOn (state_of self.old) (state_of self.new) (name_told field) }
    {
        if let Some(next) = field {
            self.field = Some(next);
        }
    }

    /// A part of these raw bytes comes.
    fn copy_raw(&mut self, kind: RawKind, copied: &[u8]) -> Result<(), Memory>
        ensures { OnOk result (TapeGoesOn (state_of self.old) (state_of self.new)
            (raw_start kind ∷ (raw_more copied.now ∷ (leave ∷ [])))) }
    {
        let first = self.pool.len();
        self.open(Content::Raw(kind, first, 0))?;
        self.pool.extend_from_slice(copied)?;
        self.close();
        Ok(())
    }

    /// A part comes that has this content in a tape with this pool. It stays open where it has parts.
    pub(crate) fn begin(&mut self, content: Content, pool: &[u8]) -> Result<(), Memory>
        ensures { OnOk result (IsPooled pool.now content
            → TapeGoesOn (state_of self.old) (state_of self.new) (content_told pool.now content)) }
    {
        match content {
            Content::Number(kind, first, second) => self.add(Content::Number(kind, first, second)),
            Content::Raw(kind, start, count) => self.copy_raw(kind, raw_bytes(pool, start, count)),
            Content::Group(kind, _, _) => self.open(Content::Group(kind, 0, 0)),
        }
    }

    /// The tape of a whole value that was told.
    pub(crate) fn into_tape(self) -> Tape
        requires { MeansSome (flat_of self) }
        ensures { result ≡ flat_of self }
    {
        Tape {
            nodes: self.nodes,
            pool: self.pool,
            depth: self.deepest,
        }
    }
}

#[tactic(auto, using(gob_read::proofs::PublicLaws::counting))]
impl Builder for TapeBuilder {
    type Out = Tape;

    ghost use Rattle.gob_tape.specs.Calls.Builder.{tape_building};
    ghost use Rattle.gob_read.specs.declared.builder.Stores.TheVariants.{PartsAndRaw};

    ghost DEPTH = { 65536 };

    const DEPTH: u64 = 65536;

    ghost STORES = { PartsAndRaw };

    const STORES: Stores = Stores::PartsAndRaw;

    ghost building = { tape_building };

    fn fresh(alloc: Global) -> Result<Self, Memory> {
        Ok(TapeBuilder {
            alloc,
            nodes: Vec::new(alloc),
            pool: Vec::new(alloc),
            begun: Vec::new(alloc),
            field: None,
            deepest: 0,
            held: 0,
        })
    }

    fn number(&mut self, kind: Basic, first: u64, second: u64) -> Result<(), Memory> {
        self.held += 1;
        self.add(Content::Number(kind, first, second))?;
        Ok(())
    }

    fn raw_start(&mut self, kind: RawKind) -> Result<(), Memory> {
        self.held += 1;
        let start = self.pool.len();
        self.open(Content::Raw(kind, start, 0))?;
        Ok(())
    }

    fn raw_more(&mut self, bytes: &[u8]) -> Result<(), Memory> {
        self.held += bytes.len() as u64;
        self.pool.extend_from_slice(bytes)?;
        Ok(())
    }

    fn enter(&mut self, kind: GroupKind) -> Result<(), Memory> {
        self.held += 1;
        self.open(Content::Group(kind, 0, 0))?;
        Ok(())
    }

    // (no memory holds the definition of a struct that has a field with a greater number)
    fn field(&mut self, number: u64) -> Result<(), Memory> {
        if number > u32::MAX as u64 {
            return Err(Memory);
        }
        self.field = Some(number as u32);
        Ok(())
    }

    fn leave(&mut self) -> Result<(), Memory> {
        self.close();
        Ok(())
    }

    fn may_skip(&self) -> bool {
        false
    }

    fn held(&self) -> u64 {
        self.held
    }

    fn take(self) -> Tape {
        self.into_tape()
    }
}
