//! What is told of the parts of a value.

use crate::walk_end::WalkEnd;
use gob_types::{Field, Fields, Kind, Shape, TypeId};

/// Is told of the parts of a value one behind another.
pub trait Visitor {
    ghost use Rattle.std.specs.Prelude.{◌≡◌, ◌≤◌, ℕ, List, [], ◌∷◌, ◌++◌, Result, Ok, Err, Some, IfOk, IfSome, drop};
    ghost use Rattle.std.specs.Prelude.{false, length, slice_get};
    ghost use Rattle.gob_types.specs.declared.id.TypeId.{TypeId};
    ghost use Rattle.gob_types.specs.declared.basic.Basic.TheVariants as basic;
    ghost use Rattle.gob_types.specs.declared.kind.Kind.{Kind};
    ghost use Rattle.gob_types.specs.declared.kind.Kind.TheVariants as kind;
    ghost use Rattle.gob_types.specs.Table.{Table};
    ghost use Rattle.gob_value.specs.Tree as value;
    ghost use Rattle.gob_value.specs.Tree.{Trees, tree_count};
    ghost use Rattle.gob_value.specs.Machine.Begins.{BeginsEach};
    ghost use Rattle.gob_walk.specs.Event.{Event, between, element, elements_told, entry, entry_ends, field_ends};
    ghost use Rattle.gob_walk.specs.Event.{leaf, list_begins, list_ends, map_begins, map_ends, present, raw};
    ghost use Rattle.gob_walk.specs.Event.{struct_begins, struct_ends};
    ghost use Rattle.gob_walk.specs.Standing.{BeginsElements, EndsAt, IsOfKind};
    ghost use Rattle.gob_walk.specs.Told.{Reaches, Sends};

    /// Why it isn't told more.
    type Fault: Drop;

    /// What is made once of a struct's fields, and serves for each of many values.
    type Heads: Drop;

    /// With this answer it was told of these events; after an error of no more than a part of them.
    ghost tells: { Self → Self → List Event → Result (Unit {0}) Self.Fault → Type 0 };

    /// It is made of the fields of this kind, where that is a struct.
    ghost heads_of: { Kind → Self.Heads → Type 0 };

    /// Of a truth value.
    fn truth(&mut self, truth: bool) -> Result<(), Self::Fault>
        ensures { tells self.old self.new (leaf (value.bool truth) ∷ []) result };

    /// Of an int.
    fn int(&mut self, number: i64) -> Result<(), Self::Fault>
        ensures { tells self.old self.new (leaf (value.int number) ∷ []) result };

    /// Of a uint.
    fn uint(&mut self, number: u64) -> Result<(), Self::Fault>
        ensures { tells self.old self.new (leaf (value.uint number) ∷ []) result };

    /// Of a float, by its 64 bits.
    fn float(&mut self, pattern: u64) -> Result<(), Self::Fault>
        ensures { tells self.old self.new (leaf (value.float pattern) ∷ []) result };

    /// Of a complex number, by the 64 bits of its parts.
    fn complex(&mut self, real: u64, imaginary: u64) -> Result<(), Self::Fault>
        ensures { tells self.old self.new (leaf (value.complex real imaginary) ∷ []) result };

    /// Of bytes.
    fn bytes(&mut self, bytes: &[u8]) -> Result<(), Self::Fault>
        ensures { tells self.old self.new (leaf (value.bytes bytes.now) ∷ []) result };

    /// Of a text.
    fn text(&mut self, bytes: &[u8]) -> Result<(), Self::Fault>
        ensures { tells self.old self.new (leaf (value.text bytes.now) ∷ []) result };

    /// Of nil.
    fn nil(&mut self) -> Result<(), Self::Fault>
        ensures { tells self.old self.new (leaf value.nil ∷ []) result };

    /// Of an opaque value of a type of this shape.
    fn raw(&mut self, shape: &Shape, bytes: &[u8]) -> Result<(), Self::Fault>
        ensures { tells self.old self.new (raw (Some shape.now) bytes.now ∷ []) result };

    /// That a list begins.
    fn list_begins(&mut self) -> Result<(), Self::Fault>
        ensures { tells self.old self.new (list_begins ∷ []) result };

    /// That an element begins, before which others stand or not.
    fn element(&mut self, later: bool) -> Result<(), Self::Fault>
        ensures { tells self.old self.new (element later ∷ []) result };

    /// That the list ends.
    fn list_ends(&mut self) -> Result<(), Self::Fault>
        ensures { tells self.old self.new (list_ends ∷ []) result };

    /// Of so many ints that stand in the body from the place on, and that their list ends. It answers where it does. It
    /// may be known that they stand there; else it is looked at whether they do.
    fn ints(
        &mut self,
        count: u64,
        body: &[u8],
        begin: usize,
        known: bool,
    ) -> Result<usize, WalkEnd<Self::Fault>>
        requires { begin ≤ length body.now }
        ensures sent { (T : Table) (e : TypeId) (limit : ℕ) (vs : Trees) (rest : List ℕ)
            → IsOfKind T e (kind.Basic basic.Int) → BeginsElements T e limit vs (drop begin body.now) rest
            → tree_count vs ≡ count
            → Sends (Reaches tells) self.old self.new (elements_told false T e vs) body.now rest result }
        ensures stands { IfOk result (λ end. (T : Table) (e : TypeId) → IsOfKind T e (kind.Basic basic.Int)
            → EndsAt known (BeginsEach T false e 1 count) body.now begin end) };

    /// That a map begins whose keys are of this type.
    fn map_begins(&mut self, key: TypeId) -> Result<(), Self::Fault>
        ensures { tells self.old self.new (map_begins key ∷ []) result };

    /// That an entry begins, before which others stand or not.
    fn entry(&mut self, key: TypeId, later: bool) -> Result<(), Self::Fault>
        ensures { tells self.old self.new (entry key later ∷ []) result };

    /// That an element follows its key.
    fn between(&mut self, key: TypeId) -> Result<(), Self::Fault>
        ensures { tells self.old self.new (between key ∷ []) result };

    /// That the entry ends.
    fn entry_ends(&mut self, key: TypeId) -> Result<(), Self::Fault>
        ensures { tells self.old self.new (entry_ends key ∷ []) result };

    /// That the map ends.
    fn map_ends(&mut self, key: TypeId) -> Result<(), Self::Fault>
        ensures { tells self.old self.new (map_ends key ∷ []) result };

    /// What is made once for so many values of this kind, where it is worth while. They may be known to stand there.
    fn heads(kind: &Kind, count: u64, known: bool) -> Option<Self::Heads>
        ensures { IfSome result (λ heads. heads_of kind.now heads) };

    /// That a struct begins.
    fn struct_begins(&mut self) -> Result<(), Self::Fault>
        ensures { tells self.old self.new (struct_begins ∷ []) result };

    /// That of these fields the one of this number begins, and that those from `next` up to it aren't there. What was
    /// made once of the fields may be at hand.
    fn field(
        &mut self,
        heads: Option<&Self::Heads>,
        types: &Fields,
        next: u64,
        number: u64,
        field: &Field,
    ) -> Result<(), Self::Fault>
        requires heads { IfSome heads (λ h. heads_of (kind.Struct types.now) h.now) }
        requires field { slice_get types.now number ≡ Some field.now }
        ensures { tells self.old self.new (present types.now next number ∷ []) result };

    /// That the field ends.
    fn field_ends(&mut self) -> Result<(), Self::Fault>
        ensures { tells self.old self.new (field_ends ∷ []) result };

    /// That the struct of these fields ends, and that those from `next` on aren't there.
    fn struct_ends(&mut self, types: &Fields, next: u64) -> Result<(), Self::Fault>
        ensures { tells self.old self.new (struct_ends types.now next ∷ []) result };

    /// What was told nothing stayed as it was.
    ghost nothing: { (a : Self) → tells a a [] (Ok tt) };

    /// Events behind others are one list of them.
    ghost joined: { (a b c : Self) (x y : List Event) (r : Result (Unit {0}) Self.Fault)
        → tells a b x (Ok tt) → tells b c y r → tells a c (x ++ y) r };

    /// A part of some events is one of any that go on behind them.
    ghost cut: { (a b : Self) (x y : List Event) (e : Self.Fault) → tells a b x (Err e) → tells a b (x ++ y) (Err e) };
}
