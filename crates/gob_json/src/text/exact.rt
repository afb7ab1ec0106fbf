//! The text of a value that stands in a body: that of what the walk tells of it.

ghost use Rattle.std.specs.Prelude.{◌≡◌, ◌≤◌, List, IfSome, OnOk, Some, false, slice_get};
ghost use Rattle.serde_json.specs.Written.{compact_text};
ghost use Rattle.gob_types.specs.declared.kind.Field.{Field as AField};
ghost use Rattle.gob_value.specs.Top.{SpellsTop};
ghost use Rattle.gob_value.specs.Tree.{Tree, depth as DepthOf};
ghost use Rattle.gob_value.specs.Whole.{IsWhole};
ghost use Rattle.gob_json.specs.Json.{value_json};
ghost use Rattle.gob_json.specs.Machine.Heads.{AreHeads};
ghost use Rattle.gob_json.specs.Machine.TextParts.{field_head};
ghost use Rattle.gob_walk.specs.Told.{Reaches};

use super::between::{put_comma, put_field_head};
use super::gathered::PartOut;
use super::heads::Heads;
use super::integers::put_integers;
use super::leaf::{put_complex, put_hex, put_null, put_opaque, put_truth};
use gob_types::{Field, Fields, Kind, Shape, Shapes, TypeId};
use gob_walk::{Visitor, WalkEnd, walk_whole};

/// Puts out the exact text of what it is told. It is taken apart in the end, and not dropped.
pub struct Exact<'a, O: PartOut> {
    /// Where the text goes.
    pub out: &'a mut O,
}

impl<O: PartOut> Visitor for Exact<'_, O> {
    ghost use Rattle.std.specs.Prelude.{◌≡◌, Err};
    ghost use Rattle.std.proofs.Common.{refl, ◌∙◌, subst, sym};
    ghost use Rattle.gob_json.specs.EventText.{events_text, text_of_both};
    ghost use Rattle.gob_json.specs.Machine.Heads.{AreHeadsOf};

    type Fault = O::Fault;

    type Heads = Heads;

    ghost tells = { λ old new events result. (new.out.ghost_name ≡ old.out.ghost_name)
        × O.puts old.out.now new.out.now (events_text events) result };

    ghost heads_of = { λ k h. AreHeadsOf k h };

    #[inline(always)]
    fn truth(&mut self, truth: bool) -> Result<(), O::Fault> {
        put_truth(truth, self.out)
    }

    #[inline(always)]
    fn int(&mut self, number: i64) -> Result<(), O::Fault> {
        self.out.put_integer(number)
    }

    #[inline(always)]
    fn uint(&mut self, number: u64) -> Result<(), O::Fault> {
        self.out.put_natural(number)
    }

    #[inline(always)]
    fn float(&mut self, pattern: u64) -> Result<(), O::Fault> {
        self.out.put_pattern(pattern)
    }

    #[inline(always)]
    fn complex(&mut self, real: u64, imaginary: u64) -> Result<(), O::Fault> {
        put_complex(real, imaginary, self.out)
    }

    #[inline(always)]
    fn bytes(&mut self, bytes: &[u8]) -> Result<(), O::Fault> {
        put_hex(bytes, self.out)
    }

    #[inline(always)]
    fn text(&mut self, bytes: &[u8]) -> Result<(), O::Fault> {
        self.out.put_text(bytes)
    }

    #[inline(always)]
    fn nil(&mut self) -> Result<(), O::Fault> {
        put_null(self.out)
    }

    #[inline(always)]
    fn raw(&mut self, _shape: &Shape, bytes: &[u8]) -> Result<(), O::Fault> {
        put_opaque(bytes, self.out)
    }

    #[inline(always)]
    fn list_begins(&mut self) -> Result<(), O::Fault> {
        self.out.put_mark(b'[')
    }

    #[inline(always)]
    fn element(&mut self, later: bool) -> Result<(), O::Fault> {
        put_comma(later, self.out)
    }

    #[inline(always)]
    fn list_ends(&mut self) -> Result<(), O::Fault> {
        self.out.put_mark(b']')
    }

    #[inline(always)]
    fn ints(
        &mut self,
        count: u64,
        body: &[u8],
        begin: usize,
        known: bool,
    ) -> Result<usize, WalkEnd<O::Fault>> {
        if known {
            return put_integers::<O, true>(count, body, begin, self.out);
        }
        put_integers::<O, false>(count, body, begin, self.out)
    }

    #[inline(always)]
    fn map_begins(&mut self, _key: TypeId) -> Result<(), O::Fault> {
        self.out.put_mark(b'[')
    }

    #[inline(always)]
    fn entry(&mut self, _key: TypeId, later: bool) -> Result<(), O::Fault> {
        put_comma(later, self.out)?;
        self.out.put_mark(b'[')
    }

    #[inline(always)]
    fn between(&mut self, _key: TypeId) -> Result<(), O::Fault> {
        self.out.put_mark(b',')
    }

    #[inline(always)]
    fn entry_ends(&mut self, _key: TypeId) -> Result<(), O::Fault> {
        self.out.put_mark(b']')
    }

    #[inline(always)]
    fn map_ends(&mut self, _key: TypeId) -> Result<(), O::Fault> {
        self.out.put_mark(b']')
    }

    #[inline(always)]
    fn heads(kind: &Kind, count: u64, known: bool) -> Option<Heads> {
        Heads::of_many(kind, count, known)
    }

    #[inline(always)]
    fn struct_begins(&mut self) -> Result<(), O::Fault> {
        self.out.put_mark(b'[')
    }

    #[inline(always)]
    fn field(
        &mut self,
        heads: Option<&Heads>,
        _types: &Fields,
        next: u64,
        number: u64,
        field: &Field,
    ) -> Result<(), O::Fault> {
        put_begin(heads, next > 0, number, field, self.out)
    }

    #[inline(always)]
    fn field_ends(&mut self) -> Result<(), O::Fault> {
        self.out.put_mark(b']')
    }

    #[inline(always)]
    fn struct_ends(&mut self, _types: &Fields, _next: u64) -> Result<(), O::Fault> {
        self.out.put_mark(b']')
    }

    ghost nothing = { λ a. (refl, O.nothing a.out.now) };

    ghost joined = { λ a b c x y r p q. (
      q.0 ∙ p.0,
      subst (λ t. O.puts a.out.now c.out.now t r) (sym (text_of_both x y))
          (O.joined a.out.now b.out.now c.out.now (events_text x) (events_text y) r p.1 q.1),
    ) };

    ghost cut = { λ a b x y e p. (
      p.0,
      subst (λ t. O.puts a.out.now b.out.now t (Err e)) (sym (text_of_both x y))
          (O.cut a.out.now b.out.now (events_text x) (events_text y) e p.1),
    ) };
}

// Puts out what stands before the value of the field of this number, and a comma before it or not.
#[inline(always)]
fn put_begin<O: PartOut>(
    heads: Option<&Heads>,
    later: bool,
    number: u64,
    field: &Field,
    out: &mut O,
) -> Result<(), O::Fault>
    ensures { (types : List AField) → IfSome heads.entry (λ h. AreHeads types h.now)
        → slice_get types number ≡ Some field.now
        → O.puts out.old out.new (field_head later number field.now.name) result }
{
    if let Some(kept) = heads {
        if let Some(head) = kept.get(number) {
            return out.put_kept_head(later, head);
        }
    }
    put_field_head(later, number, field.name.as_bytes(), out)
}

/// Puts out the exact text of the value of the type that the body spells, behind its tag where it isn't a struct. It
/// may be known that the body spells one; else it is looked at whether it does.
pub(crate) fn put_value<S: Shapes, O: PartOut, const KNOWN: bool>(
    shapes: &S,
    id: TypeId,
    body: &[u8],
    depth: u64,
    out: &mut O,
) -> Result<(), WalkEnd<O::Fault>>
    requires { depth ≤ 1000 }
    ensures sent { (v : Tree) → SpellsTop (S.table shapes.now) id v body.now → DepthOf v ≤ depth
        → Reaches O.puts out.old out.new (compact_text (value_json (S.table shapes.now) id v)) result }
    ensures whole { KNOWN ≡ false → OnOk result (IsWhole (S.table shapes.now) id depth body.now) }
{
    let mut exact = Exact { out };
    let made = tell_value::<S, O, KNOWN>(shapes, id, body, depth, &mut exact);
    let Exact { out: _put_to } = exact;
    made
}

// Puts out the exact text of what the walk tells.
fn tell_value<S: Shapes, O: PartOut, const KNOWN: bool>(
    shapes: &S,
    id: TypeId,
    body: &[u8],
    depth: u64,
    out: &mut Exact<'_, O>,
) -> Result<(), WalkEnd<O::Fault>>
    requires { depth ≤ 1000 }
    ensures sent { (v : Tree) → SpellsTop (S.table shapes.now) id v body.now → DepthOf v ≤ depth
        → (out.new.out.ghost_name ≡ out.old.out.ghost_name) × Reaches O.puts out.old.out.now out.new.out.now
        (compact_text (value_json (S.table shapes.now) id v)) result }
    ensures whole { KNOWN ≡ false → OnOk result (IsWhole (S.table shapes.now) id depth body.now) }
{
    walk_whole::<S, Exact<'_, O>, KNOWN>(shapes, id, body, depth, out)
}
