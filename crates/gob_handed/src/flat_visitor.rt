//! The nodes and the bytes of a value that stands whole and holds no others, as the walk over it tells them.

ghost use Rattle.std.specs.Prelude.{◌≡◌, ◌≤◌, IfSome};
ghost use Rattle.gob_types.specs.Defined.{types};
ghost use Rattle.gob_stream.specs.Bounds.{greatest_depth};
ghost use Rattle.gob_tape.specs.Seeing.{unsigned_of};
ghost use Rattle.gob_handed.specs.ValueNodes.{IsWholeFlat};

use crate::flat::FlatValue;
use crate::kinds::{BOOL, BYTES, COMPLEX, FLOAT, INT, LIST, MAP, NIL, OPAQUE, STRUCT, TEXT, UINT};
use gob_num::Memory;
use gob_tape::FlatNode;
use gob_types::{Field, Fields, Kind, Shape, Table, TypeId};
use gob_walk::{Visitor, WalkEnd, closed, number_at, walk_whole};
use std::alloc::Global;

/// The nodes and the bytes of the value of the type that the body spells, no deeper than `depth`, in which no interface
/// holds another. None says nothing of the body.
pub(crate) fn flat_value(
    alloc: Global,
    table: &Table,
    id: TypeId,
    body: &[u8],
    depth: u64,
) -> Option<FlatValue>
    requires { depth ≤ greatest_depth }
    ensures { IfSome result (λ value.
        IsWholeFlat (types table.now) id depth body.now value.nodes.items value.pool.items) }
{
    let mut visitor = FlatVisitor::new(alloc);
    match walk_whole::<Table, FlatVisitor, false>(table, id, body, depth, &mut visitor) {
        Ok(()) => Some(visitor.into_value()),
        Err(_) => None,
    }
}

/// Gathers the nodes and the bytes of a value of which it is told.
#[derive(Drop)]
struct FlatVisitor {
    // Those of the parts so far. A group whose end is to come has a node that says how many parts have begun in it, and
    // at which place the node stands of the group around it.
    value: FlatValue,
    // At which place the node stands of the innermost group.
    group: usize,
    // The number of the next part, in a struct.
    field: Option<u32>,
}

impl FlatVisitor {
    ghost use Rattle.std.specs.Prelude.{◌≡◌, ◌≤◌, ℕ, List, IfOk, OnOk, drop, false, length};
    ghost use Rattle.gob_types.specs.declared.basic.Basic.TheVariants as basic;
    ghost use Rattle.gob_types.specs.declared.id.TypeId.{TypeId};
    ghost use Rattle.gob_types.specs.declared.kind.Kind.TheVariants as kind;
    ghost use Rattle.gob_types.specs.Table.{Table as Types};
    ghost use Rattle.gob_value.specs.Machine.Begins.{BeginsEach, BeginsKind};
    ghost use Rattle.gob_value.specs.Tree.{Tree, Trees, tree_count};
    ghost use Rattle.gob_walk.specs.Event.{elements_told, value_told};
    ghost use Rattle.gob_walk.specs.Standing.{BeginsElements, EndsAt, HoldsKind, IsOfKind};
    ghost use Rattle.gob_walk.specs.Told.{Reaches, Sends};
    ghost use Rattle.gob_handed.specs.Machine.Gathered.{counted, ended, gathered_of, nothing_gathered, tells_flat};
    ghost use Rattle.gob_handed.specs.Machine.Gathered.{with_group, with_part, with_raw};

    // One that was told nothing.
    fn new(alloc: Global) -> FlatVisitor
        ensures { gathered_of result ≡ nothing_gathered }
    {
        FlatVisitor {
            value: FlatValue::new(alloc),
            group: 0,
            field: None,
        }
    }

    // What it has gathered.
    fn into_value(self) -> FlatValue
        ensures { result ≡ self.value }
    {
        self.value
    }

    // Appends the node of the next part.
    #[inline(always)]
    fn push(&mut self, kind: u16, first: u64, second: u64) -> Result<(), Memory>
        ensures { OnOk result (gathered_of self.new ≡ with_part (gathered_of self.old) kind first second) }
    {
        let field = self.field.take();
        self.value.nodes.push(FlatNode {
            first,
            second,
            number: field.unwrap_or(0),
            kind,
            named: field.is_some() as u16,
        })?;
        Ok(())
    }

    // Appends the node of the next part, and its bytes.
    #[inline(always)]
    fn push_raw(&mut self, kind: u16, bytes: &[u8]) -> Result<(), Memory>
        ensures { OnOk result (gathered_of self.new ≡ with_raw (gathered_of self.old) kind bytes.now) }
    {
        let first = self.value.pool.len() as u64;
        self.push(kind, first, bytes.len() as u64)?;
        Ok(self.value.pool.extend_from_slice(bytes)?)
    }

    // The next part is a group, which begins.
    #[inline(always)]
    fn begin_group(&mut self, kind: u16) -> Result<(), Memory>
        ensures { OnOk result (gathered_of self.new ≡ with_group (gathered_of self.old) kind) }
    {
        let place = self.value.nodes.len();
        self.push(kind, 0, self.group as u64)?;
        self.group = place;
        Ok(())
    }

    // One more part begins in the innermost group: an element, an entry or a field.
    #[inline(always)]
    fn count_part(&mut self) -> Result<(), Memory>
        ensures { OnOk result (gathered_of self.new ≡ counted (gathered_of self.old)) }
    {
        let group = self.group;
        if group >= self.value.nodes.len() {
            return Err(Memory);
        }
        let node = self.value.nodes[group];
        let Some(first) = node.first.checked_add(1) else {
            return Err(Memory);
        };
        self.value.nodes[group] = FlatNode {
            first,
            second: node.second,
            number: node.number,
            kind: node.kind,
            named: node.named,
        };
        Ok(())
    }

    // The innermost group ends.
    #[inline(always)]
    fn end_group(&mut self) -> Result<(), Memory>
        ensures { OnOk result (gathered_of self.new ≡ ended (gathered_of self.old)) }
    {
        let group = self.group;
        let count = self.value.nodes.len();
        if group >= count {
            return Err(Memory);
        }
        let node = self.value.nodes[group];
        self.value.nodes[group] = FlatNode {
            first: node.first,
            second: (count - group) as u64,
            number: node.number,
            kind: node.kind,
            named: node.named,
        };
        self.group = node.second as usize;
        Ok(())
    }

    // So many ints stand in the body from the place on, and are the elements of the innermost group, which ends with
    // them. It answers where they end.
    fn push_ints(&mut self, count: u64, body: &[u8], begin: usize) -> Result<usize, WalkEnd<Memory>>
        requires { begin ≤ length body.now }
        ensures sent { (T : Types) (e : TypeId) (limit : ℕ) (vs : Trees) (rest : List ℕ)
            → IsOfKind T e (kind.Basic basic.Int) → BeginsElements T e limit vs (drop begin body.now) rest
            → tree_count vs ≡ count
            → Sends (Reaches tells_flat) self.old self.new (elements_told false T e vs) body.now rest result }
        ensures stands { IfOk result (λ end. (T : Types) (e : TypeId) → IsOfKind T e (kind.Basic basic.Int)
            → EndsAt false (BeginsEach T false e 1 count) body.now begin end) }
    {
        let mut at = begin;
        'ints: for _index in 0..count {
            self.count_part()?;
            at = self.push_int(body, at)?;
        }
        closed(self.end_group(), at)
    }

    // An int stands in the body at the place, and is the next part. It answers where it ends.
    #[inline(always)]
    fn push_int(&mut self, body: &[u8], at: usize) -> Result<usize, WalkEnd<Memory>>
        requires { at ≤ length body.now }
        ensures sent { (T : Types) (t : TypeId) (v : Tree) (rest : List ℕ)
            → HoldsKind T (kind.Basic basic.Int) v (drop at body.now) rest
            → Sends (Reaches tells_flat) self.old self.new (value_told T t v) body.now rest result }
        ensures stands { IfOk result (λ end.
            (T : Types) → EndsAt false (BeginsKind T false (kind.Basic basic.Int) 1) body.now at end) }
    {
        let Some((number, end)) = number_at::<false>(body, at) else {
            return Err(WalkEnd::NotWhole);
        };
        closed(self.push(INT, number, 0), end)
    }
}

impl Visitor for FlatVisitor {
    ghost use Rattle.std.proofs.Common.{refl};
    ghost use Rattle.gob_handed.specs.Machine.Gathered.{gathered_of, gathers_both, tells_flat};

    type Fault = Memory;

    type Heads = ();

    ghost tells = { tells_flat };

    ghost heads_of = { λ k h. Unit {0} };

    #[inline(always)]
    fn truth(&mut self, truth: bool) -> Result<(), Memory> {
        self.push(BOOL, truth as u64, 0)
    }

    #[inline(always)]
    fn int(&mut self, number: i64) -> Result<(), Memory> {
        self.push(INT, unsigned_of(number), 0)
    }

    #[inline(always)]
    fn uint(&mut self, number: u64) -> Result<(), Memory> {
        self.push(UINT, number, 0)
    }

    #[inline(always)]
    fn float(&mut self, pattern: u64) -> Result<(), Memory> {
        self.push(FLOAT, pattern, 0)
    }

    #[inline(always)]
    fn complex(&mut self, real: u64, imaginary: u64) -> Result<(), Memory> {
        self.push(COMPLEX, real, imaginary)
    }

    #[inline(always)]
    fn bytes(&mut self, bytes: &[u8]) -> Result<(), Memory> {
        self.push_raw(BYTES, bytes)
    }

    #[inline(always)]
    fn text(&mut self, bytes: &[u8]) -> Result<(), Memory> {
        self.push_raw(TEXT, bytes)
    }

    #[inline(always)]
    fn nil(&mut self) -> Result<(), Memory> {
        self.push(NIL, 0, 0)
    }

    #[inline(always)]
    fn raw(&mut self, _shape: &Shape, bytes: &[u8]) -> Result<(), Memory> {
        self.push_raw(OPAQUE, bytes)
    }

    #[inline(always)]
    fn list_begins(&mut self) -> Result<(), Memory> {
        self.begin_group(LIST)
    }

    #[inline(always)]
    fn element(&mut self, _later: bool) -> Result<(), Memory> {
        self.count_part()
    }

    #[inline(always)]
    fn list_ends(&mut self) -> Result<(), Memory> {
        self.end_group()
    }

    fn ints(
        &mut self,
        count: u64,
        body: &[u8],
        begin: usize,
        _known: bool,
    ) -> Result<usize, WalkEnd<Memory>> {
        self.push_ints(count, body, begin)
    }

    #[inline(always)]
    fn map_begins(&mut self, _key: TypeId) -> Result<(), Memory> {
        self.begin_group(MAP)
    }

    #[inline(always)]
    fn entry(&mut self, _key: TypeId, _later: bool) -> Result<(), Memory> {
        self.count_part()
    }

    #[inline(always)]
    fn between(&mut self, _key: TypeId) -> Result<(), Memory> {
        Ok(())
    }

    #[inline(always)]
    fn entry_ends(&mut self, _key: TypeId) -> Result<(), Memory> {
        Ok(())
    }

    #[inline(always)]
    fn map_ends(&mut self, _key: TypeId) -> Result<(), Memory> {
        self.end_group()
    }

    #[inline(always)]
    fn heads(_kind: &Kind, _count: u64, _known: bool) -> Option<()> {
        None
    }

    #[inline(always)]
    fn struct_begins(&mut self) -> Result<(), Memory> {
        self.begin_group(STRUCT)
    }

    // (no memory holds the definition of a struct that has a field with a greater number)
    #[inline(always)]
    fn field(
        &mut self,
        _heads: Option<&()>,
        _types: &Fields,
        _next: u64,
        number: u64,
        _field: &Field,
    ) -> Result<(), Memory> {
        if number > u32::MAX as u64 {
            return Err(Memory);
        }
        self.count_part()?;
        self.field = Some(number as u32);
        Ok(())
    }

    #[inline(always)]
    fn field_ends(&mut self) -> Result<(), Memory> {
        Ok(())
    }

    #[inline(always)]
    fn struct_ends(&mut self, _types: &Fields, _next: u64) -> Result<(), Memory> {
        self.end_group()
    }

    ghost nothing = { λ a. refl };

    ghost joined = { λ a b c x y r p q.
        gathers_both (gathered_of a) (gathered_of b) (gathered_of c) x y r p q };

    ghost cut = { λ a b x y e p. tt };
}

// The unsigned number by which a signed one is spelled.
fn unsigned_of(number: i64) -> u64
    ensures { result ≡ unsigned_of number }
{
    if number < 0 {
        (-(number + 1)) as u64 * 2 + 1
    } else {
        number as u64 * 2
    }
}
