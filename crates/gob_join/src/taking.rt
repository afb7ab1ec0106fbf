//! Items taken into the joined stream, with their types.

ghost use Rattle.std.specs.Prelude.{◌≡◌, ℕ, List, Contains, IfOk, OnOk};
ghost use Rattle.gob_types.specs.Defined.{types};
ghost use Rattle.gob_types.specs.Table.{Table as Types};
ghost use Rattle.gob_value.specs.Tree.{Tree};
ghost use Rattle.gob_filled.specs.Filled.{Fillings};
ghost use Rattle.gob_filled.specs.Stream.{FilledItem};
ghost use Rattle.gob_go.specs.Meaning.{ItemMeans};
ghost use Rattle.gob_go_writer.specs.Calls.Writer.{HasPut, PutsItem, limits_of, types_of};
ghost use Rattle.gob_join.specs.Renaming.{IsRenaming, among};
ghost use Rattle.gob_join.specs.Machine.Taking.{Defines, PutsShape, Settles, TakesValue};
ghost use Rattle.gob_join.specs.Taking.{IsFilledFrom, TakesHeld, TakesItem};

use crate::fault::TakeFault;
use crate::needed::push_needed;
use crate::numbering::number;
use crate::renaming::{NewIds, Renaming};
use crate::shape::{is_renamed, renamed_shape};
use crate::value::{UNKNOWN, new_id, renamed_value};
use gob_go::{Filled, GoItem, push_inner_ids};
use gob_go_writer::GoWriter;
use gob_num::Memory;
use gob_types::{Shape, Shapes, Table, TypeId};
use gob_value::describe;
use std::alloc::Global;
use std::mem;

/// What is known of the types of a stream that is taken in.
pub struct KnownTypes {
    // Which ids stand for them.
    renaming: Renaming,
    // Those that came, and for which none stands yet.
    pending: Vec<TypeId>,
    // How many definitions had come when those were gone through last.
    settled: Option<u64>,
}

// Not derived, so that a drop is one call in the proofs of what owns one.
impl Drop for KnownTypes {
    fn drop(self) {
        let KnownTypes {
            renaming: _,
            pending: _,
            settled: _,
        } = self;
    }
}

impl KnownTypes {
    /// Nothing is known but which types the base table has.
    pub fn new(alloc: Global, base: &Table) -> Result<KnownTypes, Memory>
        ensures { IfOk result (λ known. (T U : Types) → IsRenaming (among known.renaming) T U) }
    {
        let renaming = Renaming::new(alloc);
        let pending = base_ids(alloc, base)?;
        Ok(KnownTypes {
            renaming,
            pending,
            settled: None,
        })
    }
}

// The ids of the base table.
fn base_ids(alloc: Global, base: &Table) -> Result<Vec<TypeId>, Memory> {
    let mut ids = Vec::new(alloc);
    for number in 1..64 {
        if base.shape_of(TypeId(number)).is_some() {
            ids.push(TypeId(number))?;
        }
    }
    Ok(ids)
}

/// Takes in an item behind which the types are those of the table: its value goes out under the ids that stand for its
/// types, behind the definitions of those that the joined stream doesn't have. Of a definition nothing goes out before
/// a value comes.
pub fn take_item(
    alloc: Global,
    item: GoItem,
    table: &Table,
    known: &mut KnownTypes,
    writer: &mut GoWriter,
    text: &mut Vec<u8>,
) -> Result<(), TakeFault>
    ensures taken { (i : FilledItem) (items : List FilledItem) (bytes : List ℕ) → HasPut writer.old items bytes
        → IsRenaming (among known.old.renaming) (types table.now) (types_of writer.old)
        → ItemMeans (types table.now) item i
        → OnOk result (TakesItem writer.old writer.new items bytes text.old.items text.new.items (types table.now)
        (among known.old.renaming) (among known.new.renaming) i) }
    ensures limits { limits_of writer.new ≡ limits_of writer.old }
{
    match item {
        GoItem::Define { id, described } => {
            drop(described);
            known.pending.push(id)?;
        }
        GoItem::Put { id, value } => {
            push_inner_ids(&value, &mut known.pending)?;
            settle(alloc, table, known, writer, text)?;
            put_value(alloc, id, value, &known.renaming, writer, text)?;
        }
    }
    Ok(())
}

/// Takes in a value of a type of the joined stream, whose interfaces hold values of types of the table: under its own
/// type it goes out with what they hold, under the ids that stand for theirs, behind the definitions of those that the
/// joined stream doesn't have.
pub fn take_held(
    alloc: Global,
    id: TypeId,
    value: Filled,
    table: &Table,
    known: &mut KnownTypes,
    writer: &mut GoWriter,
    text: &mut Vec<u8>,
) -> Result<(), TakeFault>
    ensures taken { (v : Tree) (fs : Fillings) (items : List FilledItem) (bytes : List ℕ)
        → HasPut writer.old items bytes → IsRenaming (among known.old.renaming) (types table.now) (types_of writer.old)
        → IsFilledFrom (types_of writer.old) (types table.now) id value v fs
        → OnOk result (TakesHeld writer.old writer.new items bytes text.old.items text.new.items (types table.now)
        (among known.old.renaming) (among known.new.renaming) id v fs) }
    ensures limits { limits_of writer.new ≡ limits_of writer.old }
{
    push_needed(alloc, table, &value, &known.renaming, &mut known.pending)?;
    settle_pending(alloc, table, known, writer, text)?;
    let value = renamed_value(alloc, value, &known.renaming)?;
    put_item(alloc, GoItem::Put { id, value }, writer, text)
}

// Puts a value under the ids that stand for its types.
fn put_value(
    alloc: Global,
    id: TypeId,
    value: Filled,
    renaming: &Renaming,
    writer: &mut GoWriter,
    text: &mut Vec<u8>,
) -> Result<(), TakeFault>
    ensures taken { (items : List FilledItem) (bytes : List ℕ) → HasPut writer.old items bytes
        → OnOk result (TakesValue writer.old writer.new items bytes text.old.items text.new.items (among renaming.now)
        id value) }
    ensures limits { limits_of writer.new ≡ limits_of writer.old }
{
    let id = new_id(renaming, id)?;
    let value = renamed_value(alloc, value, renaming)?;
    put_item(alloc, GoItem::Put { id, value }, writer, text)
}

// Puts an item that is made for this.
fn put_item(
    alloc: Global,
    item: GoItem,
    writer: &mut GoWriter,
    text: &mut Vec<u8>,
) -> Result<(), TakeFault>
    ensures taken { (items : List FilledItem) (bytes : List ℕ) → HasPut writer.old items bytes
        → OnOk result (PutsItem writer.old writer.new items bytes item text.old.items text.new.items) }
    ensures limits { limits_of writer.new ≡ limits_of writer.old }
{
    let put = writer.put(alloc, &item, text);
    drop(item);
    Ok(put?)
}

// Settles the pending types, unless none was defined since that was done last.
#[tactic(auto, using(crate::proofs::TakingLaws::nothing_settled))]
fn settle(
    alloc: Global,
    table: &Table,
    known: &mut KnownTypes,
    writer: &mut GoWriter,
    text: &mut Vec<u8>,
) -> Result<(), TakeFault>
    ensures settled { (items : List FilledItem) (bytes : List ℕ) → HasPut writer.old items bytes
        → IsRenaming (among known.old.renaming) (types table.now) (types_of writer.old)
        → OnOk result (Settles writer.old writer.new items bytes text.old.items text.new.items (types table.now)
        (among known.old.renaming) (among known.new.renaming)) }
    ensures limits { limits_of writer.new ≡ limits_of writer.old }
{
    let count = table.count();
    if known.settled == Some(count) {
        return Ok(());
    }
    settle_pending(alloc, table, known, writer, text)?;
    known.settled = Some(count);
    Ok(())
}

// Lets an id stand for each pending type that is ready, and defines those that the joined stream doesn't have.
#[tactic(auto, using(crate::proofs::TakingLaws::nothing_settled))]
fn settle_pending(
    alloc: Global,
    table: &Table,
    known: &mut KnownTypes,
    writer: &mut GoWriter,
    text: &mut Vec<u8>,
) -> Result<(), TakeFault>
    ensures settled { (items : List FilledItem) (bytes : List ℕ) → HasPut writer.old items bytes
        → IsRenaming (among known.old.renaming) (types table.now) (types_of writer.old)
        → OnOk result (Settles writer.old writer.new items bytes text.old.items text.new.items (types table.now)
        (among known.old.renaming) (among known.new.renaming)) }
    ensures limits { limits_of writer.new ≡ limits_of writer.old }
{
    if known.pending.is_empty() {
        return Ok(());
    }
    let ready = take_ready(alloc, table, &mut known.pending)?;
    let ids = ready.as_slice();
    number(alloc, table, writer.table(), ids, &mut known.renaming)?;
    define_all(alloc, table, ids, &known.renaming, writer, text)
}

// Takes those of the types that are ready; the others stay.
fn take_ready(
    alloc: Global,
    table: &Table,
    pending: &mut Vec<TypeId>,
) -> Result<Vec<TypeId>, Memory> {
    let mut ready = Vec::new(alloc);
    let mut later = Vec::new(alloc);
    for id in mem::replace(pending, Vec::new(alloc)) {
        if table.kept(id) {
            ready.push(id)?;
        } else {
            later.push(id)?;
        }
    }
    *pending = later;
    Ok(ready)
}

// Defines those of the types that the joined stream doesn't have.
fn define_all(
    alloc: Global,
    table: &Table,
    ids: &[TypeId],
    renaming: &Renaming,
    writer: &mut GoWriter,
    text: &mut Vec<u8>,
) -> Result<(), TakeFault>
    ensures defined { (items : List FilledItem) (bytes : List ℕ) → HasPut writer.old items bytes
        → OnOk result (Defines writer.old writer.new items bytes text.old.items text.new.items (types table.now)
        (among renaming.now) (Contains ids.now)) }
    ensures limits { limits_of writer.new ≡ limits_of writer.old }
{
    for id in ids {
        define(alloc, table, *id, renaming, writer, text)?;
    }
    Ok(())
}

// Sees to it that the joined stream has the type, under the id that stands for it.
fn define(
    alloc: Global,
    table: &Table,
    id: TypeId,
    renaming: &Renaming,
    writer: &mut GoWriter,
    text: &mut Vec<u8>,
) -> Result<(), TakeFault>
    ensures defined { (items : List FilledItem) (bytes : List ℕ) → HasPut writer.old items bytes
        → OnOk result (Defines writer.old writer.new items bytes text.old.items text.new.items (types table.now)
        (among renaming.now) (λ t. t ≡ id)) }
    ensures limits { limits_of writer.new ≡ limits_of writer.old }
{
    let new = new_id(renaming, id)?;
    let Some(shape) = table.shape_of(id) else {
        return Err(UNKNOWN);
    };
    if let Some(known) = writer.table().shape_of(new) {
        if is_renamed(shape, known, renaming) {
            return Ok(());
        }
        return Err(UNKNOWN);
    }
    let shape = renamed_shape(alloc, shape, renaming)?;
    put_shape(alloc, new, &shape, writer, text)
}

// Puts the definition of a type that has this shape.
fn put_shape(
    alloc: Global,
    id: TypeId,
    shape: &Shape,
    writer: &mut GoWriter,
    text: &mut Vec<u8>,
) -> Result<(), TakeFault>
    ensures put { (items : List FilledItem) (bytes : List ℕ) → HasPut writer.old items bytes
        → OnOk result (PutsShape writer.old writer.new items bytes text.old.items text.new.items id shape.now) }
    ensures limits { limits_of writer.new ≡ limits_of writer.old }
{
    if !shape.definable() {
        return Err(UNKNOWN);
    }
    let described = describe(alloc, id, shape)?;
    put_item(alloc, GoItem::Define { id, described }, writer, text)
}
