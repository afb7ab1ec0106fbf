//! The nils of a value, by the numbers of the parts that they are.

ghost use Rattle.std.specs.Prelude.{◌≡◌, ◌+◌, ◌++◌, ℕ, Option, IfOk, OnOk};
ghost use Rattle.gob_value.specs.Tree.{Tree};
ghost use Rattle.gob_read.specs.Weight.{part_count};
ghost use Rattle.gob_tape.specs.Meaning.{Means};
ghost use Rattle.gob_tape.specs.Seeing.{Sees};
ghost use Rattle.gob_plain.specs.HeldPlain.{nil_parts};
ghost use Rattle.gob_plain.specs.Machine.Placing.{own_nil};

use gob_num::Memory;
use gob_tape::{Tape, ValueKind, View};
use std::alloc::Global;

/// The numbers of the parts of a value that are nil, in order. The value itself has the number 0.
pub(crate) fn nils_of(alloc: Global, tape: &Tape) -> Result<Vec<u64>, Memory>
    ensures { IfOk result (λ nils. (v : Tree) → Means tape.now v → nils.items ≡ nil_parts 0 v) }
{
    let mut nils = Vec::new(alloc);
    push_nils(tape.root(), 0, &mut nils)?;
    Ok(nils)
}

// Appends the numbers of the nils in a part that has this number. Answers the number of the part behind it.
#[cycle(part)]
fn push_nils(part: View<'_>, number: u64, nils: &mut Vec<u64>) -> Result<u64, Memory>
    ensures behind { IfOk result (λ behind. (f : Option ℕ) (v : Tree) → Sees part.entry f v
        → behind ≡ number + part_count v) }
    ensures nils { IfOk result (λ _. (f : Option ℕ) (v : Tree) → Sees part.entry f v
        → nils.new.items ≡ nils.old.items ++ nil_parts number v) }
{
    push_own(part.kind(), number, nils)?;
    let Some(mut behind) = number.checked_add(1) else {
        return Err(Memory);
    };
    for inner in part.children() {
        behind = push_nils(inner, behind, nils)?;
    }
    Ok(behind)
}

// Appends the number of a part of this kind, where it is nil.
fn push_own(kind: ValueKind, number: u64, nils: &mut Vec<u64>) -> Result<(), Memory>
    ensures { OnOk result (nils.new.items ≡ nils.old.items ++ own_nil kind number) }
{
    match kind {
        ValueKind::Nil => Ok(nils.push(number)?),
        _ => Ok(()),
    }
}
