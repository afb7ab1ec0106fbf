//! The text of lists of ints.

ghost use Rattle.std.specs.Prelude.{◌≡◌, ◌≤◌, ℕ, List, IfOk, drop, false, length};
ghost use Rattle.serde_json.specs.Written.{items_text};
ghost use Rattle.gob_types.specs.declared.id.TypeId.{TypeId};
ghost use Rattle.gob_types.specs.declared.basic.Basic.TheVariants as basic;
ghost use Rattle.gob_types.specs.declared.kind.Kind.TheVariants as kind;
ghost use Rattle.gob_types.specs.Table.{Table};
ghost use Rattle.gob_value.specs.Tree.{Trees, tree_count};
ghost use Rattle.gob_value.specs.Machine.Begins.{BeginsEach};
ghost use Rattle.gob_json.specs.Json.{elements_json};
ghost use Rattle.gob_walk.specs.Standing.{BeginsElements, EndsAt, IsOfKind};
ghost use Rattle.gob_walk.specs.Told.{Reaches, Sends};

use super::block::{comma_at, integer_at};
use super::gathered::PartOut;
use gob_num::to_signed;
use gob_walk::{WalkEnd, closed, number_at};

// The most bytes of an int in a list: a comma, a sign and the digits.
const PART: usize = 22;

// As many bytes of text as are made before they are put out, in a short list.
const SHORT_BLOCK: usize = 256;

// As many bytes of text as are made before they are put out, in a long list: many more than wait at the most, so that
// they go out at once, and what a block costs is shared by some thousand ints.
const LONG_BLOCK: usize = 4096;

// For so many ints a long block is worth while.
const MANY: u64 = 64;

/// Puts out the text of so many ints that stand in the body from the place on, and the bracket that closes their list.
pub(crate) fn put_integers<O: PartOut, const KNOWN: bool>(
    count: u64,
    body: &[u8],
    begin: usize,
    out: &mut O,
) -> Result<usize, WalkEnd<O::Fault>>
    requires { begin ≤ length body.now }
    ensures sent { (T : Table) (e : TypeId) (limit : ℕ) (vs : Trees) (rest : List ℕ)
        → IsOfKind T e (kind.Basic basic.Int) → BeginsElements T e limit vs (drop begin body.now) rest
        → tree_count vs ≡ count
        → Sends (Reaches O.puts) out.old out.new (items_text false (elements_json T e vs)) body.now rest result }
    ensures stands { IfOk result (λ end. (T : Table) (e : TypeId) → IsOfKind T e (kind.Basic basic.Int)
        → EndsAt KNOWN (BeginsEach T false e 1 count) body.now begin end) }
{
    if KNOWN && count >= MANY {
        return put_in_blocks::<O, KNOWN, LONG_BLOCK>(count, body, begin, out);
    }
    put_in_blocks::<O, KNOWN, SHORT_BLOCK>(count, body, begin, out)
}

// Puts out the text of so many ints, and the bracket. It is made in blocks of so many bytes, so that how far it goes is
// kept in a register.
fn put_in_blocks<O: PartOut, const KNOWN: bool, const BLOCK: usize>(
    count: u64,
    body: &[u8],
    begin: usize,
    out: &mut O,
) -> Result<usize, WalkEnd<O::Fault>>
    requires place { begin ≤ length body.now }
    requires room { 22 ≤ BLOCK }
    requires most { BLOCK ≤ 4096 }
    ensures sent { (T : Table) (e : TypeId) (limit : ℕ) (vs : Trees) (rest : List ℕ)
        → IsOfKind T e (kind.Basic basic.Int) → BeginsElements T e limit vs (drop begin body.now) rest
        → tree_count vs ≡ count
        → Sends (Reaches O.puts) out.old out.new (items_text false (elements_json T e vs)) body.now rest result }
    ensures stands { IfOk result (λ end. (T : Table) (e : TypeId) → IsOfKind T e (kind.Basic basic.Int)
        → EndsAt KNOWN (BeginsEach T false e 1 count) body.now begin end) }
{
    let mut block = [0; BLOCK];
    let mut len = 0;
    let mut at = begin;
    'integers: for index in 0..count {
        if len > BLOCK - PART {
            out.put(&block[..len])?;
            len = 0;
        }
        let Some((number, end)) = number_at::<KNOWN>(body, at) else {
            return Err(WalkEnd::NotWhole);
        };
        let behind = comma_at(index > 0, &mut block, len);
        len = integer_at(to_signed(number), &mut block, behind);
        at = end;
    }
    out.put(&block[..len])?;
    closed(out.put_mark(b']'), at)
}
