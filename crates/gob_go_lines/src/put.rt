//! What is put behind the bytes of a value: counts, and what has no parts.

ghost use Rattle.std.specs.Prelude.{◌≡◌, ◌++◌, ℕ, Bool, List, IfErr, OnOk, length};
ghost use Rattle.json.specs.Token.{Token};
ghost use Rattle.gob_num.specs.Spelled.{Appends};
ghost use Rattle.gob_num.specs.Unsigned.{AreBytes, IsUnsigned};
ghost use Rattle.gob_types.specs.Defined.{types};
ghost use Rattle.gob_types.specs.Table.{Table as Known};
ghost use Rattle.gob_types.specs.declared.kind.Kind.TheVariants as kinds;
ghost use Rattle.gob_types.specs.declared.kind.Marshal.{Marshal};
ghost use Rattle.gob_value.specs.Bytes.{HoldsBytes};
ghost use Rattle.gob_value.specs.Spelling.{Spells, SpellsAs};
ghost use Rattle.gob_value.specs.Tree.{Tree};
ghost use Rattle.gob_value.specs.View.{view};
ghost use Rattle.gob_value.specs.Written.{WrittenBytes};
ghost use Rattle.serde_json.specs.Data.{Data};
ghost use Rattle.gob_json.specs.Json.{no_type, opaque_json};
ghost use Rattle.gob_go.specs.Machine.WholeFilled.{IsOfKind};
ghost use Rattle.gob_lines.specs.Numbers.{IsBasicJson};
ghost use Rattle.gob_lines.specs.Reads.{IsWrong, Reads};
ghost use Rattle.gob_go_lines.specs.Says.{SaysAs};
ghost use Rattle.gob_go_lines.specs.Lines.{PutsIt, PutsSaid};

use gob_lines::{Due, LineFault, read_basic, read_opaque};
use gob_num::write_uint;
use gob_types::{Basic, Table, TypeId};
use gob_value::{Value, spell};
use json::Reader;
use std::alloc::Global;

/// The parts of a list or a map.
pub(crate) struct Parts {
    /// How many there are.
    pub(crate) count: u64,
    /// Their bytes.
    pub(crate) bytes: Vec<u8>,
}

// Not derived, so that a drop is one call in the proofs of what owns one.
impl Drop for Parts {
    fn drop(self) {
        let Parts { count: _, bytes: _ } = self;
    }
}

/// Puts the parts behind their count.
pub(crate) fn put_parts(alloc: Global, parts: &Parts, out: &mut Vec<u8>) -> Result<(), LineFault>
    ensures ok { OnOk result ((c : List ℕ) × IsUnsigned parts.now.count c
        × (out.new.items ≡ out.old.items ++ (c ++ parts.now.bytes.items))) }
    ensures memory { IfErr result (λ f. ¬ IsWrong f) }
{
    write_uint(alloc, parts.count, out)?;
    out.extend_from_slice(&parts.bytes)?;
    Ok(())
}

/// Puts the elements of an array behind their count, where they are as many as are due. Their array stands at this
/// offset of the line.
pub(crate) fn put_array(
    alloc: Global,
    elements: &Parts,
    due: u64,
    at: usize,
    out: &mut Vec<u8>,
) -> Result<(), LineFault>
    ensures count { OnOk result (elements.now.count ≡ due) }
    ensures ok { OnOk result ((c : List ℕ) × IsUnsigned elements.now.count c
        × (out.new.items ≡ out.old.items ++ (c ++ elements.now.bytes.items))) }
    ensures due { IfErr result (λ f. elements.now.count ≡ due → ¬ IsWrong f) }
{
    if elements.count != due {
        return Err(LineFault::due(alloc, at, Due::Elements(due)));
    }
    put_parts(alloc, elements, out)
}

/// Puts bytes behind their count.
pub(crate) fn put_bytes(alloc: Global, bytes: &[u8], out: &mut Vec<u8>) -> Result<(), LineFault>
    ensures ok { OnOk result (Appends (WrittenBytes bytes.now) out.old.items out.new.items) }
    ensures holds { AreBytes bytes.now }
    ensures memory { IfErr result (λ f. ¬ IsWrong f) }
{
    write_uint(alloc, bytes.len() as u64, out)?;
    out.extend_from_slice(bytes)?;
    Ok(())
}

/// Puts the value that stands next of a basic type that isn't the one of interfaces, or a nil.
pub(crate) fn put_basic(
    alloc: Global,
    table: &Table,
    id: TypeId,
    basic: Basic,
    tokens: &mut Reader<'_>,
    out: &mut Vec<u8>,
) -> Result<(), LineFault>
    requires { IsOfKind (types table.now) id (kinds.Basic basic) }
    ensures says { OnOk result ((H : Bool) (limit : ℕ) → PutsSaid (SaysAs (types table.now) H (kinds.Basic basic) limit)
        tokens.old tokens.new out.old.items out.new.items) }
    ensures whole { (v : Tree) (j : Data) (b : List ℕ) (rest : List Token)
        → SpellsAs (types table.now) (kinds.Basic basic) v b → HoldsBytes v → IsBasicJson (types table.now) no_type v j
        → Reads j tokens.old rest → PutsIt result tokens.new rest out.old.items out.new.items b }
{
    let value = read_basic(alloc, basic, tokens)?;
    put_leaf(alloc, table, id, &value, out)
}

/// Puts a value of the type without parts.
fn put_leaf(
    alloc: Global,
    table: &Table,
    id: TypeId,
    value: &Value,
    out: &mut Vec<u8>,
) -> Result<(), LineFault>
    ensures ok { OnOk result
        (Appends (Spells (types table.now) id (view value.now)) out.old.items out.new.items) }
    ensures memory { IfErr result (λ f. ¬ IsWrong f) }
{
    match spell(alloc, table, id, value, 1, out) {
        Ok(()) => Ok(()),
        // It was read as one of the type.
        Err(_) => Err(LineFault::Memory),
    }
}

/// Puts the opaque value that stands next.
pub(crate) fn put_opaque(
    alloc: Global,
    tokens: &mut Reader<'_>,
    out: &mut Vec<u8>,
) -> Result<(), LineFault>
    ensures says { OnOk result ((T : Known) (H : Bool) (m : Marshal) (limit : ℕ)
        → PutsSaid (SaysAs T H (kinds.Opaque m) limit) tokens.old tokens.new out.old.items out.new.items) }
    ensures whole { (s c : List ℕ) (rest : List Token) → AreBytes s → IsUnsigned (length s) c
        → Reads (opaque_json s) tokens.old rest
        → PutsIt result tokens.new rest out.old.items out.new.items (c ++ s) }
{
    let bytes = read_opaque(alloc, tokens)?;
    put_bytes(alloc, &bytes, out)
}
