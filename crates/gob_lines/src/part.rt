//! What stands in front of the value of a field: its number and its name.

ghost use Rattle.std.specs.Prelude.{◌≡◌, ◌+◌, ◌<◌, ◌≤◌, ◌^◌, IfSome, List, None, OnOk, Some, slice_get};
ghost use Rattle.json.specs.Token.{Token};
ghost use Rattle.gob_json.specs.Json.{text_json};
ghost use Rattle.gob_lines.specs.Complete.{PassesIt};
ghost use Rattle.gob_lines.specs.Reads.{Reads};

use crate::fault::{Due, LineFault};
use crate::leaf::read_text;
use gob_types::Field;
use json::Reader;
use std::alloc::Global;

/// The field of this number, where it comes no earlier than the next one.
pub fn field_from(types: &[Field], next: u64, number: u64) -> Option<&Field>
    ensures found { IfSome result (λ field. slice_get types.now number ≡ Some field.now) }
    ensures small { IfSome result (λ _. number + 1 < 2 ^ 64) }
    ensures order { IfSome result (λ _. next ≤ number) }
    ensures lost { result ≡ None → next ≤ number → slice_get types.now number ≡ None }
{
    if number < next {
        return None;
    }
    types.get(number as usize)
}

/// Takes the name of a field.
pub fn take_name(alloc: Global, name: &[u8], tokens: &mut Reader<'_>) -> Result<(), LineFault>
    ensures read { OnOk result (Reads (text_json name.now) tokens.old tokens.new) }
    ensures whole { (rest : List Token) → Reads (text_json name.now) tokens.old rest
        → PassesIt result tokens.new rest }
{
    let at = tokens.offset();
    let found = read_text(alloc, tokens)?;
    if found.as_slice() == name {
        return Ok(());
    }
    Err(LineFault::due(alloc, at, Due::FieldName))
}
