//! What stands before a part: a comma, and before the value of a field its number and its name.

ghost use Rattle.std.specs.Prelude.{◌<◌, ◌++◌, ◌∷◌, []};
ghost use Rattle.std.specs.Fmt.{decimal};
ghost use Rattle.serde_json.specs.Written.{comma_if};
ghost use Rattle.gob_json.specs.Machine.TextParts.{digit_head, field_head};

use super::leaf::{put_natural, put_text};
use super::out::TextOut;
use super::plain::is_plain_ascii;

// What stands before the name of each field with a number of one digit, a comma before it. A piece of the table is put
// out as it is, where one that were made of bytes would have to wait for them.
static HEADS: [u8; 50] = *b",[0,\",[1,\",[2,\",[3,\",[4,\",[5,\",[6,\",[7,\",[8,\",[9,\"";

/// Puts out the comma that stands before each part but the first.
#[inline(always)]
pub(crate) fn put_comma<O: TextOut>(later: bool, out: &mut O) -> Result<(), O::Fault>
    ensures { O.puts out.old out.new (comma_if later) result }
{
    if later {
        return out.put(b",");
    }
    Ok(())
}

/// Puts out what stands before the value of a field: a comma where another field stands before it, the bracket, the
/// field's number and its name. A number of one digit and a name without escapes take three pieces.
pub(crate) fn put_field_head<O: TextOut>(
    later: bool,
    number: u64,
    name: &[u8],
    out: &mut O,
) -> Result<(), O::Fault>
    ensures { O.puts out.old out.new (field_head later number name.now) result }
{
    if number < 10 && is_plain_ascii(name) {
        put_digit_head(later, number, out)?;
        out.put(name)?;
        return out.put(b"\",");
    }
    put_comma(later, out)?;
    put_place(number, out)?;
    put_text(name, out)?;
    out.put(b",")
}

// Puts out the comma, the bracket, a field's number of one digit, and the quote before its name.
#[inline(always)]
fn put_digit_head<O: TextOut>(later: bool, number: u64, out: &mut O) -> Result<(), O::Fault>
    requires { number < 10 }
    ensures { O.puts out.old out.new (comma_if later ++ digit_head number) result }
{
    let row = number as usize * 5;
    if later {
        return out.put(&HEADS[row..row + 5]);
    }
    out.put(&HEADS[row + 1..row + 5])
}

// Puts out the bracket, the field's number and a comma.
fn put_place<O: TextOut>(number: u64, out: &mut O) -> Result<(), O::Fault>
    ensures { O.puts out.old out.new (91 ∷ (decimal number ++ 44 ∷ [])) result }
{
    out.put(b"[")?;
    put_natural(number, out)?;
    out.put(b",")
}
