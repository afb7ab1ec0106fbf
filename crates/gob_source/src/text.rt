//! Pieces of text.

ghost use Rattle.std.specs.Prelude.{◌≡◌, ◌<◌, replicate};
ghost use Rattle.std.specs.Fmt.{decimal};
ghost use Rattle.std.specs.List.{flat_map};
ghost use Rattle.gob_source.specs.Adds.{Adds};
ghost use Rattle.gob_source.specs.Names.{digit, escaped, escaped_byte, is_printed};

use std::alloc::AllocError;

/// Appends the text.
pub(crate) fn push_text(text: &[u8], out: &mut Vec<u8>) -> Result<(), AllocError>
    ensures { Adds result out.old.items out.new.items text.now }
{
    out.extend_from_slice(text)
}

/// Appends the number in decimal.
pub(crate) fn push_number(number: u64, out: &mut Vec<u8>) -> Result<(), AllocError>
    ensures { Adds result out.old.items out.new.items (decimal number) }
{
    let mut digits = itoa::Buffer::new();
    push_text(digits.format(number).as_bytes(), out)
}

/// Appends so many spaces.
pub(crate) fn push_spaces(count: usize, out: &mut Vec<u8>) -> Result<(), AllocError>
    ensures { Adds result out.old.items out.new.items (replicate count 32) }
{
    for _ in 0..count {
        push_text(b" ", out)?;
    }
    Ok(())
}

/// Appends bytes as a comment may hold them.
pub(crate) fn push_escaped(bytes: &[u8], out: &mut Vec<u8>) -> Result<(), AllocError>
    ensures { Adds result out.old.items out.new.items (escaped bytes.now) }
{
    for byte in bytes {
        push_byte(*byte, out)?;
    }
    Ok(())
}

/// Appends a byte: as it is where it is printed in one column, else by its two digits.
pub(crate) fn push_byte(byte: u8, out: &mut Vec<u8>) -> Result<(), AllocError>
    ensures { Adds result out.old.items out.new.items (escaped_byte byte) }
{
    if is_printed(byte) {
        push_text(&[byte], out)
    } else {
        push_text(&[92, 120, digit(byte / 16), digit(byte % 16)], out)
    }
}

// Whether a byte is ASCII, printed in one column, and no backslash.
fn is_printed(byte: u8) -> bool
    ensures { result ≡ is_printed byte }
{
    32 <= byte && byte <= 126 && byte != 92
}

// The hexadecimal digit of a number below 16.
fn digit(number: u8) -> u8
    requires { number < 16 }
    ensures { result ≡ digit number }
{
    if number < 10 {
        48 + number
    } else {
        87 + number
    }
}

/// Appends lines.
pub(crate) fn push_lines(lines: &[&[u8]], out: &mut Vec<u8>) -> Result<(), AllocError>
    ensures { Adds result out.old.items out.new.items (flat_map (λ line. line.now) lines.now) }
{
    for line in lines {
        push_text(*line, out)?;
    }
    Ok(())
}
