//! Lines: bytes of a stream with their offset, and beside them what they are.

ghost use Rattle.std.specs.Prelude.{◌≡◌, ℕ, ◌+◌, ◌-◌, ◌*◌, ◌++◌, ◌≤◌, length, take, drop, min, OnOk, string_bytes};
ghost use Rattle.gob_explain.specs.Column.{HasLineAdded, byte_lines, hex_column, lines_below, offset_text, spaces};

use std::alloc::AllocError;

// So many bytes stand in a line.
const WIDTH: usize = 8;

// Of a longer run so many are shown.
const MOST: usize = 32;

/// Puts behind the text the line of bytes that stand at an offset of a stream, and what they are so many levels deep.
/// More than 8 bytes go on in lines of their own, and behind 32 their number stands in the place of the others.
pub fn push_line(
    offset: u64,
    bytes: &[u8],
    levels: u64,
    meaning: &str,
    out: &mut String,
) -> Result<(), AllocError>
    ensures { OnOk result (HasLineAdded offset bytes.now levels meaning.now (string_bytes out.old)
        (string_bytes out.new)) }
{
    let (shown, more) = split(bytes, WIDTH);
    push_bytes(offset, shown, out)?;
    push_gap(WIDTH.saturating_sub(shown.len()), levels, out)?;
    out.push_str(meaning)?;
    out.push_str("\n")?;
    push_more(offset.saturating_add(shown.len() as u64), more, out)
}

// What stands between the bytes and what they are: room for so many bytes more, and two spaces for each level.
fn push_gap(missing: usize, levels: u64, out: &mut String) -> Result<(), AllocError>
    ensures { OnOk result (string_bytes out.new ≡ string_bytes out.old ++ spaces (3 * missing + 2 + 2 * levels)) }
{
    'bytes: for byte in 0..missing {
        out.push_str("   ")?;
    }
    out.push_str("  ")?;
    'levels: for level in 0..levels {
        out.push_str("  ")?;
    }
    Ok(())
}

// The lines of the bytes behind the first ones.
fn push_more(begin: u64, bytes: &[u8], out: &mut String) -> Result<(), AllocError>
    ensures { OnOk result (string_bytes out.new ≡ string_bytes out.old ++ lines_below begin bytes.now) }
{
    let (shown, more) = split(bytes, MOST - WIDTH);
    push_shown(begin, shown, out)?;
    if more.is_empty() {
        return Ok(());
    }
    write!(out, "        .. {} bytes more\n", more.len())
}

// A line for each 8 bytes.
fn push_shown(begin: u64, bytes: &[u8], out: &mut String) -> Result<(), AllocError>
    ensures { (most : ℕ) → length bytes.now ≤ 8 * most
        → OnOk result (string_bytes out.new ≡ string_bytes out.old ++ byte_lines most begin bytes.now) }
{
    let mut offset = begin;
    let mut rest = bytes;
    while !rest.is_empty() {
        let (piece, later) = split(rest, WIDTH);
        push_bytes(offset, piece, out)?;
        out.push_str("\n")?;
        offset = offset.saturating_add(piece.len() as u64);
        rest = later;
    }
    Ok(())
}

// The first bytes, as many as these or all, and the others.
fn split(bytes: &[u8], most: usize) -> (&[u8], &[u8])
    ensures first { result.0.now ≡ take most bytes.now }
    ensures others { result.1.now ≡ drop most bytes.now }
    ensures size { length result.0.now ≡ min most (length bytes.now) }
{
    let end = most.min(bytes.len());
    (&bytes[..end], &bytes[end..])
}

// An offset, and behind it each byte in hexadecimal behind a space.
fn push_bytes(offset: u64, bytes: &[u8], out: &mut String) -> Result<(), AllocError>
    ensures { OnOk result (string_bytes out.new ≡ string_bytes out.old ++ (offset_text offset ++ hex_column
        bytes.now)) }
{
    write!(out, "{offset:>6} ")?;
    'bytes: for byte in bytes {
        write!(out, " {:02x}", *byte)?;
    }
    Ok(())
}
