//! The text with its control characters escaped.

ghost use Rattle.std.specs.Prelude.{◌≡◌, ◌++◌, ◌<◌, IfOk, IsTrue, OnOk};
ghost use Rattle.json.specs.Json.{Json};
ghost use Rattle.json.specs.Lex.{tokens};
ghost use Rattle.json.specs.Print.{print};
ghost use Rattle.json.specs.Tree.{json_tokens};
ghost use Rattle.std.specs.Char.{digit_char};
ghost use Rattle.json_controls.specs.Controls.{AreBelowControls, emitted, escape_of, held_bytes, shown_text};

use crate::held::HeldBack;
use std::alloc::{AllocError, Global};

/// Appends JSON text with its control characters escaped. Where the text is the compact text of JSON, and a reader
/// reads that JSON in it, a reader reads it in what is appended.
pub fn push_shown(text: &[u8], out: &mut Vec<u8>) -> Result<(), AllocError>
    ensures shown { OnOk result (out.new.items ≡ out.old.items ++ shown_text text.now) }
    ensures read { (j : Json) → text.now ≡ print (json_tokens j) → tokens text.now ≡ json_tokens j
        → tokens (shown_text text.now) ≡ json_tokens j }
{
    if are_below_controls(text) {
        return Ok(out.extend_from_slice(text)?);
    }
    let held = push_known(text, out)?;
    push_held(held, out)
}

/// Escapes the control characters of JSON text in place: where it has none, it stays as it is and nothing is allocated.
/// Where it is the compact text of JSON, and a reader reads that JSON in it, a reader reads it in what it becomes.
pub fn show(alloc: Global, text: &mut Vec<u8>) -> Result<(), AllocError>
    ensures shown { OnOk result (text.new.items ≡ shown_text text.old.items) }
    ensures read { (j : Json) → text.old.items ≡ print (json_tokens j) → tokens text.old.items ≡ json_tokens j
        → tokens (shown_text text.old.items) ≡ json_tokens j }
{
    if are_below_controls(text) {
        return Ok(());
    }
    let mut shown = Vec::with_capacity(alloc, text.len())?;
    push_shown(text, &mut shown)?;
    *text = shown;
    Ok(())
}

// Whether no byte is one of a character that is escaped. It looks at all: a loop that doesn't end early takes many
// bytes at once.
fn are_below_controls(bytes: &[u8]) -> bool
    ensures { IsTrue result → AreBelowControls bytes.now }
{
    let mut below = true;
    'bytes: for byte in bytes {
        below &= *byte < 0x7f;
    }
    below
}

// Appends what is known to stand in the text, and gives what is held back at its end.
fn push_known(text: &[u8], out: &mut Vec<u8>) -> Result<HeldBack, AllocError>
    ensures { IfOk result (λ h. out.new.items ++ held_bytes h ≡ out.old.items ++ shown_text text.now) }
{
    let mut held = HeldBack::Nothing;
    for byte in text {
        push_emitted(held, *byte, out)?;
        held = held.after(*byte);
    }
    Ok(held)
}

// Appends the bytes that are held back.
fn push_held(held: HeldBack, out: &mut Vec<u8>) -> Result<(), AllocError>
    ensures { OnOk result (out.new.items ≡ out.old.items ++ held_bytes held) }
{
    out.extend_from_slice(held.bytes())
}

// Appends what is known to stand in the text at this byte, behind the bytes that are held back.
fn push_emitted(held: HeldBack, byte: u8, out: &mut Vec<u8>) -> Result<(), AllocError>
    ensures { OnOk result (out.new.items ≡ out.old.items ++ emitted held byte) }
{
    if held.is_control(byte) {
        return push_escape(held.code(byte), out);
    }
    if !held.next(byte).is_nothing() {
        return Ok(());
    }
    push_held(held, out)?;
    out.push(byte)?;
    Ok(())
}

// Appends a backslash, a u and the four digits of a number.
fn push_escape(code: u16, out: &mut Vec<u8>) -> Result<(), AllocError>
    ensures { OnOk result (out.new.items ≡ out.old.items ++ escape_of code) }
{
    out.extend_from_slice(&[
        92,
        117,
        digit(code / 4096),
        digit(code / 256 % 16),
        digit(code / 16 % 16),
        digit(code % 16),
    ])
}

// The hexadecimal digit of a number below 16.
fn digit(number: u16) -> u8
    requires { number < 16 }
    ensures { result ≡ digit_char number }
{
    if number < 10 {
        48 + number as u8
    } else {
        87 + number as u8
    }
}
