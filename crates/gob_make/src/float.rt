//! Floats: numbers in decimal, and the names of those that aren't finite.

ghost use Rattle.std.specs.Prelude.{◌≡◌, IfSome, Some, true};
ghost use Rattle.std.specs.Float.{float_is_finite};
ghost use Rattle.std.specs.Float.Ieee.{Float, binary64, to_bits};
ghost use Rattle.ryu.specs.Parse.{parse_float};
ghost use Rattle.gob_make.specs.Tells.{IsFloat};

use json::Token;

// The 64 bits that Go has for no number.
const NO_NUMBER: u64 = 0x7ff8_0000_0000_0001;

const INFINITY: u64 = 0x7ff0_0000_0000_0000;

const NEGATIVE_INFINITY: u64 = 0xfff0_0000_0000_0000;

/// The 64 bits of the float that the token is: the nearest to a number, where that is finite.
pub(crate) fn pattern_of(token: Option<Token<'_>>) -> Option<u64>
    ensures { IfSome result (IsFloat token.entry) }
{
    match token {
        Some(Token::Number(text)) => finite_of(text),
        Some(Token::String("NaN")) => Some(NO_NUMBER),
        Some(Token::String("Infinity")) => Some(INFINITY),
        Some(Token::String("-Infinity")) => Some(NEGATIVE_INFINITY),
        _ => None,
    }
}

// Those of the float nearest to this number, where that is finite.
fn finite_of(text: &str) -> Option<u64>
    ensures { IfSome result (λ p. (x : Float) × (parse_float binary64 text.now ≡ Some x)
        × (float_is_finite x ≡ true) × (p ≡ to_bits binary64 x)) }
{
    let number: f64 = fast_float::parse(text.as_bytes()).ok()?;
    if number.is_finite() {
        return Some(number.to_bits());
    }
    None
}
