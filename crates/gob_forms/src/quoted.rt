//! Texts between quotes, as JSON has them.

ghost use Rattle.std.specs.Prelude.{◌≡◌, ◌<◌, ◌≤◌, ℕ, List, None, IfSome, length};
ghost use Rattle.gob_forms.specs.Texts.{IsFirstQuote, IsQuoted};

/// A text between quotes.
#[derive(Clone, Copy, Debug, PartialEq, Eq)]
pub struct Quoted<'a> {
    /// What stands between them.
    pub text: &'a [u8],
    /// Where it ends: the place of the second quote.
    pub end: usize,
}

/// The text between the first two quotes from the place on.
pub fn next_quoted(bytes: &[u8], place: usize) -> Option<Quoted<'_>>
    ensures within { IfSome result (λ quoted. quoted.end < length bytes.now) }
    ensures found { IfSome result (λ quoted. IsQuoted bytes.now place quoted.text.now quoted.end) }
    ensures none { result ≡ None → (text : List ℕ) → (end : ℕ) → ¬ IsQuoted bytes.now place text end }
{
    let begin = quote_from(bytes, place)? + 1;
    let end = quote_from(bytes, begin)?;
    Some(Quoted {
        text: &bytes[begin..end],
        end,
    })
}

// The place of the first quote from this one on.
fn quote_from(bytes: &[u8], place: usize) -> Option<usize>
    ensures within { IfSome result (λ quote. (place ≤ quote) × (quote < length bytes.now)) }
    ensures first { IfSome result (λ quote. IsFirstQuote bytes.now place quote) }
    ensures none { result ≡ None → (quote : ℕ) → ¬ IsFirstQuote bytes.now place quote }
{
    for quote in place..bytes.len() {
        if bytes[quote] == b'"' {
            return Some(quote);
        }
    }
    None
}
