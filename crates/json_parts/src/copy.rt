//! Values, from a reader of JSON to a writer.

ghost use Rattle.std.specs.Prelude.{◌≡◌, ◌+◌, ◌<◌, ◌≤◌, ◌^◌, ◌++◌, ◌∷◌, List, length};
ghost use Rattle.std.specs.Prelude.{IfSome, MatchBool, MatchOption, OnOk};
ghost use Rattle.json.specs.Json.{Json};
ghost use Rattle.json.specs.Print.{IsPrintable};
ghost use Rattle.json.specs.Reads.{token_of};
ghost use Rattle.json.specs.Token.{Token as SpecToken};
ghost use Rattle.json.specs.Tree.{json_tokens};
ghost use Rattle.json_parts.specs.Copying.{after, EndsParts, IsEnd};

use json::{Reader, Token, Writer};
use std::alloc::{AllocError, Global};

/// The first token of the next value or member, if one comes before the bracket that closes those around it, or before
/// the text's end. The bracket is read.
pub(crate) fn next_begin<'a>(reader: &mut Reader<'a>) -> Option<Token<'a>>
    ensures value { MatchOption result (EndsParts reader.old reader.new) (λ t. reader.old ≡ token_of t ∷ reader.new) }
    ensures printable { IfSome result (λ t. IsPrintable (token_of t)) }
    ensures begins { IfSome result (λ t. ¬ IsEnd (token_of t)) }
{
    let Some(token) = reader.next() else {
        return None;
    };
    if is_end(token) {
        return None;
    }
    Some(token)
}

/// Whether no part begins with the token.
fn is_end(token: Token<'_>) -> bool
    ensures { MatchBool result (IsEnd (token_of token.entry)) (¬ IsEnd (token_of token.entry)) }
{
    matches!(token, Token::EndObject | Token::EndArray | Token::Bad)
}

/// Writes the value that begins with a token. The reader stands behind that, and then behind the value.
pub(crate) fn copy_value(
    first: Token<'_>,
    reader: &mut Reader<'_>,
    out: &mut Writer,
) -> Result<(), AllocError>
    requires printable { IsPrintable (token_of first) }
    requires few { length reader.old + 1 < 2 ^ 64 }
    ensures before { out.new.before ≡ out.old.before }
    ensures copied { (j : Json) (rest : List SpecToken) → token_of first.entry ∷ reader.old ≡ json_tokens j ++ rest
        → OnOk result ((out.new.tokens ≡ out.old.tokens ++ json_tokens j) × (reader.new ≡ rest)) }
    ensures no_longer { length reader.new ≤ length reader.old }
{
    out.token(first)?;
    let mut depth = depth_after(0, first);
    'tokens: while depth > 0 {
        match reader.next() {
            None | Some(Token::Bad) => return Ok(()),
            Some(token) => {
                out.token(token)?;
                depth = depth_after(depth, token);
            }
        }
    }
    Ok(())
}

/// How many brackets are open behind the token, where so many are before it.
fn depth_after(depth: u64, token: Token<'_>) -> u64
    requires { depth + 1 < 2 ^ 64 }
    ensures { result ≡ after (token_of token.entry) depth }
{
    match token {
        Token::BeginObject | Token::BeginArray => depth + 1,
        Token::EndObject | Token::EndArray => depth.saturating_sub(1),
        _ => depth,
    }
}
