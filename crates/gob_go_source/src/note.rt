//! What comments say of the types that are declared behind them.

ghost use Rattle.std.specs.Prelude.{◌≡◌, nat_eq};
ghost use Rattle.std.specs.List.{starts_with};
ghost use Rattle.gob_go_source.specs.Notes.{NoteOf, SaysNote, marshal_of};

use crate::number::number_of;
use crate::scan::{Scan, end_of};
use crate::token::Note;
use gob_types::Marshal;

// The comment in front of a type begins so, with its id behind that.
const HEAD: &[u8] = b"// type ";

/// What a comment says of the type that is declared behind it, as `// type 66, which encodes itself by GobEncode` does.
pub(crate) fn note_of(comment: &[u8]) -> Option<Note>
    ensures { SaysNote comment.now result }
{
    if !comment.starts_with(HEAD) {
        return None;
    }
    note_in(&comment[HEAD.len()..])
}

// The note whose id the first digits of the text are.
fn note_in(text: &[u8]) -> Option<Note>
    ensures { NoteOf text.now result }
{
    let size = end_of(Scan::Digits, text)?;
    let (digits, behind) = text.split_at(size);
    let id = number_of(digits)?;
    Some(Note {
        id: Some(id),
        marshal: marshal_of(behind),
    })
}

// By what a type encodes itself, as the text behind its id says.
fn marshal_of(text: &[u8]) -> Option<Marshal>
    ensures { result ≡ marshal_of text.now }
{
    if begins_with(text, b", which encodes itself by GobEncode") {
        return Some(Marshal::Gob);
    }
    if begins_with(text, b", which encodes itself by MarshalBinary") {
        return Some(Marshal::Binary);
    }
    if begins_with(text, b", which encodes itself by MarshalText") {
        return Some(Marshal::Text);
    }
    None
}

// Whether the text begins with these words.
fn begins_with(text: &[u8], words: &[u8]) -> bool
    ensures { result ≡ starts_with nat_eq text.now words.now }
{
    text.starts_with(words)
}
