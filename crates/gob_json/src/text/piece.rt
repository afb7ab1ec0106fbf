//! Text that is kept in a piece of a fixed size. The bytes of the piece are there before the text is, so that a part of
//! it is stored in its place, with one look at the room.

ghost use Rattle.std.specs.Prelude.{◌≡◌, ◌+◌, ◌≤◌, ◌++◌, [], IsTrue, OnOk, false, length};
ghost use Rattle.std.specs.Fmt.{decimal};
ghost use Rattle.serde_json.specs.Written.{comma_if, compact_text};
ghost use Rattle.gob_json.specs.Json.{integer_json, pattern_json, text_json};

use super::block::{comma_at, integer_at, natural_at, pattern_at};
use super::out::TextOut;
use super::plain::copy_plain;

/// How many bytes of text wait at the most before they are put out.
pub(crate) const WAITING: usize = 256;

/// How many bytes of what stands before a field are kept at the most.
pub const HEAD: usize = 32;

/// Text of at most so many bytes.
#[derive(Clone, Copy)]
pub struct Piece<const N: usize> {
    bytes: [u8; N],
    len: usize,
    ghost within: { len ≤ N },
}

/// There is no room for a text.
#[derive(Clone, Copy)]
pub struct Full;

impl<const N: usize> Piece<N> {
    ghost use Rattle.gob_json.specs.Machine.Piece.{piece_text};

    /// No text yet.
    #[inline(always)]
    pub(crate) fn new() -> Piece<N>
        ensures { piece_text result ≡ [] }
    {
        Piece {
            bytes: [0; N],
            len: 0,
        }
    }

    /// The text.
    #[inline(always)]
    pub(crate) fn text(&self) -> &[u8]
        ensures { result.now ≡ piece_text self.now }
    {
        &self.bytes[..self.len]
    }

    /// Takes the text away.
    #[inline(always)]
    pub(crate) fn clear(&mut self)
        ensures empty { piece_text self.new ≡ [] }
        ensures room { self.new.len ≡ 0 }
    {
        self.len = 0;
    }

    /// Adds the text, if there is room for it. False says that nothing has changed.
    #[inline(always)]
    pub(crate) fn keep(&mut self, text: &[u8]) -> bool
        ensures kept { IsTrue result → piece_text self.new ≡ piece_text self.old ++ text.now }
        ensures full { result ≡ false → piece_text self.new ≡ piece_text self.old }
    {
        if text.len() > N - self.len {
            return false;
        }
        let end = self.len + text.len();
        let bytes = &mut self.bytes[..];
        bytes[self.len..end].copy_from_slice(text);
        self.len = end;
        true
    }

    /// Whether there is room for so many bytes more.
    #[inline(always)]
    pub(crate) fn has_room(&self, most: usize) -> bool
        ensures { IsTrue result → self.now.len + most ≤ N }
    {
        most <= N - self.len
    }
}

impl Piece<WAITING> {
    ghost use Rattle.gob_json.specs.Machine.Piece.{piece_text};

    /// Adds the number in decimal.
    #[inline(always)]
    pub(crate) fn add_natural(&mut self, number: u64)
        requires { self.old.len + 20 ≤ 256 }
        ensures { piece_text self.new ≡ piece_text self.old ++ decimal number }
    {
        self.len = natural_at(number, &mut self.bytes, self.len);
    }

    /// Adds the number in decimal, with a minus where it is below 0.
    #[inline(always)]
    pub(crate) fn add_integer(&mut self, number: i64)
        requires { self.old.len + 21 ≤ 256 }
        ensures { piece_text self.new ≡ piece_text self.old ++ compact_text (integer_json number) }
    {
        self.len = integer_at(number, &mut self.bytes, self.len);
    }

    /// Adds the 64 bits of a float as a string of 16 digits.
    #[inline(always)]
    pub(crate) fn add_pattern(&mut self, pattern: u64)
        requires { self.old.len + 18 ≤ 256 }
        ensures { piece_text self.new ≡ piece_text self.old ++ compact_text (pattern_json pattern) }
    {
        self.len = pattern_at(pattern, &mut self.bytes, self.len);
    }

    /// Adds the text as a string, if each of its bytes stands for itself there. False says that nothing has changed.
    #[inline(always)]
    pub(crate) fn add_text(&mut self, text: &[u8]) -> bool
        requires { self.old.len + length text.now + 2 ≤ 256 }
        ensures added { IsTrue result → piece_text self.new ≡ piece_text self.old ++ compact_text (text_json text.now) }
        ensures same { result ≡ false → piece_text self.new ≡ piece_text self.old }
    {
        let begin = self.len + 1;
        self.bytes[self.len] = b'"';
        if !copy_plain(text, &mut self.bytes, begin) {
            return false;
        }
        let end = begin + text.len();
        self.bytes[end] = b'"';
        self.len = end + 1;
        true
    }

    /// Adds what stands before the value of a field, and a comma before it or not. All the bytes that the head has room
    /// for are stored, so that their number is known; those behind its text don't count.
    #[inline(always)]
    pub(crate) fn add_head(&mut self, later: bool, head: &Piece<HEAD>)
        requires { self.old.len + 33 ≤ 256 }
        ensures { piece_text self.new ≡ piece_text self.old ++ (comma_if later ++ piece_text head.now) }
    {
        let at = comma_at(later, &mut self.bytes, self.len);
        self.bytes[at..at + HEAD].copy_from_slice(&head.bytes);
        self.len = at + head.len;
    }
}

impl<const N: usize> TextOut for Piece<N> {
    ghost use Rattle.std.proofs.Common.{sym, append-nil};
    ghost use Rattle.gob_json.specs.Machine.Piece.{piece_text};
    ghost use Rattle.gob_json.specs.Machine.Appended.{appended_behind};

    type Fault = Full;

    ghost puts = { λ old new text result. OnOk result (piece_text new ≡ piece_text old ++ text) };

    #[inline(always)]
    fn put(&mut self, text: &[u8]) -> Result<(), Full> {
        if self.keep(text) {
            return Ok(());
        }
        Err(Full)
    }

    ghost nothing = { λ a. sym (append-nil (piece_text a)) };

    ghost joined = { λ a b c x y r. appended_behind (piece_text a) (piece_text b) (piece_text c) x y r };

    ghost cut = { λ a b x y e h. tt };
}
