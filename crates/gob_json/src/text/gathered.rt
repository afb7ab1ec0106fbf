//! An output before which text is gathered: a short part of it is made in its place, and goes out with others.

ghost use Rattle.std.specs.Prelude.{◌≡◌, ◌+◌, ◌≤◌, ◌∷◌, ◌++◌, [], OnOk};
ghost use Rattle.std.specs.Fmt.{decimal};
ghost use Rattle.serde_json.specs.Written.{comma_if, compact_text};
ghost use Rattle.gob_json.specs.Json.{integer_json, pattern_json, text_json};
ghost use Rattle.gob_json.specs.Machine.Piece.{piece_text};
ghost use Rattle.gob_json.specs.Machine.Gathered.{Gathers};

use super::between::put_comma;
use super::block::{DIGITS, PATTERN};
use super::leaf::{put_integer, put_natural, put_pattern, put_text};
use super::out::TextOut;
use super::piece::{HEAD, Piece, WAITING};
use gob_num::Memory;

// Text of so many bytes is made in its place, if it can be.
const SHORT: usize = 32;

/// An output that makes short parts of a text in their place. What is put out of a value says of it no more than of any
/// output that takes text.
pub trait PartOut: TextOut {
    /// Puts out one byte: a bracket or a comma.
    fn put_mark(&mut self, mark: u8) -> Result<(), Self::Fault>
        ensures { Self.puts self.old self.new (mark ∷ []) result };

    /// Puts out the number in decimal.
    fn put_natural(&mut self, number: u64) -> Result<(), Self::Fault>
        ensures { Self.puts self.old self.new (decimal number) result };

    /// Puts out the number in decimal, with a minus where it is below 0.
    fn put_integer(&mut self, number: i64) -> Result<(), Self::Fault>
        ensures { Self.puts self.old self.new (compact_text (integer_json number)) result };

    /// Puts out the 64 bits of a float as a string of 16 digits of lower case hexadecimal.
    fn put_pattern(&mut self, pattern: u64) -> Result<(), Self::Fault>
        ensures { Self.puts self.old self.new (compact_text (pattern_json pattern)) result };

    /// Puts out text as a string where it is UTF-8, else as an object that holds its bytes in hexadecimal.
    fn put_text(&mut self, text: &[u8]) -> Result<(), Self::Fault>
        ensures { Self.puts self.old self.new (compact_text (text_json text.now)) result };

    /// Puts out what stands before the value of a field, and a comma before it or not.
    fn put_kept_head(&mut self, later: bool, head: &Piece<HEAD>) -> Result<(), Self::Fault>
        ensures { Self.puts self.old self.new (comma_if later ++ piece_text head.now) result };
}

impl PartOut for Vec<u8> {
    #[inline(always)]
    fn put_mark(&mut self, mark: u8) -> Result<(), Memory> {
        Ok(self.push(mark)?)
    }

    #[inline(always)]
    fn put_natural(&mut self, number: u64) -> Result<(), Memory> {
        put_natural(number, self)
    }

    #[inline(always)]
    fn put_integer(&mut self, number: i64) -> Result<(), Memory> {
        put_integer(number, self)
    }

    #[inline(always)]
    fn put_pattern(&mut self, pattern: u64) -> Result<(), Memory> {
        put_pattern(pattern, self)
    }

    #[inline(always)]
    fn put_text(&mut self, text: &[u8]) -> Result<(), Memory> {
        put_text(text, self)
    }

    #[inline(always)]
    fn put_kept_head(&mut self, later: bool, head: &Piece<HEAD>) -> Result<(), Memory> {
        put_comma(later, self)?;
        self.put(head.text())
    }
}

/// An output, and what waits to be put out there. It is taken apart in the end, and not dropped: so what it did to the
/// output is known.
pub(crate) struct Gathered<'a, O: TextOut> {
    /// What waits.
    pub(crate) waiting: Piece<WAITING>,
    /// Where it goes.
    pub(crate) out: &'a mut O,
}

impl<O: TextOut> Gathered<'_, O> {
    /// Puts out what waits. After an error a prefix of it may be put out.
    pub(crate) fn flush(&mut self) -> Result<(), O::Fault>
        ensures same { self.new.out.ghost_name ≡ self.old.out.ghost_name }
        ensures put { O.puts self.old.out.now self.new.out.now (piece_text self.old.waiting) result }
        ensures empty { OnOk result (piece_text self.new.waiting ≡ []) }
        ensures room { OnOk result (self.new.waiting.len ≡ 0) }
    {
        self.out.put(self.waiting.text())?;
        self.waiting.clear();
        Ok(())
    }

    // Sees that there is room for so many bytes more.
    #[inline(always)]
    fn make_room(&mut self, most: usize) -> Result<(), O::Fault>
        requires { most ≤ 256 }
        ensures same { self.new.out.ghost_name ≡ self.old.out.ghost_name }
        ensures put { Gathers O.puts self.old.out.now self.new.out.now (piece_text self.old.waiting)
            (piece_text self.new.waiting) result }
        ensures room { OnOk result (self.new.waiting.len + most ≤ 256) }
    {
        if self.waiting.has_room(most) {
            return Ok(());
        }
        self.flush()
    }
}

impl<O: TextOut> TextOut for Gathered<'_, O> {
    ghost use Rattle.std.proofs.Common.{refl, ◌∙◌};
    ghost use Rattle.gob_json.specs.Machine.Gathered.{gathers_nothing, gathers_both, gathers_more};

    type Fault = O::Fault;

    ghost puts = { λ old new text result. (new.out.ghost_name ≡ old.out.ghost_name)
        × Gathers O.puts old.out.now new.out.now (piece_text old.waiting ++ text) (piece_text new.waiting) result };

    // Text for which there is no room is put out at once.
    #[inline(always)]
    fn put(&mut self, text: &[u8]) -> Result<(), O::Fault> {
        if self.waiting.keep(text) {
            return Ok(());
        }
        self.flush()?;
        if self.waiting.keep(text) {
            return Ok(());
        }
        self.out.put(text)
    }

    ghost nothing = { λ a. (refl, gathers_nothing O.puts a.out.now (piece_text a.waiting) (O.nothing a.out.now)) };

    ghost joined = { λ a b c x y r p q. (
      q.0 ∙ p.0,
      gathers_both O.puts O.joined a.out.now b.out.now c.out.now (piece_text a.waiting) (piece_text b.waiting)
          (piece_text c.waiting) x y r p.1 q.1,
    ) };

    ghost cut = { λ a b x y e p. (
      p.0,
      gathers_more O.puts O.cut a.out.now b.out.now (piece_text a.waiting) (piece_text b.waiting) x y e p.1,
    ) };
}

impl<O: TextOut> PartOut for Gathered<'_, O> {
    #[inline(always)]
    fn put_mark(&mut self, mark: u8) -> Result<(), O::Fault> {
        self.put(&[mark])
    }

    #[inline(always)]
    fn put_natural(&mut self, number: u64) -> Result<(), O::Fault> {
        self.make_room(DIGITS)?;
        self.waiting.add_natural(number);
        Ok(())
    }

    #[inline(always)]
    fn put_integer(&mut self, number: i64) -> Result<(), O::Fault> {
        self.make_room(DIGITS + 1)?;
        self.waiting.add_integer(number);
        Ok(())
    }

    #[inline(always)]
    fn put_pattern(&mut self, pattern: u64) -> Result<(), O::Fault> {
        self.make_room(PATTERN)?;
        self.waiting.add_pattern(pattern);
        Ok(())
    }

    #[inline(always)]
    fn put_text(&mut self, text: &[u8]) -> Result<(), O::Fault> {
        if text.len() > SHORT {
            return put_text(text, self);
        }
        self.make_room(SHORT + 2)?;
        if self.waiting.add_text(text) {
            return Ok(());
        }
        put_text(text, self)
    }

    #[inline(always)]
    fn put_kept_head(&mut self, later: bool, head: &Piece<HEAD>) -> Result<(), O::Fault> {
        self.make_room(HEAD + 1)?;
        self.waiting.add_head(later, head);
        Ok(())
    }
}
