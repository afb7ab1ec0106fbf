//! What text goes to while it is made.

use gob_num::Memory;

/// Takes text piece by piece, each behind the one before.
pub trait TextOut {
    ghost use Rattle.std.specs.Prelude.{ℕ, List, [], ◌++◌, Result, Ok, Err};

    /// Why text was not taken.
    type Fault: Drop;

    /// With this answer the text was taken; after an error no more than a prefix of it was.
    ghost puts: { Self → Self → List ℕ → Result (Unit {0}) Self.Fault → Type 0 };

    /// Takes the text. After an error a prefix of it may be taken.
    fn put(&mut self, text: &[u8]) -> Result<(), Self::Fault>
        ensures { puts self.old self.new text.now result };

    /// What took nothing stayed as it was.
    ghost nothing: { (a : Self) → puts a a [] (Ok tt) };

    /// Text behind text that was taken is one text.
    ghost joined: { (a b c : Self) (x y : List ℕ) (r : Result (Unit {0}) Self.Fault)
        → puts a b x (Ok tt) → puts b c y r → puts a c (x ++ y) r };

    /// A prefix of a text is one of any text that goes on behind it.
    ghost cut: { (a b : Self) (x y : List ℕ) (e : Self.Fault) → puts a b x (Err e) → puts a b (x ++ y) (Err e) };
}

impl TextOut for Vec<u8> {
    ghost use Rattle.std.specs.Prelude.{◌≡◌, ◌++◌, OnOk};
    ghost use Rattle.std.proofs.Common.{sym, append-nil};
    ghost use Rattle.gob_json.specs.Machine.Appended.{appended_behind};

    type Fault = Memory;

    ghost puts = { λ old new text result. OnOk result (new.items ≡ old.items ++ text) };

    #[inline(always)]
    fn put(&mut self, text: &[u8]) -> Result<(), Memory> {
        Ok(self.extend_from_slice(text)?)
    }

    ghost nothing = { λ a. sym (append-nil a.items) };

    ghost joined = { λ a b c x y r. appended_behind a.items b.items c.items x y r };

    ghost cut = { λ a b x y e h. tt };
}
