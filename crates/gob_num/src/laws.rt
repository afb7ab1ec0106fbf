//! What follows from the definitions of the spellings alone, whatever code writes or reads them.
//!
//! Each function is a law, which its contract states and its proof shows; none of them does anything.

ghost use Rattle.std.specs.Prelude.{ℕ, ℤ, ◌^◌, ◌<◌, FitsSigned};
ghost use Rattle.std.specs.Int.{w64};
ghost use Rattle.gob_num.specs.Unsigned.{IsUnsigned};
ghost use Rattle.gob_num.specs.Signed.{IsSigned};
ghost use Rattle.gob_num.specs.Pattern.{IsPattern};
ghost use Rattle.gob_num.specs.Laws.{BeginNoOther, AreUnique, TellTheValue, SpellAll};
ghost use Rattle.gob_num.specs.Laws.{BeginSomehow, BeginOneWay, PrefixesAreKnown};

/// No spelling of a kind of number begins another of that kind, so a reader knows where each ends.
pub fn spellings_begin_no_other()
    ensures unsigned { BeginNoOther ℕ IsUnsigned }
    ensures signed { BeginNoOther ℤ IsSigned }
    ensures pattern { BeginNoOther ℕ IsPattern }
{}

/// A number has one spelling of its kind.
pub fn spellings_are_unique()
    ensures unsigned { AreUnique ℕ IsUnsigned }
    ensures signed { AreUnique ℤ IsSigned }
    ensures pattern { AreUnique ℕ IsPattern }
{}

/// A spelling tells its number.
pub fn spellings_tell_the_value()
    ensures unsigned { TellTheValue ℕ IsUnsigned }
    ensures signed { TellTheValue ℤ IsSigned }
    ensures pattern { TellTheValue ℕ IsPattern }
{}

/// Each number of 64 bits has a spelling, and no larger number has one.
pub fn numbers_of_64_bits_are_spelled()
    ensures unsigned { SpellAll ℕ (λ n. n < 2 ^ 64) IsUnsigned }
    ensures signed { SpellAll ℤ (λ i. FitsSigned w64 i) IsSigned }
    ensures pattern { SpellAll ℕ (λ p. p < 2 ^ 64) IsPattern }
{}

/// Bytes are a proper prefix of an unsigned number's spelling, a whole one, a whole one with more behind it,
/// have a bad head, or are not minimal: each list of bytes is one of these, and none is two of them.
pub fn bytes_begin_in_one_way()
    ensures somehow { BeginSomehow }
    ensures one_way { BeginOneWay }
{}

/// Whether bytes are a proper prefix of a spelling shows in these bytes alone.
pub fn fronts_are_known()
    ensures { PrefixesAreKnown }
{}
