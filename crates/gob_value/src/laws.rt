//! Laws of spellings, of descriptions and of the tidy form, which readers and writers rely on. Each function does
//! nothing: its contract is a law that is proved here, once.

ghost use Rattle.gob_value.specs.Spelling.{Spells};
ghost use Rattle.gob_value.specs.Top.{SpellsTop};
ghost use Rattle.gob_value.specs.Tidy.{Tidies};
ghost use Rattle.gob_value.specs.Laws.{EndByThemselves, AreOne, HaveOneValue, StaySpelled, AreNoMore};
ghost use Rattle.gob_value.specs.Bytes.{ConsistOfBytes};
ghost use Rattle.gob_value.specs.DescriptionLaws.{DescribeTheShape, DescribeOneShape, DescribeDefinable};
ghost use Rattle.gob_value.specs.DescriptionLaws.{AreNotRefused, DescriptionsHaveOneReason, AreJudged, AreOfWireType};
ghost use Rattle.gob_value.specs.LooseLaws.{DescribeOneShapeLoosely, StrictIsLoose, LooseIsStrict, FaultsStayLoosely};
ghost use Rattle.gob_value.specs.TidyLaws.{IsOneForm, HaveTidyForm, IsItsOwnForm, IsNoDeeper, IsNoLonger};
ghost use Rattle.gob_value.specs.TidyLaws.{StaysFitting, KeepsTheShape, KeepsTheReason, MadeTidy};

/// No spelling of a value begins another one of its type, so a reader knows where it ends.
pub fn spellings_begin_no_other()
    ensures value { EndByThemselves Spells }
    ensures top { EndByThemselves SpellsTop }
{}

/// A value has one spelling at a type.
pub fn spellings_are_unique()
    ensures value { AreOne Spells }
    ensures top { AreOne SpellsTop }
{}

/// Equal spellings at a type have equal values.
pub fn spellings_tell_the_value()
    ensures value { HaveOneValue Spells }
    ensures top { HaveOneValue SpellsTop }
{}

/// When the table grows, each spelling stays one, and a ready type gets no others.
pub fn spellings_stay()
    ensures value { StaySpelled Spells }
    ensures top { StaySpelled SpellsTop }
    ensures no_more { AreNoMore Spells }
    ensures no_more_top { AreNoMore SpellsTop }
{}

/// A spelling consists of bytes, numbers below 256, exactly where the byte strings in its value do, as those of a
/// [`Value`](crate::Value) always do. (The definitions have naturals for both.)
pub fn spellings_are_bytes()
    ensures value { ConsistOfBytes Spells }
    ensures top { ConsistOfBytes SpellsTop }
{}

/// The description that is made of a shape gives that shape back, and no other one.
pub fn descriptions_tell_the_shape()
    ensures back { DescribeTheShape }
    ensures one { DescribeOneShape }
{}

/// A value describes a shape or fails one demand first, and never both.
pub fn descriptions_are_judged()
    ensures either { AreJudged }
    ensures not_both { AreNotRefused }
    ensures one { DescriptionsHaveOneReason }
{}

/// A shape that a value of type 16 describes is one that may be defined.
pub fn described_shapes_are_definable()
    ensures { DescribeDefinable }
{}

/// The description that is made of a shape is a value of type 16, no deeper than 5.
pub fn descriptions_fit()
    ensures { AreOfWireType }
{}

/// A value describes one shape loosely, at most, under whatever ids. Only a wrong id is forgiven: where
/// [`shape_from`](crate::shape_from) doesn't find one, [`shape_from_loosely`](crate::shape_from_loosely) gives the same
/// shapes and the same faults.
pub fn loose_descriptions_differ_in_ids()
    ensures one { DescribeOneShapeLoosely }
    ensures loose { StrictIsLoose }
    ensures strict { LooseIsStrict }
    ensures faults { FaultsStayLoosely }
{}

/// A value that fits its type has one tidy form.
pub fn tidy_form_is_unique()
    ensures one { IsOneForm Tidies }
    ensures some { HaveTidyForm }
{}

/// Tidying twice is tidying once.
pub fn tidy_form_is_tidy()
    ensures { IsItsOwnForm Tidies }
{}

/// The tidy form of a value is no deeper than the value.
pub fn tidy_form_is_no_deeper()
    ensures { IsNoDeeper Tidies }
{}

/// The spelling of the tidy form is no longer than that of the value.
pub fn tidy_form_is_no_longer()
    ensures { IsNoLonger Tidies }
{}

/// The tidy form of a value that fits its type fits it too, where one more than each field's number has 64 bits.
pub fn tidy_form_fits()
    ensures { StaysFitting Tidies }
{}

/// A description and its tidy form have the same shape under each id, or none for the same reason.
pub fn tidy_form_says_the_same()
    ensures shape { KeepsTheShape Tidies }
    ensures reason { KeepsTheReason Tidies }
{}

/// The description that is made of a shape is tidy.
pub fn made_descriptions_are_tidy()
    ensures { MadeTidy Tidies }
{}
