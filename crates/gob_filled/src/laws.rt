//! Laws of the profile: of filled values, of items and of outcomes. Each function does nothing: its contract is a law
//! that is proved here, once.

ghost use Rattle.gob_filled.specs.Laws.{EndByThemselves, SegmentsEndByThemselves, AreUnique};
ghost use Rattle.gob_filled.specs.Laws.{AreSpelledUncounted, AreSpelledCounted};
ghost use Rattle.gob_filled.specs.OutcomeLaws.{ItemsStay, RefusalsStay, ItemsEndByThemselves, StandingIsReading};
ghost use Rattle.gob_filled.specs.OutcomeLaws.{RefuseOnce, StandingIsNotRefused, DefinitionsAreNotRefused};
ghost use Rattle.gob_filled.specs.Example.{GoListIsRead};
ghost use Rattle.gob_filled.specs.Honest.{ValuesAreHonest, DefinitionsAreHonest, WholeValuesAreHonest};
ghost use Rattle.gob_filled.specs.OutcomeLaws.{ItemsStand, RefusedIsNoItem, HaveOneOutcome, RefusalsStayShown};
ghost use Rattle.gob_filled.specs.Laws.{ContainStrict, AreStrictUnfilled, AreRefusedStrictly, KeepTheTable};

/// Where two spellings of a type from one table stand at the front of one list, they are one: value, letters, rest and
/// the table behind them. So are their segments, and a value has one spelling.
pub fn filled_values_end_by_themselves()
    ensures value { EndByThemselves }
    ensures segments { SegmentsEndByThemselves }
    ensures unique { AreUnique }
{}

/// A filled value has a spelling without the counts of its segments too, in which it is no deeper than the limit. What
/// has such a spelling, in bytes few enough for all counts, is a filled value.
pub fn counts_can_be_left_out()
    ensures uncounted { AreSpelledUncounted }
    ensures counted { AreSpelledCounted }
{}

/// A value of which no nil is filled is spelled as the format has it. Where one is, the format refuses the value as one
/// with an interface value, at the first such place. The table behind a value says what the one before it says.
pub fn unfilled_values_are_strict()
    ensures contain { ContainStrict }
    ensures unfilled { AreStrictUnfilled }
    ensures refused { AreRefusedStrictly }
    ensures keep { KeepTheTable }
{}

/// Each item of the format is one of the profile, and so is each refusal but those of an interface value and of a wrong
/// id: where the format gives neither, the next item or refusal is the same.
pub fn profile_contains_the_format()
    ensures items { ItemsStay }
    ensures refusals { RefusalsStay }
{}

/// No item begins another.
pub fn items_end_by_themselves()
    ensures { ItemsEndByThemselves }
{}

/// Bytes that stand as the item of a value to their end, level by level, are the item of a filled value.
pub fn standing_is_reading()
    ensures { StandingIsReading }
{}

/// One refusal is given of bytes, and none where they begin with an item.
pub fn one_refusal_is_given()
    ensures once { RefuseOnce }
    ensures values { StandingIsNotRefused }
    ensures definitions { DefinitionsAreNotRefused }
{}

/// Each item of a value stands, level by level, to its end; no item begins where bytes are refused.
pub fn items_stand()
    ensures stand { ItemsStand }
    ensures no_item { RefusedIsNoItem }
{}

/// What Go writes of a list of one interface value is an item.
pub fn go_list_is_read()
    ensures { GoListIsRead }
{}

/// Any bytes give one list of items, and one ending.
pub fn bytes_have_one_outcome()
    ensures { HaveOneOutcome }
{}

/// The refusal of the next item is the same for all bytes that begin with those that show it.
pub fn shown_refusals_stay()
    ensures { RefusalsStayShown }
{}

/// The place of a refusal is honest in the value at hand, with 00 for what fills its nils: where a number is refused,
/// the bytes before it begin a value of the type, in the grammar without limits, and those up to its end begin none;
/// where a part is too deep, those before it begin one, and only such as are too deep. So it is in the description of
/// a definition within a value, and so in the whole value of the item: without the counts of segments, the bytes before
/// the place begin a filled value, and those that show the refusal begin none, or only such as are too deep.
pub fn places_are_honest()
    ensures values { ValuesAreHonest }
    ensures definitions { DefinitionsAreHonest }
    ensures whole { WholeValuesAreHonest }
{}
