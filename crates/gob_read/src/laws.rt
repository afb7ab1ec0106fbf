//! Laws of bodies, which is what stands in an item behind its type number, of the events and the weight of a value,
//! and of readers. Each function does nothing: its contract is a law that is proved here, once.

ghost use Rattle.std.specs.Prelude.{◌≡◌, ◌+◌};
ghost use Rattle.gob_value.specs.Tree.{Tree};
ghost use Rattle.gob_value.specs.Spelling.{Spells};
ghost use Rattle.gob_value.specs.Top.{SpellsTop};
ghost use Rattle.gob_read.specs.Expects.{Expects, ExpectsTop};
ghost use Rattle.gob_read.specs.Laws.{StopOnce, WholeIsExtraAlone, ExtraIsGiven, WholeIsAccepted, DeepIsRefused};
ghost use Rattle.gob_read.specs.Laws.{GiveOne, BodiesStayShown, RefusesPromptly, ViableBeforeTheEnd};
ghost use Rattle.gob_read.specs.Laws.{StayExpected, ExpectNoMore, StayViable, StayRefused, RefuseNoMore};
ghost use Rattle.gob_read.specs.Laws.{SeenBeginNone, DeepBeginDeep, PlacesBegin, ExpectingGoesOn, TablesCountArrays};
ghost use Rattle.gob_read.specs.Laws.{PrefixesExpectMore, ExpectingArePrefixes};
ghost use Rattle.gob_read.specs.Honest.{FirstIsHonest};
ghost use Rattle.gob_read.specs.Held.{ViableArePartial, HoldOnce, HoldAtMostTheirLength};
ghost use Rattle.gob_read.specs.declared.check_builder.Counts.{Counts};
ghost use Rattle.gob_read.specs.Weight.{weight};
ghost use Rattle.gob_read.specs.Counts.{AreCountsOf};
ghost use Rattle.gob_read.specs.BuilderLaws.{EventsHaveOneValue, EventsAreWellFormed, HaveWellFormedPrefixes};
ghost use Rattle.gob_read.specs.BuilderLaws.{EventsHaveTheWeight};
ghost use Rattle.gob_read.specs.BuilderLaws.{WeighAtMostTheirLength};
ghost use Rattle.gob_read.specs.Calls.ReaderLaws.{StaysRead, StaysUsable};
ghost use Rattle.gob_read.specs.Calls.UpToNil.{BeginsClear, StaysClear, StaysBeforeNil};

use crate::builder::Builder;
use crate::reader::BodyReader;

/// After the same bytes one thing comes next, in a part of one depth.
pub fn bytes_stop_once()
    ensures value { StopOnce Expects }
    ensures top { StopOnce ExpectsTop }
{}

/// Bytes that spell a value, no deeper than the limit, are refused only where the body announces more: it goes
/// on behind its value. If the value is deeper, they are refused for that.
pub fn whole_values_are_accepted()
    ensures extra { WholeIsExtraAlone }
    ensures given { ExtraIsGiven }
    ensures accepted { WholeIsAccepted }
    ensures deep { DeepIsRefused }
{}

/// Of all that can be said against a body one refusal is given.
pub fn one_refusal_is_given()
    ensures { GiveOne }
{}

/// The refusal that is given is the same for all bytes that begin with those that show it.
pub fn refusals_stay_shown()
    ensures { BodiesStayShown }
{}

/// Where bytes stand, nothing that they show is refused, whatever follows; nor do they hold a whole value.
pub fn refusals_are_prompt()
    ensures prompt { RefusesPromptly }
    ensures not_whole { ViableBeforeTheEnd }
{}

/// What bytes of a ready type expect, whether they stand and why they are refused is the same in a table that has
/// grown.
pub fn bodies_stay()
    ensures expected { StayExpected }
    ensures no_more { ExpectNoMore }
    ensures viable { StayViable }
    ensures refused { StayRefused }
    ensures refused_before { RefuseNoMore }
{}

/// Places are honest. The bytes before the place of a refusal begin a value of the type, in the grammar without
/// limits, unless the body ends too early. Where a number is refused, the bytes up to its end begin none; where a
/// part is too deep, those before it begin only values that are too deep.
pub fn places_begin_values()
    ensures place { PlacesBegin }
    ensures number { SeenBeginNone }
    ensures deep { DeepBeginDeep }
    ensures honest { FirstIsHonest }
{}

/// Where something is expected, the bytes before it are a proper prefix of a spelling.
pub fn expecting_goes_on()
    ensures { ExpectingGoesOn }
{}

/// A proper prefix of a spelling stands in a value: after its first bytes something is expected, and the others
/// begin an allowed item of it. Bytes of a ready type that stand so are a proper prefix of a spelling.
pub fn fronts_expect_more()
    ensures more { PrefixesExpectMore }
    ensures prefix { ExpectingArePrefixes }
{}

/// Of bytes that stand one number of parts and raw bytes is held, and at most as many as there are bytes, whatever
/// counts they announce.
pub fn held_is_one()
    ensures some { ViableArePartial }
    ensures one { HoldOnce }
    ensures few { HoldAtMostTheirLength }
{}

/// The arrays of a stream's table have lengths that can be spelled, as some laws ask of a table.
pub fn tables_count_arrays()
    ensures { TablesCountArrays }
{}

/// A list of events is that of one value at most, so what a builder makes of them is the value's.
pub fn events_have_one_value()
    ensures { EventsHaveOneValue }
{}

/// The events of a value that a type has may be told: they are well formed, and so is each prefix of them.
pub fn events_are_well_formed()
    ensures whole { EventsAreWellFormed }
    ensures prefixes { HaveWellFormedPrefixes }
{}

/// The events of a value have its parts and raw bytes.
pub fn events_have_the_weight()
    ensures { EventsHaveTheWeight }
{}

/// The two counts of a value add up to its weight.
pub fn counts_are_the_weight()
    ensures { (counts : Counts) (v : Tree) → AreCountsOf counts v → counts.nodes + counts.raw ≡ weight v }
{}

/// A value's weight is at most the length of its spelling, whatever counts the spelling announces.
pub fn weights_are_within_spellings()
    ensures value { WeighAtMostTheirLength Spells }
    ensures top { WeighAtMostTheirLength SpellsTop }
{}

/// A reader stands after the same bytes when the table of types grows.
pub fn readers_stay<B: Builder>(reader: &BodyReader<B>)
    ensures read { StaysRead B.building reader.now }
    ensures usable { StaysUsable B.building reader.now }
{}

/// A reader that has taken nothing has begun no number of an interface, and none is begun by a table that grows, before
/// which a reader stays where it is.
pub fn nils_stay<B: Builder>(reader: &BodyReader<B>)
    ensures begins { BeginsClear B.building reader.now }
    ensures clear { StaysClear B.building reader.now }
    ensures before { StaysBeforeNil reader.now }
{}
