//! Laws of rows. Each function does nothing: its contract is a law that is proved here, once.

ghost use Rattle.gob_explain.specs.Laws.{JoinToSpelling, JoinToTop, EachIsExplained, EachTopIsExplained};
ghost use Rattle.gob_explain.specs.Reach.{AreOneRun, LeadToThePlace};
ghost use Rattle.gob_explain.specs.Laws.{AreOneExplanation, StandWhereExpected, LeadEverywhere, AreCutAlike};
ghost use Rattle.gob_explain.specs.Whole.{LeadOverWholeValues, ShowWholeItems};

/// The bytes of the rows that explain a value, joined, are its spelling: no byte is left out, added or moved.
pub fn rows_join_to_the_spelling()
    ensures value { JoinToSpelling }
    ensures top { JoinToTop }
{}

/// Each spelling of a value has rows.
pub fn spellings_have_rows()
    ensures value { EachIsExplained }
    ensures top { EachTopIsExplained }
{}

/// A value is explained in one way.
pub fn values_have_one_list_of_rows()
    ensures { AreOneExplanation }
{}

/// Each row of a value is what the grammar says comes next behind the rows before it, and lies as deep.
pub fn rows_stand_where_expected()
    ensures { StandWhereExpected }
{}

/// Wherever something is expected in a body, rows lead there: so the bytes before what is refused have rows too.
pub fn rows_lead_everywhere()
    ensures { LeadEverywhere }
{}

/// There is one way to cut bytes into rows, and one depth for each.
pub fn rows_are_cut_alike()
    ensures { AreCutAlike }
{}

/// There is one way to cut bytes into rows also where interfaces hold others, with the rows of what fills them.
pub fn rows_of_fillings_are_cut_alike()
    ensures { AreOneRun }
{}

/// The rows of the bytes before a place at which something is expected lead to it, where nothing before lies too deep
/// and no interface holds another: what [`walk_body`](crate::walk_body) tells of bytes that end at a refused place are
/// all the rows before it.
pub fn rows_lead_to_the_place()
    ensures { LeadToThePlace }
{}

/// The rows of a whole value of Go's encoder lead over all its bytes, under the table behind it, also through what its
/// interfaces hold: [`walk_body`](crate::walk_body) ends there, unless one of these rows lies deeper than its limit.
pub fn rows_lead_over_whole_values()
    ensures { LeadOverWholeValues }
{}

/// Lines show all of a whole item of Go's encoder, under the table behind it: no line of what is left stands behind
/// them, where the item is no deeper than 333.
pub fn whole_items_are_shown()
    ensures { ShowWholeItems }
{}
