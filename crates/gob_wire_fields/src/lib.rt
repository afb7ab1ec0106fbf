//! What the two later fields of wireType changed, for types that marshal themselves as binary or as text: nothing, but
//! that deltas which lead to them are refused no more. No code rests on it, so it is a crate of its own.
//!
//! ```text
//! 10 ff 81 05 01 01 04 ..     a wireType whose first delta leads to field 4, in both
//! 10 ff 81 07 01 01 04 ..     a delta that leads to field 6: `FieldNumber` at 3, seen 4, by the earlier base table
//! ```
#![tactic(auto)]

ghost use Rattle.gob_wire_fields.specs.Earlier.{HadAnOutcome, StayOutcomes};

/// The outcome of bytes is what it was while wireType had no fields for types that marshal themselves as binary or as
/// text, unless the bytes were refused then for a delta of a wireType that leads to one of these two fields.
pub fn outcomes_stay_by_the_later_base_table()
    ensures some { HadAnOutcome }
    ensures stay { StayOutcomes }
{}
