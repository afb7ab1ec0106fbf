//! One item at the front of bytes.

ghost use Rattle.std.specs.Prelude.{◌≡◌, ℕ, ◌<◌, ◌≤◌, List, length, take, IfOk};
ghost use Rattle.gob_stream.specs.Bounds.{within_trees};
ghost use Rattle.gob_stream.specs.Honest.{OfRefusal};
ghost use Rattle.gob_filled.specs.Outcome.{FilledOutcome, refused};
ghost use Rattle.gob_filled.specs.Stream.{FilledItem};
ghost use Rattle.gob_types.specs.Base.{base_table};
ghost use Rattle.gob_go.specs.Calls.Session.{HasRead, IsBetweenItems, limits_of};
ghost use Rattle.gob_salvage.specs.Taking.{ReadsOne, RefusesNext};

use gob_go::GoSession;
use gob_stream::Fault;
use std::alloc::Global;

/// Reads the item that stands at the front of the piece, and answers how many bytes it has. Where none stands there,
/// the refusal is answered, with offsets of the session; the piece is then all that follows.
pub(crate) fn take_item(
    alloc: Global,
    session: &mut GoSession,
    piece: &[u8],
) -> Result<usize, Fault>
    ensures used { IfOk result (λ used. (0 < used) × (used ≤ length piece.now)) }
    ensures read { IfOk result (λ used. ReadsOne session.old session.new (take used piece.now)) }
    ensures between { IfOk result (λ _. IsBetweenItems session.new) }
    ensures refused { OfRefusal (RefusesNext session.old piece.now) result }
    ensures limits { limits_of session.new ≡ limits_of session.old }
{
    let mut used = 0;
    'steps: for _ in 0..piece.len() {
        if used == piece.len() {
            return end_within(session);
        }
        match session.step(alloc, &piece[used..]) {
            Ok(step) => {
                used += step.used;
                if let Some(item) = step.item {
                    drop(item);
                    return Ok(used);
                }
            }
            Err(fault) => return Err(fault),
        }
    }
    end_within(session)
}

// Says that no byte follows, where an item is under way.
fn end_within(session: &mut GoSession) -> Result<usize, Fault>
    ensures refused { (items : List FilledItem) (bytes : List ℕ) → HasRead session.old items bytes
        → OfRefusal (λ R. FilledOutcome base_table (within_trees (limits_of session.old)) bytes items (refused R))
        result }
    ensures none { IfOk result (λ _. ⊥) }
    ensures limits { limits_of session.new ≡ limits_of session.old }
{
    match session.finish() {
        Ok(()) => Err(Fault::Failed),
        Err(fault) => Err(fault),
    }
}
