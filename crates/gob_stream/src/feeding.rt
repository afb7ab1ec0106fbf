//! Feeding a piece to a session.

ghost use Rattle.std.specs.Prelude.{◌≡◌, ◌++◌, ◌∷◌, [], Err, IfErr, OnErr, OnOk};
ghost use Rattle.gob_stream.specs.Feeding.{FeedsBy};
ghost use Rattle.gob_stream.specs.Reading.{Given};

use crate::fault::Fault;
use crate::steps::Steps;
use std::alloc::Global;

/// Has the session take the next piece of its stream, all of it, and appends the items that are whole with it to `out`,
/// also those before a fault; without memory for an item it is lost, and the session has failed. After a fault each
/// call answers [`Fault::Failed`].
pub fn feed<S: Steps>(
    session: &mut S,
    alloc: Global,
    piece: &[u8],
    out: &mut Vec<S::Item>,
) -> Result<(), Fault>
    ensures fed { Given out.old.items out.new.items (λ given.
        FeedsBy S.stepping session.old session.new piece.now given result) }
    ensures failed { OnErr result (S.stepping.failed session.new) }
    ensures stays { S.stepping.failed session.old
        → (result ≡ Err Fault.Failed) × (session.new ≡ session.old) × (out.new ≡ out.old) }
    ensures limits { S.stepping.limits session.new ≡ S.stepping.limits session.old }
{
    if session.has_failed() {
        return Err(Fault::Failed);
    }
    let mut rest = piece;
    'steps: while !rest.is_empty() {
        let step = session.step(alloc, rest)?;
        rest = &rest[step.used..];
        if let Some(item) = step.item {
            if let Err(fault) = push_item(session, item, out) {
                return Err(fault);
            }
        }
    }
    Ok(())
}

// Appends an item. Without memory for it nothing more is read.
fn push_item<S: Steps>(session: &mut S, item: S::Item, out: &mut Vec<S::Item>) -> Result<(), Fault>
    ensures given { OnOk result (out.new.items ≡ out.old.items ++ item ∷ []) }
    ensures kept { OnOk result (session.new ≡ session.old) }
    ensures memory { IfErr result (λ fault. fault ≡ Fault.Memory) }
    ensures as_before { OnErr result (out.new.items ≡ out.old.items) }
    ensures failed { OnErr result (S.stepping.failed session.new) }
    ensures types { S.stepping.table session.new ≡ S.stepping.table session.old }
    ensures taken { S.stepping.taken session.new ≡ S.stepping.taken session.old }
    ensures limits { S.stepping.limits session.new ≡ S.stepping.limits session.old }
{
    if out.push(item).is_err() {
        session.fail();
        return Err(Fault::Memory);
    }
    Ok(())
}
