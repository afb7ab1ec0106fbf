//! Reading all items of a stream.

ghost use Rattle.std.specs.Prelude.{◌≡◌, ℕ, ◌+◌, ◌≤◌, List, [], Some};
ghost use Rattle.gob_read.specs.Calls.Builders.{tree_building};
ghost use Rattle.gob_stream.specs.Bounds.{within_trees};
ghost use Rattle.gob_stream.specs.Calls.Ends.{bytes_read, failed_reads, reader_of};
ghost use Rattle.gob_stream.specs.Item.{item_views};
ghost use Rattle.gob_stream.specs.Honest.{IsHonest, OfRefusal};
ghost use Rattle.gob_stream.specs.Reading.{ReadsStream, Given, CountsReads};
ghost use Rattle.gob_stream.specs.Calls.Session.{HasRead};

use crate::fault::Fault;
use crate::input::Input;
use crate::item::Item;
use crate::limits::Limits;
use crate::session::Session;
use gob_num::Memory;
use gob_read::TreeBuilder;
use gob_value::Value;
use std::alloc::Global;
use std::io::Read;

/// Reads every item of a stream, and appends it to `out`. Ok at the end of the input behind a whole item, or
/// before the first. The items before a refusal or a failed read are in `out`; after [`Fault::Memory`] those of the
/// bytes that were taken, all but the last at most. No value may be deeper than the lesser of `limits.depth()` and
/// 1000. It takes at most `limits.stream() + 9` bytes.
pub fn read_stream<R: Read>(
    alloc: Global,
    input: &mut Input<R>,
    limits: Limits,
    out: &mut Vec<Item<Value>>,
) -> Result<(), Fault>
    ensures items { Given out.old.items out.new.items (λ given. (bytes : List ℕ)
        → R.remaining (reader_of input.old) ≡ Some bytes
        → ReadsStream (within_trees limits) bytes (R.remaining (reader_of input.new)) (item_views given) result) }
    ensures honest { Given out.old.items out.new.items (λ given. (bytes : List ℕ)
        → R.remaining (reader_of input.old) ≡ Some bytes
        → OfRefusal (λ refusal. IsHonest (within_trees limits) bytes (item_views given) refusal) result) }
    ensures counted { CountsReads (failed_reads input.old) (failed_reads input.new) result }
    ensures taken { (bytes_read input.new) ≤ (bytes_read input.old) + limits.stream + 9 }
{
    let mut session = Session::<TreeBuilder>::new(alloc, limits)?;
    read_items(alloc, input, &mut session, out)
}

/// Reads the whole stream over a session that has read nothing, and keeps its items in `out`.
fn read_items<R: Read>(
    alloc: Global,
    input: &mut Input<R>,
    session: &mut Session<TreeBuilder>,
    out: &mut Vec<Item<Value>>,
) -> Result<(), Fault>
    requires has_read { HasRead tree_building session.old [] [] }
    requires new { session.old.taken ≡ 0 }
    ensures items { Given out.old.items out.new.items (λ given. (bytes : List ℕ)
        → R.remaining (reader_of input.old) ≡ Some bytes
        → ReadsStream (within_trees session.old.limits) bytes (R.remaining (reader_of input.new))
        (item_views given) result) }
    ensures counted { CountsReads (failed_reads input.old) (failed_reads input.new) result }
    ensures taken { (bytes_read input.new) ≤ (bytes_read input.old) + session.old.limits.stream + 9 }
{
    while let Some(item) = session.read_item(alloc, input)? {
        out.push(item).map_err(Memory::from)?;
    }
    Ok(())
}
