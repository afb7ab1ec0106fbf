//! An item takes exactly its bytes: the contract of reading one item, as that of a function that reads some.

ghost use Rattle.std.specs.Prelude.{◌≡◌, ℕ, List, Some, OnOk};
ghost use Rattle.gob_stream.specs.Bounds.{within_trees};
ghost use Rattle.gob_stream.specs.Calls.Ends.{reader_of};
ghost use Rattle.gob_stream.specs.Item.{item_views};
ghost use Rattle.gob_stream.specs.Reading.{Given};
ghost use Rattle.gob_stream_laws.specs.Prefix.{TakesPrefix};

use gob_num::Memory;
use gob_read::TreeBuilder;
use gob_stream::{Fault, Input, Item, Limits, Session};
use gob_value::Value;
use std::alloc::Global;
use std::io::Read;

/// Reads the first items of a stream, so many or all that there are, and appends them. Exactly their bytes are taken:
/// what follows them is left in the input.
pub fn read_prefix<R: Read>(
    alloc: Global,
    input: &mut Input<R>,
    limits: Limits,
    count: u64,
    out: &mut Vec<Item<Value>>,
) -> Result<(), Fault>
    ensures { OnOk result (Given out.old.items out.new.items (λ given. (bytes : List ℕ)
        → R.remaining (reader_of input.old) ≡ Some bytes
        → TakesPrefix (within_trees limits) count bytes (R.remaining (reader_of input.new)) (item_views given))) }
{
    let mut session = Session::<TreeBuilder>::new(alloc, limits)?;
    let mut left = count;
    while left > 0 {
        let Some(item) = session.read_item(alloc, input)? else {
            return Ok(());
        };
        out.push(item).map_err(Memory::from)?;
        left -= 1;
    }
    Ok(())
}
