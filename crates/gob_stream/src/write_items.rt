//! Writing a whole stream.

ghost use Rattle.gob_stream.specs.Bounds.{within_trees};
ghost use Rattle.gob_stream.specs.Calls.Ends.{failed_writes, writer_of};
ghost use Rattle.gob_stream.specs.Item.{item_views};
ghost use Rattle.gob_stream.specs.Calls.Writing.{WritesStream, CountsStop};

use crate::fault::{WriteFault, WriteStop};
use crate::item::Item;
use crate::limits::Limits;
use crate::output::Output;
use crate::stream_writer::StreamWriter;
use gob_num::Memory;
use gob_value::Value;
use std::alloc::Global;
use std::io::Write;

/// Writes the stream of the items. It stops at the first item that isn't written whole, and says which one and why;
/// the items before it are out. No value may be deeper than the lesser of `limits.depth()` and 1000.
pub fn write_stream<W: Write>(
    alloc: Global,
    output: &mut Output<W>,
    items: &[Item<Value>],
    limits: Limits,
) -> Result<(), WriteStop>
    ensures writes { WritesStream (within_trees limits) (item_views items.now)
        (W.contents (writer_of output.old)) (W.contents (writer_of output.new)) result }
    ensures counted { CountsStop (failed_writes output.old) (failed_writes output.new) result }
{
    let limits = limits.up_to(Limits::GREATEST_DEPTH);
    let Ok(mut writer) = StreamWriter::new(alloc, limits) else {
        return Err(WriteStop {
            item: 0,
            fault: WriteFault::Memory,
        });
    };
    for (i, item) in items.iter().enumerate() {
        if let Err(fault) = writer.write_item(alloc, output, item) {
            return Err(WriteStop {
                item: i as u64,
                fault,
            });
        }
    }
    Ok(())
}
