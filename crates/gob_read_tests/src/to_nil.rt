//! Bodies read up to the number of an interface, which is filled then.

use gob_num::Memory;
use gob_read::{BodyReader, CheckBuilder, Counts, Progress, Reached, Stop};
use gob_test_rows::{Body, bytes_of, reader};
use gob_types::Table;
use std::alloc::Global;

/// What, its type, the body with 0 for what fills its interface, what is due: the offset of the interface, and the
/// parts and raw bytes of the body; and the bytes that come up to what fills it and some of that.
pub(crate) const ROWS: &str = "
nil | 8 | 00 00 | 1 1 0 | 00 00
an int | 8 | 00 00 | 1 1 0 | 00 03 69 6e 74 04 02 00 0a
a field, of which nothing comes | 75 | 01 02 01 00 01 08 00 | 3 4 0 | 01 02 01
a field, of which a name comes | 75 | 01 02 01 00 01 08 00 | 3 4 0 | 01 02 01 09 6d 61 69 6e 2e 57 72 61 70
a bad number in a field | 75 | 01 02 01 00 01 08 00 | 3 4 0 | 01 02 01 f7
the last field | 75 | 02 00 00 | 1 2 0 | 02 03 69 6e 74
an element | 76 | 00 01 00 | 2 2 0 | 00 01 03 69 6e 74
behind a key | 77 | 00 01 02 67 6f 00 | 5 3 2 | 00 01 02 67 6f 03
";

// Where the reader stops before an interface, and what it makes of the body behind that. None where it goes past it.
fn filled(
    alloc: Global,
    table: &Table,
    body: &Body,
    come: &[u8],
) -> Result<Option<(usize, Counts)>, Stop> {
    let mut reader: BodyReader<CheckBuilder> = reader(alloc, table, body)?;
    let bytes = body.bytes.as_slice();
    let Reached::Nil { used } = reader.push_to_nil(alloc, table, come)? else {
        return Ok(None);
    };
    if used >= bytes.len() {
        return Ok(None);
    }
    reader.announce((bytes.len() - used) as u64);
    match reader.fill(alloc, table)? {
        Progress::Done { out, used: _ } => Ok(Some((used, out))),
        Progress::More => match reader.push_to_nil(alloc, table, &bytes[used + 1..])? {
            Reached::Done { out, used: _ } => Ok(Some((used, out))),
            _ => Ok(None),
        },
    }
}

/// Whether the reader stops where it is due, when these bytes come, and makes of the body what is due.
pub(crate) fn is_filled(
    alloc: Global,
    table: &Table,
    body: &Body,
    come: &str,
) -> Result<bool, Memory> {
    let come = bytes_of(alloc, come)?;
    match filled(alloc, table, body, &come) {
        Ok(Some((place, counts))) => {
            Ok(body.due.as_slice() == [place as u64, counts.nodes, counts.raw].as_slice())
        }
        Err(Stop::Memory) => Err(Memory),
        _ => Ok(false),
    }
}
