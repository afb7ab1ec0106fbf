//! Streams that are counted or refused.

use super::runs::is_checked;
use gob_stream::Limits;
use gob_test_rows::{bytes_of, part};
use std::alloc::{AllocError, Global};
use std::test::*;

// What, the stream, its line, and the line of the fault, which is left out where there is none. An empty line stands
// between two rows. Of the last three that are whole Go 1.19 wrote the bytes (interop/filled).
const ROWS: &str = "
nothing |  | ok: 0 items, 0 types, 0 bytes

a definition and a value as the format has them | POINT 07 ff 82 01 2c 01 42 00 | ok: 2 items, 1 types, 40 bytes

an int in an interface | 0a 10 00 03 69 6e 74 04 02 00 0a | ok: 1 items, 0 types, 11 bytes

a type defined in a value of two segments | 15 10 00 08 2a 62 69 67 2e 49 6e 74 ff 81 05 01 02 ff 84 00 00 00
07 ff 82 04 00 02 02 05 | ok: 1 items, 1 types, 30 bytes

the type used by the next item | 15 10 00 08 2a 62 69 67 2e 49 6e 74 ff 81 05 01 02 ff 84 00 00 00
07 ff 82 04 00 02 02 05 06 ff 82 00 02 02 05 | ok: 2 items, 1 types, 37 bytes

an Id above the defined one | 0a ff 81 05 01 02 ff 84 00 00 00 06 ff 82 00 02 02 05 | ok: 2 items, 1 types, 18 bytes

top struct | 22 10 00 08 6d 61 69 6e 2e 52 65 67 ff 81 03 01 01 03 52 65 67 01 ff 82 00 01 01 01 01 41 01 04 00 00
00 06 ff 82 03 01 06 00 0f 10 00 08 6d 61 69 6e 2e 52 65 67 ff 82 01 00 05 ff 82 01 08
00 | ok: 3 items, 1 types, 64 bytes

nest two | 25 ff 81 03 01 01 05 4f 75 74 65 72 01 ff 82 00 01 03 01 01 4e 01 04 00 01 01 49 01 10 00 01 01 4d 01
04 00 00 00 33 ff 82 01 02 01 09 6d 61 69 6e 2e 57 72 61 70 ff 83 03 01 01 04 57 72 61 70 01 ff 84 00 01 03 01 01 4e
01 04 00 01 01 49 01 10 00 01 01 53 01 0c 00 00 00 34 ff 84 23 01 04 01 08 6d 61 69 6e 2e 52 65 67 ff 85 03 01 01 03
52 65 67 01 ff 86 00 01 01 01 01 41 01 04 00 00 00 0a ff 86 03 01 06 00 01 01 73 00 01 08
00 | ok: 2 items, 3 types, 143 bytes

cuts in a list | 0c ff 81 02 01 02 ff 82 00 01 10 00 00 24 ff 82 00 04 08 6d 61 69 6e 2e 52 65 67 ff 83 03 01 01 03
52 65 67 01 ff 84 00 01 01 01 01 41 01 04 00 00 00 30 ff 84 03 01 02 00 0a 6d 61 69 6e 2e 50 6f 69 6e 74 ff 85 03 01
01 05 50 6f 69 6e 74 01 ff 86 00 01 02 01 01 58 01 04 00 01 01 59 01 04 00 00 00 36 ff 86 05 01 04 01 06 00 09 6d 61
69 6e 2e 57 72 61 70 ff 87 03 01 01 04 57 72 61 70 01 ff 88 00 01 03 01 01 4e 01 04 00 01 01 49 01 10 00 01 01 53 01
0c 00 00 00 56 ff 88 2b 01 02 01 09 6d 61 69 6e 2e 42 6f 74 68 ff 89 03 01 01 04 42 6f 74 68 01 ff 8a 00 01 02 01 01
41 01 10 00 01 01 42 01 10 00 00 00 18 ff 8a 11 01 08 6d 61 69 6e 2e 52 65 67 ff 84 03 01 08 00 00 01 01 74 00 08 6d
61 69 6e 2e 52 65 67 ff 84 03 01 0a 00 | ok: 2 items, 5 types, 241 bytes

a count of what is held that is too high | 0a 10 00 03 69 6e 74 04 03 00
0a |  | gob: refused 3 ItemTooLong at 8 seen 9

a type held that isn't defined | 0b 10 00 03 69 6e 74 ff 82 02 00 0a |  | gob: refused 10 UndefinedType(65) at 7 seen 9

a second segment that is cut off | 15 10 00 08 2a 62 69 67 2e 49 6e 74 ff 81 05 01 02 ff 84 00 00
00 |  | gob: refused 22 Ended at 22 seen 22

a wrong head in a field, behind an item | 25 ff 81 03 01 01 05 4f 75 74 65 72 01 ff 82 00 01 03 01 01 4e 01 04 00 01
01 49 01 10 00 01 01 4d 01 04 00 00 00 04 ff 82 02 f7 |  | gob: refused 1 BadHead at 42 seen 43
";

// Whether the stream of the row is counted or refused as it says.
fn is_right(alloc: Global, row: &str) -> Result<bool, AllocError> {
    let bytes = bytes_of(alloc, part(row, 1))?;
    let mut written = Vec::from_slice(alloc, part(row, 2).as_bytes())?;
    if !written.is_empty() {
        written.push(b'\n')?;
    }
    let due = part(row, 3).as_bytes();
    Ok(is_checked(alloc, &bytes, Limits::standard(), &written, due))
}

#[test]
fn streams_are_counted_or_refused(rt: HostRuntime) -> Result<(), Fail> {
    for row in ROWS.trim().split("\n\n") {
        assert!(rt; is_right(rt.alloc(), row)?, "{row}");
    }
    Ok(())
}

#[test]
fn what_is_held_is_one_deeper(rt: HostRuntime) -> Result<(), Fail> {
    let bytes = b"\x0a\x10\x00\x03\x69\x6e\x74\x04\x02\x00\x0a".as_slice();
    let limits = Limits::new(u64::MAX, 1, 0, 11).ok_or("limits")?;
    let due = b"gob: refused 17 TooDeep at 10 seen 10";
    assert!(rt; is_checked(rt.alloc(), bytes, limits, b"", due), "1 deep");
    let limits = Limits::new(u64::MAX, 2, 0, 11).ok_or("limits")?;
    let line = b"ok: 1 items, 0 types, 11 bytes\n";
    assert!(rt; is_checked(rt.alloc(), bytes, limits, line, b""), "2 deep");
    Ok(())
}
