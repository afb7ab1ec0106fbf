//! The JSON, as it is read back, of values that hold others.

use gob_go::{GoItem, GoSession};
use gob_json_writer::write_filled;
use gob_num::Memory;
use gob_stream::Limits;
use gob_test_rows::{bytes_of, part};
use json::Writer;
use std::alloc::Global;
use std::test::Fail;

// What, the stream, and the JSON of its last item, which is one line. The bytes and the JSON are those of
// interop/filled. An empty line stands between two rows.
const ROWS: &str = r#"
an int | 0a 10 00 03 69 6e 74 04 02 00
0a | {"type":8,"value":{"interface":{"name":"int","type":2,"value":5}}}

a value as the format has it | 03 04 00 0a | {"type":2,"value":5}

nest two | 25 ff 81 03 01 01 05 4f 75 74 65 72 01 ff 82 00 01 03 01 01 4e 01 04 00 01 01 49 01 10 00 01 01 4d 01
04 00 00 00 33 ff 82 01 02 01 09 6d 61 69 6e 2e 57 72 61 70 ff 83 03 01 01 04 57 72 61 70 01 ff 84 00 01 03 01 01 4e
01 04 00 01 01 49 01 10 00 01 01 53 01 0c 00 00 00 34 ff 84 23 01 04 01 08 6d 61 69 6e 2e 52 65 67 ff 85 03 01 01 03
52 65 67 01 ff 86 00 01 01 01 01 41 01 04 00 00 00 0a ff 86 03 01 06 00 01 01 73 00 01 08
00 | {"type":65,"value":[[0,"N",1],[1,"I",{"interface":{"name":"main.Wrap","type":66,"value":[[0,"N",2],
[1,"I",{"interface":{"name":"main.Reg","type":67,"value":[[0,"A",3]]}}],[2,"S","s"]]}}],[2,"M",4]]}

zeros, and a nil before and behind what is held | 0c ff 81 02 01 02 ff 82 00 01 10 00 00
0e ff 82 00 03 00 03 69 6e 74 04 02 00 00
00 | {"type":65,"value":[null,{"interface":{"name":"int","type":2,"value":0}},null]}
"#;

// The JSON of the last item of the stream, where it is a value.
fn shown(alloc: Global, bytes: &[u8]) -> Result<Vec<u8>, Memory> {
    let mut session = GoSession::new(alloc, Limits::standard())?;
    let mut items = Vec::new(alloc);
    let _ = session.feed(alloc, bytes, &mut items);
    let mut out = Writer::new(Vec::new(alloc));
    if let Some(GoItem::Put { id, value }) = items.last() {
        write_filled(alloc, *id, value, session.table(), &mut out)?;
    }
    Ok(out.into_inner())
}

// The text in one line.
fn joined(alloc: Global, text: &str) -> Result<String, Memory> {
    let mut line = String::new(alloc);
    for piece in text.split('\n') {
        line.push_str(piece)?;
    }
    Ok(line)
}

// The first of the rows of which another JSON comes, or else nothing.
fn wrong<'a>(alloc: Global, rows: &'a str) -> Result<&'a str, Memory> {
    for row in rows.trim().split("\n\n") {
        let json = shown(alloc, &bytes_of(alloc, part(row, 1))?)?;
        let due = joined(alloc, part(row, 2))?;
        if json.as_slice() != due.as_bytes() {
            return Ok(row);
        }
    }
    Ok("")
}

#[test]
fn values_show_what_they_hold(rt: HostRuntime) -> Result<(), Fail> {
    assert_eq!(rt; wrong(rt.alloc(), ROWS)?, "");
    Ok(())
}
