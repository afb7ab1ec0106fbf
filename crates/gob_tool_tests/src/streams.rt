//! Streams, and the lines of their items.

use std::alloc::{AllocError, Global};

/// Items of each shape.
pub(crate) const EVERY: &[u8] = b"\
    \x03\x02\x00\x01\
    \x0b\x04\x00\xf8\xff\xff\xff\xff\xff\xff\xff\xff\
    \x03\x06\x00\x07\
    \x05\x08\x00\xfe\x31\x40\
    \x06\x0e\x00\xfe\x31\x40\x00\
    \x03\x10\x00\x00\
    \x05\x0a\x00\x02\x00\xff\
    \x05\x0c\x00\x02\x67\x6f\
    \x04\x0c\x00\x01\xff\
    \x0b\x20\x02\x01\x02\xff\x84\x00\x01\x04\x00\x00\
    \x0e\xff\x81\x01\x01\x02\xff\x82\x00\x01\x04\x01\x04\x00\x00\
    \x06\xff\x82\x00\x02\x02\x04\
    \x0c\xff\x83\x02\x01\x02\xff\x84\x00\x01\x04\x00\x00\
    \x06\xff\x84\x00\x02\x02\x03\
    \x0e\xff\x85\x04\x01\x02\xff\x86\x00\x01\x0c\x01\x04\x00\x00\
    \x0a\xff\x86\x00\x02\x01\x61\x02\x01\x61\x04\
    \x1f\xff\x87\x03\x01\x01\x05\x50\x6f\x69\x6e\x74\x01\xff\x88\x00\x01\x02\
    \x01\x01\x58\x01\x04\x00\x01\x01\x59\x01\x04\x00\x00\x00\
    \x05\xff\x88\x02\x42\x00\
    \x10\xff\x89\x05\x01\x01\x04\x54\x69\x6d\x65\x01\xff\x8a\x00\x00\x00\
    \x06\xff\x8a\x00\x02\x0a\x0b";

/// Their lines.
pub(crate) const EVERY_LINES: &str = "\
    {\"type\":1,\"value\":true}\n\
    {\"type\":2,\"value\":-9223372036854775808}\n\
    {\"type\":3,\"value\":7}\n\
    {\"type\":4,\"value\":\"4031000000000000\"}\n\
    {\"type\":7,\"value\":[\"4031000000000000\",\"0000000000000000\"]}\n\
    {\"type\":8,\"value\":null}\n\
    {\"type\":5,\"value\":\"00ff\"}\n\
    {\"type\":6,\"value\":\"go\"}\n\
    {\"type\":6,\"value\":{\"hex\":\"ff\"}}\n\
    {\"type\":16,\"value\":[[1,\"SliceT\",[[0,\"CommonType\",[[1,\"Id\",66]]],[1,\"Elem\",2]]]]}\n\
    {\"define\":65,\"elem\":2,\"kind\":\"array\",\"len\":2,\"name\":\"\"}\n\
    {\"type\":65,\"value\":[1,2]}\n\
    {\"define\":66,\"elem\":2,\"kind\":\"slice\",\"name\":\"\"}\n\
    {\"type\":66,\"value\":[1,-2]}\n\
    {\"define\":67,\"elem\":2,\"key\":6,\"kind\":\"map\",\"name\":\"\"}\n\
    {\"type\":67,\"value\":[[\"a\",1],[\"a\",2]]}\n\
    {\"define\":68,\"fields\":[[\"X\",2],[\"Y\",2]],\"kind\":\"struct\",\"name\":\"Point\"}\n\
    {\"type\":68,\"value\":[[1,\"Y\",33]]}\n\
    {\"define\":69,\"kind\":\"gob\",\"name\":\"Time\"}\n\
    {\"type\":69,\"value\":{\"opaque\":\"0a0b\"}}\n";

/// A struct, its value, and an int: items of 32, 8 and 4 bytes.
pub(crate) const THREE: &[u8] = b"\
    \x1f\xff\x81\x03\x01\x01\x05\x50\x6f\x69\x6e\x74\x01\xff\x82\x00\
    \x01\x02\x01\x01\x58\x01\x04\x00\x01\x01\x59\x01\x04\x00\x00\x00\
    \x07\xff\x82\x01\x2c\x01\x42\x00\
    \x03\x04\x00\x06";

/// Their lines.
pub(crate) const THREE_LINES: &[u8] = b"\
    {\"define\":65,\"fields\":[[\"X\",2],[\"Y\",2]],\"kind\":\"struct\",\"name\":\"Point\"}\n\
    {\"type\":65,\"value\":[[0,\"X\",22],[1,\"Y\",33]]}\n\
    {\"type\":2,\"value\":3}\n";

/// The value of the struct, and its line.
pub(crate) const POINT_VALUE: &[u8] = b"\x07\xff\x82\x01\x2c\x01\x42\x00";

pub(crate) const POINT_VALUE_LINE: &[u8] = b"{\"type\":65,\"value\":[[0,\"X\",22],[1,\"Y\",33]]}\n";

/// The lines of a row, which have ` / ` between them, each with its line feed.
pub(crate) fn lines_of(alloc: Global, text: &str) -> Result<Vec<u8>, AllocError> {
    let mut lines = Vec::new(alloc);
    for line in text.split(" / ") {
        if !line.is_empty() {
            lines.extend_from_slice(line.as_bytes())?;
            lines.push(b'\n')?;
        }
    }
    Ok(lines)
}
