//! Items that are larger than a piece, with smaller ones around them.

use std::alloc::{AllocError, Global};

/// A stream with one large item, and its lines: each is a head, a part 20000 times and a tail.
#[derive(Clone, Copy)]
pub(crate) struct Large {
    /// What the item is.
    pub(crate) what: &'static str,
    head: &'static [u8],
    part: &'static [u8],
    tail: &'static [u8],
    head_line: &'static str,
    part_line: &'static str,
    tail_line: &'static str,
}

/// A slice of 200001 ints, each of a byte.
pub(crate) const INTS: Large = Large {
    what: "ints",
    head: b"\x0c\xff\x83\x02\x01\x02\xff\x84\x00\x01\x04\x00\x00\
        \xfd\x03\x0d\x48\xff\x84\x00\xfd\x03\x0d\x41\x0a",
    part: b"\x0a\x0a\x0a\x0a\x0a\x0a\x0a\x0a\x0a\x0a",
    tail: b"\x03\x04\x00\x06\x03\x02\x00\x01",
    head_line: "{\"define\":66,\"elem\":2,\"kind\":\"slice\",\"name\":\"\"}\n{\"type\":66,\"value\":[5",
    part_line: ",5,5,5,5,5,5,5,5,5,5",
    tail_line: "]}\n{\"type\":2,\"value\":3}\n{\"type\":1,\"value\":true}\n",
};

/// A slice of 80001 ints of one to three bytes.
pub(crate) const SIZES: Large = Large {
    what: "ints of several sizes",
    head: b"\x0c\xff\x83\x02\x01\x02\xff\x84\x00\x01\x04\x00\x00\
        \xfd\x02\x22\xe8\xff\x84\x00\xfd\x01\x38\x81\x0a",
    part: b"\x05\xfe\x4e\x20\x02\xff\xc8",
    tail: b"\x03\x04\x00\x06\x03\x02\x00\x01",
    head_line: "{\"define\":66,\"elem\":2,\"kind\":\"slice\",\"name\":\"\"}\n{\"type\":66,\"value\":[5",
    part_line: ",-3,10000,1,100",
    tail_line: "]}\n{\"type\":2,\"value\":3}\n{\"type\":1,\"value\":true}\n",
};

/// A slice of strings, of which the first is empty.
pub(crate) const STRINGS: Large = Large {
    what: "strings",
    head: b"\x0c\xff\x83\x02\x01\x02\xff\x84\x00\x01\x0c\x00\x00\
        \xfd\x02\x71\x07\xff\x84\x00\xfe\x9c\x41\x00",
    part: b"\x03a\"b\x03xyz",
    tail: b"\x03\x04\x00\x06",
    head_line: "{\"define\":66,\"elem\":6,\"kind\":\"slice\",\"name\":\"\"}\n{\"type\":66,\"value\":[\"\"",
    part_line: ",\"a\\\"b\",\"xyz\"",
    tail_line: "]}\n{\"type\":2,\"value\":3}\n",
};

/// A map of strings to ints.
pub(crate) const PAIRS: Large = Large {
    what: "pairs",
    head: b"\x0e\xff\x83\x04\x01\x02\xff\x84\x00\x01\x0c\x01\x04\x00\x00\
        \xfd\x03\xa9\x89\xff\x84\x00\xfd\x01\x38\x81\x00\x0a",
    part: b"\x01k\x0a\x01k\x09\x01l\x0a\x01k\x0a",
    tail: b"\x03\x04\x00\x06",
    head_line: "{\"define\":66,\"elem\":2,\"key\":6,\"kind\":\"map\",\"name\":\"\"}\n{\"type\":66,\"value\":[[\"\",5]",
    part_line: ",[\"k\",5],[\"k\",-5],[\"l\",5],[\"k\",5]",
    tail_line: "]}\n{\"type\":2,\"value\":3}\n",
};

/// A slice of structs of an int and a string, of which the first has no field.
pub(crate) const RECORDS: Large = Large {
    what: "records",
    head: b"\x0d\xff\x83\x02\x01\x02\xff\x84\x00\x01\xff\x86\x00\x00\
        \x18\xff\x85\x03\x01\x02\xff\x86\x00\x01\x02\x01\x01A\x01\x04\x00\x01\x01B\x01\x0c\x00\x00\x00\
        \xfd\x02\x71\x07\xff\x84\x00\xfe\x4e\x21\x00",
    part: b"\x01\x0a\x01\x03x\"y\x00",
    tail: b"\x03\x04\x00\x06",
    head_line: "{\"define\":66,\"elem\":67,\"kind\":\"slice\",\"name\":\"\"}\n\
        {\"define\":67,\"fields\":[[\"A\",2],[\"B\",6]],\"kind\":\"struct\",\"name\":\"\"}\n\
        {\"type\":66,\"value\":[[]",
    part_line: ",[[0,\"A\",5],[1,\"B\",\"x\\\"y\"]]",
    tail_line: "]}\n{\"type\":2,\"value\":3}\n",
};

/// A head, a part 20000 times, and a tail.
pub(crate) fn repeated(
    alloc: Global,
    head: &[u8],
    part: &[u8],
    tail: &[u8],
) -> Result<Vec<u8>, AllocError> {
    let mut bytes = head.to_vec(alloc)?;
    for _ in 0..20000 {
        bytes.extend_from_slice(part)?;
    }
    bytes.extend_from_slice(tail)?;
    Ok(bytes)
}

impl Large {
    /// The stream.
    pub(crate) fn stream(&self, alloc: Global) -> Result<Vec<u8>, AllocError> {
        repeated(alloc, self.head, self.part, self.tail)
    }

    /// Its lines.
    pub(crate) fn lines(&self, alloc: Global) -> Result<Vec<u8>, AllocError> {
        let (head, part, tail) = (self.head_line, self.part_line, self.tail_line);
        repeated(alloc, head.as_bytes(), part.as_bytes(), tail.as_bytes())
    }
}
