//! Bodies to read.

/// A body, or as much of one as comes, and what is due of it.
pub struct Body {
    /// The type of its value.
    pub id: u64,
    /// How many bytes are announced.
    pub length: u64,
    /// The greatest depth of a part.
    pub depth: u64,
    /// The bytes that come.
    pub bytes: Vec<u8>,
    /// What is due, in numbers: what they say is the list's.
    pub due: Vec<u64>,
}

// Not derived, so that a drop is one call in the proofs of what owns one.
impl Drop for Body {
    fn drop(self) {
        let Body {
            id: _,
            length: _,
            depth: _,
            bytes: _,
            due: _,
        } = self;
    }
}

impl Body {
    /// The bytes of its value: those behind the tag, unless it is a struct's, which has none and begins with no 0 but
    /// that at its end.
    pub fn untagged(&self) -> &[u8] {
        match self.bytes.split_first() {
            Some((0, value)) if !value.is_empty() => value,
            _ => &self.bytes,
        }
    }
}
