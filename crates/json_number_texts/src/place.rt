//! Where in JSON text one stands.

ghost use Rattle.std.specs.Prelude.{◌≡◌};
ghost use Rattle.json_number_texts.specs.Texts.{after, begins_number, goes_on, is_edge, opened};

/// Where in JSON text one stands, behind the bytes so far.
#[derive(Clone, Copy)]
pub enum Place {
    /// Outside of numbers and strings: where a text begins.
    Outside,
    /// In a number, which may go on.
    InNumber,
    /// In a string.
    InString,
    /// In a string, behind the backslash of an escape.
    BehindBackslash,
}

impl Place {
    /// Whether a quote stands before this byte: a number begins with it, or has ended.
    pub(crate) fn is_edge(self, byte: u8) -> bool
        ensures { result ≡ is_edge self byte }
    {
        match self {
            Place::Outside => begins_number(byte),
            Place::InNumber => !goes_on(byte),
            Place::InString | Place::BehindBackslash => false,
        }
    }

    /// Where one stands behind this byte.
    pub(crate) fn after(self, byte: u8) -> Place
        ensures { result ≡ after self byte }
    {
        match self {
            Place::InNumber if goes_on(byte) => Place::InNumber,
            Place::Outside | Place::InNumber => Place::opened(byte),
            Place::InString if byte == b'"' => Place::Outside,
            Place::InString if byte == b'\\' => Place::BehindBackslash,
            Place::InString | Place::BehindBackslash => Place::InString,
        }
    }

    // Where one stands behind a byte that belongs to no number or string before it.
    fn opened(byte: u8) -> Place
        ensures { result ≡ opened byte }
    {
        if byte == b'"' {
            return Place::InString;
        }
        if begins_number(byte) {
            return Place::InNumber;
        }
        Place::Outside
    }
}

// Whether a number may begin with the byte.
fn begins_number(byte: u8) -> bool
    ensures { result ≡ begins_number byte }
{
    byte.is_ascii_digit() || byte == b'-'
}

// Whether the byte may stand in a number.
fn goes_on(byte: u8) -> bool
    ensures { result ≡ goes_on byte }
{
    byte.is_ascii_digit() || matches!(byte, b'-' | b'+' | b'.' | b'e' | b'E')
}
