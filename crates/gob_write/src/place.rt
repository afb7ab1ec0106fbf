//! Places in an input, as people count them.

ghost use Rattle.std.specs.Prelude.{◌≡◌};
ghost use Rattle.gob_write.specs.Place.{first_place, next_place, place_from};

/// A place in an input. Both numbers stay at 18446744073709551615 once there.
#[derive(Clone, Copy, Debug, PartialEq, Eq)]
pub(crate) struct Place {
    /// The line, from 1.
    pub line: u64,
    /// The column, in bytes from 1.
    pub column: u64,
}

impl Place {
    /// The place of the first byte.
    pub(crate) fn first() -> Place
        ensures { result ≡ first_place }
    {
        Place { line: 1, column: 1 }
    }

    /// The place behind these bytes, which stand here.
    pub(crate) fn behind(self, bytes: &[u8]) -> Place
        ensures { result ≡ place_from self bytes.now }
    {
        let mut place = self;
        'bytes: for byte in bytes {
            place = place.next(*byte);
        }
        place
    }

    /// The place behind a byte that stands here.
    pub(crate) fn next(self, byte: u8) -> Place
        ensures { result ≡ next_place self byte }
    {
        if byte == b'\n' {
            return Place {
                line: self.line.saturating_add(1),
                column: 1,
            };
        }
        Place {
            line: self.line,
            column: self.column.saturating_add(1),
        }
    }
}
