//! How many encoders wrote, as far as definitions show: one encoder says each of its definitions once.

ghost use Rattle.std.specs.Prelude.{◌≡◌, length, min};

// So many places are kept.
const MOST: usize = 10;

/// The encoders behind the first one.
#[derive(Clone, Copy, Drop)]
pub(crate) struct Encoders {
    count: u64,
    // Where the first of them were seen, and zeros behind that.
    places: [u64; MOST],
}

impl Encoders {
    /// None.
    pub(crate) fn new() -> Encoders {
        Encoders {
            count: 0,
            places: [0; MOST],
        }
    }

    /// How many there are.
    pub(crate) fn count(&self) -> u64
        ensures { result ≡ self.now.count }
    {
        self.count
    }

    /// The offsets in the input at which the first ten of them were seen.
    pub(crate) fn places(&self) -> &[u64]
        ensures { length result.now ≡ min self.now.count 10 }
    {
        let count = self.count.min(MOST as u64);
        &self.places[..count as usize]
    }

    /// One more is seen at this offset of the input.
    pub(crate) fn begin(&mut self, place: u64) {
        if self.count < MOST as u64 {
            self.places[self.count as usize] = place;
        }
        self.count = self.count.saturating_add(1);
    }
}
