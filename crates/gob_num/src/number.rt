//! A number that is read one byte after another.
use crate::unsigned::{LEAST_HEAD, Taken, digits_after, is_padded, take_uint};
use std::marker::Model;

/// What the bytes of a number so far are.
#[derive(Clone, Copy, Debug, PartialEq, Eq)]
pub enum Step {
    /// A proper prefix of a spelling: the number goes on.
    More,
    /// The spelling of this number, whole.
    Done(u64),
    /// The first byte begins no number: it is one of `80` to `f7`.
    BadHead,
    /// The second byte shows that fewer digits would hold the number, so this is not its spelling.
    NotMinimal,
}

/// An unsigned number under way, which contracts see as the list of the bytes that it has taken.
#[derive(Debug, Drop)]
pub struct Number {
    // How many digits the head counts; 0 before the head.
    count: u8,
    // How many of them are still to come.
    left: u8,
    // What the digits so far stand for.
    value: u64,
}

impl Model for Number {
    ghost use Rattle.std.specs.Prelude.{ℕ, List};
    ghost use Rattle.gob_num.specs.Machine.Counters.{pushed, AreCounters};

    ghost Value = { List ℕ };

    ghost view = { λ s. pushed s.count s.left s.value };

    ghost invariant = { λ s. AreCounters s.count s.left s.value };
}

impl Number {
    ghost use Rattle.std.specs.Prelude.{◌≡◌, [], ◌∷◌, ◌++◌};
    ghost use Rattle.gob_num.specs.Step.{Judges, next};
    ghost use Rattle.gob_num.specs.Taken.{TakesOn, left};

    /// A number that has taken no byte.
    pub fn new() -> Self
        ensures { result ≡ [] }
    {
        Number {
            count: 0,
            left: 0,
            value: 0,
        }
    }

    /// Takes the next byte, and says what the bytes since `new` are. After any answer but [`Step::More`] the
    /// number is as new, and the next byte begins another.
    pub fn push(&mut self, b: u8) -> Step
        ensures judged { Judges (self.old ++ b ∷ []) result }
        ensures next { self.new ≡ next result (self.old ++ b ∷ []) }
    {
        if self.count == 0 {
            return self.begin(b);
        }
        if self.left == self.count && is_padded(self.count, b) {
            *self = Number::new();
            return Step::NotMinimal;
        }
        let value = self.value * 256 + u64::from(b);
        if self.left == 1 {
            *self = Number::new();
            return Step::Done(value);
        }
        self.value = value;
        self.left -= 1;
        Step::More
    }

    /// Takes bytes from the front of the piece until the number is whole, and says what stands there behind the bytes
    /// since `new`. After any answer but [`Taken::More`] the number is as new.
    pub fn take(&mut self, piece: &[u8]) -> Taken
        ensures taken { TakesOn self.old piece.now result }
        ensures left { self.new ≡ left result (self.old ++ piece.now) }
    {
        if self.count > 0 {
            return self.take_by_bytes(piece);
        }
        match take_uint(piece) {
            Taken::More => self.take_by_bytes(piece),
            taken => taken,
        }
    }

    /// Takes bytes from the front of the piece, one by one, until the number is whole.
    pub(crate) fn take_by_bytes(&mut self, piece: &[u8]) -> Taken
        ensures taken { TakesOn self.old piece.now result }
        ensures left { self.new ≡ left result (self.old ++ piece.now) }
    {
        let _prefix = self.count;
        for (i, b) in piece.iter().enumerate() {
            match self.push(*b) {
                Step::More => {}
                Step::Done(number) => return Taken::Whole {
                    number,
                    used: i + 1,
                },
                Step::BadHead => return Taken::BadHead,
                Step::NotMinimal => return Taken::NotMinimal,
            }
        }
        Taken::More
    }

    // Takes the first byte.
    fn begin(&mut self, b: u8) -> Step
        requires { self.old ≡ [] }
        ensures judged { Judges (b ∷ []) result }
        ensures next { self.new ≡ next result (b ∷ []) }
    {
        if b < 128 {
            return Step::Done(u64::from(b));
        }
        if b < LEAST_HEAD {
            return Step::BadHead;
        }
        let count = digits_after(b);
        *self = Number {
            count,
            left: count,
            value: 0,
        };
        Step::More
    }
}

impl Default for Number {
    ghost use Rattle.std.specs.Prelude.{◌≡◌, []};

    ghost is_default = { λ number. number ≡ [] };

    fn default() -> Self {
        Number::new()
    }
}
