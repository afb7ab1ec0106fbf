//! The limits of a stream.

ghost use Rattle.std.specs.Prelude.{◌≡◌, ◌<◌, ◌≤◌, ◌↔◌, IsSome, IfSome};
ghost use Rattle.gob_stream.specs.Bounds.{Bounds, AreLimits, greatest_depth, deepest, no_deeper};

use std::marker::Model;

/// The limits that a reader or a writer keeps to. What lies beyond one is refused.
#[derive(Clone, Copy, Debug, PartialEq, Eq)]
pub struct Limits {
    item: u64,
    depth: u64,
    types: u64,
    stream: u64,
}

impl Model for Limits {
    ghost use Rattle.gob_stream.specs.Bounds.{Bounds, AreLimits, deepest};

    ghost Value = { Bounds };

    ghost view = { λ s. record { item = s.item; depth = s.depth; types = s.types; stream = s.stream } };

    ghost invariant = { λ s.
        AreLimits deepest (record { item = s.item; depth = s.depth; types = s.types; stream = s.stream }) };

    ghost inverse = { λ s. record { item = s.item; depth = s.depth; types = s.types; stream = s.stream } };
}

impl Limits {
    /// The greatest depth of a value that [`Limits::new`] allows, and of any value that is kept as a tree.
    pub const GREATEST_DEPTH: u64 = 1000;
    /// The greatest depth of a value that [`Limits::deep`] allows.
    pub const DEEPEST: u64 = 65536;
    /// The greatest length of a stream that can be allowed, in bytes.
    pub const GREATEST_STREAM: u64 = 9223372036854775807;

    /// Limits of `item` bytes for an item's body, `depth` for the depth of a value or a description, `types`
    /// definitions, and `stream` bytes for the whole stream. None exactly where `depth` is 0 or above 1000, or
    /// `stream` is above 9223372036854775807.
    pub fn new(item: u64, depth: u64, types: u64, stream: u64) -> Option<Limits>
        ensures some { IsSome result
            ↔ AreLimits greatest_depth (record { item = item; depth = depth; types = types; stream = stream }) }
        ensures given { IfSome result (λ limits. limits
            ≡ record { item = item; depth = depth; types = types; stream = stream }) }
    {
        Limits::within(Limits::GREATEST_DEPTH, item, depth, types, stream)
    }

    /// Limits as [`Limits::new`] makes them, but for readers whose builder makes no tree, and for writing what they
    /// made. `depth` goes further: None exactly where `depth` is 0 or above 65536, or `stream` is above
    /// 9223372036854775807. What reads or writes values as trees keeps to a depth of 1000 under these limits too.
    pub fn deep(item: u64, depth: u64, types: u64, stream: u64) -> Option<Limits>
        ensures some { IsSome result
            ↔ AreLimits deepest (record { item = item; depth = depth; types = types; stream = stream }) }
        ensures given { IfSome result (λ limits. limits
            ≡ record { item = item; depth = depth; types = types; stream = stream }) }
    {
        Limits::within(Limits::DEEPEST, item, depth, types, stream)
    }

    // These limits, where they are limits no deeper than the most.
    fn within(most: u64, item: u64, depth: u64, types: u64, stream: u64) -> Option<Limits>
        requires { most ≤ deepest }
        ensures some { IsSome result
            ↔ AreLimits most (record { item = item; depth = depth; types = types; stream = stream }) }
        ensures given { IfSome result (λ limits. limits
            ≡ record { item = item; depth = depth; types = types; stream = stream }) }
    {
        if depth == 0 || depth > most || stream > Limits::GREATEST_STREAM {
            return None;
        }
        Some(Limits {
            item,
            depth,
            types,
            stream,
        })
    }

    /// The limits that serve most streams: items of 64 MiB, depth 1000, 10000 definitions, streams of 64 GiB.
    pub fn standard() -> Limits
        ensures { result ≡ record { item = 67108864; depth = 1000; types = 10000; stream = 68719476736 } }
    {
        Limits {
            item: 67108864,
            depth: 1000,
            types: 10000,
            stream: 68719476736,
        }
    }

    /// The most bytes of an item's body.
    pub fn item(&self) -> u64
        ensures { result ≡ self.now.item }
    {
        self.item
    }

    /// The greatest depth of a value or a description, 1 to 65536.
    pub fn depth(&self) -> u64
        ensures depth { result ≡ self.now.depth }
        ensures limits { AreLimits deepest self.now }
    {
        self.depth
    }

    /// These limits with the lesser of their depth and this one, which is above 0.
    pub fn up_to(&self, depth: u64) -> Limits
        requires { 0 < depth }
        ensures { result ≡ no_deeper depth self.now }
    {
        let Limits {
            item,
            depth: greatest,
            types,
            stream,
        } = *self;
        Limits {
            item,
            depth: greatest.min(depth),
            types,
            stream,
        }
    }

    /// The most definitions.
    pub fn types(&self) -> u64
        ensures types { result ≡ self.now.types }
        ensures limits { AreLimits deepest self.now }
    {
        self.types
    }

    /// The most bytes of the whole stream, at most 9223372036854775807.
    pub fn stream(&self) -> u64
        ensures stream { result ≡ self.now.stream }
        ensures limits { AreLimits deepest self.now }
    {
        self.stream
    }
}
