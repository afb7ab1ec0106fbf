//! What is wrong with a line, and where.

ghost use Rattle.std.specs.Prelude.{◌≡◌};
ghost use Rattle.gob_lines.specs.Reads.{IsWrong};

use crate::path::PathStep;
use gob_num::Memory;
use gob_types::Name;
use std::alloc::{AllocError, Global};
use std::fmt;

/// What is due where a line says something else.
#[derive(Clone, Copy, Debug, PartialEq, Eq)]
pub enum Due {
    /// The line is text.
    Text,
    /// A line begins with `{"define":` or `{"type":`.
    Head,
    /// The key of the next member.
    Key(&'static str),
    /// One of the kinds of types.
    Kind,
    /// A member of a definition, or the end of its object.
    Part,
    /// A member of a definition, of another key than those before.
    NewPart,
    /// A definition without a member of this key, which types of its kind haven't.
    Without(&'static str),
    /// The array of a value's parts, or of a pair's or a field's.
    Array,
    /// So many elements of an array.
    Elements(u64),
    /// The end of an array.
    ArrayEnd,
    /// The end of an object.
    ObjectEnd,
    /// The end of the line.
    LineEnd,
    /// `true` or `false`.
    Bool,
    /// A whole number from -9223372036854775808 to 9223372036854775807.
    Int,
    /// A whole number from 0 to 18446744073709551615.
    Uint,
    /// A string of 16 digits of lower case hexadecimal.
    Pattern,
    /// A string of pairs of digits of lower case hexadecimal.
    Hex,
    /// A string, or `{"hex":"..."}` of bytes that are no UTF-8.
    Str,
    /// The bytes of an opaque value.
    Opaque,
    /// `null`.
    Nil,
    /// The number of a field of the struct, above that of the field before.
    FieldNumber,
    /// The name of the field of this number.
    FieldName,
    /// A type that the lines before define, with all that it leads to.
    Type,
    /// No deeper value.
    Shallower,
    /// A shape that a description can give.
    Definable,
    /// A string of base64 with padding.
    Base64,
    /// A number that a float holds, or the name of one that isn't finite.
    Float,
    /// A time in RFC 3339.
    Time,
    /// A whole number of any size.
    WholeNumber,
    /// A string of the text of an opaque value.
    OpaqueText,
    /// An object of the fields of a struct.
    Object,
    /// The pairs of a map.
    Pairs,
    /// The name of a field of the struct.
    Member,
    /// The name of a field that no member before has.
    NewMember,
    /// An array of so many elements at most.
    AtMost(u64),
    /// All elements of an array, where too many zeros would stand for the missing ones.
    AllElements,
    /// A value, where `null` stands for no zero.
    NoNull,
    /// What goes on the JSON.
    Json,
    /// `null`, or what an interface holds.
    Held,
    /// The name of the type of what an interface holds.
    HeldName,
}

impl fmt::Display for Due {
    fn fmt<W: fmt::Write>(&self, f: &mut fmt::Formatter<W>) -> fmt::Result {
        match self {
            Due::Key(key) => write!(f, "the key \"{key}\""),
            Due::Without(key) => write!(f, "a definition of its kind without the key \"{key}\""),
            Due::Elements(1) => f.write_str("an array of 1 element"),
            Due::Elements(count) => write!(f, "an array of {count} elements"),
            Due::AtMost(most) => write!(f, "an array of {most} elements at most"),
            other => f.write_str(other.words()),
        }
    }
}

impl Due {
    // What is due in words, where these are always the same.
    fn words(&self) -> &'static str {
        match self {
            Due::Text => "UTF-8",
            Due::Head => "{\"define\": or {\"type\":",
            Due::Kind => "a kind: array, slice, struct, map, gob, binary or text",
            Due::Part => "elem, fields, key, kind, len, name or the end of the object",
            Due::NewPart => "another key",
            Due::Without(_) => "a definition of its kind",
            Due::Array | Due::Elements(_) => "an array",
            Due::ArrayEnd => "the end of the array",
            Due::ObjectEnd => "the end of the object",
            Due::LineEnd => "the end of the line",
            Due::Bool => "true or false",
            Due::Int => "a whole number of 64 bits",
            Due::Uint => "a whole number from 0 to 18446744073709551615",
            Due::Pattern => "a string of 16 digits of lower case hexadecimal",
            Due::Hex => "a string of lower case hexadecimal",
            Due::Str => "a string, or {\"hex\":\"..\"} of bytes that are no UTF-8",
            Due::Opaque => "{\"opaque\":\"..\"}",
            Due::Nil => "null",
            Due::Key(_) => "a key",
            Due::FieldNumber => "the number of a later field of the struct",
            Due::FieldName => "the name of this field",
            Due::Type => "a type that the lines before define, with what it leads to",
            Due::Shallower => "a value that is less deep",
            Due::Base64 => "a string of base64 with padding",
            Due::Float => "a number that a float holds, \"NaN\", \"Infinity\" or \"-Infinity\"",
            Due::Time => "a time as \"2006-01-02T15:04:05Z\", of the years 1 to 9999",
            Due::WholeNumber => "a whole number",
            Due::OpaqueText => "a string of the type's own text",
            Due::Object => "an object",
            Due::Pairs => "an object, or an array of [key,element]",
            Due::Member => "a field of the struct",
            Due::NewMember => "a field that no member before has",
            Due::AtMost(_) | Due::AllElements => "an array of all its elements",
            Due::Json => "the rest of a JSON value",
            Due::NoNull => "a value that isn't null",
            Due::Held => "null or {\"interface\":{\"name\":..,\"type\":..,\"value\":..}}",
            Due::HeldName => "the name of a type, of one character at least",
            Due::Definable =>
                "a definition that names ids from 1 to 2147483647 and a length of 63 bits at most",
        }
    }
}

/// What is wrong with a line, and where.
#[derive(Drop)]
pub struct Wrong {
    /// The offset in the line, in bytes from 0.
    pub at: usize,
    /// What is due there.
    pub due: Due,
    /// The steps to there in the value, from the last to the first, as far as there was memory.
    pub path: Vec<PathStep>,
}

impl Wrong {
    /// What is wrong, at the token itself, in place of the end of the one before.
    pub fn placed(self, line: &str) -> Wrong {
        let Wrong { at, due, path } = self;
        let rest = line.as_bytes().get(at..).unwrap_or(&[]);
        let between = rest.iter().position(|byte| !is_between(*byte));
        Wrong {
            at: at.saturating_add(between.unwrap_or(0)),
            due,
            path,
        }
    }
}

// Whether the byte stands between two tokens.
fn is_between(byte: u8) -> bool {
    matches!(byte, b' ' | b'\t' | b'\r' | b'\n' | b',' | b':')
}

/// Why a line says no item.
#[derive(Drop)]
pub enum LineFault {
    /// It isn't the line of any item by these types.
    Wrong(Wrong),
    /// No memory was had.
    Memory,
}

impl LineFault {
    /// That of a line that is text up to this offset alone.
    pub fn no_text(alloc: Global, at: usize) -> LineFault {
        LineFault::due(alloc, at, Due::Text)
    }

    /// That of a line in which this is due at the offset.
    pub fn due(alloc: Global, at: usize, due: Due) -> LineFault {
        LineFault::Wrong(Wrong {
            at,
            due,
            path: Vec::new(alloc),
        })
    }

    /// The fault of a value that a step leads to, as one of the value around it.
    pub fn within(self, step: PathStep) -> LineFault
        ensures { IsWrong result → IsWrong self }
    {
        match self {
            LineFault::Wrong(Wrong { at, due, path }) => {
                let mut path = path;
                // Without memory the path is shorter.
                let _ = path.push(step);
                LineFault::Wrong(Wrong { at, due, path })
            }
            LineFault::Memory => LineFault::Memory,
        }
    }

    /// The fault of the value of this field, as one of the struct.
    pub fn within_field(self, alloc: Global, name: &Name) -> LineFault
        ensures { IsWrong result → IsWrong self }
    {
        match Vec::from_slice(alloc, name.as_bytes()) {
            Ok(bytes) => self.within(PathStep::Field(Name::new(bytes))),
            Err(_) => self,
        }
    }
}

impl From<AllocError> for LineFault {
    ghost use Rattle.std.specs.Prelude.{◌≡◌};
    ghost use Rattle.gob_lines.specs.declared.fault.LineFault.TheVariants.{Memory};

    ghost from_gives = { λ _ fault. fault ≡ Memory };

    fn from(_: AllocError) -> LineFault {
        LineFault::Memory
    }
}

impl From<Memory> for LineFault {
    ghost use Rattle.std.specs.Prelude.{◌≡◌};
    ghost use Rattle.gob_lines.specs.declared.fault.LineFault.TheVariants.{Memory};

    ghost from_gives = { λ _ fault. fault ≡ Memory };

    fn from(_: Memory) -> LineFault {
        LineFault::Memory
    }
}
