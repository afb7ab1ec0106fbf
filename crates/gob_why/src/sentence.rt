//! Each reason in a sentence, and what is usually behind it.

use crate::scene::FIRST_DEFINED;
use gob_types::Reason;

const CHANGED: &str =
    "These bytes were changed, or something else stands in the file from here on.";

const FIRST: &str = "This is no gob stream, or these bytes were changed.";

const WRITER: &str =
    "Go's encoder doesn't write this. Either these bytes were changed, or another program wrote the file.";

/// Where the file is to come from once more.
pub(crate) const FETCH: &str =
    "Get the file once more from where it comes from, in binary, and compare its size or checksum.";

/// Where the file is to come from once more, and how else to have the items in front, which are whole, and others.
pub(crate) const SALVAGE: &str =
    "Get the file once more from where it comes from, or read what isn't damaged: gob values --salvage IN";

/// What is wrong.
pub(crate) fn what(reason: Reason) -> &'static str {
    match reason {
        Reason::BadHead => "No number begins with this byte.",
        Reason::NotMinimal => "This number is spelled in more bytes than it needs.",
        Reason::ItemTooLong => {
            "More bytes are announced here than the limit allows, or what is around them."
        }
        Reason::StreamTooLong => "The stream would be longer than 64 GiB.",
        Reason::Short => "The item ends here, and its value isn't complete.",
        Reason::Extra => "The value is complete here, and its item goes on.",
        Reason::ReservedType(_) => "A type is defined under a number that no type may have.",
        Reason::DefinedTwice(_) => "A type is defined under a number that has one already.",
        Reason::TooManyTypes => "More than 10,000 types are defined.",
        Reason::UndefinedType(_) =>
            "A value has a type that isn't defined, or leads to one that isn't.",
        Reason::Bottomless(_) => {
            "A value has a type of arrays that hold themselves, of which there is no value."
        }
        Reason::SingleTag => "Before a value that is no struct a byte other than 0 stands.",
        Reason::Bool => "A bool is neither 0 nor 1.",
        Reason::ArrayCount => "An array has another length than its type says.",
        Reason::FieldNumber => "A struct has no such field.",
        Reason::InterfaceValue => "An interface holds a value here.",
        Reason::TooDeep => "Parts lie in one another deeper than the limit allows.",
        Reason::KindCount => "A definition gives no kind of type, or more than one.",
        Reason::WrongId => "A definition names another number than the type that it defines.",
        Reason::BadReference => "A definition leads to a number that no type can have.",
        Reason::BadLength => "A definition gives an array a length below 0.",
        Reason::Ended => "The file ends within an item.",
        Reason::DoesNotFit => "The value is none of its type.",
    }
}

/// What is usually behind it, where so many items stand before.
pub(crate) fn usual_cause(reason: Reason, items: u64) -> &'static str {
    match reason {
        Reason::NotMinimal
        | Reason::Bottomless(_)
        | Reason::KindCount
        | Reason::WrongId
        | Reason::BadReference
        | Reason::BadLength
        | Reason::DoesNotFit => WRITER,
        Reason::UndefinedType(id) if id.0 >= FIRST_DEFINED => {
            "A definition before this value is missing: definitions come first, and once only."
        }
        Reason::TooDeep => {
            "Either the value is deep, as a long linked list is, or these bytes were changed."
        }
        _ if items == 0 => FIRST,
        _ => CHANGED,
    }
}

/// What to do then, where IN is the file.
pub(crate) fn usual_step(reason: Reason, items: u64) -> &'static str {
    match reason {
        Reason::TooDeep =>
            "If the values are meant to be so deep, type: gob check --depth 65536 IN",
        Reason::UndefinedType(id) if id.0 >= FIRST_DEFINED =>
            "Get the file from its first byte on.",
        _ if items == 0 => FETCH,
        _ => SALVAGE,
    }
}
