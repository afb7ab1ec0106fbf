//! The numbers of the reasons for which bytes are refused, and what is printed of them.
use gob_num::Memory;
use gob_types::{Reason, TypeId};
use std::alloc::{AllocError, Global};

// The reasons in the order of their numbers, the first of which is 1.
static REASONS: [(Reason, &str); 23] = [
    (Reason::BadHead, "BadHead"),
    (Reason::NotMinimal, "NotMinimal"),
    (Reason::ItemTooLong, "ItemTooLong"),
    (Reason::StreamTooLong, "StreamTooLong"),
    (Reason::Short, "Short"),
    (Reason::Extra, "Extra"),
    (Reason::ReservedType(TypeId(65)), "ReservedType(65)"),
    (Reason::DefinedTwice(TypeId(65)), "DefinedTwice(65)"),
    (Reason::TooManyTypes, "TooManyTypes"),
    (Reason::UndefinedType(TypeId(65)), "UndefinedType(65)"),
    (Reason::Bottomless(TypeId(65)), "Bottomless(65)"),
    (Reason::SingleTag, "SingleTag"),
    (Reason::Bool, "Bool"),
    (Reason::ArrayCount, "ArrayCount"),
    (Reason::FieldNumber, "FieldNumber"),
    (Reason::InterfaceValue, "InterfaceValue"),
    (Reason::TooDeep, "TooDeep"),
    (Reason::KindCount, "KindCount"),
    (Reason::WrongId, "WrongId"),
    (Reason::BadReference, "BadReference"),
    (Reason::BadLength, "BadLength"),
    (Reason::Ended, "Ended"),
    (Reason::DoesNotFit, "DoesNotFit"),
];

// Whether the reason has this number, and this is printed of it.
fn is_told(alloc: Global, reason: Reason, number: usize, text: &str) -> bool {
    match reason.to_string(alloc) {
        Ok(printed) => printed.as_str() == text && usize::from(reason.number()) == number,
        Err(_) => false,
    }
}

#[test]
fn reasons_have_numbers_and_names(rt: HostRuntime) {
    for (i, (reason, text)) in REASONS.iter().enumerate() {
        assert!(rt; is_told(rt.alloc(), *reason, i + 1, text), "{text}");
    }
}

// What is printed of a type id and of want of memory.
fn are_others_printed(alloc: Global) -> Result<bool, AllocError> {
    let id = TypeId(65);
    let printed = format!(in alloc; "{id}: {Memory}")?;
    Ok(printed.as_str() == "65: out of memory")
}

#[test]
fn others_are_printed(rt: HostRuntime) {
    assert!(rt;
        are_others_printed(rt.alloc()) == Ok(true),
        "a type id and want of memory"
    );
}
