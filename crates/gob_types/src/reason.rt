//! Why bytes or values are refused.

ghost use Rattle.std.specs.Prelude.{◌≡◌};
ghost use Rattle.gob_types.specs.Reasons.{reason_number, reason_name, reason_id};

use crate::id::TypeId;
use std::fmt;

/// Why bytes are no gob stream, or a value is not written. Each reason has a number, `number`, and a name,
/// which Display writes, with the type id where there is one, as `UndefinedType(65)`.
#[derive(Clone, Copy, Debug, PartialEq, Eq)]
pub enum Reason {
    /// 1: the first byte of a number is none that a number begins with.
    BadHead,
    /// 2: a number is spelled with more bytes than it needs.
    NotMinimal,
    /// 3: an item's count is above the limit for items.
    ItemTooLong,
    /// 4: an item would end beyond the limit for the stream.
    StreamTooLong,
    /// 5: an item ends before its value does.
    Short,
    /// 6: an item goes on after its value.
    Extra,
    /// 7: a definition is of an id below 64 or above 2147483647.
    ReservedType(TypeId),
    /// 8: a definition is of an id that is defined already.
    DefinedTwice(TypeId),
    /// 9: as many definitions as the limit allows are there already.
    TooManyTypes,
    /// 10: a value's type leads to this id, which isn't defined.
    UndefinedType(TypeId),
    /// 11: a value's type leads to this id, an array that has no finite value.
    Bottomless(TypeId),
    /// 12: the tag before a value that is no struct isn't 0.
    SingleTag,
    /// 13: the number of a bool is above 1.
    Bool,
    /// 14: an array's count isn't its type's length.
    ArrayCount,
    /// 15: a delta leads to no field of the struct.
    FieldNumber,
    /// 16: an interface holds a value.
    InterfaceValue,
    /// 17: a part lies deeper than the limit.
    TooDeep,
    /// 18: a description gives no kind, or more than one.
    KindCount,
    /// 19: a description's id isn't the id that is defined.
    WrongId,
    /// 20: a description refers to no possible type id.
    BadReference,
    /// 21: a description's array length is below 0.
    BadLength,
    /// 22: the input ends inside an item.
    Ended,
    /// 23: a value isn't one of its type. Only writers answer it.
    DoesNotFit,
}

impl Reason {
    /// The reason's number, 1 to 23.
    pub fn number(&self) -> u8
        ensures { result ≡ reason_number self.now }
    {
        match self {
            Reason::BadHead => 1,
            Reason::NotMinimal => 2,
            Reason::ItemTooLong => 3,
            Reason::StreamTooLong => 4,
            Reason::Short => 5,
            Reason::Extra => 6,
            Reason::ReservedType(_) => 7,
            Reason::DefinedTwice(_) => 8,
            Reason::TooManyTypes => 9,
            Reason::UndefinedType(_) => 10,
            Reason::Bottomless(_) => 11,
            Reason::SingleTag => 12,
            Reason::Bool => 13,
            Reason::ArrayCount => 14,
            Reason::FieldNumber => 15,
            Reason::InterfaceValue => 16,
            Reason::TooDeep => 17,
            Reason::KindCount => 18,
            Reason::WrongId => 19,
            Reason::BadReference => 20,
            Reason::BadLength => 21,
            Reason::Ended => 22,
            Reason::DoesNotFit => 23,
        }
    }

    // The reason's name, which is that of its variant.
    fn name(&self) -> &'static str
        ensures { result.now ≡ reason_name self.now }
    {
        match self {
            Reason::BadHead => "BadHead",
            Reason::NotMinimal => "NotMinimal",
            Reason::ItemTooLong => "ItemTooLong",
            Reason::StreamTooLong => "StreamTooLong",
            Reason::Short => "Short",
            Reason::Extra => "Extra",
            Reason::ReservedType(_) => "ReservedType",
            Reason::DefinedTwice(_) => "DefinedTwice",
            Reason::TooManyTypes => "TooManyTypes",
            Reason::UndefinedType(_) => "UndefinedType",
            Reason::Bottomless(_) => "Bottomless",
            Reason::SingleTag => "SingleTag",
            Reason::Bool => "Bool",
            Reason::ArrayCount => "ArrayCount",
            Reason::FieldNumber => "FieldNumber",
            Reason::InterfaceValue => "InterfaceValue",
            Reason::TooDeep => "TooDeep",
            Reason::KindCount => "KindCount",
            Reason::WrongId => "WrongId",
            Reason::BadReference => "BadReference",
            Reason::BadLength => "BadLength",
            Reason::Ended => "Ended",
            Reason::DoesNotFit => "DoesNotFit",
        }
    }

    // The type that it speaks of.
    fn id(&self) -> Option<TypeId>
        ensures { result ≡ reason_id self.now }
    {
        match self {
            Reason::ReservedType(id)
            | Reason::DefinedTwice(id)
            | Reason::UndefinedType(id)
            | Reason::Bottomless(id) => Some(*id),
            _ => None,
        }
    }
}

impl fmt::Display for Reason {
    ghost use Rattle.std.specs.Prelude.{Some};
    ghost use Rattle.gob_types.specs.Reasons.{reason_text};

    ghost output = { λ reason. Some (reason_text reason) };

    fn fmt<W: fmt::Write>(&self, f: &mut fmt::Formatter<W>) -> fmt::Result {
        let name = self.name();
        match self.id() {
            Some(id) => write!(f, "{name}({id})"),
            None => f.write_str(name),
        }
    }
}
