//! The types under which plain JSON is read, as those of a stream.

ghost use Rattle.std.specs.Prelude.{◌≡◌, ◌↔◌, ◌++◌, ◌∷◌, ℕ, List, [], Option, Some, IfOk, IsTrue, OnOk};
ghost use Rattle.gob_read.specs.Calls.Builders.{tree_building};
ghost use Rattle.gob_types.specs.Defined.{types};
ghost use Rattle.gob_stream.specs.Bounds.{within_trees};
ghost use Rattle.gob_stream.specs.Calls.Ends.{failed_reads, reader_of};
ghost use Rattle.gob_stream.specs.Calls.Reader.{HasReadFrom, session_of};
ghost use Rattle.gob_stream.specs.Calls.Session.{limits_of, types_of};
ghost use Rattle.gob_stream.specs.Item.{item_view};
ghost use Rattle.gob_stream.specs.Reading.{CountsReads};
ghost use Rattle.gob_words.specs.Words.{IsNumber, text_of};
ghost use Rattle.gob_write.specs.Making.{definitions_of};
ghost use Rattle.gob_write.specs.Types.{CountsTypesReads, FindsNamed, HasName, Names, ReadsDefinitions, ReadsTypes};
ghost use Rattle.gob_write.specs.Types.{basic_types, defined_in, first_type, ids_of, or_else};

use gob_num::Memory;
use gob_read::TreeBuilder;
use gob_stream::{Fault, Input, Item, Limits, Refusal, StreamReader};
use gob_types::{Shapes, Table, TypeId};
use gob_value::Value;
use gob_words::number_of;
use std::alloc::Global;
use std::fmt;
use std::io::Read;

// The types that need no definition.
const BASIC_TYPES: [TypeId; 8] = [
    TypeId(1),
    TypeId(2),
    TypeId(3),
    TypeId(4),
    TypeId(5),
    TypeId(6),
    TypeId(7),
    TypeId(8),
];

/// A definition of a type.
#[derive(Drop)]
pub struct Definition {
    /// The type.
    pub id: TypeId,
    /// Its description, a value of type 16.
    pub described: Value,
}

/// The types under which plain JSON is read.
#[derive(Drop)]
pub struct Types {
    /// All definitions, in the order in which they are written.
    pub definitions: Vec<Definition>,
    /// The type of the values.
    pub id: TypeId,
    /// Whether members that no field has are left out.
    pub lenient: bool,
}

/// Why there are no types. Display writes the line that the program prints, without the line feed.
#[derive(Clone, Copy, Debug, PartialEq, Eq)]
pub enum TypesFault {
    /// The bytes that should have them are no stream.
    Refused(Refusal),
    /// The stream has no value, or no type of the wanted name or id.
    NoType,
    /// A read failed.
    Read,
    /// No memory was had.
    Memory,
}

impl fmt::Display for TypesFault {
    fn fmt<W: fmt::Write>(&self, f: &mut fmt::Formatter<W>) -> fmt::Result {
        match self {
            TypesFault::Refused(refusal) => write!(f, "gob: types: {refusal}"),
            TypesFault::NoType => write!(f, "gob: types: no value, or no type of this name or id"),
            TypesFault::Read => write!(f, "gob: read fault"),
            TypesFault::Memory => write!(f, "gob: out of memory"),
        }
    }
}

impl From<Memory> for TypesFault {
    ghost use Rattle.std.specs.Prelude.{◌≡◌};
    ghost use Rattle.gob_write.specs.declared.types.TypesFault.TheVariants.{Memory};

    ghost from_gives = { λ _ fault. fault ≡ Memory };

    fn from(_: Memory) -> TypesFault {
        TypesFault::Memory
    }
}

impl From<Fault> for TypesFault {
    ghost use Rattle.std.specs.Prelude.{◌≡◌};
    ghost use Rattle.gob_write.specs.Types.{types_fault};

    ghost from_gives = { λ given fault. fault ≡ types_fault given };

    // A reader that met no fault before answers no `Failed`.
    fn from(fault: Fault) -> TypesFault {
        match fault {
            Fault::Refused(refusal) => TypesFault::Refused(refusal),
            Fault::Read => TypesFault::Read,
            Fault::Memory | Fault::Failed => TypesFault::Memory,
        }
    }
}

/// Reads the types of a whole stream: all its definitions, in order. The values are of the type of this name or id, the
/// first of those that are defined there and then of the basic ones, or else of the type of the stream's first value.
/// Where there is none the answer is `TypesFault::NoType`, behind the whole stream. Nothing is kept of the stream's
/// values. No value may be deeper than `limits.depth()` or than 1000.
pub fn read_types<Q: Read>(
    alloc: Global,
    input: &mut Input<Q>,
    named: Option<&str>,
    lenient: bool,
    limits: Limits,
) -> Result<Types, TypesFault>
    ensures types { (bytes : List ℕ) → Q.remaining (reader_of input.old) ≡ Some bytes
        → ReadsTypes (within_trees limits) bytes (Q.remaining (reader_of input.new)) (text_of named.entry) lenient
        result }
    ensures reads { CountsTypesReads (failed_reads input.old) (failed_reads input.new) result }
{
    let mut reader = StreamReader::<TreeBuilder>::new(alloc, limits)?;
    let mut definitions = Vec::new(alloc);
    let first = read_definitions(alloc, input, &mut reader, &mut definitions)?;
    let wanted = match named {
        Some(word) => type_named(reader.table(), &definitions, word),
        None => first,
    };
    match wanted {
        Some(id) => Ok(Types {
            definitions,
            id,
            lenient,
        }),
        None => Err(TypesFault::NoType),
    }
}

// Reads a whole stream, by a reader that has read nothing, appends its definitions, and answers the type of its first
// value.
fn read_definitions<Q: Read>(
    alloc: Global,
    input: &mut Input<Q>,
    reader: &mut StreamReader<TreeBuilder>,
    definitions: &mut Vec<Definition>,
) -> Result<Option<TypeId>, Fault>
    requires new { (read : Option (List ℕ)) → HasReadFrom tree_building reader.old read read [] }
    requires empty { definitions.old.items ≡ [] }
    ensures read { (bytes : List ℕ) → Q.remaining (reader_of input.old) ≡ Some bytes
        → ReadsDefinitions (within_trees (limits_of (session_of reader.old))) bytes
        (Q.remaining (reader_of input.new)) (types_of (session_of reader.new)) definitions.new.items result }
    ensures reads { CountsReads (failed_reads input.old) (failed_reads input.new) result }
{
    let mut first = None;
    'steps: while reader.more(input)? {
        let step = reader.step(alloc)?;
        if let Some(item) = step.item {
            first = note(first, item, definitions)?;
        }
    }
    Ok(first)
}

// Keeps a definition. Answers the type that is known, or else that of the item, if it is a value.
fn note(
    known: Option<TypeId>,
    item: Item<Value>,
    definitions: &mut Vec<Definition>,
) -> Result<Option<TypeId>, Memory>
    ensures first { IfOk result (λ first. first ≡ or_else known (first_type (item_view item ∷ []))) }
    ensures kept { OnOk result (definitions_of definitions.new.items
        ≡ definitions_of definitions.old.items ++ defined_in (item_view item ∷ [])) }
{
    match item {
        Item::Define { id, described } => {
            definitions.push(Definition { id, described })?;
            Ok(known)
        }
        Item::Put { id, value } => {
            drop(value);
            Ok(known.or(Some(id)))
        }
    }
}

// The first type of this name or id: of those that are defined, and then of the basic ones.
fn type_named(table: &Table, definitions: &[Definition], word: &str) -> Option<TypeId>
    ensures { FindsNamed (types table.now) word.now (ids_of definitions.now ++ basic_types) result }
{
    match defined_type_named(table, definitions, word) {
        Some(id) => Some(id),
        None => first_named(table, &BASIC_TYPES, word),
    }
}

// The first of the types that are defined.
fn defined_type_named(table: &Table, definitions: &[Definition], word: &str) -> Option<TypeId>
    ensures { FindsNamed (types table.now) word.now (ids_of definitions.now) result }
{
    for definition in definitions {
        if is_named(table, definition.id, word) {
            return Some(definition.id);
        }
    }
    None
}

// The first of these types.
fn first_named(table: &Table, ids: &[TypeId], word: &str) -> Option<TypeId>
    ensures { FindsNamed (types table.now) word.now ids.now result }
{
    for id in ids {
        if is_named(table, *id, word) {
            return Some(*id);
        }
    }
    None
}

// Whether the type has this name or id.
fn is_named(table: &Table, id: TypeId, word: &str) -> bool
    ensures { IsTrue result ↔ Names (types table.now) word.now id }
{
    has_name(table, id, word) || is_id(id, word)
}

// Whether the type has this name.
fn has_name(table: &Table, id: TypeId, word: &str) -> bool
    ensures { IsTrue result ↔ HasName (types table.now) word.now id }
{
    match table.shape_of(id) {
        Some(shape) => shape.name.as_bytes() == word.as_bytes(),
        None => false,
    }
}

// Whether the word writes the id.
fn is_id(id: TypeId, word: &str) -> bool
    ensures { IsTrue result ↔ IsNumber (Some word.now) 0 id.0 }
{
    number_of(Some(word), 0) == Some(id.0)
}
