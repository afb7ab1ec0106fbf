//! Types of Go, each by its parts.

use crate::token::Note;

/// A type as source writes it. Types stand in a list, and one names its parts by their places in it, from 0.
#[derive(Drop)]
pub enum GoType<'a> {
    /// A name: of a type that Go knows or that is declared somewhere.
    Name(&'a [u8]),
    /// A name of another package, behind that of its package.
    Qualified(&'a [u8], &'a [u8]),
    /// A pointer.
    Pointer(usize),
    /// A slice, by its elements.
    Slice(usize),
    /// An array, by how many elements it has and which.
    Array(u64, usize),
    /// A map, by its keys and its elements.
    Map(usize, usize),
    /// A struct.
    Struct(Vec<GoField<'a>>),
    /// An interface.
    Interface,
    /// A channel or a function, of which gob sends nothing.
    Unsent,
}

/// A line of a struct: fields of one type.
#[derive(Drop)]
pub struct GoField<'a> {
    /// The names of the fields. Without one the field is embedded, and its type's name is its own.
    pub names: Vec<&'a [u8]>,
    /// The place of their type.
    pub of: usize,
}

/// The declaration of a type.
#[derive(Clone, Copy)]
pub struct Declaration<'a> {
    /// Its name.
    pub name: &'a [u8],
    /// What the comment in front of it says.
    pub note: Note,
    /// Whether it is another name for a type that has one.
    pub is_alias: bool,
    /// The place of the type that has it.
    pub of: usize,
}
