//! What the members of a definition say, one by one, and the kind of type that they tell together.

ghost use Rattle.std.specs.Prelude.{◌≡◌, ◌≢◌, ℕ, List, IfErr, IfOk, IfSome, IsTrue, None, Some, false};
ghost use Rattle.gob_types.specs.declared.kind.Kind.{Kind as KindSpec};
ghost use Rattle.gob_lines.specs.Complete.{IsKindReadable};
ghost use Rattle.gob_lines.specs.Definition.{HasNoOther, IsNewPart, Part, has_elem, no_part, part_key, shape_parts};

use crate::fault::{Due, LineFault};
use gob_types::{Fields, Kind, Marshal, Name, TypeId};
use std::alloc::Global;

/// The word for the kind of a type.
#[derive(Clone, Copy)]
pub enum KindName {
    /// `array`.
    Array,
    /// `slice`.
    Slice,
    /// `struct`.
    Struct,
    /// `map`.
    Map,
    /// `gob`, `binary` or `text`: the way in which an opaque type marshals itself.
    Opaque(Marshal),
}

impl KindName {
    // Whether types of this kind have elements.
    fn has_elem(self) -> bool
        ensures { result ≡ has_elem self }
    {
        matches!(self, KindName::Array | KindName::Slice | KindName::Map)
    }
}

/// What the members of a definition say, each at most once.
pub struct Parts {
    /// The type of the elements.
    pub elem: Option<TypeId>,
    /// The fields of a struct.
    pub fields: Option<Fields>,
    /// The type of the keys of a map.
    pub key: Option<TypeId>,
    /// The kind.
    pub kind: Option<KindName>,
    /// How many elements an array has.
    pub len: Option<u64>,
    /// The type's name.
    pub name: Option<Name>,
}

// Not derived, so that a drop is one call in the proofs of what owns one.
impl Drop for Parts {
    fn drop(self) {
        let Parts {
            elem: _,
            fields: _,
            key: _,
            kind: _,
            len: _,
            name: _,
        } = self;
    }
}

impl Parts {
    /// None is said.
    pub fn new() -> Parts
        ensures { result ≡ no_part }
    {
        Parts {
            elem: None,
            fields: None,
            key: None,
            kind: None,
            len: None,
            name: None,
        }
    }

    /// Whether a member of this key has said its part.
    pub fn has(&self, key: &str) -> bool
        ensures said { IsTrue result → (part : Part) → part_key part ≡ key.now → IsNewPart part self.now → ⊥ }
        ensures not_said { result ≡ false → (part : Part) → part_key part ≡ key.now → IsNewPart part self.now }
    {
        match key {
            "elem" => self.elem.is_some(),
            "fields" => self.fields.is_some(),
            "key" => self.key.is_some(),
            "kind" => self.kind.is_some(),
            "len" => self.len.is_some(),
            "name" => self.name.is_some(),
            _ => false,
        }
    }

    /// Takes the kind that the parts tell, where these are those of such a kind. The fault is one at this offset.
    pub fn take_kind(&mut self, alloc: Global, at: usize) -> Result<Kind, LineFault>
        ensures told { IfOk result (λ k. (name : List ℕ) → self.old.name ≡ Some name → self.old ≡ shape_parts k name) }
        ensures none { IfErr result (λ f. (k : KindSpec) (name : List ℕ) → IsKindReadable k
            → self.old ≢ shape_parts k name) }
        ensures name { self.new.name ≡ self.old.name }
    {
        let kind = due_part(alloc, at, self.kind, "kind")?;
        if let Some(key) = self.other(kind) {
            return Err(LineFault::due(alloc, at, Due::Without(key)));
        }
        match kind {
            KindName::Array => {
                let elem = due_part(alloc, at, self.elem, "elem")?;
                let len = due_part(alloc, at, self.len, "len")?;
                Ok(Kind::Array { elem, len })
            }
            KindName::Slice => {
                let elem = due_part(alloc, at, self.elem, "elem")?;
                Ok(Kind::Slice { elem })
            }
            KindName::Struct => match self.fields.take() {
                Some(fields) => Ok(Kind::Struct { fields }),
                None => Err(LineFault::due(alloc, at, Due::Key("fields"))),
            },
            KindName::Map => {
                let key = due_part(alloc, at, self.key, "key")?;
                let elem = due_part(alloc, at, self.elem, "elem")?;
                Ok(Kind::Map { key, elem })
            }
            KindName::Opaque(marshal) => Ok(Kind::Opaque(marshal)),
        }
    }

    // The key of a part that types of this kind haven't.
    fn other(&self, kind: KindName) -> Option<&'static str>
        ensures none { result ≡ None → HasNoOther kind self.now }
        ensures some { IfSome result (λ _. HasNoOther kind self.now → ⊥) }
    {
        if self.elem.is_some() && !kind.has_elem() {
            return Some("elem");
        }
        if self.fields.is_some() && !matches!(kind, KindName::Struct) {
            return Some("fields");
        }
        if self.key.is_some() && !matches!(kind, KindName::Map) {
            return Some("key");
        }
        if self.len.is_some() && !matches!(kind, KindName::Array) {
            return Some("len");
        }
        None
    }
}

// The part that a member of this key says.
fn due_part<T: Copy>(
    alloc: Global,
    at: usize,
    part: Option<T>,
    key: &'static str,
) -> Result<T, LineFault>
    ensures ok { IfOk result (λ it. part ≡ Some it) }
    ensures none { IfErr result (λ f. part ≡ None) }
{
    match part {
        Some(it) => Ok(it),
        None => Err(LineFault::due(alloc, at, Due::Key(key))),
    }
}
