//! Steps from a pair of types to one that its shapes name.

ghost use Rattle.std.specs.Prelude.{◌≡◌, IfOk};

use gob_num::Memory;
use gob_types::Name;
use std::alloc::Global;
use std::{fmt, str};

/// A step from a pair of types to a pair that its shapes name. Display writes `[]`, `{}`, or a dot and the name.
#[derive(Drop)]
pub enum TypeStep {
    /// To the elements of two arrays, slices or maps.
    Element,
    /// To the keys of two maps.
    Key,
    /// To the fields of this name.
    Named(Name),
}

impl TypeStep {
    /// A copy of the step.
    pub fn copied(&self, alloc: Global) -> Result<TypeStep, Memory>
        ensures { IfOk result (λ step. step ≡ self.now) }
    {
        match self {
            TypeStep::Element => Ok(TypeStep::Element),
            TypeStep::Key => Ok(TypeStep::Key),
            TypeStep::Named(name) => Ok(TypeStep::Named(copied_name(alloc, name)?)),
        }
    }
}

/// A copy of a name.
pub(crate) fn copied_name(alloc: Global, name: &Name) -> Result<Name, Memory>
    ensures { IfOk result (λ copy. copy ≡ name.now) }
{
    Ok(Name::new(Vec::from_slice(alloc, name.as_bytes())?))
}

impl fmt::Display for TypeStep {
    ghost use Rattle.std.specs.Prelude.{Some};
    ghost use Rattle.gob_match.specs.ClashText.{step_text};

    ghost output = { λ step. Some (step_text step) };

    fn fmt<W: fmt::Write>(&self, f: &mut fmt::Formatter<W>) -> fmt::Result {
        match self {
            TypeStep::Element => f.write_str("[]"),
            TypeStep::Key => f.write_str("{}"),
            TypeStep::Named(name) => {
                let name = NameText(name.as_bytes());
                write!(f, ".{name}")
            }
        }
    }
}

/// A path of steps as it is printed: the steps one behind another, or `top` where there is none.
#[derive(Clone, Copy)]
pub struct PathText<'a>(pub &'a [TypeStep]);

impl fmt::Display for PathText<'_> {
    ghost use Rattle.std.specs.Prelude.{Some};
    ghost use Rattle.gob_match.specs.ClashText.{path_text};

    ghost output = { λ path. Some (path_text path.0.now) };

    fn fmt<W: fmt::Write>(&self, f: &mut fmt::Formatter<W>) -> fmt::Result {
        if self.0.is_empty() {
            return f.write_str("top");
        }
        for step in self.0 {
            step.fmt(f)?;
        }
        Ok(())
    }
}

// A name as it is printed: the text, or where it is none, 0x and its bytes in hexadecimal.
#[derive(Clone, Copy)]
struct NameText<'a>(&'a [u8]);

impl fmt::Display for NameText<'_> {
    ghost use Rattle.std.specs.Prelude.{Some};
    ghost use Rattle.gob_match.specs.ClashText.{name_text};

    ghost output = { λ name. Some (name_text name.0.now) };

    fn fmt<W: fmt::Write>(&self, f: &mut fmt::Formatter<W>) -> fmt::Result {
        match str::from_utf8(self.0) {
            Ok(text) => f.write_str(text),
            Err(_) => {
                let digits = HexText(self.0);
                write!(f, "0x{digits}")
            }
        }
    }
}

// Bytes in lower case hexadecimal.
#[derive(Clone, Copy)]
struct HexText<'a>(&'a [u8]);

impl fmt::Display for HexText<'_> {
    ghost use Rattle.std.specs.Prelude.{Some};
    ghost use Rattle.std.specs.List.{flat_map};
    ghost use Rattle.gob_match.specs.ClashText.{byte_digits};

    ghost output = { λ bytes. Some (flat_map byte_digits bytes.0.now) };

    fn fmt<W: fmt::Write>(&self, f: &mut fmt::Formatter<W>) -> fmt::Result {
        for byte in self.0 {
            let high = byte / 16;
            let low = byte % 16;
            write!(f, "{high:x}{low:x}")?;
        }
        Ok(())
    }
}
