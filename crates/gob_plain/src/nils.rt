//! What nils say.

use json::Writer;
use std::alloc::{AllocError, Global};

/// Writes what the nils of a value say, one behind another: `null`, or the JSON of what fills the nil.
pub trait NilTexts {
    ghost use Rattle.std.specs.Prelude.{◌≡◌, ℕ, IfOk, OnOk, option_map, string_bytes};
    ghost use Rattle.json.specs.Json.{Json};
    ghost use Rattle.gob_plain.specs.Plain.{said_text};
    ghost use Rattle.gob_plain.specs.WritesPlain.{WritesPlain, WritesSome, AreBehind, NamesMember};

    /// What the nils to come say: of the one with so many others before it this JSON is said.
    ghost says: { Self → ℕ → Json → Type 0 };

    /// What they say can be written.
    ghost fit: { Self → Type 0 };

    /// Writes what the next nil says, and goes past it.
    fn write_nil(&mut self, alloc: Global, out: &mut Writer) -> Result<(), AllocError>
        requires { fit self.old }
        ensures written { WritesPlain result out.old out.new (says self.old 0) }
        ensures passed { OnOk result (AreBehind 1 (says self.old) (says self.new)) }
        ensures fit { fit self.new };

    /// The text that the nil with so many others before it says, where it says a text.
    fn text_ahead(&self, alloc: Global, ahead: usize) -> Result<Option<String>, AllocError>
        ensures { IfOk result (λ text. (j : Json) → says self.now ahead j
            → option_map string_bytes text ≡ said_text j) };

    /// Writes the text that the next nil says as the name of a member, and goes past the nil. The name is empty where
    /// it says no text.
    fn write_name(&mut self, alloc: Global, out: &mut Writer) -> Result<(), AllocError>
        requires { fit self.old }
        ensures written { WritesSome result out.old out.new (NamesMember (says self.old 0)) }
        ensures passed { OnOk result (AreBehind 1 (says self.old) (says self.new)) }
        ensures fit { fit self.new };
}

/// Nothing fills the nils: each says `null`.
#[derive(Drop)]
pub(crate) struct Nulls;

impl NilTexts for Nulls {
    ghost use Rattle.std.specs.Prelude.{⊤};
    ghost use Rattle.gob_plain.specs.Plain.{all_null};

    ghost says = { λ nulls. all_null };

    ghost fit = { λ nulls. ⊤ };

    #[inline]
    fn write_nil(&mut self, _alloc: Global, out: &mut Writer) -> Result<(), AllocError> {
        out.null()
    }

    #[inline]
    fn text_ahead(&self, _alloc: Global, _ahead: usize) -> Result<Option<String>, AllocError> {
        Ok(None)
    }

    #[inline]
    fn write_name(&mut self, _alloc: Global, out: &mut Writer) -> Result<(), AllocError> {
        out.key("")
    }
}
