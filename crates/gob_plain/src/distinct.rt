//! Texts of which no two are one.

ghost use Rattle.std.specs.Prelude.{◌≡◌, [], IfOk, map, not, string_bytes};
ghost use Rattle.gob_plain.specs.Plain.{all_differ};
ghost use Rattle.gob_plain.specs.Machine.Naming.{has_text, with_text};

use indexmap::IndexSet;
use std::alloc::{AllocError, Global};
use std::marker::Model;

/// The texts that were seen, each of them once. A text is found by its hash.
#[derive(Drop)]
struct Seen<'a> {
    texts: IndexSet<&'a [u8]>,
}

impl<'a> Model for Seen<'a> {
    ghost use Rattle.std.specs.Prelude.{ℕ, List, map};

    ghost Value = { List (List ℕ) };

    ghost view = { λ s. map (λ text. text.now) s.texts.keys };
}

impl<'a> Seen<'a> {
    // No text was seen.
    fn new(alloc: Global) -> Seen<'a>
        ensures { result ≡ [] }
    {
        Seen {
            texts: IndexSet::new(alloc),
        }
    }

    // Adds a text, and says whether it is new.
    fn add(&mut self, text: &'a [u8]) -> Result<bool, AllocError>
        ensures { IfOk result (λ new. (new ≡ not (has_text text.now self.old))
            × (self.new ≡ with_text self.old text.now)) }
    {
        let (_, new) = self.texts.insert_full(text)?;
        Ok(new)
    }
}

/// Whether no two of the texts are one.
pub(crate) fn all_differ(alloc: Global, texts: &[String]) -> Result<bool, AllocError>
    ensures { IfOk result (λ answer. answer ≡ all_differ (map string_bytes texts.now)) }
{
    let mut seen = Seen::new(alloc);
    for text in texts {
        if seen.add(text.as_bytes())? {
            continue;
        }
        return Ok(false);
    }
    Ok(true)
}
