//! Which maps are objects.

ghost use Rattle.std.specs.Prelude.{◌≡◌, ◌==◌, ◌+◌, IfOk, map, option_map, string_bytes};
ghost use Rattle.std.specs.Str.{is_utf8};
ghost use Rattle.gob_types.specs.Table.{Table};
ghost use Rattle.gob_types.specs.declared.id.TypeId as id;
ghost use Rattle.gob_value.specs.Tree.{Pairs, Tree};
ghost use Rattle.gob_tape.specs.Seeing.{Gives, alternating};
ghost use Rattle.gob_plain.specs.declared.style.Style as style;
ghost use Rattle.gob_plain.specs.Plain.{are_utf8, gives_names, key_names, text_bytes};
ghost use Rattle.gob_plain.specs.Machine.Naming.{bare_nils, FormFits, HeldFormFits, NamedFormFits};
ghost use Rattle.gob_plain.specs.Machine.Naming.{nil_kind, parts_kind, TextFits, TextsFit};
ghost use Rattle.gob_plain.specs.WritesPlain.{Shows};

use crate::distinct::all_differ;
use crate::leaf::key_name;
use crate::nils::NilTexts;
use gob_tape::{Children, ValueKind, View};
use gob_types::TypeId;
use std::alloc::{AllocError, Global};
use std::str;

/// How the entries of a map are written.
#[derive(Clone, Copy)]
pub(crate) enum MapForm {
    /// As members of an object, named by the keys.
    Named,
    /// As members of an object, named by the texts that fill the keys.
    NamedByTexts,
    /// As an array of arrays, each of a key and an element.
    Pairs,
}

/// How the entries of a map with keys of this type are written, whose nils are the next of `nils`.
pub(crate) fn form_of<N: NilTexts>(
    alloc: Global,
    parts: Children<'_>,
    key: TypeId,
    nils: &N,
) -> Result<MapForm, AllocError>
    ensures { IfOk result (λ form. (how : style.Style) (T : Table) (e : id.TypeId) (ps : Pairs)
        → Gives parts.entry (alternating ps) → FormFits form (N.says nils.now) how T key e ps) }
{
    if gives_names(key) {
        named_form(alloc, parts)
    } else if is_interface(key) {
        held_form(alloc, parts, nils)
    } else {
        Ok(MapForm::Pairs)
    }
}

/// Whether the keys of a map give names to members: texts and whole numbers do.
pub(crate) fn gives_names(key: TypeId) -> bool
    ensures { result ≡ gives_names key }
{
    key.0 == 6 || key.0 == 2 || key.0 == 3
}

/// Whether the keys of a map are interfaces: texts that fill them may give names to members.
pub(crate) fn is_interface(key: TypeId) -> bool
    ensures { result ≡ (key.0 == 8) }
{
    key.0 == 8
}

// How the entries of a map are written whose keys give names to members.
fn named_form(alloc: Global, parts: Children<'_>) -> Result<MapForm, AllocError>
    ensures { IfOk result (λ form. (ps : Pairs) → Gives parts.entry (alternating ps) → NamedFormFits form ps) }
{
    if are_utf8(parts) {
        return Ok(MapForm::Named);
    }
    let names = key_names(alloc, parts)?;
    if all_differ(alloc, &names)? {
        Ok(MapForm::Named)
    } else {
        Ok(MapForm::Pairs)
    }
}

// Whether every key that is a text is UTF-8.
fn are_utf8(parts: Children<'_>) -> bool
    ensures { (ps : Pairs) → Gives parts.entry (alternating ps) → result ≡ are_utf8 ps }
{
    let mut parts = parts;
    'keys: while let Some(key) = parts.next() {
        if !is_utf8(key) {
            return false;
        }
        let _element = parts.next();
    }
    true
}

// Whether the key is UTF-8, where it is a text.
fn is_utf8(key: View<'_>) -> bool
    ensures { (x : Tree) → Shows key.entry x → result ≡ is_utf8 (text_bytes x) }
{
    match key.kind() {
        ValueKind::Str => str::from_utf8(key.bytes()).is_ok(),
        _ => true,
    }
}

// The names that the keys give.
fn key_names(alloc: Global, parts: Children<'_>) -> Result<Vec<String>, AllocError>
    ensures { IfOk result (λ names. (ps : Pairs) → Gives parts.entry (alternating ps)
        → map string_bytes names.items ≡ key_names ps) }
{
    let mut parts = parts;
    let mut names = Vec::new(alloc);
    'keys: while let Some(key) = parts.next() {
        let name = key_name(alloc, key)?;
        names.push(name)?;
        let _element = parts.next();
    }
    Ok(names)
}

// How the entries of a map are written whose keys are interfaces.
fn held_form<N: NilTexts>(
    alloc: Global,
    parts: Children<'_>,
    nils: &N,
) -> Result<MapForm, AllocError>
    ensures { IfOk result (λ form. (how : style.Style) (T : Table) (k e : id.TypeId) (ps : Pairs)
        → Gives parts.entry (alternating ps) → HeldFormFits form (N.says nils.now) how T k e ps) }
{
    let Some(texts) = key_texts(alloc, parts, nils)? else {
        return Ok(MapForm::Pairs);
    };
    if all_differ(alloc, &texts)? {
        Ok(MapForm::NamedByTexts)
    } else {
        Ok(MapForm::Pairs)
    }
}

// The texts that fill the keys, where each key is nil and a text fills it, and no element has parts.
fn key_texts<N: NilTexts>(
    alloc: Global,
    parts: Children<'_>,
    nils: &N,
) -> Result<Option<Vec<String>>, AllocError>
    ensures { IfOk result (λ texts. (how : style.Style) (T : Table) (k e : id.TypeId) (ps : Pairs)
        → Gives parts.entry (alternating ps)
        → TextsFit (option_map (λ found. map string_bytes found.items) texts) (N.says nils.now) how T k e ps) }
{
    let mut parts = parts;
    let mut texts = Vec::new(alloc);
    let mut ahead = 0;
    'keys: while let Some(key) = parts.next() {
        let Some(element) = parts.next() else {
            return Ok(None);
        };
        let Some(text) = key_text(alloc, key, element, ahead, nils)? else {
            return Ok(None);
        };
        texts.push(text)?;
        ahead = nils_behind(element, ahead)?;
    }
    Ok(Some(texts))
}

// The text that fills the key of an entry, where the key is nil, the one with so many others before it, and the element
// has no parts.
fn key_text<N: NilTexts>(
    alloc: Global,
    key: View<'_>,
    element: View<'_>,
    ahead: usize,
    nils: &N,
) -> Result<Option<String>, AllocError>
    ensures { IfOk result (λ text. (x v : Tree) → Shows key.entry x → Shows element.entry v
        → TextFits (option_map string_bytes text) (N.says nils.now ahead) x v) }
{
    if is_nil(key.kind()) && !has_parts(element.kind()) {
        nils.text_ahead(alloc, ahead)
    } else {
        Ok(None)
    }
}

// How many nils stand before the entry behind one with this element, and so many others before its key.
fn nils_behind(element: View<'_>, ahead: usize) -> Result<usize, AllocError>
    ensures { IfOk result (λ behind. (v : Tree) → Shows element.entry v → behind ≡ ahead + bare_nils v) }
{
    let own = if is_nil(element.kind()) { 2 } else { 1 };
    match ahead.checked_add(own) {
        Some(behind) => Ok(behind),
        None => Err(AllocError),
    }
}

// Whether a part of this kind is nil.
fn is_nil(kind: ValueKind) -> bool
    ensures { result ≡ nil_kind kind }
{
    matches!(kind, ValueKind::Nil)
}

// Whether a part of this kind may have parts.
fn has_parts(kind: ValueKind) -> bool
    ensures { result ≡ parts_kind kind }
{
    matches!(kind, ValueKind::Many | ValueKind::Pairs | ValueKind::Fields)
}
