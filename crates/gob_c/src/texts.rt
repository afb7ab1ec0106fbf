//! Texts about a stream that is held in memory, put into room of the caller.

ghost use Rattle.std.specs.Prelude.{◌≡◌};
ghost use Rattle.gob_c.specs.Asked.{asked_bounds};
ghost use Rattle.gob_c.specs.Texts.{ArePlain, AreShownLines, IsLinesText, IsTypesText, IsWhyText, PutsSaid, TellsText};
ghost use Rattle.gob_c.specs.Texts.{put_in, text_told};

use crate::in_memory::shown_of;
use crate::limits::Asked;
use gob_num::Memory;
use gob_views::{SourceForm, ValueLines, types_of, values_of};
use gob_why::{Said, why_of};
use std::alloc::Global;

/// What is told of a text.
#[repr(C)]
#[derive(Clone, Copy)]
pub struct TextTold {
    /// 0 it was made, 2 no memory, 4 these are no limits.
    pub status: u32,
    /// How many bytes it has, where it was made; else 0.
    pub length: u64,
}

/// Says why a stream is refused, or how much is in a whole one, as `gob why` does of a file of this name, of which no
/// bytes mean that it has none. As much of the text is put into the room as there is room for.
#[unsafe(no_mangle)]
pub extern "C" fn gob_raw_why_text(
    alloc: Global,
    bytes: &[u8],
    asked: &Asked,
    name: &[u8],
    room: &mut [u8],
    told: &mut TextTold,
)
    ensures { TellsText (asked_bounds asked.now) (IsWhyText (asked_bounds asked.now) bytes.now) room.old room.new
        told.new }
{
    let Some(limits) = asked.limits() else {
        *told = TextTold::plain(4);
        return;
    };
    *told = put_said(&why_of(alloc, bytes, limits, name_of(name)), room);
}

/// Gives the types of a stream as Go source, as `gob types` does: of a refused one those of the items before. As much
/// of the text is put into the room as there is room for.
#[unsafe(no_mangle)]
pub extern "C" fn gob_raw_types_text(
    alloc: Global,
    bytes: &[u8],
    asked: &Asked,
    room: &mut [u8],
    told: &mut TextTold,
)
    ensures { TellsText (asked_bounds asked.now) (IsTypesText (asked_bounds asked.now) bytes.now) room.old room.new
        told.new }
{
    let Some(limits) = asked.limits() else {
        *told = TextTold::plain(4);
        return;
    };
    *told = put_said(&types_of(alloc, bytes, limits, SourceForm::Types), room);
}

/// Gives the values of a stream as plain JSON, a line for each, as `gob values` does: of a refused one those of the
/// items before. As much of the text is put into the room as there is room for.
#[unsafe(no_mangle)]
pub extern "C" fn gob_raw_values_text(
    alloc: Global,
    bytes: &[u8],
    asked: &Asked,
    room: &mut [u8],
    told: &mut TextTold,
)
    ensures { TellsText (asked_bounds asked.now) (IsLinesText (asked_bounds asked.now) bytes.now) room.old room.new
        told.new }
{
    let Some(limits) = asked.limits() else {
        *told = TextTold::plain(4);
        return;
    };
    *told = put_said(&values_of(alloc, bytes, limits, plain_lines()), room);
}

/// Gives the items of a stream as lines of JSON, as `gob show --go` prints them: of a refused one those of the items
/// before. As much of the text is put into the room as there is room for.
#[unsafe(no_mangle)]
pub extern "C" fn gob_raw_lines_text(
    alloc: Global,
    bytes: &[u8],
    asked: &Asked,
    room: &mut [u8],
    told: &mut TextTold,
)
    ensures { TellsText (asked_bounds asked.now) (AreShownLines (asked_bounds asked.now) bytes.now) room.old room.new
        told.new }
{
    let Some(limits) = asked.limits() else {
        *told = TextTold::plain(4);
        return;
    };
    *told = put_said(&shown_of(alloc, bytes, limits), room);
}

impl TextTold {
    /// A status alone.
    fn plain(status: u32) -> TextTold
        ensures { result ≡ text_told status 0 }
    {
        TextTold { status, length: 0 }
    }
}

// How `gob values` prints values where nothing else is asked of it.
fn plain_lines<'a>() -> ValueLines<'a>
    ensures { ArePlain result }
{
    ValueLines::default()
}

// The name of the file that a text is about, where it has one that is UTF-8.
fn name_of(name: &[u8]) -> Option<&str> {
    if name.is_empty() {
        return None;
    }
    str::from_utf8(name).ok()
}

// Puts as much of a text into the room as there is room for, and tells of it.
fn put_said(said: &Result<Said, Memory>, room: &mut [u8]) -> TextTold
    ensures { PutsSaid said.now room.old room.new result }
{
    let Ok(said) = said else {
        return TextTold::plain(2);
    };
    let text = said.text.as_slice();
    put_front(text, room);
    TextTold {
        status: 0,
        length: text.len() as u64,
    }
}

/// Puts as much of the text at the front of the room as there is room for.
pub(crate) fn put_front(text: &[u8], room: &mut [u8])
    ensures { room.new ≡ put_in text.now room.old }
{
    let count = text.len().min(room.len());
    room[..count].copy_from_slice(&text[..count]);
}
