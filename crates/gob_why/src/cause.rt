//! What is behind a refusal, in sentences.

use gob_forms::{Form, Spelling};
use gob_num::Memory;
use gob_types::TypeId;
use std::alloc::Global;

/// What is behind a refusal, as the bytes show it.
#[derive(Clone, Copy, Debug, PartialEq, Eq)]
pub(crate) enum Cause {
    /// The first bytes are those of something else.
    Form(Form),
    /// The input begins as JSON does.
    Json,
    /// The input is JSON, in which a string that begins so is base64 of a stream.
    JsonString { start: [u8; 8] },
    /// The input is text.
    Text,
    /// The input is a text that spells a stream.
    Spelled(Spelling),
    /// The input is a dump that spells the front of a stream, with a line of `*` in place of lines that repeat.
    ShortDump(Spelling),
    /// The input is a text that spells something else.
    SpelledForm { spelling: Spelling, form: Form },
    /// It begins with a head of HTTP.
    Http { bytes: usize },
    /// No byte but this one was read.
    OneByte { byte: u8 },
    /// Before the stream stands its length.
    Length { bytes: usize, is_high_first: bool },
    /// Before the stream stand so many bytes.
    Prefix { bytes: usize },
    /// The first bytes are no item, and items of types that nothing defines follow.
    LostFront { bytes: usize },
    /// Nothing that the first bytes are is known.
    NoStream,
    /// U+FFFD stands in place of bytes.
    Replaced,
    /// Line feeds became a carriage return and a line feed.
    Returns,
    /// Another stream begins with the item, which defines the type, in the same way or in another.
    AnotherStream { id: TypeId, is_same: bool },
    /// The item isn't all there, and another stream begins at this offset.
    CutOff { begin: u64, stream: u64 },
    /// Bytes that are no item stand behind the last one, and another stream begins at this offset.
    Between { begin: u64, stream: u64 },
    /// A line feed stands behind the last item.
    LineFeed { begin: u64 },
    /// Something else stands behind the last item.
    Behind { begin: u64 },
    /// From this offset on there are zeros alone.
    ZerosToEnd { begin: u64 },
    /// So many zeros stand there, and other bytes behind them.
    Hole { zeros: usize },
    /// The item ends where its count says, and others follow.
    Damaged { end: u64 },
    /// The input ends within an item.
    Torn,
    /// The item has so many bytes.
    ItemLimit { limit: u64, needed: u64 },
    /// The value has this depth.
    DepthLimit { limit: u64, needed: u64 },
    /// The first item is a value of a type that isn't defined.
    NoBeginning,
}

/// What is behind it.
pub(crate) fn cause_text(alloc: Global, cause: Cause) -> Result<String, Memory> {
    match cause {
        Cause::Form(form) => form_text(alloc, form),
        Cause::Spelled(spelling) => {
            let name = spelling.name();
            Ok(format!(in alloc; "The file is {name}, and what it holds is a gob stream.")?)
        }
        Cause::SpelledForm { spelling, form } => {
            let (name, held) = (spelling.name(), form.name());
            Ok(format!(in alloc; "The file is {name}, and what it holds begins as {held} does.")?)
        }
        Cause::ShortDump(spelling) => {
            let name = spelling.name();
            Ok(format!(in alloc;
                "The file is {name} of a gob stream, in which a line of * stands for lines that repeat."
            )?)
        }
        Cause::Length {
            bytes,
            is_high_first,
        } => length_text(alloc, bytes, is_high_first),
        Cause::Prefix { bytes } => prefix_text(alloc, bytes),
        Cause::Between { begin, stream } => between_text(alloc, begin, stream),
        Cause::AnotherStream { id, is_same } => another_text(alloc, id, is_same),
        _ => numbered_text(alloc, cause),
    }
}

// What is behind it, where a number alone tells more.
fn numbered_text(alloc: Global, cause: Cause) -> Result<String, Memory> {
    let text = match cause {
        Cause::Http { bytes } => {
            format!(in alloc;
                "This is no gob stream: it begins with a head of HTTP, of {bytes} bytes."
            )?
        }
        Cause::OneByte { byte } => format!(in alloc;
            "The file has no byte but {byte:02x}, as far as was read: room that was never written."
        )?,
        Cause::LostFront { bytes } => format!(in alloc;
            "The beginning of the stream is missing or was changed: from byte {bytes} on whole items stand."
        )?,
        Cause::CutOff { stream, .. } => format!(in alloc;
            "A write was cut off within this item, and another encoder's stream begins at byte {stream}."
        )?,
        Cause::Behind { begin } => {
            format!(in alloc; "Something stands behind the last item, at byte {begin}.")?
        }
        Cause::Hole { zeros } => format!(in alloc;
            "{zeros} zeros stand here, and other bytes behind them: a piece of the file is lost, or was never written."
        )?,
        Cause::Damaged { end } => format!(in alloc;
            "These bytes were changed. The item ends where its count says, and the next begins at byte {end}."
        )?,
        Cause::ItemLimit { limit, needed } => {
            format!(in alloc; "The item has {needed} bytes, and the limit is {limit}.")?
        }
        Cause::DepthLimit { limit, needed } => {
            format!(in alloc; "The value has the depth {needed}, and the limit is {limit}.")?
        }
        _ => String::from_str(alloc, plain_cause(cause))?,
    };
    Ok(text)
}

// What is behind it, where neither a number nor a name tells more.
fn plain_cause(cause: Cause) -> &'static str {
    match cause {
        Cause::Json => "The file begins as JSON does: it is text, and no gob stream.",
        Cause::JsonString { .. } =>
            "The file is JSON, and a string in it is base64 of a gob stream.",
        Cause::Text => "The file is text, and no gob stream.",
        Cause::NoStream => "This is no gob stream: no item begins as it does.",
        Cause::Replaced => {
            "U+FFFD, ef bf bd, stands in place of bytes that are no text. They are lost."
        }
        Cause::Returns => {
            "Line feeds became a carriage return and a line feed: without the returns this item is whole."
        }
        Cause::LineFeed { .. } => "A line feed stands behind the last item.",
        Cause::ZerosToEnd { .. } => {
            "From here on there are only zeros, as far as was read: room that was never written."
        }
        Cause::Torn => {
            "The file was cut off, or isn't all written yet. What stands before this item is whole."
        }
        Cause::NoBeginning => {
            "The beginning of the stream is missing: the first item is a value, and nothing defines its type."
        }
        _ => "",
    }
}

fn form_text(alloc: Global, form: Form) -> Result<String, Memory> {
    let name = form.name();
    if form == Form::Marked {
        return Ok(format!(in alloc; "Before it stands {name}: ef bb bf.")?);
    }
    Ok(format!(in alloc; "This is no gob stream: it begins as {name} does.")?)
}

fn length_text(alloc: Global, bytes: usize, is_high_first: bool) -> Result<String, Memory> {
    if bytes == 1 {
        return Ok(String::from_str(alloc, "Before the stream stands its length, in 1 byte.")?);
    }
    let order = if is_high_first { "high" } else { "low" };
    Ok(format!(in alloc;
        "Before the stream stands its length, in {bytes} bytes, the {order} one first."
    )?)
}

fn prefix_text(alloc: Global, bytes: usize) -> Result<String, Memory> {
    let stand = if bytes == 1 {
        "byte stands"
    } else {
        "bytes stand"
    };
    Ok(format!(in alloc; "{bytes} {stand} before the stream: whole items follow.")?)
}

fn between_text(alloc: Global, begin: u64, stream: u64) -> Result<String, Memory> {
    let bytes = stream.saturating_sub(begin);
    let stand = if bytes == 1 {
        "byte stands here that is"
    } else {
        "bytes stand here that are"
    };
    Ok(format!(in alloc;
        "{bytes} {stand} no item, and another encoder's stream begins at byte {stream}."
    )?)
}

fn another_text(alloc: Global, id: TypeId, is_same: bool) -> Result<String, Memory> {
    let way = if is_same { "the same" } else { "another" };
    Ok(format!(in alloc;
        "Another encoder's stream begins with this item: it defines type {id} once more, in {way} way."
    )?)
}
