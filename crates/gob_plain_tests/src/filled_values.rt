//! The JSON of values whose nils are filled. What fills them are numbers and texts.

ghost use Rattle.std.specs.Prelude.{◌≡◌, [], IfOk, string_bytes};
ghost use Rattle.json.specs.Json.{Json};
ghost use Rattle.json.specs.Lex.{tokens};
ghost use Rattle.json.specs.Tree.{json_tokens};
ghost use Rattle.gob_plain.specs.Fillers.{AreFillers, IsFiller};

use gob_num::Memory;
use gob_plain::{Filler, Fillers, Style, plain_text_with};
use gob_stream::{Item, Limits, Session};
use gob_tape::{Tape, TapeBuilder};
use gob_test_rows::{bytes_of, part};
use gob_types::Table;
use json::Writer;
use std::alloc::{AllocError, Global};
use std::test::*;

// What, a stream, the numbers that fill the nils of its last value, or the texts, behind a ', each behind its name
// where one is shown before it, or - where nothing fills the nil, and the JSON. The name ff is one byte, and no UTF-8.
// Type 65 is a struct P of two interfaces A and B, a slice of interfaces, or of maps, or a map by interfaces or texts.
// An empty line stands between two rows.
const ROWS: &str = r#"
both fields | 1b ff 81 03 01 01 01 50 01 ff 82 00 01 02 01 01 41 01 10 00 01 01 42 01 10 00 00 00
07 ff 82 01 00 01 00 00 | 1 2 | {"A":1,"B":2}

the first field is absent | 1b ff 81 03 01 01 01 50 01 ff 82 00 01 02 01 01 41 01 10 00 01 01 42 01 10 00 00 00
05 ff 82 02 00 00 | 1 2 | {"B":1}

some of four elements | 0c ff 81 02 01 02 ff 82 00 01 10 00 00 08 ff 82 00 04 00 00 00 00 | 1 - 3 | [1,null,3,null]

keys that are no names | 0e ff 81 04 01 02 ff 82 00 01 10 01 10 00 00
08 ff 82 00 02 00 00 00 00 | 1 2 - 4 | [[1,2],[null,4]]

keys that are names | 0e ff 81 04 01 02 ff 82 00 01 0c 01 10 00 00
0a ff 82 00 02 01 61 00 01 62 00 | 1 2 - 4 | {"a":1,"b":2}

keys that texts fill | 0e ff 81 04 01 02 ff 82 00 01 10 01 10 00 00
08 ff 82 00 02 00 00 00 00 | 'b 1 'a - | {"b":1,"a":null}

keys that one text fills | 0e ff 81 04 01 02 ff 82 00 01 10 01 10 00 00
08 ff 82 00 02 00 00 00 00 | 'a 1 'a 2 | [["a",1],["a",2]]

keys that a text and a number fill | 0e ff 81 04 01 02 ff 82 00 01 10 01 10 00 00
08 ff 82 00 02 00 00 00 00 | 'a 1 2 'b | [["a",1],[2,"b"]]

keys that a text and nothing fill | 0e ff 81 04 01 02 ff 82 00 01 10 01 10 00 00
08 ff 82 00 02 00 00 00 00 | 'a 1 - 2 | [["a",1],[null,2]]

keys that a text fills under a name | 0e ff 81 04 01 02 ff 82 00 01 10 01 10 00 00
08 ff 82 00 02 00 00 00 00 | 'a 1 main.T='b 2 | [["a",1],[{"main.T":"b"},2]]

texts that have escapes | 0e ff 81 04 01 02 ff 82 00 01 10 01 10 00 00
08 ff 82 00 02 00 00 00 00 | 'a\b 1 'é" 'é | {"a\\b":1,"é\"":"é"}

keys that texts fill, and elements that are none | 0e ff 81 04 01 02 ff 82 00 01 10 01 04 00 00
08 ff 82 00 02 00 02 00 04 | 'a 'b | {"a":1,"b":2}

keys that texts fill, and elements that have parts | 0f ff 81 04 01 02 ff 82 00 01 10 01 ff 84 00 00
0c ff 83 02 01 02 ff 84 00 01 04 00 00 07 ff 82 00 01 00 01 02 | 'a | [["a",[1]]]

a map behind another | 0d ff 81 02 01 02 ff 82 00 01 ff 84 00 00 0e ff 83 04 01 02 ff 84 00 01 10 01 10 00 00
0d ff 82 00 03 01 00 00 01 00 00 01 00 00 | 'a - 2 3 'b 'c | [{"a":null},[[2,3]],{"b":"c"}]

a name, and one that is no UTF-8 | 0c ff 81 02 01 02 ff 82 00 01 10 00 00
06 ff 82 00 02 00 00 | main.T=1 ff=2 | [{"main.T":1},{"0xff":2}]
"#;

// The JSON of the text behind a ', or of the number.
fn json_text(alloc: Global, word: &str) -> Result<String, Memory>
    ensures { IfOk result (λ text. (j : Json) × (tokens (string_bytes text) ≡ json_tokens j)) }
{
    let mut out = Writer::new(Vec::new(alloc));
    if let Some(text) = word.strip_prefix('\'') {
        out.string(text)?;
        return Ok(text_of(out));
    }
    out.u64(word.parse().unwrap_or(0))?;
    Ok(text_of(out))
}

// The text that the writer holds.
fn text_of(out: Writer) -> String
    requires { out.before ≡ [] }
    ensures { tokens (string_bytes result) ≡ out.tokens }
{
    match String::from_utf8(out.into_inner()) {
        Ok(text) => text,
        Err(_) => unreachable!(),
    }
}

// The name in a word, and what stands behind it.
fn name_and_rest<'a>(word: &'a str) -> (Option<&'a [u8]>, &'a str) {
    match word.split_once('=') {
        Some(("ff", rest)) => (Some(&[255]), rest),
        Some((name, rest)) => (Some(name.as_bytes()), rest),
        None => (None, word),
    }
}

// What a word says of a nil.
fn filler_of<'a>(alloc: Global, word: &'a str) -> Result<Option<Filler<'a>>, Memory>
    ensures { IfOk result IsFiller }
{
    if word == "-" {
        return Ok(None);
    }
    let (name, rest) = name_and_rest(word);
    let text = json_text(alloc, rest)?;
    Ok(Some(Filler { name, text }))
}

// What the words say of the nils.
fn fillers_of<'a>(alloc: Global, words: &'a str) -> Result<Vec<Option<Filler<'a>>>, Memory>
    ensures { IfOk result (λ all. AreFillers all.items) }
{
    let mut all = Vec::new(alloc);
    'words: for word in words.split_whitespace() {
        all.push(filler_of(alloc, word)?)?;
    }
    Ok(all)
}

// The JSON of the last of these items, whose nils these fill; nothing where it is no value.
fn shown(
    alloc: Global,
    items: &[Item<Tape>],
    table: &Table,
    all: &[Option<Filler<'_>>],
) -> Result<String, AllocError>
    requires { AreFillers all.now }
{
    match items.last() {
        Some(Item::Put { id, value }) => {
            let mut nils = Fillers { all, passed: 0 };
            plain_text_with(alloc, *id, value, table, Style::default(), &mut nils)
        }
        _ => Ok(String::new(alloc)),
    }
}

// The JSON of the last value of the stream, whose nils these fill; nothing where the stream is refused.
fn json_of(alloc: Global, bytes: &[u8], all: &[Option<Filler<'_>>]) -> Result<String, Memory>
    requires { AreFillers all.now }
{
    let mut session = Session::<TapeBuilder>::new(alloc, Limits::standard())?;
    let mut items = Vec::new(alloc);
    if session.feed(alloc, bytes, &mut items).is_ok() {
        Ok(shown(alloc, &items, session.table(), all)?)
    } else {
        Ok(String::new(alloc))
    }
}

// Whether the row's last value has the row's JSON.
fn is_due(alloc: Global, row: &str) -> Result<bool, Memory> {
    let bytes = bytes_of(alloc, part(row, 1))?;
    let all = fillers_of(alloc, part(row, 2))?;
    let text = json_of(alloc, &bytes, &all)?;
    Ok(text.as_str() == part(row, 3))
}

#[test]
fn nils_are_filled(rt: HostRuntime) {
    for row in ROWS.trim().split("\n\n") {
        assert!(rt; is_due(rt.alloc(), row) == Ok(true), "{row}");
    }
}
