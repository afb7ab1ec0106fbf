//! The line that plain JSON is put into, token by token: what is short is stored in its place at once, and what is rare
//! is written by a writer of any JSON, to which the text is lent.

ghost use Rattle.std.specs.Prelude.{◌≡◌, ◌≤◌, ◌<◌, ◌%◌, ◌∷◌, ◌++◌, ◌&&◌, ℕ, List, [], IfOk, MatchBool, OnOk, drop};
ghost use Rattle.std.specs.Prelude.{false, length, nat_lt, true};
ghost use Rattle.std.specs.Fmt.{decimal, signed_decimal};
ghost use Rattle.std.specs.Str.{IsUtf8};
ghost use Rattle.json.specs.Lex.{tokens};
ghost use Rattle.json.specs.Print.{print};
ghost use Rattle.json.specs.Token.{begin_array, begin_object, boolean, end_array, end_object, key, null};
ghost use Rattle.json.specs.Tree.{json_tokens};
ghost use Rattle.serde_json.specs.Written.{comma_if, outline};
ghost use Rattle.gob_types.specs.declared.id.TypeId.{TypeId};
ghost use Rattle.gob_types.specs.declared.basic.Basic.TheVariants as basic;
ghost use Rattle.gob_types.specs.declared.kind.Kind.TheVariants as kind;
ghost use Rattle.gob_types.specs.Table.{Table};
ghost use Rattle.gob_value.specs.Tree.{Trees, tree_count};
ghost use Rattle.gob_value.specs.Machine.Begins.{BeginsEach};
ghost use Rattle.gob_json.specs.EventText.{events_text};
ghost use Rattle.gob_json.specs.Json.{integer_json, natural_json, text_json};
ghost use Rattle.gob_walk.specs.Event.{elements_told};
ghost use Rattle.gob_walk.specs.Standing.{BeginsElements, EndsAt, IsOfKind};
ghost use Rattle.gob_walk.specs.Told.{Reaches, Sends};
ghost use Rattle.gob_plain.specs.declared.style.Style.{Style as AStyle};
ghost use Rattle.gob_plain.specs.AbsentFields.{AbsentTokens};
ghost use Rattle.gob_plain.specs.OpaqueText.{SaysBytes, SaysContent, content_of};
ghost use Rattle.gob_plain.specs.Plain.{SaysBoth, SaysPattern, name_text};
ghost use Rattle.gob_plain.specs.PutsTokens.{IsPut, PutsPlain, PutsSome, PutsTokens};
ghost use Rattle.gob_plain.specs.TellsTokens.{TellsTokens};

use crate::leaf::{INFINITY, SIGN, hex_name, write_bytes, write_complex, write_float};
use crate::opaque::write_guessed;
use crate::style::Style;
use crate::zeros::write_absent;
use gob_json::{Exact, PartOut};
use gob_num::Memory;
use gob_types::{Field, Shape, Shapes};
use gob_walk::{Visitor, WalkEnd};
use json::Writer;
use std::alloc::Global;
use std::mem::replace;
use std::ops::Range;

/// Compact JSON that grows by its tokens.
#[derive(Drop)]
pub(crate) struct Line {
    /// The text.
    pub(crate) text: Vec<u8>,
    /// Whether a value has just ended in the text, so that a comma stands before another.
    pub(crate) later: bool,
}

impl Line {
    /// A line behind this text, in which no value has just ended.
    #[inline(always)]
    pub(crate) fn new(text: Vec<u8>) -> Line
        ensures text { result.text ≡ text }
        ensures later { result.later ≡ false }
    {
        Line { text, later: false }
    }

    // Puts the comma that is due before what begins.
    #[inline(always)]
    fn comma(&mut self) -> Result<(), Memory>
        ensures { OnOk result ((self.new.text.items ≡ self.old.text.items ++ comma_if self.old.later)
            × (self.new.later ≡ self.old.later)) }
    {
        if self.later {
            self.text.push(b',')?;
        }
        Ok(())
    }

    // Puts the comma that is due before the first of so many values.
    #[inline(always)]
    fn comma_before(&mut self, count: u64) -> Result<(), Memory>
        ensures { OnOk result ((self.new.text.items ≡ self.old.text.items
            ++ comma_if (self.old.later && nat_lt 0 count)) × (self.new.later ≡ self.old.later)) }
    {
        if count > 0 {
            return self.comma();
        }
        Ok(())
    }

    // Puts a bracket that opens, or a whole word.
    #[inline(always)]
    fn puts(&mut self, word: &[u8], later: bool) -> Result<(), Memory>
        ensures { OnOk result ((self.new.text.items ≡ self.old.text.items ++ (comma_if self.old.later ++ word.now))
            × (self.new.later ≡ later)) }
    {
        self.comma()?;
        self.text.extend_from_slice(word)?;
        self.later = later;
        Ok(())
    }

    // Puts a bracket that closes.
    #[inline(always)]
    fn closes(&mut self, bracket: u8) -> Result<(), Memory>
        ensures { OnOk result ((self.new.text.items ≡ self.old.text.items ++ bracket ∷ []) × (self.new.later ≡ true)) }
    {
        self.text.push(bracket)?;
        self.later = true;
        Ok(())
    }

    /// Puts the bracket that opens an object.
    #[inline(always)]
    pub(crate) fn begin_object(&mut self) -> Result<(), Memory>
        ensures { PutsTokens result self.old self.new (begin_object ∷ []) }
    {
        self.puts(b"{", false)
    }

    /// Puts the bracket that closes an object.
    #[inline(always)]
    pub(crate) fn end_object(&mut self) -> Result<(), Memory>
        ensures { PutsTokens result self.old self.new (end_object ∷ []) }
    {
        self.closes(b'}')
    }

    /// Puts the bracket that opens an array.
    #[inline(always)]
    pub(crate) fn begin_array(&mut self) -> Result<(), Memory>
        ensures { PutsTokens result self.old self.new (begin_array ∷ []) }
    {
        self.puts(b"[", false)
    }

    /// Puts the bracket that closes an array.
    #[inline(always)]
    pub(crate) fn end_array(&mut self) -> Result<(), Memory>
        ensures { PutsTokens result self.old self.new (end_array ∷ []) }
    {
        self.closes(b']')
    }

    /// Puts a truth value.
    #[inline(always)]
    pub(crate) fn boolean(&mut self, truth: bool) -> Result<(), Memory>
        ensures { PutsTokens result self.old self.new (boolean truth ∷ []) }
    {
        if truth {
            return self.puts(b"true", true);
        }
        self.puts(b"false", true)
    }

    /// Puts `null`.
    #[inline(always)]
    pub(crate) fn null(&mut self) -> Result<(), Memory>
        ensures { PutsTokens result self.old self.new (null ∷ []) }
    {
        self.puts(b"null", true)
    }

    /// Puts the number.
    #[inline(always)]
    pub(crate) fn i64(&mut self, number: i64) -> Result<(), Memory>
        ensures { PutsTokens result self.old self.new (json_tokens (outline (integer_json number))) }
    {
        self.comma()?;
        self.text.put_integer(number)?;
        self.later = true;
        Ok(())
    }

    /// Puts the number.
    #[inline(always)]
    pub(crate) fn u64(&mut self, number: u64) -> Result<(), Memory>
        ensures { PutsTokens result self.old self.new (json_tokens (outline (natural_json number))) }
    {
        self.comma()?;
        self.text.put_natural(number)?;
        self.later = true;
        Ok(())
    }

    /// Puts text as a string where it is UTF-8, else as an object that holds its bytes in hexadecimal.
    #[inline(always)]
    pub(crate) fn text(&mut self, text: &[u8]) -> Result<(), Memory>
        ensures { PutsTokens result self.old self.new (json_tokens (outline (text_json text.now))) }
    {
        self.comma()?;
        self.text.put_text(text)?;
        self.later = true;
        Ok(())
    }

    /// Puts the name of a member, where it is UTF-8. False says that it isn't, and that nothing was put.
    #[inline(always)]
    pub(crate) fn key(&mut self, name: &[u8]) -> Result<bool, Memory>
        ensures { IfOk result (λ put. MatchBool put (IsUtf8 name.now × IsPut self.old self.new (key name.now ∷ []))
            ((¬ IsUtf8 name.now) × IsPut self.old self.new [])) }
    {
        let begin = self.text.len();
        self.comma()?;
        let mark = self.text.len();
        self.text.put_text(name)?;
        if self.text[mark] == b'{' {
            self.text.truncate(begin);
            return Ok(false);
        }
        self.text.push(b':')?;
        self.later = false;
        Ok(true)
    }

    /// Puts the name of a member.
    #[inline(always)]
    pub(crate) fn name(&mut self, name: &[u8]) -> Result<(), Memory>
        ensures { PutsTokens result self.old self.new (key (name_text name.now) ∷ []) }
    {
        if self.key(name)? {
            return Ok(());
        }
        self.other_name(name)
    }

    // Puts the text that stands for a name that isn't UTF-8.
    #[inline(never)]
    fn other_name(&mut self, name: &[u8]) -> Result<(), Memory>
        requires { ¬ IsUtf8 name.now }
        ensures { PutsTokens result self.old self.new (key (name_text name.now) ∷ []) }
    {
        let text = hex_name(self.allocator(), name)?;
        self.known_name(text.as_str())
    }

    /// Puts the name of a member.
    pub(crate) fn known_name(&mut self, name: &str) -> Result<(), Memory>
        ensures { PutsTokens result self.old self.new (key name.now ∷ []) }
    {
        let _put = self.key(name.as_bytes())?;
        Ok(())
    }

    /// Puts the number as the name of a member.
    #[inline(never)]
    pub(crate) fn signed_name(&mut self, number: i64) -> Result<(), Memory>
        ensures { PutsTokens result self.old self.new (key (signed_decimal number) ∷ []) }
    {
        let mut digits = itoa::Buffer::new();
        self.known_name(digits.format(number))
    }

    /// Puts the number as the name of a member.
    #[inline(never)]
    pub(crate) fn uint_name(&mut self, number: u64) -> Result<(), Memory>
        ensures { PutsTokens result self.old self.new (key (decimal number) ∷ []) }
    {
        let mut digits = itoa::Buffer::new();
        self.known_name(digits.format(number))
    }

    // Where strings are made.
    fn allocator(&self) -> Global {
        *self.text.allocator()
    }

    // Lends the text to a writer.
    fn lends(&mut self) -> Writer
        ensures before { result.before ≡ self.old.text.items }
        ensures tokens { result.tokens ≡ [] }
        ensures later { self.new.later ≡ self.old.later }
    {
        let nothing = Vec::new(self.allocator());
        Writer::new(replace(&mut self.text, nothing))
    }

    // Takes back the text that was lent to the writer of a value.
    fn takes(&mut self, out: Writer)
        ensures text { self.new.text.items ≡ out.before ++ print out.tokens }
        ensures read { tokens (print out.tokens) ≡ out.tokens }
        ensures later { self.new.later ≡ true }
    {
        self.text = out.into_inner();
        self.later = true;
    }

    /// Puts the float of these 64 bits as a number, or its name where it isn't finite.
    #[inline(always)]
    pub(crate) fn float(&mut self, pattern: u64) -> Result<(), Memory>
        ensures { PutsPlain result self.old self.new (SaysPattern pattern) }
    {
        if pattern % SIGN < INFINITY {
            return self.finite(pattern);
        }
        self.other_float(pattern)
    }

    // Puts it as a number.
    #[inline(always)]
    fn finite(&mut self, pattern: u64) -> Result<(), Memory>
        requires { pattern % 0x8000_0000_0000_0000 < 0x7ff0_0000_0000_0000 }
        ensures { PutsPlain result self.old self.new (SaysPattern pattern) }
    {
        let mut digits = ryu::Buffer::new();
        self.puts(
            digits.format_finite(f64::from_bits(pattern)).as_bytes(),
            true,
        )
    }

    // Puts its name.
    #[inline(never)]
    fn other_float(&mut self, pattern: u64) -> Result<(), Memory>
        ensures { PutsPlain result self.old self.new (SaysPattern pattern) }
    {
        self.comma()?;
        let mut out = self.lends();
        write_float(pattern, &mut out)?;
        self.takes(out);
        Ok(())
    }

    /// Puts the two parts of a complex number as an array.
    #[inline(never)]
    pub(crate) fn complex(&mut self, real: u64, imaginary: u64) -> Result<(), Memory>
        ensures { PutsPlain result self.old self.new (SaysBoth (SaysPattern real) (SaysPattern imaginary)) }
    {
        self.comma()?;
        let mut out = self.lends();
        write_complex(real, imaginary, &mut out)?;
        self.takes(out);
        Ok(())
    }

    /// Puts bytes as a string of base64.
    #[inline(never)]
    pub(crate) fn bytes(&mut self, bytes: &[u8]) -> Result<(), Memory>
        ensures { PutsPlain result self.old self.new (SaysBytes bytes.now) }
    {
        let alloc = self.allocator();
        self.comma()?;
        let mut out = self.lends();
        write_bytes(alloc, bytes, &mut out)?;
        self.takes(out);
        Ok(())
    }

    /// Puts an opaque value as what its bytes are guessed to be, by its type, which has this shape.
    #[inline(never)]
    pub(crate) fn guessed(&mut self, shape: &Shape, bytes: &[u8], raw: bool) -> Result<(), Memory>
        ensures { PutsPlain result self.old self.new (SaysContent (content_of raw (Some shape.now)) bytes.now) }
    {
        let alloc = self.allocator();
        self.comma()?;
        let mut out = self.lends();
        write_guessed(alloc, shape, bytes, raw, &mut out)?;
        self.takes(out);
        Ok(())
    }

    /// Puts the zeros of these fields, which are absent, where the style has zeros: a member for each field whose type
    /// has one.
    #[inline(always)]
    pub(crate) fn absent<S: Shapes>(
        &mut self,
        types: &[Field],
        absent: Range<u64>,
        table: &S,
        style: Style<'_>,
    ) -> Result<(), Memory>
        ensures { PutsSome result self.old self.new
            (AbsentTokens style.entry (S.table table.now) types.now absent.start absent.end) }
    {
        if style.zeros {
            return self.zeros(types, absent, table, style);
        }
        Ok(())
    }

    // Puts them where the style has zeros. Most values are printed without zeros, so it is apart from what asks for
    // them.
    #[inline(never)]
    fn zeros<S: Shapes>(
        &mut self,
        types: &[Field],
        absent: Range<u64>,
        table: &S,
        style: Style<'_>,
    ) -> Result<(), Memory>
        ensures { PutsSome result self.old self.new
            (AbsentTokens style.entry (S.table table.now) types.now absent.start absent.end) }
    {
        let alloc = self.allocator();
        let later = self.later;
        let begin = self.text.len();
        self.comma()?;
        let behind = self.text.len();
        let mut out = self.lends();
        write_absent(alloc, types, absent, table, style, &mut out)?;
        self.takes(out);
        if self.text.len() == behind {
            self.text.truncate(begin);
            self.later = later;
        }
        Ok(())
    }

    /// Puts so many ints that stand in the body from the place on, and the bracket that closes their list. It answers
    /// where they end.
    #[inline(always)]
    pub(crate) fn ints(
        &mut self,
        count: u64,
        body: &[u8],
        begin: usize,
        known: bool,
    ) -> Result<usize, WalkEnd<Memory>>
        requires { begin ≤ length body.now }
        ensures sent { (style : AStyle) (U T : Table) (e : TypeId) (limit : ℕ) (vs : Trees) (rest : List ℕ)
            → IsOfKind T e (kind.Basic basic.Int) → BeginsElements T e limit vs (drop begin body.now) rest
            → tree_count vs ≡ count
            → Sends (Reaches (TellsTokens style U)) self.old self.new (elements_told false T e vs) body.now rest
            result }
        ensures stands { IfOk result (λ end. (T : Table) (e : TypeId) → IsOfKind T e (kind.Basic basic.Int)
            → EndsAt known (BeginsEach T false e 1 count) body.now begin end) }
    {
        self.comma_before(count)?;
        self.later = true;
        put_ints(count, body, begin, known, &mut self.text)
    }
}

// Puts out the text of so many ints that stand in the body from the place on, and the bracket that closes their list.
#[inline(always)]
fn put_ints<O: PartOut>(
    count: u64,
    body: &[u8],
    begin: usize,
    known: bool,
    out: &mut O,
) -> Result<usize, WalkEnd<O::Fault>>
    requires { begin ≤ length body.now }
    ensures sent { (T : Table) (e : TypeId) (limit : ℕ) (vs : Trees) (rest : List ℕ)
        → IsOfKind T e (kind.Basic basic.Int) → BeginsElements T e limit vs (drop begin body.now) rest
        → tree_count vs ≡ count
        → Sends (Reaches O.puts) out.old out.new (events_text (elements_told false T e vs)) body.now rest result }
    ensures stands { IfOk result (λ end. (T : Table) (e : TypeId) → IsOfKind T e (kind.Basic basic.Int)
        → EndsAt known (BeginsEach T false e 1 count) body.now begin end) }
{
    let mut exact = Exact { out };
    let told = tell_ints(count, body, begin, known, &mut exact);
    let Exact { out: _put_to } = exact;
    told
}

// Puts out what is told of them.
#[inline(always)]
fn tell_ints<O: PartOut>(
    count: u64,
    body: &[u8],
    begin: usize,
    known: bool,
    out: &mut Exact<'_, O>,
) -> Result<usize, WalkEnd<O::Fault>>
    requires { begin ≤ length body.now }
    ensures sent { (T : Table) (e : TypeId) (limit : ℕ) (vs : Trees) (rest : List ℕ)
        → IsOfKind T e (kind.Basic basic.Int) → BeginsElements T e limit vs (drop begin body.now) rest
        → tree_count vs ≡ count → (out.new.out.ghost_name ≡ out.old.out.ghost_name)
        × Sends (Reaches O.puts) out.old.out.now out.new.out.now (events_text (elements_told false T e vs)) body.now
        rest result }
    ensures stands { IfOk result (λ end. (T : Table) (e : TypeId) → IsOfKind T e (kind.Basic basic.Int)
        → EndsAt known (BeginsEach T false e 1 count) body.now begin end) }
{
    out.ints(count, body, begin, known)
}
