//! Pieces of source: where each ends.

ghost use Rattle.std.specs.Prelude.{◌≡◌, ◌∷◌, ◌+◌, ◌^◌, ◌<◌, ◌≤◌, [], IfSome, None, drop, length};
ghost use Rattle.gob_go_source.specs.Scanning.{end_of, is_blank, is_letter_byte, is_word_byte, may_end, on_while};
ghost use Rattle.gob_go_source.specs.Scanning.{step, step_block, step_quoted, up_to};

/// How a piece of source goes on.
#[derive(Clone, Copy)]
pub(crate) enum Scan {
    /// It ends here.
    Nothing,
    /// Blanks.
    Blanks,
    /// The letters and digits of a name or a number.
    Word,
    /// Digits.
    Digits,
    /// A comment up to the end of its line.
    Line,
    /// A comment up to `*/`. Its last byte may have been the star.
    Block {
        /// Whether it was.
        star: bool,
    },
    /// A string up to a backquote.
    Raw,
    /// A string up to this quotation mark, on one line.
    Quoted {
        /// The mark.
        quote: u8,
        /// Whether a backslash stood before this.
        escaped: bool,
    },
}

/// What a byte is to a piece of source.
#[derive(Clone, Copy)]
pub(crate) enum Step {
    /// The byte is of the piece, which goes on so.
    On(Scan),
    /// The piece ends before the byte.
    Before,
    /// The piece ends behind the byte.
    Behind,
    /// The piece can't go on, and isn't over.
    Broken,
}

/// How many of these bytes are of a piece that goes on so, if it ends.
pub(crate) fn end_of(scan: Scan, bytes: &[u8]) -> Option<usize>
    ensures end { result ≡ end_of scan bytes.now }
    ensures within { IfSome result (λ end. end ≤ length bytes.now) }
{
    let mut goes_on = scan;
    let mut at = 0;
    'bytes: while let Some(byte) = byte_at(bytes, at) {
        match step_by(goes_on, byte) {
            Step::On(next) => goes_on = next,
            Step::Before => return Some(at),
            Step::Behind => return Some(at + 1),
            Step::Broken => return None,
        }
        at += 1;
    }
    if may_end(goes_on) { Some(at) } else { None }
}

// The byte at this place.
fn byte_at(bytes: &[u8], at: usize) -> Option<u8>
    ensures some { IfSome result (λ b. drop at bytes.now ≡ b ∷ drop (at + 1) bytes.now) }
    ensures none { result ≡ None → drop at bytes.now ≡ [] }
    ensures within { IfSome result (λ _. at + 1 ≤ length bytes.now) }
    ensures small { IfSome result (λ _. at + 1 < 2 ^ 64) }
{
    bytes.get(at).copied()
}

// What a byte is to a piece that goes on so.
fn step_by(scan: Scan, byte: u8) -> Step
    ensures { result ≡ step scan byte }
{
    match scan {
        Scan::Nothing => Step::Before,
        Scan::Blanks => on_while(is_blank(byte), scan),
        Scan::Word => on_while(is_word_byte(byte), scan),
        Scan::Digits => on_while(byte.is_ascii_digit(), scan),
        Scan::Line => on_while(byte != b'\n', scan),
        Scan::Block { star } => step_block(star, byte),
        Scan::Raw => up_to(byte == b'`', scan),
        Scan::Quoted { quote, escaped } => step_quoted(quote, escaped, byte),
    }
}

// A byte of a piece that goes on while that holds.
fn on_while(goes_on: bool, scan: Scan) -> Step
    ensures { result ≡ on_while goes_on scan }
{
    if goes_on {
        Step::On(scan)
    } else {
        Step::Before
    }
}

// A byte of a piece, which may be its last.
fn up_to(ends: bool, scan: Scan) -> Step
    ensures { result ≡ up_to ends scan }
{
    if ends { Step::Behind } else { Step::On(scan) }
}

// A byte of a comment up to `*/`.
fn step_block(star: bool, byte: u8) -> Step
    ensures { result ≡ step_block star byte }
{
    up_to(star && byte == b'/', Scan::Block { star: byte == b'*' })
}

// A byte of a string up to this quotation mark.
fn step_quoted(quote: u8, escaped: bool, byte: u8) -> Step
    ensures { result ≡ step_quoted quote escaped byte }
{
    if byte == b'\n' {
        return Step::Broken;
    }
    let next = Scan::Quoted {
        quote,
        escaped: !escaped && byte == b'\\',
    };
    up_to(!escaped && byte == quote, next)
}

// Whether a piece may end where the source does.
fn may_end(scan: Scan) -> bool
    ensures { result ≡ may_end scan }
{
    matches!(
        scan,
        Scan::Nothing | Scan::Blanks | Scan::Word | Scan::Digits | Scan::Line
    )
}

/// Whether the byte is a space, a tab or a carriage return.
pub(crate) fn is_blank(byte: u8) -> bool
    ensures { result ≡ is_blank byte }
{
    byte == b' ' || byte == b'\t' || byte == b'\r'
}

/// Whether the byte is a letter of ASCII, the underline, or of a character beyond ASCII: these hold Go's other letters
/// and digits.
pub(crate) fn is_letter_byte(byte: u8) -> bool
    ensures { result ≡ is_letter_byte byte }
{
    byte.is_ascii_alphabetic() || byte == b'_' || byte >= 128
}

/// Whether the byte is such a one or a digit.
pub(crate) fn is_word_byte(byte: u8) -> bool
    ensures { result ≡ is_word_byte byte }
{
    is_letter_byte(byte) || byte.is_ascii_digit()
}
