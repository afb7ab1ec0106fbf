//! The examples of docs/FORMAT.md, Numbers: each is written, and read back whole and one byte after another.
use gob_num::{
    Memory, Number, Step, Taken, take_uint, to_pattern, to_signed, uint_at, uint_end, uints_end,
    write_int, write_pattern, write_uint,
};
use gob_test_rows::{Row, part};
use std::alloc::Global;

// A number of each kind.
#[derive(Clone, Copy)]
enum Made {
    Uint(u64),
    Int(i64),
    Pattern(u64),
}

/// Numbers with their spellings.
pub(crate) const SPELLED: &str = "
unsigned 0 |  |  | 00
unsigned 7 |  |  | 07
unsigned 127 |  |  | 7f
unsigned 128 |  |  | ff 80
unsigned 255 |  |  | ff ff
unsigned 256 |  |  | fe 01 00
unsigned 18446744073709551615 |  |  | f8 ff ff ff ff ff ff ff ff
signed 3 |  |  | 06
signed -1 |  |  | 01
signed 63 |  |  | 7e
signed 64 |  |  | ff 80
signed -64 |  |  | 7f
signed 65 |  |  | ff 82
signed -65 |  |  | ff 81
signed -129 |  |  | fe 01 01
signed -9223372036854775808 |  |  | f8 ff ff ff ff ff ff ff ff
pattern 4031000000000000 |  |  | fe 31 40
pattern 0000000000000000 |  |  | 00
";

/// What bytes that are no whole number lack, the number of the byte that shows it, the bytes, and the answer to them.
pub(crate) const NOT_WHOLE: &str = "
no head | 0 |  |  | More
a head alone | 1 |  | ff | More
one byte of two | 2 |  | fe 01 | More
a refused head | 1 |  | 80 01 | BadHead
another | 1 |  | f7 01 | BadHead
127 in two bytes | 2 |  | ff 7f | NotMinimal
a first byte of 0 | 2 |  | fe 00 | NotMinimal
127 in two bytes, with more behind | 2 |  | ff 7f 00 00 00 00 00 00 00 | NotMinimal
";

// Two numbers of four bytes, one of three, one of one, one of nine and one of two, which is the last.
static LIST: [u8; 23] =
    *b"\xfd\x01\x22\x2a\xfd\x01\x47\x1c\xfe\x14\xc0\x07\xf8\xff\xff\xff\xff\xff\xff\xff\xff\xff\x80";

/// Numbers in the list: the number, where it begins and ends, and how many end there.
pub(crate) const PLACES: &str = "
the first | 74282 0 4 1
the second | 83740 4 8 2
of three bytes | 5312 8 11 3
of one byte | 7 11 12 4
of nine bytes | 18446744073709551615 12 21 5
the last | 128 21 23 6
behind the last | 0 23 0 7 |  |  | none
";

// The number that a row says.
fn made_of(text: &str) -> Made {
    let (kind, text) = part(text, 0).split_once(' ').unwrap_or(("", ""));
    match kind {
        "signed" => Made::Int(text.parse().unwrap_or(0)),
        "pattern" => Made::Pattern(u64::from_str_radix(text, 16).unwrap_or(1)),
        _ => Made::Uint(text.parse().unwrap_or(1)),
    }
}

fn write(alloc: Global, made: Made, out: &mut Vec<u8>) -> Result<(), Memory> {
    match made {
        Made::Uint(n) => write_uint(alloc, n, out),
        Made::Int(i) => write_int(alloc, i, out),
        Made::Pattern(p) => write_pattern(alloc, p, out),
    }
}

// Whether the number is spelled so behind what the vector held, which holds no more where memory is refused.
fn is_written(alloc: Global, made: Made, bytes: &[u8]) -> Result<bool, Memory> {
    let mut out = vec![in alloc; 9u8]?;
    match write(alloc, made, &mut out) {
        Ok(()) => Ok(out.split_first() == Some((&9, bytes))),
        Err(Memory) if out.len() == 1 => Err(Memory),
        Err(Memory) => Ok(false),
    }
}

// The first answer that is not `More`, and how many bytes it took.
fn read(bytes: &[u8]) -> (Step, usize) {
    let mut number = Number::new();
    for (i, b) in bytes.iter().enumerate() {
        let step = number.push(*b);
        if step != Step::More {
            return (step, i + 1);
        }
    }
    (Step::More, bytes.len())
}

// Whether this is the number that the unsigned one stands for.
fn stands_for(made: Made, n: u64) -> bool {
    match made {
        Made::Uint(wanted) => n == wanted,
        Made::Int(i) => to_signed(n) == i,
        Made::Pattern(p) => to_pattern(n) == p,
    }
}

// Whether the bytes are read as the number, one after another and at once.
fn is_read(made: Made, bytes: &[u8]) -> bool {
    match take_uint(bytes) {
        Taken::Whole { number, used } => {
            stands_for(made, number)
                && used == bytes.len()
                && read(bytes) == (Step::Done(number), used)
        }
        _ => false,
    }
}

// Whether what is taken of the bytes is so too where more stands behind them.
fn is_taken_before(alloc: Global, bytes: &[u8]) -> Result<bool, Memory> {
    let mut longer = bytes.to_vec(alloc)?;
    longer.extend_from_slice(&[0x80; 8])?;
    Ok(take_uint(&longer) == take_uint(bytes))
}

/// Whether the row's number is written as its bytes, and read from them.
pub(crate) fn is_spelled(alloc: Global, text: &str, row: &Row) -> Result<bool, Memory> {
    let made = made_of(text);
    let is_right = is_read(made, &row.bytes);
    Ok(is_right && is_written(alloc, made, &row.bytes)? && is_taken_before(alloc, &row.bytes)?)
}

// The answers of this name to bytes that are no whole number.
fn answers(name: &str) -> (Step, Taken) {
    match name {
        "BadHead" => (Step::BadHead, Taken::BadHead),
        "NotMinimal" => (Step::NotMinimal, Taken::NotMinimal),
        _ => (Step::More, Taken::More),
    }
}

/// Whether the row's bytes are answered so, and are found to be no number where they stand.
pub(crate) fn is_not_whole(row: &Row, name: &str) -> bool {
    let bytes = row.bytes.as_slice();
    let (due, taken) = answers(name);
    let (step, used) = read(bytes);
    step == due
        && used as u64 == row.number(0)
        && take_uint(bytes) == taken
        && uint_at(bytes, 0).is_none()
        && uint_end(bytes, 0).is_none()
        && uints_end(bytes, 0, 1).is_none()
}

/// Whether the row's number is found where it stands in the list; or none is found there.
pub(crate) fn is_in_list(row: &Row, name: &str) -> bool {
    let place = row.number(1) as usize;
    let end = row.number(2) as usize;
    let (number, end) = match name {
        "none" => (None, None),
        _ => (Some((row.number(0), end)), Some(end)),
    };
    uint_at(&LIST, place) == number
        && uint_end(&LIST, place) == end
        && uints_end(&LIST, 0, row.number(3)) == end
}
