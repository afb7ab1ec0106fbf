//! Which bytes stand for themselves in a JSON string.

ghost use Rattle.std.specs.Prelude.{◌≡◌, ◌+◌, ◌≤◌, ◌++◌, IsTrue, length, take};
ghost use Rattle.gob_json.specs.Machine.Digits.{IsPlainAscii};

// For each byte whether it is an ASCII character that stands for itself: all from the space on but the quote, the
// backslash and those that are no ASCII.
static STANDS: [u8; 256] = [
    0, 0, 0, 0, 0, 0, 0, 0, 0, 0, 0, 0, 0, 0, 0, 0, 0, 0, 0, 0, 0, 0, 0, 0, 0, 0, 0, 0, 0, 0, 0, 0,
    1, 1, 0, 1, 1, 1, 1, 1, 1, 1, 1, 1, 1, 1, 1, 1, 1, 1, 1, 1, 1, 1, 1, 1, 1, 1, 1, 1, 1, 1, 1, 1,
    1, 1, 1, 1, 1, 1, 1, 1, 1, 1, 1, 1, 1, 1, 1, 1, 1, 1, 1, 1, 1, 1, 1, 1, 1, 1, 1, 1, 0, 1, 1, 1,
    1, 1, 1, 1, 1, 1, 1, 1, 1, 1, 1, 1, 1, 1, 1, 1, 1, 1, 1, 1, 1, 1, 1, 1, 1, 1, 1, 1, 1, 1, 1, 1,
    0, 0, 0, 0, 0, 0, 0, 0, 0, 0, 0, 0, 0, 0, 0, 0, 0, 0, 0, 0, 0, 0, 0, 0, 0, 0, 0, 0, 0, 0, 0, 0,
    0, 0, 0, 0, 0, 0, 0, 0, 0, 0, 0, 0, 0, 0, 0, 0, 0, 0, 0, 0, 0, 0, 0, 0, 0, 0, 0, 0, 0, 0, 0, 0,
    0, 0, 0, 0, 0, 0, 0, 0, 0, 0, 0, 0, 0, 0, 0, 0, 0, 0, 0, 0, 0, 0, 0, 0, 0, 0, 0, 0, 0, 0, 0, 0,
    0, 0, 0, 0, 0, 0, 0, 0, 0, 0, 0, 0, 0, 0, 0, 0, 0, 0, 0, 0, 0, 0, 0, 0, 0, 0, 0, 0, 0, 0, 0, 0,
];

// Of so few bytes one is looked at behind another, as most names have them.
const FEW: usize = 16;

/// Whether each byte is an ASCII character that stands for itself in a string.
#[inline(always)]
pub(crate) fn is_plain_ascii(bytes: &[u8]) -> bool
    ensures { IsTrue result → IsPlainAscii bytes.now }
{
    if bytes.len() < FEW {
        return are_few_plain(bytes);
    }
    are_all_plain(bytes)
}

// Whether each byte is such a character, looked at one behind another.
#[inline(always)]
fn are_few_plain(bytes: &[u8]) -> bool
    ensures { IsTrue result → IsPlainAscii bytes.now }
{
    'bytes: for byte in bytes {
        if STANDS[usize::from(*byte)] == 0 {
            return false;
        }
    }
    true
}

/// Copies the bytes to a place of a block, as long as each is such a character, and tells whether all are. Of few bytes
/// this is quicker than a look at them and a copy.
#[inline(always)]
pub(crate) fn copy_plain(bytes: &[u8], block: &mut [u8], at: usize) -> bool
    requires { at + length bytes.now ≤ length block.old }
    ensures plain { IsTrue result → IsPlainAscii bytes.now }
    ensures text { IsTrue result → take (at + length bytes.now) block.new ≡ take at block.old ++ bytes.now }
    ensures before { take at block.new ≡ take at block.old }
    ensures stays { length block.new ≡ length block.old }
{
    'bytes: for index in 0..bytes.len() {
        let byte = bytes[index];
        if STANDS[usize::from(byte)] == 0 {
            return false;
        }
        block[at + index] = byte;
    }
    true
}

// Whether each byte is such a character. It looks at all: a loop that doesn't end early takes many bytes at once.
fn are_all_plain(bytes: &[u8]) -> bool
    ensures { IsTrue result → IsPlainAscii bytes.now }
{
    let mut plain = true;
    'bytes: for byte in bytes {
        plain &= (*byte >= 0x20) & (*byte < 0x80) & (*byte != b'"') & (*byte != b'\\');
    }
    plain
}
