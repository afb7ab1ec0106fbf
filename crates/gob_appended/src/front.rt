//! What stands at the front of bytes, where an item is to begin.

ghost use Rattle.std.specs.Prelude.{◌≡◌, ◌<◌, ◌≤◌};
ghost use Rattle.gob_appended.specs.Front.{IsSized, front_at, is_definition, of_size};
ghost use Rattle.gob_appended.specs.Once.{StaysAlike};

use gob_num::uint_at;

/// As many bytes as a definition has at the most of which it is asked whether it is said again.
pub(crate) const LIMIT: usize = 65536;

/// What stands at the front of bytes.
#[derive(Clone, Copy)]
pub(crate) enum Front {
    /// No item, or one of which not all stands there.
    Nothing,
    /// An item of so many bytes that is given as it is.
    Plain(u128),
    /// A whole definition of so many bytes.
    Definition(usize),
}

/// What stands at the front of the bytes.
pub(crate) fn front_of(bytes: &[u8]) -> Front
    ensures front { result ≡ front_at bytes.now }
    ensures size { IsSized bytes.now result }
{
    match uint_at(bytes, 0) {
        None => Front::Nothing,
        Some((count, behind)) => of_size(bytes, behind, u128::from(count) + behind as u128),
    }
}

/// Behind how many of the bytes, of which so many stay, another item than one that is given as it is may begin: so a
/// piece of many items is given in one read.
pub(crate) fn run_end(bytes: &[u8], size: u128) -> u128
    ensures { StaysAlike bytes.now size result }
{
    let mut end = size;
    'run: while end < bytes.len() as u128 {
        let Front::Plain(more) = front_of(&bytes[end as usize..]) else {
            return end;
        };
        let Some(behind) = end.checked_add(more) else {
            return end;
        };
        end = behind;
    }
    end
}

// What stands there, if that has so many bytes and its count so many of them.
fn of_size(bytes: &[u8], behind: usize, size: u128) -> Front
    requires { (0 < behind) × (behind ≤ size) }
    ensures front { result ≡ of_size bytes.now behind size }
    ensures size { IsSized bytes.now result }
{
    if size > LIMIT as u128 {
        return Front::Plain(size);
    }
    let whole = size as usize;
    if bytes.len() < whole {
        return Front::Nothing;
    }
    if is_definition(&bytes[behind..whole]) {
        return Front::Definition(whole);
    }
    Front::Plain(size)
}

// Whether an item with this behind its count is a definition: its type number is negative, and so spelled as an odd
// number.
fn is_definition(body: &[u8]) -> bool
    ensures { result ≡ is_definition body.now }
{
    match uint_at(body, 0) {
        None => false,
        Some((number, _)) => number % 2 == 1,
    }
}
