//! Dumps: lines that have an offset, bytes in hexadecimal digits, and the bytes as text.

ghost use Rattle.std.specs.Prelude.{◌≡◌, IfOk};
ghost use Rattle.gob_forms.specs.Spellings.{hexdump_from, xxd_from};
ghost use Rattle.gob_forms.specs.declared.dump.Zone.TheVariants as zone;

use gob_num::Memory;
use std::alloc::Global;

// In which part of a line a byte of a dump stands.
#[derive(Clone, Copy, PartialEq, Eq)]
enum Zone {
    Offset,
    Digits,
    // A space behind digits: a second one ends them.
    Gap,
    Text,
}

/// The hexadecimal digits of the bytes in a dump as `xxd` makes it: behind a colon, up to two spaces.
pub(crate) fn xxd_digits(alloc: Global, text: &[u8]) -> Result<Vec<u8>, Memory>
    ensures { IfOk result (λ digits. digits.items ≡ xxd_from zone.Offset text.now) }
{
    let mut digits = Vec::new(alloc);
    let mut zone = Zone::Offset;
    for byte in text {
        zone = match (zone, *byte) {
            (_, b'\n') => Zone::Offset,
            (Zone::Offset, b':') => Zone::Digits,
            (Zone::Digits, b' ') => Zone::Gap,
            (Zone::Gap, b' ') => Zone::Text,
            (Zone::Digits | Zone::Gap, digit) => {
                digits.push(digit)?;
                Zone::Digits
            }
            (same, _) => same,
        };
    }
    Ok(digits)
}

/// The hexadecimal digits of the bytes in a dump as `hexdump -C` makes it: behind a space, up to a bar.
pub(crate) fn hexdump_digits(alloc: Global, text: &[u8]) -> Result<Vec<u8>, Memory>
    ensures { IfOk result (λ digits. digits.items ≡ hexdump_from zone.Offset text.now) }
{
    let mut digits = Vec::new(alloc);
    let mut zone = Zone::Offset;
    for byte in text {
        zone = match (zone, *byte) {
            (_, b'\n') => Zone::Offset,
            (Zone::Offset, b' ') => Zone::Digits,
            (Zone::Digits, b'|') => Zone::Text,
            (Zone::Digits, b' ') => Zone::Digits,
            (Zone::Digits, digit) => {
                digits.push(digit)?;
                Zone::Digits
            }
            (same, _) => same,
        };
    }
    Ok(digits)
}
