//! Where items may stand, as their counts and type numbers say.

ghost use Rattle.std.specs.Prelude.{◌≡◌, ◌≤◌, ◌↔◌, ℕ, drop, length, None, IfSome, IsTrue};
ghost use Rattle.gob_forms.specs.Heads.{BeginsDefinition, BeginsItem, IsChain, MayCome, MayStand};

use crate::head::{Head, head_of};

// The first id that a stream may define.
const FIRST_DEFINED: u64 = 64;

// The last id of a basic type.
const LAST_BASIC: u64 = 8;

/// Items that stand one behind another, by their counts and type numbers alone.
#[derive(Clone, Copy, Debug, PartialEq, Eq)]
pub struct Chain {
    /// How many there are.
    pub items: u64,
    /// Whether the bytes end where the last of them does.
    pub is_to_end: bool,
}

/// The items that stand from the place on, `most` of them at most.
pub fn chain_from(bytes: &[u8], place: usize, most: u64) -> Chain
    ensures { IsChain bytes.now place most result }
{
    let mut end = place;
    for items in 0..most {
        match item_end(bytes, end) {
            Some(next) => end = next,
            None => return Chain::ending(items, end == bytes.len()),
        }
    }
    Chain::ending(most, end == bytes.len())
}

impl Chain {
    fn ending(items: u64, is_to_end: bool) -> Chain
        ensures items { result.items ≡ items }
        ensures end { result.is_to_end ≡ is_to_end }
    {
        Chain { items, is_to_end }
    }
}

/// Whether an item may stand at the front of the bytes, as its count and its type number say.
pub fn begins_item(bytes: &[u8]) -> bool
    ensures { IsTrue result ↔ BeginsItem bytes.now }
{
    let Some(head) = head_of(bytes) else {
        return false;
    };
    may_come(head, bytes)
}

/// Whether a definition may stand at the place.
pub fn defines_at(bytes: &[u8], place: usize) -> bool
    ensures { IsTrue result ↔ BeginsDefinition (drop place bytes.now) }
{
    let Some(item) = bytes.get(place..) else {
        return false;
    };
    let Some(head) = head_of(item) else {
        return false;
    };
    head.defines && may_come(head, item)
}

// Where the item ends that may stand at the place.
fn item_end(bytes: &[u8], place: usize) -> Option<usize>
    ensures within { IfSome result (λ end. end ≤ length bytes.now) }
    ensures stands { IfSome result (λ end. MayStand bytes.now place end) }
    ensures none { result ≡ None → (end : ℕ) → ¬ MayStand bytes.now place end }
{
    let item = bytes.get(place..)?;
    let head = head_of(item)?;
    if !may_come(head, item) || !head.is_whole_in(item) {
        return None;
    }
    let end = place.saturating_add(head.end_in(item));
    Some(end.min(bytes.len()))
}

// Whether a stream may have an item with this head: a definition, a value of a type that a stream defines, or one of a
// basic type, behind whose number its tag stands.
fn may_come(head: Head, item: &[u8]) -> bool
    ensures { IsTrue result ↔ MayCome head item.now }
{
    let id = head.id.0;
    let has_tag = item.get(head.size) == Some(&0);
    let is_basic = 1 <= id && id <= LAST_BASIC && !head.defines && has_tag;
    (is_basic || FIRST_DEFINED <= id) && !head.body_in(item).is_empty()
}
