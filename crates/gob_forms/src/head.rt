//! What an item's first numbers say.

ghost use Rattle.std.specs.Prelude.{◌≡◌, ◌≤◌, ◌↔◌, length, None, IfSome, IsTrue};
ghost use Rattle.gob_forms.specs.Heads.{IsHead, IsWhole, head_body, head_end};

use gob_num::{to_signed, uint_at};
use gob_types::TypeId;

/// What the count and the type number of an item say.
#[derive(Clone, Copy, Debug, PartialEq, Eq)]
pub struct Head {
    /// How many bytes stand behind the count.
    pub count: u64,
    /// How many bytes the count has.
    pub count_size: usize,
    /// The type that is defined, or of which a value is given.
    pub id: TypeId,
    /// Whether it is defined.
    pub defines: bool,
    /// How many bytes stand before the description or the value.
    pub size: usize,
}

/// The head of the item that the bytes begin with. None: it doesn't stand whole there.
pub fn head_of(item: &[u8]) -> Option<Head>
    ensures found { IfSome result (λ head. IsHead item.now head) }
    ensures none { result ≡ None → (head : Head) → ¬ IsHead item.now head }
{
    let (count, count_size) = uint_at(item, 0)?;
    let (spelled, size) = uint_at(item, count_size)?;
    let number = to_signed(spelled);
    let defines = number < 0;
    Some(Head {
        count,
        count_size,
        id: TypeId(number.unsigned_abs()),
        defines,
        size,
    })
}

impl Head {
    /// Where the item ends, or the bytes do.
    pub fn end_in(&self, item: &[u8]) -> usize
        ensures within { result ≤ length item.now }
        ensures end { result ≡ head_end self.now item.now }
    {
        let left = item.len().saturating_sub(self.count_size) as u64;
        let end = self
            .count_size
            .saturating_add(self.count.min(left) as usize);
        end.min(item.len())
    }

    /// What follows it of the item, as far as the bytes have it.
    pub fn body_in<'a>(&self, item: &'a [u8]) -> &'a [u8]
        ensures { result.now ≡ head_body self.now item.now }
    {
        let end = self.end_in(item);
        if self.size > end {
            return &[];
        }
        &item[self.size..end]
    }

    /// Whether all of the item is there.
    pub fn is_whole_in(&self, item: &[u8]) -> bool
        ensures { IsTrue result ↔ IsWhole self.now item.now }
    {
        self.count <= item.len().saturating_sub(self.count_size) as u64
    }
}
