//! What stands before the values of a struct's fields, made once for many values.

ghost use Rattle.std.specs.Prelude.{◌≡◌, ◌≤◌, List, IfSome, Some, false, slice_get};
ghost use Rattle.gob_types.specs.declared.kind.Field.{Field};
ghost use Rattle.gob_json.specs.Machine.Piece.{piece_text};
ghost use Rattle.gob_json.specs.Machine.TextParts.{field_head};

use super::between::put_field_head;
use super::piece::{HEAD, Piece};
use gob_types::{Fields, Kind};

// Of so many fields what stands before them is kept: more are rare, and a field behind them has its own made.
const KEPT: usize = 8;

// For so many values it is worth while to make beforehand what stands before their fields.
const MANY: u64 = 4;

/// What stands before the value of each of a struct's first fields, without the comma.
#[derive(Drop)]
pub struct Heads {
    heads: [Piece<HEAD>; KEPT],
    count: usize,
    ghost within: { count ≤ 8 },
}

impl Heads {
    ghost use Rattle.gob_json.specs.Machine.Heads.{AreHeads, AreHeadsOf};

    /// Of the values of this kind, where it is a struct and there are many of them. It is worth while for bytes that
    /// are known to be whole alone, which are those of large items.
    #[inline(always)]
    pub(crate) fn of_many(kind: &Kind, count: u64, known: bool) -> Option<Heads>
        ensures { IfSome result (λ heads. AreHeadsOf kind.now heads) }
    {
        if !known || count < MANY {
            return None;
        }
        Some(Heads::of(kind.fields()?))
    }

    /// Of these fields, up to one whose name is too long to be kept.
    pub(crate) fn of(fields: &Fields) -> Heads
        ensures { AreHeads fields.now result }
    {
        let mut heads = [Piece::new(); KEPT];
        'fields: for count in 0..KEPT {
            match head_of(fields, count as u64) {
                Some(head) => heads[count] = head,
                None => return Heads { heads, count },
            }
        }
        Heads { heads, count: KEPT }
    }

    /// Of the field of this number, if it is kept.
    #[inline(always)]
    pub(crate) fn get(&self, number: u64) -> Option<&Piece<HEAD>>
        ensures { IfSome result (λ head. (types : List Field) (field : Field) → AreHeads types self.now
            → slice_get types number ≡ Some field → piece_text head.now ≡ field_head false number field.name) }
    {
        if number >= self.count as u64 {
            return None;
        }
        Some(&self.heads[number as usize])
    }
}

// What stands before the value of the field of this number, where there is room for it.
fn head_of(fields: &Fields, number: u64) -> Option<Piece<HEAD>>
    ensures { IfSome result (λ head. (field : Field) → slice_get fields.now number ≡ Some field
        → piece_text head ≡ field_head false number field.name) }
{
    let field = fields.get(number)?;
    let mut head = Piece::new();
    match put_field_head(false, number, field.name.as_bytes(), &mut head) {
        Ok(()) => Some(head),
        Err(_) => None,
    }
}
