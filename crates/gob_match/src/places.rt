//! The places where the fields of a struct stand in a body.

ghost use Rattle.std.specs.Prelude.{◌≡◌, ◌≤◌, ◌++◌, ◌∷◌, [], IfSome, None, length};
ghost use Rattle.gob_value.specs.Machine.Begins.{HoldsBetween};
ghost use Rattle.gob_match.specs.Machine.ReceivingWhole.{HasPlace, LacksPlace, PlacesRise, StandPresent};

use crate::body_part::{Part, each_end};
use gob_types::{Fields, Shapes};
use gob_value::{field_number, number_at};

/// Where the value of a field stands.
#[derive(Clone, Copy)]
pub(crate) struct FieldPlace {
    pub(crate) number: u64,
    pub(crate) at: usize,
}

/// Keeps where the fields of a struct that are present stand, and tells where they end.
pub(crate) fn present_fields<S: Shapes>(
    stream: &S,
    types: &Fields,
    part: Part<'_>,
    places: &mut Vec<FieldPlace>,
) -> Option<usize>
    requires { part.at ≤ length part.body.now }
    ensures { IfSome result (λ end. HoldsBetween (StandPresent (S.table stream.now) types.now part.entry.depth
        part.entry.body.now 0 places.old.items places.new.items) part.entry.body.now part.entry.at end) }
{
    let mut at = part.at;
    let mut next = 0;
    'fields: loop {
        let (delta, behind) = number_at(part.body, at)?;
        if delta == 0 {
            return Some(behind);
        }
        let number = field_number(next, delta)?;
        let own = types.get(number)?;
        keep_place(FieldPlace { number, at: behind }, places)?;
        let value = Part {
            body: part.body,
            at: behind,
            depth: part.depth,
            turns: part.turns,
        };
        at = each_end(stream, own.id, 1, value)?;
        next = number + 1;
    }
}

// Keeps a place, last.
fn keep_place(place: FieldPlace, places: &mut Vec<FieldPlace>) -> Option<()>
    ensures { IfSome result (λ _. places.new.items ≡ places.old.items ++ place ∷ []) }
{
    places.push(place).ok()
}

/// Where the field of this number stands, if it is present.
pub(crate) fn place_of(places: &[FieldPlace], number: u64) -> Option<usize>
    requires { PlacesRise places.now }
    ensures found { IfSome result (λ at. HasPlace places.now number at) }
    ensures none { result ≡ None → LacksPlace places.now number }
{
    match places.binary_search_by_key(&number, |place| place.number) {
        Ok(index) => Some(places[index].at),
        Err(_) => None,
    }
}
