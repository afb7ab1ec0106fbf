//! What stands before a value in an interface.

ghost use Rattle.std.specs.Prelude.{◌≡◌, ◌-◌, ◌≤◌, IfSome, drop, length};
ghost use Rattle.gob_types.specs.Defined.{types};
ghost use Rattle.gob_filled_walk.specs.Reads.{BeginsHeld};

use gob_go::held_type;
use gob_types::{Table, TypeId};
use gob_value::number_at;
use gob_walk::bytes_at;

/// What an interface holds.
#[derive(Clone, Copy)]
pub(crate) struct Held<'a> {
    /// The name of its type.
    pub(crate) name: &'a [u8],
    /// Its type.
    pub(crate) id: TypeId,
    /// Where the value begins, behind its type's number and the count of its bytes.
    pub(crate) begin: usize,
    /// Where it ends.
    pub(crate) end: usize,
}

/// What the interface holds that stands in the body from the place on. None where it holds nothing, or nothing of a
/// type that is ready.
// held: count name number count value
pub(crate) fn held_at<'a>(table: &Table, body: &'a [u8], at: usize) -> Option<Held<'a>>
    requires { at ≤ length body.now }
    ensures begins { IfSome result (λ held. BeginsHeld (types table.now) held.name.now held.id (held.end - held.begin)
        (drop at body.now) (drop held.begin body.now)) }
    ensures order { IfSome result (λ held. held.begin ≤ held.end) }
    ensures inside { IfSome result (λ held. held.end ≤ length body.now) }
{
    let (size, named) = number_at(body, at)?;
    if size == 0 {
        return None;
    }
    let (name, typed) = bytes_at(size, body, named)?;
    let (number, counted) = number_at(body, typed)?;
    let id = held_type(table, number)?;
    let (count, begin) = number_at(body, counted)?;
    let (_value, end) = bytes_at(count, body, begin)?;
    Some(Held {
        name,
        id,
        begin,
        end,
    })
}
