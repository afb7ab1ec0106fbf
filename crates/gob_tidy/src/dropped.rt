//! Fields that a tidy struct drops.

ghost use Rattle.std.specs.Prelude.{◌≡◌, IfSome, None, drop};
ghost use Rattle.gob_types.specs.declared.kind.Kind.TheVariants as kind;
ghost use Rattle.gob_types.specs.Table.{Table};
ghost use Rattle.gob_value.specs.Machine.Begins.{BeginsKept, HoldsBetween};
ghost use Rattle.gob_tidy.specs.Machine.Tidying.{BeginsDropped};

use crate::part::zero_end;
use gob_types::{Basic, Kind};

/// Where the value of the kind ends that stands at the place, if a tidy struct drops it: 0, false or nothing.
pub(crate) fn dropped_end(kind: &Kind, body: &[u8], at: usize) -> Option<usize>
    ensures dropped { IfSome result (λ end. (T : Table) → HoldsBetween (BeginsDropped T kind.now) body.now at end) }
    ensures kept { result ≡ None → BeginsKept kind.now (drop at body.now) }
{
    match kind {
        Kind::Basic(basic) => basic_dropped_end(*basic, body, at),
        Kind::Slice { .. } => zero_end(body, at),
        _ => None,
    }
}

// Where the value of the basic type ends, if a tidy struct drops it. It is a byte 0, two in a complex number, and no
// other value begins so.
fn basic_dropped_end(basic: Basic, body: &[u8], at: usize) -> Option<usize>
    ensures dropped { IfSome result (λ end. (T : Table)
        → HoldsBetween (BeginsDropped T (kind.Basic basic)) body.now at end) }
    ensures kept { result ≡ None → BeginsKept (kind.Basic basic) (drop at body.now) }
{
    match basic {
        Basic::Interface => None,
        Basic::Complex => {
            let behind = zero_end(body, at)?;
            zero_end(body, behind)
        }
        _ => zero_end(body, at),
    }
}
