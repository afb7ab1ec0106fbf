//! How a call ended, in words that C reads.

ghost use Rattle.std.specs.Prelude.{◌≡◌};
ghost use Rattle.gob_types.specs.Reasons.{reason_id};
ghost use Rattle.gob_c.specs.Told.{told_of, id_word, alone};

use gob_stream::Fault;
use gob_types::Reason;

/// How a call ended.
#[repr(C)]
#[derive(Clone, Copy)]
pub struct Told {
    /// 0 no fault, 1 refused, 2 no memory, 3 a fault came before, 4 these are no limits.
    pub status: u32,
    /// The number of the reason, where the bytes are refused; else 0.
    pub reason: u32,
    /// The type id that the reason speaks of, where it speaks of one; else 0.
    pub id: u64,
    /// The offset of the first refused byte in the stream; else 0.
    pub place: u64,
    /// How many bytes of the stream show the refusal; else 0.
    pub seen: u64,
    /// Where the refused item begins in the stream, in bytes from 0; else 0.
    pub begin: u64,
}

impl Told {
    /// What is told of how a call ended, where the item under way begins there.
    pub(crate) fn of(ended: Result<(), Fault>, begin: u64) -> Told
        ensures { result ≡ told_of ended begin }
    {
        match ended {
            Ok(()) => Told::plain(0),
            Err(Fault::Refused(refusal)) => Told {
                status: 1,
                reason: refusal.reason.number() as u32,
                id: id_of(refusal.reason),
                place: refusal.place,
                seen: refusal.seen,
                begin,
            },
            Err(Fault::Memory) => Told::plain(2),
            Err(Fault::Read | Fault::Failed) => Told::plain(3),
        }
    }

    /// A status alone.
    pub(crate) fn plain(status: u32) -> Told
        ensures { result ≡ alone status }
    {
        Told {
            status,
            reason: 0,
            id: 0,
            place: 0,
            seen: 0,
            begin: 0,
        }
    }
}

// The type id that a reason speaks of, else 0.
fn id_of(reason: Reason) -> u64
    ensures { result ≡ id_word (reason_id reason) }
{
    match reason {
        Reason::ReservedType(id) => id.0,
        Reason::DefinedTwice(id) => id.0,
        Reason::UndefinedType(id) => id.0,
        Reason::Bottomless(id) => id.0,
        _ => 0,
    }
}
