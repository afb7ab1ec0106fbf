//! Files to which several encoders of one program wrote.

ghost use Rattle.std.specs.Prelude.{◌≡◌};
ghost use Rattle.gob.specs.Appended.{IsInInput, TellsInInput, leaves_out};
ghost use Rattle.gob.specs.Exit.{ending_status};

use crate::Exit;
use gob_appended::Appended;
use gob_stream::Refusal;
use gob_tool::ToolFault;
use gob_words::{View, ViewCommand};

/// Whether definitions that are said again are left out, as for people: what isn't damaged is found without that.
pub(crate) fn leaves_out(view: &View<'_>) -> bool
    ensures { result ≡ leaves_out view.now }
{
    !view.salvage && matches!(view.command, ViewCommand::Values | ViewCommand::Types)
}

/// How the run over such a reader ends the program: a refusal is told by the offsets of the input.
pub(crate) fn in_input<R>(appended: &Appended<R>, ending: Result<(), Exit>) -> Result<(), Exit>
    ensures status { ending_status result ≡ ending_status ending }
    ensures told { TellsInInput appended.now ending result }
{
    match ending {
        Err(Exit::Run(ToolFault::Refused(refusal))) => {
            Err(Exit::Run(ToolFault::Refused(refusal_in_input(appended, refusal))))
        }
        // What it lacked memory for, the run takes for a failed read.
        Err(Exit::Run(ToolFault::Read)) if appended.lacks_memory() => {
            Err(Exit::Run(ToolFault::Memory))
        }
        other => other,
    }
}

/// The refusal by the offsets of the input.
pub(crate) fn refusal_in_input<R>(appended: &Appended<R>, refusal: Refusal) -> Refusal
    ensures { IsInInput appended.now refusal result }
{
    Refusal {
        place: appended.place_in_input(refusal.place),
        seen: appended.end_in_input(refusal.seen),
        reason: refusal.reason,
    }
}
