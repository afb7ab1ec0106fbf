//! What stops a conversion.

use crate::clash::Clash;
use gob_go_writer::PutFault;
use gob_join::TakeFault;
use gob_num::Memory;
use gob_rename::{Misfit, RenameFault};
use gob_stream::{Fault, WriteFault};
use gob_tool::ToolFault;
use gob_types::Reason;
use std::alloc::AllocFailed;

/// Why a stream isn't converted to its end. What was written before stays a stream, but for a failed write.
#[derive(Drop)]
pub enum ConvertFault {
    /// One of the renames doesn't fit the wanted types.
    Misfits {
        /// Which one, counted from 0.
        number: usize,
        /// Why.
        misfit: Misfit,
    },
    /// The stream that is written takes no more: with the next item it would be refused, for the reason, as where it
    /// has as many types as a stream may have.
    Full(Reason),
    /// The type of a value doesn't match the wanted type.
    Clash(Clash),
    /// What stops any run that receives values.
    Run(ToolFault),
}

impl From<ToolFault> for ConvertFault {
    ghost use Rattle.std.specs.Prelude.{◌≡◌};
    ghost use Rattle.gob_convert.specs.declared.fault.ConvertFault.TheVariants as stop;

    ghost from_gives = { λ fault given. given ≡ stop.Run fault };

    fn from(fault: ToolFault) -> ConvertFault {
        ConvertFault::Run(fault)
    }
}

impl From<Fault> for ConvertFault {
    ghost use Rattle.std.specs.Prelude.{◌≡◌};
    ghost use Rattle.gob_tool.specs.Fault.{reading_fault};
    ghost use Rattle.gob_convert.specs.declared.fault.ConvertFault.TheVariants as stop;

    ghost from_gives = { λ fault given. given ≡ stop.Run (reading_fault fault) };

    fn from(fault: Fault) -> ConvertFault {
        ConvertFault::Run(ToolFault::from(fault))
    }
}

impl From<WriteFault> for ConvertFault {
    ghost use Rattle.std.specs.Prelude.{◌≡◌};
    ghost use Rattle.gob_tool.specs.Fault.{writing_fault};
    ghost use Rattle.gob_convert.specs.declared.fault.ConvertFault.TheVariants as stop;

    ghost from_gives = { λ fault given. given ≡ stop.Run (writing_fault fault) };

    fn from(fault: WriteFault) -> ConvertFault {
        ConvertFault::Run(ToolFault::from(fault))
    }
}

impl From<Memory> for ConvertFault {
    ghost use Rattle.std.specs.Prelude.{◌≡◌};
    ghost use Rattle.gob_tool.specs.declared.fault.ToolFault.TheVariants as fault;
    ghost use Rattle.gob_convert.specs.declared.fault.ConvertFault.TheVariants as stop;

    ghost from_gives = { λ _ given. given ≡ stop.Run fault.Memory };

    fn from(_: Memory) -> ConvertFault {
        ConvertFault::Run(ToolFault::Memory)
    }
}

impl From<RenameFault> for ConvertFault {
    ghost use Rattle.std.specs.Prelude.{◌≡◌};
    ghost use Rattle.gob_convert.specs.Faults.{renaming_fault};

    ghost from_gives = { λ fault given. given ≡ renaming_fault fault };

    fn from(fault: RenameFault) -> ConvertFault {
        match fault {
            RenameFault::Misfits { number, misfit } => ConvertFault::Misfits { number, misfit },
            RenameFault::Memory => ConvertFault::Run(ToolFault::Memory),
        }
    }
}

impl From<TakeFault> for ConvertFault {
    ghost use Rattle.std.specs.Prelude.{◌≡◌};
    ghost use Rattle.gob_convert.specs.Faults.{taking_fault};

    ghost from_gives = { λ fault given. given ≡ taking_fault fault };

    // A writer is asked for no more behind a fault.
    fn from(fault: TakeFault) -> ConvertFault {
        match fault {
            TakeFault::Full(reason) => ConvertFault::Full(reason),
            TakeFault::Memory | TakeFault::Failed => ConvertFault::Run(ToolFault::Memory),
        }
    }
}

impl From<PutFault> for ConvertFault {
    ghost use Rattle.std.specs.Prelude.{◌≡◌};
    ghost use Rattle.gob_join.specs.Faults.{putting_fault};
    ghost use Rattle.gob_convert.specs.Faults.{taking_fault};

    ghost from_gives = { λ fault given. given ≡ taking_fault (putting_fault fault) };

    fn from(fault: PutFault) -> ConvertFault {
        ConvertFault::from(TakeFault::from(fault))
    }
}

impl<T: Drop> From<AllocFailed<T>> for ConvertFault {
    ghost use Rattle.std.specs.Prelude.{◌≡◌};
    ghost use Rattle.gob_tool.specs.declared.fault.ToolFault.TheVariants as fault;
    ghost use Rattle.gob_convert.specs.declared.fault.ConvertFault.TheVariants as stop;

    ghost from_gives = { λ _ given. given ≡ stop.Run fault.Memory };

    fn from(_: AllocFailed<T>) -> ConvertFault {
        ConvertFault::Run(ToolFault::Memory)
    }
}
