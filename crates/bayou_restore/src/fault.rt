//! Why a server's Writes weren't made again.
ghost use Rattle.std.specs.Prelude.{◌≡◌};
ghost use Rattle.bayou_restore.specs.Inner.Steps.{unmade_as, untaken_as};

use bayou_server::{TakeFault, WriteFault};
use std::alloc::AllocError;

/// Why a server's Writes weren't made again.
#[derive(Clone, Copy, Debug, PartialEq, Eq)]
pub enum RestoreFault {
    /// The server holds Writes already.
    NotEmpty,
    /// The own Write of this number isn't what the server makes of its program there, or counts what may not stand before it.
    Misfit(u32),
    /// There are more Writes than the server may hold.
    LogFull,
    /// A device call failed.
    Device,
    OutOfMemory,
}

impl From<AllocError> for RestoreFault {
    ghost use Rattle.std.specs.Prelude.{◌≡◌};
    ghost use Rattle.bayou_restore.specs.declared.fault.RestoreFault.TheVariants.{OutOfMemory};

    ghost from_gives = { λ _ fault. fault ≡ OutOfMemory };

    fn from(_error: AllocError) -> RestoreFault {
        RestoreFault::OutOfMemory
    }
}

/// What it is that a Write wasn't taken which the own Write of this number counts.
pub(crate) fn untaken(fault: TakeFault, number: u32) -> RestoreFault
    ensures { result ≡ untaken_as fault number }
{
    match fault {
        TakeFault::Journal => RestoreFault::Device,
        TakeFault::LogFull => RestoreFault::LogFull,
        TakeFault::OutOfMemory => RestoreFault::OutOfMemory,
        _ => RestoreFault::Misfit(number),
    }
}

/// What it is that the own Write of this number wasn't made.
pub(crate) fn unmade(fault: WriteFault, number: u32) -> RestoreFault
    ensures { result ≡ unmade_as fault number }
{
    match fault {
        WriteFault::Journal => RestoreFault::Device,
        WriteFault::LogFull => RestoreFault::LogFull,
        WriteFault::OutOfMemory => RestoreFault::OutOfMemory,
        _ => RestoreFault::Misfit(number),
    }
}
