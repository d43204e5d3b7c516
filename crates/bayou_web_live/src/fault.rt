//! Why no page is served, or not any longer.

use bayou_connect::ConnectFault;
use std::alloc::{AllocError, AllocFailed};
use thiserror::Error;

/// Why no page is served, or not any longer.
#[derive(Clone, Copy, Debug, PartialEq, Eq, Error)]
pub enum WebFault {
    /// The desk is at fault.
    #[error("{0}")]
    Desk(ConnectFault),
    /// The address isn't one of this machine, or is in use.
    #[error("it can't be listened at")]
    NotListening,
    #[error("output")]
    Output,
    #[error("no thread")]
    Threads,
    #[error("no random number")]
    Random,
    #[error("memory")]
    Memory,
}

impl From<ConnectFault> for WebFault {
    ghost use Rattle.std.specs.Prelude.{◌≡◌};
    ghost use Rattle.bayou_web_live.specs.declared.fault.WebFault.TheVariants.{Desk};

    ghost from_gives = { λ fault told. told ≡ Desk fault };

    fn from(fault: ConnectFault) -> WebFault {
        WebFault::Desk(fault)
    }
}

impl From<AllocError> for WebFault {
    ghost use Rattle.std.specs.Prelude.{◌≡◌};
    ghost use Rattle.bayou_web_live.specs.declared.fault.WebFault.TheVariants.{Memory};

    ghost from_gives = { λ _ fault. fault ≡ Memory };

    fn from(_error: AllocError) -> WebFault {
        WebFault::Memory
    }
}

impl<T: Drop> From<AllocFailed<T>> for WebFault {
    ghost use Rattle.std.specs.Prelude.{◌≡◌};
    ghost use Rattle.bayou_web_live.specs.declared.fault.WebFault.TheVariants.{Memory};

    ghost from_gives = { λ _ fault. fault ≡ Memory };

    fn from(_error: AllocFailed<T>) -> WebFault {
        WebFault::Memory
    }
}
