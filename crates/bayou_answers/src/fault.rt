use std::alloc::{AllocError, AllocFailed};

/// Why the servers of a script couldn't be started.
#[derive(Clone, Copy, Debug, PartialEq, Eq)]
pub enum BeginFault {
    /// Memory ran out.
    OutOfMemory,
    /// A server's device failed as the server was started first.
    Device,
}

impl From<AllocError> for BeginFault {
    ghost use Rattle.std.specs.Prelude.{◌≡◌};
    ghost use Rattle.bayou_answers.specs.declared.fault.BeginFault.TheVariants.{OutOfMemory};

    ghost from_gives = { λ _ fault. fault ≡ OutOfMemory };

    fn from(_error: AllocError) -> BeginFault {
        BeginFault::OutOfMemory
    }
}

impl<T: Drop> From<AllocFailed<T>> for BeginFault {
    ghost use Rattle.std.specs.Prelude.{◌≡◌};
    ghost use Rattle.bayou_answers.specs.declared.fault.BeginFault.TheVariants.{OutOfMemory};

    ghost from_gives = { λ _ fault. fault ≡ OutOfMemory };

    fn from(_error: AllocFailed<T>) -> BeginFault {
        BeginFault::OutOfMemory
    }
}
