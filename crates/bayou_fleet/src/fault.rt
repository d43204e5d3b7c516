use std::alloc::{AllocError, AllocFailed};

/// Why a run of servers over a network ended early.
#[derive(Clone, Copy, Debug, PartialEq, Eq)]
pub enum FleetFault {
    /// Memory ran out where no answer can say so, or a thread didn't start.
    Memory,
    /// A socket can't be listened to or reached, or a reply that isn't a session's was lost.
    Network,
}

impl From<AllocError> for FleetFault {
    ghost use Rattle.std.specs.Prelude.{◌≡◌};
    ghost use Rattle.bayou_fleet.specs.declared.fault.FleetFault.TheVariants.{Memory};

    ghost from_gives = { λ _ fault. fault ≡ Memory };

    fn from(_refused: AllocError) -> FleetFault {
        FleetFault::Memory
    }
}

impl<T: Drop> From<AllocFailed<T>> for FleetFault {
    ghost use Rattle.std.specs.Prelude.{◌≡◌};
    ghost use Rattle.bayou_fleet.specs.declared.fault.FleetFault.TheVariants.{Memory};

    ghost from_gives = { λ _ fault. fault ≡ Memory };

    fn from(_refused: AllocFailed<T>) -> FleetFault {
        FleetFault::Memory
    }
}
