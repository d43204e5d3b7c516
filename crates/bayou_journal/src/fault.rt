use bayou_device::{Failed, ReadFault};
use std::alloc::AllocError;

/// Why a journal wasn't opened.
#[derive(Clone, Copy, Debug, PartialEq, Eq)]
pub enum OpenFault {
    /// A device call failed.
    Device,
    /// The bytes are no journal's.
    NotAJournal,
    /// The journal is another server's.
    OtherServer,
    OutOfMemory,
}

/// Why an entry wasn't added.
#[derive(Clone, Copy, Debug, PartialEq, Eq)]
pub enum AppendFault {
    /// An earlier device call failed, and the journal wasn't opened again since.
    Down,
    /// A device call failed.
    Device,
}

/// A journal that wasn't opened: why, and the device.
#[derive(Debug, Drop)]
pub struct NotOpened<D> {
    pub fault: OpenFault,
    pub device: D,
}

impl From<Failed> for OpenFault {
    ghost use Rattle.std.specs.Prelude.{◌≡◌};
    ghost use Rattle.bayou_journal.specs.declared.fault.OpenFault.TheVariants.{Device};

    ghost from_gives = { λ _ fault. fault ≡ Device };

    fn from(_: Failed) -> Self {
        OpenFault::Device
    }
}

impl From<AllocError> for OpenFault {
    ghost use Rattle.std.specs.Prelude.{◌≡◌};
    ghost use Rattle.bayou_journal.specs.declared.fault.OpenFault.TheVariants.{OutOfMemory};

    ghost from_gives = { λ _ fault. fault ≡ OutOfMemory };

    fn from(_: AllocError) -> Self {
        OpenFault::OutOfMemory
    }
}

impl From<ReadFault> for OpenFault {
    ghost use Rattle.std.specs.Prelude.{◌≡◌};
    ghost use Rattle.bayou_journal.specs.Faults.{of_read};

    ghost from_gives = { λ read fault. fault ≡ of_read read };

    fn from(read: ReadFault) -> Self {
        match read {
            ReadFault::Failed => OpenFault::Device,
            ReadFault::OutOfMemory => OpenFault::OutOfMemory,
        }
    }
}
