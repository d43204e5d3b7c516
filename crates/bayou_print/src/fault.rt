use arrayvec::ArrayString;
use bayou_answers::BeginFault;
use bayou_script::{InputRefusal, ScriptFault};
use std::alloc::{AllocError, AllocFailed};
use std::fmt::Write;
use thiserror::Error;

/// How many bytes a fault's line has at the most.
const MAX_FAULT_BYTES: usize = 128;

/// How many of these say what the fault is.
const MAX_CAUSE_BYTES: usize = 120;

/// Why a run ended early.
#[derive(Clone, Copy, Debug, PartialEq, Eq, Error)]
pub enum RunFault {
    /// The script is refused for its line of this number, counted from 1 on.
    #[error("line {number}: {fault}")]
    Line { number: u64, fault: ScriptFault },
    /// Memory ran out where no printed line can say so.
    #[error("memory")]
    Memory,
    /// A server's device failed as the server was started first, or has no journal of its own.
    #[error("device")]
    Device,
    /// A socket of a server can't be listened to or reached, or a reply that isn't a session's was lost.
    #[error("network")]
    Network,
    /// The input couldn't be read, or took too many turns.
    #[error("input")]
    Input,
    /// The output couldn't be written, or took too many turns.
    #[error("output")]
    Output,
}

impl RunFault {
    ghost use Rattle.std.specs.Prelude.{◌≡◌};
    ghost use Rattle.bayou_print.specs.Fault.{IsFaultLine, status_of};

    /// What the program's exit status is after this fault.
    pub fn status(self) -> u8
        ensures { result ≡ status_of self }
    {
        match self {
            RunFault::Line { .. } => 2,
            RunFault::Memory
            | RunFault::Device
            | RunFault::Network
            | RunFault::Input
            | RunFault::Output => 3,
        }
    }

    /// The line that tells it. It takes no memory, so that want of memory can be reported.
    pub fn to_line(self) -> ArrayString<MAX_FAULT_BYTES>
        ensures { IsFaultLine result.bytes }
    {
        let mut cause = ArrayString::<MAX_CAUSE_BYTES>::new();
        // The longest has fewer bytes than there is room for.
        let _ = write!(cause, "{self}");
        let mut line = ArrayString::new();
        line.push_str("bayou: ");
        line.push_str(cause.as_str());
        line.push('\n');
        line
    }
}

impl From<AllocError> for RunFault {
    ghost use Rattle.std.specs.Prelude.{◌≡◌};
    ghost use Rattle.bayou_print.specs.declared.fault.RunFault.TheVariants.{Memory};

    ghost from_gives = { λ _ fault. fault ≡ Memory };

    fn from(_error: AllocError) -> RunFault {
        RunFault::Memory
    }
}

impl<T: Drop> From<AllocFailed<T>> for RunFault {
    ghost use Rattle.std.specs.Prelude.{◌≡◌};
    ghost use Rattle.bayou_print.specs.declared.fault.RunFault.TheVariants.{Memory};

    ghost from_gives = { λ _ fault. fault ≡ Memory };

    fn from(_error: AllocFailed<T>) -> RunFault {
        RunFault::Memory
    }
}

impl From<InputRefusal> for RunFault {
    ghost use Rattle.std.specs.Prelude.{◌≡◌};
    ghost use Rattle.bayou_print.specs.Fault.{fault_of};

    ghost from_gives = { λ refusal fault. fault ≡ fault_of refusal };

    fn from(refusal: InputRefusal) -> RunFault {
        match refusal {
            InputRefusal::Line { number, fault } => RunFault::Line { number, fault },
            InputRefusal::OutOfMemory => RunFault::Memory,
        }
    }
}

impl From<BeginFault> for RunFault {
    ghost use Rattle.std.specs.Prelude.{◌≡◌};
    ghost use Rattle.bayou_print.specs.Fault.{fault_of_begin};

    ghost from_gives = { λ begin fault. fault ≡ fault_of_begin begin };

    fn from(begin: BeginFault) -> RunFault {
        match begin {
            BeginFault::OutOfMemory => RunFault::Memory,
            BeginFault::Device => RunFault::Device,
        }
    }
}
