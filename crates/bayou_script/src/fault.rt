use bayou_text::LineFault;
use std::alloc::{AllocError, AllocFailed};
use thiserror::Error;

/// What is wrong with a line of a script, or of an audit file.
#[derive(Clone, Copy, Debug, PartialEq, Eq, Error)]
pub enum ScriptFault {
    /// It isn't UTF-8, or isn't JSON.
    #[error("not JSON")]
    NotJson,
    /// It is JSON of another shape than a command's.
    #[error("bad shape")]
    BadShape,
    /// A key in it is none.
    #[error("bad key")]
    BadKey,
    /// A program in it has a list that is too long.
    #[error("bad program")]
    BadProgram,
    /// It can't stand there.
    #[error("out of place")]
    OutOfPlace,
}

/// Why a text wasn't taken as a script, or as an audit file.
#[derive(Clone, Copy, Debug, PartialEq, Eq)]
pub enum InputRefusal {
    /// Its line of this number, counted from 1 on, has this fault.
    Line { number: u64, fault: ScriptFault },
    /// An allocation was refused, or there are more lines than 64 bits can number. It says nothing of the text's faults.
    OutOfMemory,
}

impl InputRefusal {
    ghost use Rattle.std.specs.Prelude.{◌≡◌};
    ghost use Rattle.bayou_script.specs.declared.fault.InputRefusal.TheVariants.{Line};
    ghost use Rattle.bayou_script.specs.declared.fault.ScriptFault.TheVariants.{OutOfPlace};
    ghost use Rattle.bayou_script.specs.Inner.Taking.{refusal_of};

    /// The refusal of a text whose line of this number wasn't read.
    pub(crate) fn of_line(number: u64, fault: LineFault) -> Self
        ensures { result ≡ refusal_of number fault }
    {
        let fault = match fault {
            LineFault::OutOfMemory => return InputRefusal::OutOfMemory,
            LineFault::NotJson => ScriptFault::NotJson,
            LineFault::BadShape(_) => ScriptFault::BadShape,
            LineFault::Key(_) => ScriptFault::BadKey,
            LineFault::Program(_) => ScriptFault::BadProgram,
        };
        InputRefusal::Line { number, fault }
    }

    /// The refusal of a text whose line of this number has no place there.
    pub(crate) fn out_of_place(number: u64) -> Self
        ensures { result ≡ Line number OutOfPlace }
    {
        InputRefusal::Line {
            number,
            fault: ScriptFault::OutOfPlace,
        }
    }
}

impl From<AllocError> for InputRefusal {
    ghost use Rattle.std.specs.Prelude.{◌≡◌};
    ghost use Rattle.bayou_script.specs.declared.fault.InputRefusal.TheVariants.{OutOfMemory};

    ghost from_gives = { λ _ refusal. refusal ≡ OutOfMemory };

    fn from(_error: AllocError) -> InputRefusal {
        InputRefusal::OutOfMemory
    }
}

impl<T: Drop> From<AllocFailed<T>> for InputRefusal {
    ghost use Rattle.std.specs.Prelude.{◌≡◌};
    ghost use Rattle.bayou_script.specs.declared.fault.InputRefusal.TheVariants.{OutOfMemory};

    ghost from_gives = { λ _ refusal. refusal ≡ OutOfMemory };

    fn from(_error: AllocFailed<T>) -> InputRefusal {
        InputRefusal::OutOfMemory
    }
}
