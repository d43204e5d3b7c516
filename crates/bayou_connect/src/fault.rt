use crate::lines::InputFault;
use bayou_key_file::{LabelFault, StoreName};
use bayou_print::RunFault;
use std::alloc::{AllocError, AllocFailed};
use thiserror::Error;

/// Why no line more is done.
#[derive(Clone, Copy, Debug, PartialEq, Eq, Error)]
pub enum ConnectFault {
    #[error("input")]
    Input,
    /// The file of the lines can't be opened.
    #[error("it can't be opened; the word is taken as the name of a file of lines, and a line itself comes by the standard input")]
    LinesNotOpened,
    #[error("output")]
    Output,
    #[error("memory")]
    Memory,
    /// The system gives no random number, for a run that nobody else has.
    #[error("no random number")]
    Random,
    /// The state file can't be opened or locked.
    #[error("it can't be opened, or another process has it")]
    StateNotOpened,
    /// The state file is something else.
    #[error("it is no state of sessions; nothing was changed")]
    NotAState,
    /// What stands after the whole entries of the state file is more than one that was torn.
    #[error("it is whole up to byte {whole}, and the {behind} bytes behind that are damaged; nothing was changed")]
    StateDamaged { whole: usize, behind: usize },
    /// A call of the state file failed.
    #[error("a call of the file failed")]
    State,
    /// Its label says that the state is of the store of this name, whose key wasn't given.
    #[error("it is of the store {0}; give its key by --key")]
    OtherStore(StoreName),
    /// The label of the state can't be read or written, or is none.
    #[error("its .store can't be read or written, or says no store")]
    NotALabel,
    /// What is kept beside the state of what is final can't be read or written, or is none.
    #[error("its .views can't be read or written, or keeps nothing of a store; without that file what is final is learned anew")]
    Views,
    /// The file of the book can't be opened or locked, or is of another number of servers.
    #[error("it can't be opened, another process has it, or it is of other servers")]
    BookNotOpened,
    /// A call of the book's file failed.
    #[error("a call of the file failed")]
    Book,
}

impl ConnectFault {
    ghost use Rattle.std.specs.Prelude.{◌≡◌};
    ghost use Rattle.bayou_connect.specs.Faults.{is_of_book as of_book, is_of_lines as of_lines, is_of_state as of_state};

    /// Whether it is the state file's, so that this is to be named.
    pub fn is_of_state(self) -> bool
        ensures { result ≡ of_state self }
    {
        match self {
            ConnectFault::StateNotOpened
            | ConnectFault::NotAState
            | ConnectFault::StateDamaged { .. }
            | ConnectFault::OtherStore(_)
            | ConnectFault::NotALabel
            | ConnectFault::Views
            | ConnectFault::State => true,
            ConnectFault::Input
            | ConnectFault::LinesNotOpened
            | ConnectFault::Output
            | ConnectFault::Memory
            | ConnectFault::Random
            | ConnectFault::BookNotOpened
            | ConnectFault::Book => false,
        }
    }

    /// Whether it is the book's, so that its file is to be named.
    pub fn is_of_book(self) -> bool
        ensures { result ≡ of_book self }
    {
        matches!(self, ConnectFault::BookNotOpened | ConnectFault::Book)
    }

    /// Whether it is that of the file of lines, so that this is to be named.
    pub fn is_of_lines(self) -> bool
        ensures { result ≡ of_lines self }
    {
        matches!(self, ConnectFault::LinesNotOpened)
    }
}

impl From<AllocError> for ConnectFault {
    ghost use Rattle.std.specs.Prelude.{◌≡◌};
    ghost use Rattle.bayou_connect.specs.declared.fault.ConnectFault.TheVariants.{Memory};

    ghost from_gives = { λ _ fault. fault ≡ Memory };

    fn from(_error: AllocError) -> ConnectFault {
        ConnectFault::Memory
    }
}

impl<T: Drop> From<AllocFailed<T>> for ConnectFault {
    ghost use Rattle.std.specs.Prelude.{◌≡◌};
    ghost use Rattle.bayou_connect.specs.declared.fault.ConnectFault.TheVariants.{Memory};

    ghost from_gives = { λ _ fault. fault ≡ Memory };

    fn from(_error: AllocFailed<T>) -> ConnectFault {
        ConnectFault::Memory
    }
}

impl From<LabelFault> for ConnectFault {
    ghost use Rattle.std.specs.Prelude.{◌≡◌};
    ghost use Rattle.bayou_connect.specs.Faults.{labelled_as};

    ghost from_gives = { λ fault told. told ≡ labelled_as fault };

    fn from(fault: LabelFault) -> ConnectFault {
        match fault {
            LabelFault::OtherStore(name) => ConnectFault::OtherStore(name),
            LabelFault::NotALabel => ConnectFault::NotALabel,
            LabelFault::OutOfMemory => ConnectFault::Memory,
        }
    }
}

impl From<InputFault> for ConnectFault {
    ghost use Rattle.std.specs.Prelude.{◌≡◌};
    ghost use Rattle.bayou_connect.specs.Faults.{unread_as};

    ghost from_gives = { λ fault told. told ≡ unread_as fault };

    fn from(fault: InputFault) -> ConnectFault {
        match fault {
            InputFault::Input => ConnectFault::Input,
            InputFault::OutOfMemory => ConnectFault::Memory,
        }
    }
}

impl From<RunFault> for ConnectFault {
    ghost use Rattle.std.specs.Prelude.{◌≡◌};
    ghost use Rattle.bayou_connect.specs.Faults.{unprinted_as};

    ghost from_gives = { λ fault told. told ≡ unprinted_as fault };

    fn from(fault: RunFault) -> ConnectFault {
        match fault {
            RunFault::Memory => ConnectFault::Memory,
            RunFault::Input => ConnectFault::Input,
            RunFault::Output | RunFault::Line { .. } | RunFault::Device | RunFault::Network =>
                ConnectFault::Output,
        }
    }
}
