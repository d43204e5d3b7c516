use arrayvec::ArrayString;
use bayou_base::MAX_KEY_BYTES;
use thiserror::Error;

/// The name of a store, as a fault tells it.
pub type StoreName = ArrayString<MAX_KEY_BYTES>;

/// Why there is no key.
#[derive(Clone, Copy, Debug, PartialEq, Eq, Error)]
pub enum KeyFileFault {
    /// The file can't be opened, or a read of it failed.
    #[error("it can't be opened and read")]
    NotOpened,
    /// It has something else than the one line of a key.
    #[error("it is no key of a store")]
    NotAKey,
    /// A key is to be made where a file is already.
    #[error("it is there already; nothing was changed")]
    Present,
    /// A file can't be made of this name.
    #[error("it can't be made")]
    NotMade,
    /// A call of the file that was made failed.
    #[error("a call of the file failed")]
    Device,
    #[error("no random number")]
    Random,
    #[error("memory")]
    OutOfMemory,
}

/// Why something can't be used that has a label, or is to have one.
#[derive(Clone, Copy, Debug, PartialEq, Eq, Error)]
pub enum LabelFault {
    /// It is of the store of this name, and that store's key isn't given.
    #[error("it is of the store {0}; give its key by --key")]
    OtherStore(StoreName),
    /// The label can't be read or written, or is none.
    #[error("its .store can't be read or written, or says no store")]
    NotALabel,
    #[error("memory")]
    OutOfMemory,
}
