use arrayvec::ArrayVec;
use bayou_base::{Key, KeyFault, MAX_ALTERNATIVES, ServerId, Value, Wid};
use std::alloc::AllocError;
use thiserror::Error;

/// What a person asks for in one line.
#[derive(Debug, Drop, PartialEq, Eq)]
pub enum Wish {
    /// To set the key to the value.
    Put {
        key: Key,
        value: Value,
    },
    /// To add the number to the key's; where the key is absent it becomes the number.
    Add {
        key: Key,
        number: i64,
    },
    /// To remove the key.
    Del {
        key: Key,
    },
    /// To set the first of these keys that is absent to the value: the first is `key`, and the others stand after it.
    Claim {
        key: Key,
        others: ArrayVec<Key, MAX_ALTERNATIVES>,
        value: Value,
    },
    /// To read these keys: the first is `key`, and the others stand after it.
    Get {
        key: Key,
        others: ArrayVec<Key, MAX_ALTERNATIVES>,
    },
    /// To ask this server first from here on.
    At(ServerId),
    /// To see the whole database.
    List,
    /// To see the rows of the database whose keys begin so.
    Rows {
        prefix: Key,
    },
    /// To learn what became of this Write.
    Became(Wid),
    /// To learn which servers there are, and what they hold.
    Servers,
    /// To learn what the session read and wrote.
    Session,
    /// To see the Writes that a server holds.
    Dump,
}

/// Why a word is no value.
#[derive(Clone, Copy, Debug, PartialEq, Eq, Error)]
pub enum ValueFault {
    /// It looks like a number, but isn't an integer of `i64` as it is spelled: a person who types it may mean the one or the other.
    #[error("a number is an integer of 64 bits, with no zeros in front, plus sign or point; as a text it stands in double quotes")]
    Number,
    /// It begins with a double quote, but is no text as JSON spells it.
    #[error("from a double quote on the line is one text, as JSON spells it")]
    Quoted,
    /// It is too long for a text.
    #[error("a text has at most 32 bytes")]
    TooLong,
}

/// Why a line is no wish. The first fault is reported: the first word, then how many words there are, then the words from the left.
#[derive(Clone, Copy, Debug, PartialEq, Eq, Error)]
pub enum WishFault {
    /// No line begins with its first word, or it has none.
    #[error("unknown word; `help` tells the lines that there are")]
    Word,
    /// Such a line has another number of words.
    #[error("wrong number of words; a text with spaces stands in double quotes")]
    Count,
    /// A word that is to be a key is none.
    #[error("bad key; a key has 1 to 32 bytes of a-z 0-9 . _ - /")]
    Key(KeyFault),
    /// The word that is to be a value is none.
    #[error("bad value; {0}")]
    Value(ValueFault),
    /// The word that is to be a number isn't an integer of `i64`, as it is spelled.
    #[error("bad number; it is an integer of 64 bits, with no zeros in front, plus sign or point")]
    Number,
    /// The word that is to be a server isn't the number of one.
    #[error("bad server; servers have the numbers 0 to 15")]
    Server,
    /// The word that is to be the name of a Write isn't one, as it is spelled.
    #[error("bad name; a Write's name is the number of its server, a colon and its own number, as 0:12")]
    Name,
    /// Memory ran out.
    #[error("memory")]
    OutOfMemory,
}

impl From<AllocError> for WishFault {
    ghost use Rattle.std.specs.Prelude.{◌≡◌};
    ghost use Rattle.bayou_person.specs.declared.wish.WishFault.TheVariants.{OutOfMemory};

    ghost from_gives = { λ _ fault. fault ≡ OutOfMemory };

    fn from(_error: AllocError) -> WishFault {
        WishFault::OutOfMemory
    }
}
