ghost use Rattle.std.specs.Prelude.{◌≡◌, ◌<◌};

use crate::asks::Asks;
use crate::key::Key;
use crate::server::ServerId;
use crate::session::SessionId;
use crate::stamp::Stamp;
use crate::vector::Vector;
use crate::wid::Wid;

/// What a session was served, or that it was refused.
#[derive(Debug, Drop, PartialEq, Eq)]
pub enum What {
    /// A read of this key, from a database whose Writes the vector counts.
    Read(Key, Vector),
    /// A Write of this name, with its stamp and what its server held just before. An entry may claim anything: nothing ties
    /// the three to each other.
    Write(Wid, Stamp, Vector),
    /// Nothing: the operation was refused.
    Refused,
}

/// One operation that a session tried, as an auditor learns of it.
#[derive(Debug, Drop, PartialEq, Eq)]
pub struct Entry {
    pub session: SessionId,
    /// Its place among the operations that its session tried, from 1 on.
    pub place: u32,
    /// What its session asks for.
    pub asks: Asks,
    pub server: ServerId,
    pub what: What,
    pub ghost in_range: { 0 < place },
}

impl What {
    /// The same again, which takes no memory.
    pub fn copy(&self) -> Self
        ensures { result ≡ self.now }
    {
        match self {
            What::Read(key, vector) => What::Read(key.copy(), *vector),
            What::Write(wid, stamp, deps) => What::Write(*wid, *stamp, *deps),
            What::Refused => What::Refused,
        }
    }
}

impl Entry {
    /// The same entry again, which takes no memory.
    pub fn copy(&self) -> Self
        ensures { result ≡ self.now }
    {
        Entry {
            session: self.session,
            place: self.place,
            asks: self.asks,
            server: self.server,
            what: self.what.copy(),
        }
    }
}
