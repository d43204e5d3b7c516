ghost use Rattle.std.specs.Prelude.{◌≡◌, ◌<◌, ◌≤◌, ◌↔◌, IsSome, IfSome};
ghost use Rattle.bayou_base.specs.declared.limits.TheConstants.{SERVERS};

use crate::digests::Digests;
use crate::layout::DIGESTS_AT_ONCE;
use crate::lookup::{Fate, FateAsked, Page, RowsAsked};
use crate::nonce::Nonce;
use crate::proof::Proof;
use arrayvec::ArrayVec;
use bayou_base::{Key, SERVERS, ServerId, Vector};

/// How many servers a store has.
#[derive(Clone, Copy, Debug, PartialEq, Eq)]
pub struct ServerCount {
    pub count: u8,
    pub ghost in_range: { (0 < count) × (count ≤ SERVERS) },
}

impl ServerCount {
    /// So many servers, or `None` where no store has so many.
    pub fn new(count: u8) -> Option<Self>
        ensures within { IsSome result ↔ ((0 < count) × (count ≤ SERVERS)) }
        ensures value { IfSome result (λ servers. servers.count ≡ count) }
    {
        if 0 < count && usize::from(count) <= SERVERS {
            Some(ServerCount { count })
        } else {
            None
        }
    }
}

/// Who greets, and whom.
#[derive(Clone, Copy, Debug, PartialEq, Eq)]
pub struct Hello {
    /// The version of the greeting that it speaks.
    pub version: u8,
    /// The server that it takes the other end for, if it matters.
    pub asked: Option<ServerId>,
    /// The server that greets; a client is none.
    pub from: Option<ServerId>,
    /// How many servers the store has by its words, if they say so.
    pub servers: Option<ServerCount>,
    pub nonce: Nonce,
}

/// Who is greeted.
#[derive(Debug, Drop, PartialEq, Eq)]
pub struct Welcome {
    /// The version of the greeting that it speaks.
    pub version: u8,
    /// Which server it is.
    pub id: ServerId,
    /// How many servers the store has by its words.
    pub servers: ServerCount,
    /// The name of the store. One that is open has none.
    pub name: Option<Key>,
    pub nonce: Nonce,
    /// That the server knows the store's key. Zeros where the store is open.
    pub proof: Proof,
}

/// What a server holds: how many Writes of each origin, and of each the digest of all of them.
#[derive(Clone, Copy, Debug, PartialEq, Eq)]
pub struct Held {
    pub vector: Vector,
    pub digests: Digests,
}

/// The proof of who greets.
#[derive(Clone, Copy, Debug, PartialEq, Eq)]
pub struct Proving {
    /// That it knows the store's key. Zeros where the store is open.
    pub proof: Proof,
    /// What it holds, if it is a server.
    pub held: Option<Held>,
}

/// Who greets is known: what the server holds, and how much it may.
#[derive(Clone, Copy, Debug, PartialEq, Eq)]
pub struct Known {
    pub vector: Vector,
    /// How many Writes it holds at the most.
    pub limit: u32,
    /// Of each origin the digest of all its Writes. A client doesn't get them.
    pub digests: Option<Digests>,
    /// Without whom its journal was last made again, if another server was left out: the first of them. Then what was final may have changed.
    pub without: Option<ServerId>,
}

/// For which digests a server is asked: those of an origin's Writes at these counts.
#[derive(Debug, Drop, PartialEq, Eq)]
pub struct Inquiry {
    pub origin: ServerId,
    pub counts: ArrayVec<u32, DIGESTS_AT_ONCE>,
}

/// What two ends say to each other before they are known, and what only they ask who have greeted: the requests, and then their replies. No
/// [`crate::Frame`] has one of their kinds.
#[derive(Debug, Drop, PartialEq, Eq)]
pub enum Greeting {
    /// This greets.
    Hello(Hello),
    /// This is its proof.
    Proof(Proving),
    /// Send these digests.
    Digests(Inquiry),
    /// Send these rows.
    List(RowsAsked),
    /// Say what became of this Write.
    Became(FateAsked),
    /// This is greeted.
    Welcome(Welcome),
    /// Who greets is known.
    Known(Known),
    /// Other Writes of this origin are held.
    Differs(ServerId),
    /// The digests asked for, in the order of their counts, up to the first count that isn't held.
    Digested(ArrayVec<u64, DIGESTS_AT_ONCE>),
    /// The rows asked for.
    Listed(Page),
    /// What became of the Write.
    Outcome(Fate),
}
