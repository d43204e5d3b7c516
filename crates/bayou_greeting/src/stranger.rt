//! Whether the other end is the one that was greeted.
ghost use Rattle.std.specs.Prelude.{◌≡◌, ◌≢◌, ◌↔◌, List, ℕ, None, Some, IfSome, IsSomeAnd, IsTrue, Ok, Err};
ghost use Rattle.bayou_wire.specs.declared.greeting.ServerCount.{ServerCount as Counted};
ghost use Rattle.bayou_wire.specs.declared.greeting.Welcome.{Welcome as Answer};
ghost use Rattle.bayou_greeting.specs.declared.store_key.StoreKey.{StoreKey as Kept};
ghost use Rattle.bayou_greeting.specs.declared.stranger.Stranger.TheVariants as strangers;
ghost use Rattle.bayou_greeting.specs.Greets.{IsAsked, IsExpected, IsOfStore, SpeaksAs, Proves};

use crate::proofs_of_key::{Nonces, is_same_proof, server_proof};
use crate::store_key::StoreKey;
use bayou_base::{Key, ServerId};
use bayou_wire::{Hello, ServerCount, Welcome};
use thiserror::Error;

/// What the other end is, if it isn't the one that was greeted. Its words go on from `server 0 at ADDRESS`.
#[derive(Debug, Drop, PartialEq, Eq, Error)]
pub enum Stranger {
    /// It doesn't know greetings.
    #[error("is older: no greeting")]
    Older,
    /// It speaks this version of the greeting.
    #[error("speaks version {0} of the greeting")]
    OtherVersion(u8),
    /// It is this server.
    #[error("is server {}", .0.index)]
    OtherServer(ServerId),
    /// It counts so many servers.
    #[error("counts {} servers, this one {}: stop all, and start all with one --servers", .theirs.count, .mine.count)]
    OtherCount {
        theirs: ServerCount,
        mine: ServerCount,
    },
    /// Its store has a key, and who greets has none.
    #[error("wants a key")]
    WantsKey,
    /// It is of the store of this name, and doesn't prove that it knows the key.
    #[error("is of another store ({})", .0.as_str())]
    OtherStore(Key),
    /// Its store is open, and who greets has a key.
    #[error("is of another store, an open one")]
    OpenStore,
}

impl Stranger {
    /// The same once more.
    pub fn copy(&self) -> Self
        ensures { result ≡ self.now }
    {
        match self {
            Stranger::Older => Stranger::Older,
            Stranger::OtherVersion(version) => Stranger::OtherVersion(*version),
            Stranger::OtherServer(id) => Stranger::OtherServer(*id),
            Stranger::OtherCount { theirs, mine } => Stranger::OtherCount {
                theirs: *theirs,
                mine: *mine,
            },
            Stranger::WantsKey => Stranger::WantsKey,
            Stranger::OtherStore(name) => Stranger::OtherStore(name.copy()),
            Stranger::OpenStore => Stranger::OpenStore,
        }
    }
}

fn is_same_server(one: ServerId, other: ServerId) -> bool
    ensures { IsTrue result ↔ (one ≡ other) }
{
    one.index == other.index
}

fn is_same_count(one: ServerCount, other: ServerCount) -> bool
    ensures { IsTrue result ↔ (one ≡ other) }
{
    one.count == other.count
}

fn is_same_name(one: &Key, other: &Key) -> bool
    ensures { IsTrue result ↔ (one.now ≡ other.now) }
{
    one == other
}

fn is_asked(hello: &Hello, welcome: &Welcome) -> bool
    ensures { IsTrue result ↔ IsAsked hello.now welcome.now }
{
    match hello.asked {
        None => true,
        Some(server) => is_same_server(welcome.id, server),
    }
}

// What it is where it counts the servers otherwise than who greets.
fn other_count(mine: Option<ServerCount>, theirs: ServerCount) -> Option<Stranger>
    ensures other { (counted : Counted) → mine ≡ Some counted → theirs ≢ counted → result ≡ Some (strangers.OtherCount theirs counted) }
    ensures same { IfSome mine (λ counted. theirs ≡ counted) → result ≡ None }
    ensures only { result ≡ None → IfSome mine (λ counted. theirs ≡ counted) }
{
    match mine {
        Some(mine) if !is_same_count(theirs, mine) => Some(Stranger::OtherCount { theirs, mine }),
        _ => None,
    }
}

// Whether a server of the key's store says so.
fn proves(hello: &Hello, key: &StoreKey, welcome: &Welcome) -> bool
    ensures { IsTrue result ↔ Proves hello.now key.now welcome.now }
{
    let nonces = Nonces {
        client: hello.nonce,
        server: welcome.nonce,
    };
    is_same_proof(
        &welcome.proof,
        &server_proof(key, &nonces, welcome.id, welcome.servers),
    )
}

// Whether it is of the store of this key, or of an open one without a key.
fn greet_store(hello: &Hello, key: &Option<StoreKey>, welcome: &Welcome) -> Result<(), Stranger>
    ensures no_key { (name : List ℕ) → key.now ≡ None → welcome.now.name ≡ Some name → result ≡ Err strangers.WantsKey }
    ensures open { (kept : Kept) → key.now ≡ Some kept → welcome.now.name ≡ None → result ≡ Err strangers.OpenStore }
    ensures other { (kept : Kept) (name : List ℕ) → key.now ≡ Some kept → welcome.now.name ≡ Some name → ¬ (IsOfStore hello.now key.now welcome.now)
        → result ≡ Err (strangers.OtherStore name) }
    ensures known { IsOfStore hello.now key.now welcome.now → result ≡ Ok tt }
    ensures only { result ≡ Ok tt → IsOfStore hello.now key.now welcome.now }
{
    match (key, &welcome.name) {
        (None, None) => Ok(()),
        (None, Some(_)) => Err(Stranger::WantsKey),
        (Some(_), None) => Err(Stranger::OpenStore),
        (Some(key), Some(name)) => {
            if is_same_name(name, &key.name) && proves(hello, key, welcome) {
                Ok(())
            } else {
                Err(Stranger::OtherStore(name.copy()))
            }
        }
    }
}

/// Whether the other end is the one that was greeted, by what came of the greeting: its Welcome, if it knows greetings. It looks for one thing
/// after the other, in the order of these clauses.
pub fn greet(
    hello: &Hello,
    key: &Option<StoreKey>,
    welcome: &Option<Welcome>,
) -> Result<(), Stranger>
    ensures older { welcome.now ≡ None → result ≡ Err strangers.Older }
    ensures version { (found : Answer) → welcome.now ≡ Some found → ¬ (SpeaksAs hello.now found) → result ≡ Err (strangers.OtherVersion found.version) }
    ensures server { (found : Answer) → welcome.now ≡ Some found → SpeaksAs hello.now found → ¬ (IsAsked hello.now found)
        → result ≡ Err (strangers.OtherServer found.id) }
    ensures count { (found : Answer) (mine : Counted) → welcome.now ≡ Some found → SpeaksAs hello.now found → IsAsked hello.now found
        → hello.now.servers ≡ Some mine → found.servers ≢ mine → result ≡ Err (strangers.OtherCount found.servers mine) }
    ensures no_key { (found : Answer) (name : List ℕ) → welcome.now ≡ Some found → IsExpected hello.now found → key.now ≡ None → found.name ≡ Some name
        → result ≡ Err strangers.WantsKey }
    ensures open { (found : Answer) (kept : Kept) → welcome.now ≡ Some found → IsExpected hello.now found → key.now ≡ Some kept → found.name ≡ None
        → result ≡ Err strangers.OpenStore }
    ensures other { (found : Answer) (kept : Kept) (name : List ℕ) → welcome.now ≡ Some found → IsExpected hello.now found → key.now ≡ Some kept
        → found.name ≡ Some name → ¬ (IsOfStore hello.now key.now found) → result ≡ Err (strangers.OtherStore name) }
    ensures known { (found : Answer) → welcome.now ≡ Some found → IsExpected hello.now found → IsOfStore hello.now key.now found → result ≡ Ok tt }
    ensures only { result ≡ Ok tt → IsSomeAnd welcome.now (λ found. IsExpected hello.now found × IsOfStore hello.now key.now found) }
{
    let Some(welcome) = welcome else {
        return Err(Stranger::Older);
    };
    if welcome.version != hello.version {
        return Err(Stranger::OtherVersion(welcome.version));
    }
    if !is_asked(hello, welcome) {
        return Err(Stranger::OtherServer(welcome.id));
    }
    match other_count(hello.servers, welcome.servers) {
        Some(stranger) => Err(stranger),
        None => greet_store(hello, key, welcome),
    }
}
