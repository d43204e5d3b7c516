//! The end of who asks a server.
ghost use Rattle.std.specs.Prelude.{◌≡◌, ◌≤◌, ℕ, List, IfOk, IfSome};
ghost use Rattle.std.specs.Io.KnownBytes.{Appends, Consumes};
ghost use Rattle.bayou_handshake.specs.Ends.{IsKnownServer, IsMetServer, proof_of_client};
ghost use Rattle.bayou_wire.specs.declared.greeting.Greeting.TheVariants.{Known as KnownFrame, Welcome as WelcomeFrame};
ghost use Rattle.bayou_wire.specs.Greetings.{SpellsGreeting};

use crate::reading::read_greeting;
use crate::sending::send_greeting;
use bayou_base::ServerId;
use bayou_frames::ChannelFault;
use bayou_greeting::{Nonces, StoreKey, Stranger, client_proof, greet};
use bayou_streams::CountedChannel;
use bayou_wire::layout::PROOF_BYTES;
use bayou_wire::{Greeting, Held, Hello, Known, Proof, Proving, ServerCount, Welcome};
use std::alloc::Global;
use std::io::{Read, Write};

/// How often a server has to end the connection at a greeting before it is taken for an older one, which knows none: a reply may be lost.
pub const OLDER_AFTER: u32 = 2;

/// Why a server isn't known to who greeted it.
#[derive(Debug, Drop, PartialEq, Eq)]
pub enum GreetingFault {
    /// It isn't the one that was greeted.
    Stranger(Stranger),
    /// It holds other Writes of this origin.
    Differs(ServerId),
    /// It lets nobody in with this proof, or went away before it did.
    TurnedAway,
    /// The greeting wasn't sent, or no whole answer came.
    Channel(ChannelFault),
}

impl From<ChannelFault> for GreetingFault {
    ghost use Rattle.std.specs.Prelude.{◌≡◌};
    ghost use Rattle.bayou_handshake.specs.declared.client_end.GreetingFault.TheVariants.{Channel};

    ghost from_gives = { λ fault cause. cause ≡ Channel fault };

    fn from(fault: ChannelFault) -> Self {
        GreetingFault::Channel(fault)
    }
}

impl From<Stranger> for GreetingFault {
    ghost use Rattle.std.specs.Prelude.{◌≡◌};
    ghost use Rattle.bayou_handshake.specs.declared.client_end.GreetingFault.TheVariants as faults;

    ghost from_gives = { λ stranger cause. cause ≡ faults.Stranger stranger };

    fn from(stranger: Stranger) -> Self {
        GreetingFault::Stranger(stranger)
    }
}

// The proof of who greets: zeros at an open store.
fn proof_of(key: &Option<StoreKey>, nonces: &Nonces) -> Proof
    ensures { result ≡ proof_of_client key.now nonces.now }
{
    match key {
        None => Proof::new([0; PROOF_BYTES]),
        Some(key) => client_proof(key, nonces),
    }
}

// Reads who is greeted, or nothing where the other end goes away without a word, as one does that knows no greetings.
fn read_welcome<R: Read, W>(
    channel: &mut CountedChannel<R, W>,
) -> Result<Option<Welcome>, ChannelFault>
    ensures reads { (read : List ℕ) × Consumes (R.remaining channel.old.reader) (R.remaining channel.new.reader) read
        × IfOk result (λ welcome. IfSome welcome (λ welcome. SpellsGreeting read (WelcomeFrame welcome))) }
    ensures turns { channel.new.turns_left ≤ channel.old.turns_left }
    ensures other { (channel.new.writer ≡ channel.old.writer) × (channel.new.write_failed ≡ channel.old.write_failed) }
{
    match read_greeting(channel)? {
        Some(Greeting::Welcome(welcome)) => Ok(Some(welcome)),
        Some(_) => Err(ChannelFault::BadFrame),
        None => Ok(None),
    }
}

// Reads what the server holds, once it has let in who greeted.
fn read_known<R: Read, W>(channel: &mut CountedChannel<R, W>) -> Result<Known, GreetingFault>
    ensures reads { (read : List ℕ) × Consumes (R.remaining channel.old.reader) (R.remaining channel.new.reader) read
        × IfOk result (λ known. SpellsGreeting read (KnownFrame known)) }
    ensures turns { channel.new.turns_left ≤ channel.old.turns_left }
    ensures other { (channel.new.writer ≡ channel.old.writer) × (channel.new.write_failed ≡ channel.old.write_failed) }
{
    match read_greeting(channel)? {
        Some(Greeting::Known(known)) => Ok(known),
        Some(Greeting::Differs(origin)) => Err(GreetingFault::Differs(origin)),
        Some(_) => Err(GreetingFault::Channel(ChannelFault::BadFrame)),
        None => Err(GreetingFault::TurnedAway),
    }
}

/// What a server is known by that was greeted.
#[derive(Debug, Drop, PartialEq, Eq)]
pub struct Met {
    /// How many servers its store has.
    pub servers: ServerCount,
    pub known: Known,
}

/// Greets a server, with what it holds where it is a server itself, and learns what the other holds, and how many servers its store has: once that is known
/// to be the one that was greeted, and of the same store.
pub fn meet_server<R: Read, W: Write>(
    alloc: Global,
    hello: &Hello,
    key: &Option<StoreKey>,
    held: Option<Held>,
    channel: &mut CountedChannel<R, W>,
) -> Result<Met, GreetingFault>
    ensures met { IfOk result (λ met. (read written : List ℕ) × Consumes (R.remaining channel.old.reader) (R.remaining channel.new.reader) read
        × Appends (W.contents channel.old.writer) (W.contents channel.new.writer) written × IsMetServer hello.now key.now held read written met) }
    ensures turns { channel.new.turns_left ≤ channel.old.turns_left }
{
    send_greeting(alloc, channel, &Greeting::Hello(*hello))?;
    let welcome = read_welcome(channel)?;
    greet(hello, key, &welcome)?;
    let Some(welcome) = welcome else {
        unreachable!();
    };
    let nonces = Nonces {
        client: hello.nonce,
        server: welcome.nonce,
    };
    let proof = proof_of(key, &nonces);
    send_greeting(alloc, channel, &Greeting::Proof(Proving { proof, held }))?;
    let known = read_known(channel)?;
    Ok(Met {
        servers: welcome.servers,
        known,
    })
}

/// Greets a server, with what it holds where it is a server itself, and learns what the other holds: once that is known to be the one that was greeted,
/// and of the same store.
pub fn greet_server<R: Read, W: Write>(
    alloc: Global,
    hello: &Hello,
    key: &Option<StoreKey>,
    held: Option<Held>,
    channel: &mut CountedChannel<R, W>,
) -> Result<Known, GreetingFault>
    ensures known { IfOk result (λ known. (read written : List ℕ) × Consumes (R.remaining channel.old.reader) (R.remaining channel.new.reader) read
        × Appends (W.contents channel.old.writer) (W.contents channel.new.writer) written × IsKnownServer hello.now key.now held read written known) }
    ensures turns { channel.new.turns_left ≤ channel.old.turns_left }
{
    let met = meet_server(alloc, hello, key, held, channel)?;
    Ok(met.known)
}
