//! A server's end of a greeting.
ghost use Rattle.std.specs.Prelude.{◌≡◌, ◌≤◌, ℕ, List, IfOk, OnOk};
ghost use Rattle.std.specs.Io.KnownBytes.{Appends, Consumes};
ghost use Rattle.bayou_handshake.specs.Ends.{IsLetIn, proof_of_server, welcome_of as welcome_by};
ghost use Rattle.bayou_wire.specs.declared.greeting.Greeting.TheVariants.{Hello as HelloFrame, Known as KnownFrame, Proof as ProofFrame};
ghost use Rattle.bayou_wire.specs.Greetings.{SpellsGreeting, greeting_bytes};

use crate::reading::read_greeting;
use crate::sending::send_greeting;
use bayou_base::ServerId;
use bayou_frames::ChannelFault;
use bayou_greeting::{Nonces, StoreKey, admits, server_proof};
use bayou_streams::CountedChannel;
use bayou_wire::layout::{GREETING_VERSION, PROOF_BYTES};
use bayou_wire::{Greeting, Hello, Known, Nonce, Proof, Proving, ServerCount, Welcome};
use std::alloc::Global;
use std::io::{Read, Write};

/// A server, as it goes by in greetings.
#[derive(Drop)]
pub struct StoreServer {
    pub id: ServerId,
    pub servers: ServerCount,
    /// The key of its store. An open store has none.
    pub key: Option<StoreKey>,
}

/// Who greeted, and was let in.
#[derive(Clone, Copy, Debug, PartialEq, Eq)]
pub struct Guest {
    pub hello: Hello,
    pub proving: Proving,
}

/// Why who greeted isn't let in.
#[derive(Clone, Copy, Debug, PartialEq, Eq)]
pub enum NotReceived {
    /// The greeting didn't come whole, or couldn't be answered.
    Channel(ChannelFault),
    /// The proof is none of the store's.
    Stranger,
}

impl From<ChannelFault> for NotReceived {
    ghost use Rattle.std.specs.Prelude.{◌≡◌};
    ghost use Rattle.bayou_handshake.specs.declared.server_end.NotReceived.TheVariants.{Channel};

    ghost from_gives = { λ fault cause. cause ≡ Channel fault };

    fn from(fault: ChannelFault) -> Self {
        NotReceived::Channel(fault)
    }
}

// The proof of a server: zeros at an open store.
fn proof_of(server: &StoreServer, nonces: &Nonces) -> Proof
    ensures { result ≡ proof_of_server server.now nonces.now }
{
    match &server.key {
        None => Proof::new([0; PROOF_BYTES]),
        Some(key) => server_proof(key, nonces, server.id, server.servers),
    }
}

// What the server answers who greets, where it drew this nonce.
fn welcome_of(server: &StoreServer, hello: &Hello, nonce: Nonce) -> Welcome
    ensures { result ≡ welcome_by server.now hello.now nonce }
{
    let nonces = Nonces {
        client: hello.nonce,
        server: nonce,
    };
    let name = match &server.key {
        None => None,
        Some(key) => Some(key.name.copy()),
    };
    Welcome {
        version: GREETING_VERSION,
        id: server.id,
        servers: server.servers,
        name,
        nonce,
        proof: proof_of(server, &nonces),
    }
}

// Reads who greets.
fn read_hello<R: Read, W>(channel: &mut CountedChannel<R, W>) -> Result<Hello, ChannelFault>
    ensures reads { (read : List ℕ) × Consumes (R.remaining channel.old.reader) (R.remaining channel.new.reader) read
        × IfOk result (λ hello. SpellsGreeting read (HelloFrame hello)) }
    ensures turns { channel.new.turns_left ≤ channel.old.turns_left }
    ensures other { (channel.new.writer ≡ channel.old.writer) × (channel.new.write_failed ≡ channel.old.write_failed) }
{
    match read_greeting(channel)? {
        Some(Greeting::Hello(hello)) => Ok(hello),
        Some(_) => Err(ChannelFault::BadFrame),
        None => Err(ChannelFault::Cut),
    }
}

// Reads the proof of who greets.
fn read_proving<R: Read, W>(channel: &mut CountedChannel<R, W>) -> Result<Proving, ChannelFault>
    ensures reads { (read : List ℕ) × Consumes (R.remaining channel.old.reader) (R.remaining channel.new.reader) read
        × IfOk result (λ proving. SpellsGreeting read (ProofFrame proving)) }
    ensures turns { channel.new.turns_left ≤ channel.old.turns_left }
    ensures other { (channel.new.writer ≡ channel.old.writer) × (channel.new.write_failed ≡ channel.old.write_failed) }
{
    match read_greeting(channel)? {
        Some(Greeting::Proof(proving)) => Ok(proving),
        Some(_) => Err(ChannelFault::BadFrame),
        None => Err(ChannelFault::Cut),
    }
}

/// Reads a Hello, answers it with this nonce, and reads the proof of who greets. At a store that has a key only who has it too is let in, at an open
/// one each. Whether it was meant, and counts the servers alike, who greets sees by the Welcome.
pub fn receive<R: Read, W: Write>(
    alloc: Global,
    server: &StoreServer,
    nonce: Nonce,
    channel: &mut CountedChannel<R, W>,
) -> Result<Guest, NotReceived>
    ensures let_in { IfOk result (λ guest. (read written : List ℕ) × Consumes (R.remaining channel.old.reader) (R.remaining channel.new.reader) read
        × Appends (W.contents channel.old.writer) (W.contents channel.new.writer) written × IsLetIn server.now nonce read written guest) }
    ensures turns { channel.new.turns_left ≤ channel.old.turns_left }
{
    let hello = read_hello(channel)?;
    let welcome = Greeting::Welcome(welcome_of(server, &hello, nonce));
    send_greeting(alloc, channel, &welcome)?;
    let proving = read_proving(channel)?;
    let nonces = Nonces {
        client: hello.nonce,
        server: nonce,
    };
    if !admits(&server.key, &nonces, &proving.proof) {
        return Err(NotReceived::Stranger);
    }
    Ok(Guest { hello, proving })
}

/// Tells who was let in what the server holds.
pub fn make_known<R, W: Write>(
    alloc: Global,
    known: Known,
    channel: &mut CountedChannel<R, W>,
) -> Result<(), ChannelFault>
    ensures whole { OnOk result (Appends (W.contents channel.old.writer) (W.contents channel.new.writer) (greeting_bytes (KnownFrame known))) }
    ensures turns { channel.new.turns_left ≤ channel.old.turns_left }
    ensures other { (channel.new.reader ≡ channel.old.reader) × (channel.new.read_failed ≡ channel.old.read_failed) }
{
    send_greeting(alloc, channel, &Greeting::Known(known))
}
