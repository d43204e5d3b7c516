//! What a server answers who greeted it and was let in.
ghost use Rattle.std.specs.Prelude.{◌≡◌, ◌↔◌, ◌⊎◌, ℕ, IfSome, IsSome, List, Option, true};
ghost use Rattle.std.specs.Io.KnownBytes.{Consumes};
ghost use Rattle.bayou_wire.specs.Greetings.{SpellsGreeting};
ghost use Rattle.bayou_wire.specs.declared.layout.TheConstants.{KIND_DIFFERS, KIND_DIGESTS};

use crate::hall::ServiceHall;
use crate::reception::{FrameFront, Reception, front_in_time};
use crate::searching::{MAX_INQUIRIES, say};
use crate::waiting::{Most, PatientWait, Since};
use bayou_base::ServerId;
use bayou_base::limits::GREETING_MILLISECONDS;
use bayou_device::Device;
use bayou_handshake::{Guest, StoreServer, make_known, read_greeting};
use bayou_node::Desks;
use bayou_streams::{CountedChannel, Patient};
use bayou_wire::layout::{KIND_DIFFERS, KIND_DIGESTS};
use bayou_wire::{Greeting, Held, Known};
use std::alloc::Global;
use std::io::{Read, Write};
use std::net::TcpStream;
use std::random::RandomSource;
use std::sync::{OnceToken, Wait};
use std::time::Clock;

// Whether a frame of this kind is about digests.
fn is_of_digests(kind: u8) -> bool
    ensures { result ≡ true ↔ ((kind ≡ KIND_DIGESTS) ⊎ (kind ≡ KIND_DIFFERS)) }
{
    kind == KIND_DIGESTS || kind == KIND_DIFFERS
}

// Sends what is held, with digests where these are to be sent; whether that was sent.
fn tell_known<D: Device, L: Desks, C: Clock, E, T: Wait>(
    rt: &T,
    alloc: Global,
    reception: &Reception<'_, D, L, C, E>,
    held: Option<Held>,
    stream: &TcpStream,
) -> bool {
    let known = match held {
        Some(held) => Known {
            vector: held.vector,
            limit: reception.limit,
            digests: Some(held.digests),
            without: reception.without,
        },
        None => Known {
            vector: reception.node.offer(rt),
            limit: reception.limit,
            digests: None,
            without: reception.without,
        },
    };
    make_known(alloc, known, &mut CountedChannel::new((), stream)).is_ok()
}

// Has no Write taken any more where the peer has other Writes of this origin, and that is this server, if the peer proved to be of its store; at an open
// one anybody may say so, and the server's own visits decide.
fn heed_difference<'a, T: Wait>(
    rt: &T,
    hall: &'a ServiceHall,
    own: &StoreServer,
    origin: ServerId,
) -> Option<OnceToken<'a, ()>>
    ensures heeded { IsSome result ↔ ((origin ≡ own.now.id) × IsSome own.now.key) }
    ensures known { IfSome result (λ token. token.of ≡ hall.entry.now.lost.id) }
{
    if origin == own.id && own.key.is_some() {
        // Whoever keeps the server up marks it.
        return Some(hall.lose(rt));
    }
    None
}

// The peer has other Writes of this origin: that is reported, and heeded where it is this server. What comes back shows that it is.
fn meet_difference<'a, D: Device, L: Desks, C: Clock, E: Write, T: Wait>(
    rt: &T,
    alloc: Global,
    reception: &Reception<'a, D, L, C, E>,
    peer: ServerId,
    origin: ServerId,
) -> Option<OnceToken<'a, ()>>
    ensures heeded { IsSome result ↔ ((origin ≡ reception.now.own.now.id) × IsSome reception.now.own.now.key) }
    ensures known { IfSome result (λ token. token.of ≡ reception.now.hall.now.lost.id) }
{
    let (own, hall) = (reception.own, reception.hall);
    let heeded = heed_difference(rt, hall, own, origin);
    let (comparison, clock, teller) = (reception.comparison, reception.clock, reception.teller);
    comparison.tell(rt, alloc, clock, teller, own.id, peer, origin, None);
    heeded
}

// What comes next of greetings over this reader, whose waits end by `WouldBlock`.
fn next_over<'x, C: Clock, R: Read + Drop>(
    clock: &'x C,
    hall: &'x ServiceHall,
    since: &'x Since,
    reader: R,
) -> Option<Greeting>
    ensures { IfSome result (λ greeting. (rest : Option (List ℕ)) × (read : List ℕ) × Consumes (R.remaining reader) rest read × SpellsGreeting read greeting) }
{
    let most = Most::Milliseconds(GREETING_MILLISECONDS);
    let patience = PatientWait::new(clock, hall, since, most);
    read_greeting(&mut CountedChannel::new(Patient::new(reader, patience), ())).ok()?
}

// Answers what the peer asks of digests, or hears that it has other Writes; whether more may come.
fn hear<D: Device, L: Desks, C: Clock, E: Write, T: Wait>(
    rt: &T,
    alloc: Global,
    reception: &Reception<'_, D, L, C, E>,
    peer: ServerId,
    since: &Since,
    stream: &TcpStream,
) -> bool {
    match next_over(reception.clock, reception.hall, since, stream) {
        Some(Greeting::Digests(inquiry)) => {
            let digests = reception.comparison.digested(rt, &inquiry);
            let mut channel = CountedChannel::new((), stream);
            say(alloc, &Greeting::Digested(digests), &mut channel).is_some()
        }
        Some(Greeting::Differs(origin)) => {
            let _ = meet_difference(rt, alloc, reception, peer, origin);
            false
        }
        _ => false,
    }
}

// Answers what the peer asks of digests, as long as it does; whether a request comes then.
fn answer_inquiries<D: Device, L: Desks, C: Clock, E: Write, T: Wait>(
    rt: &T,
    alloc: Global,
    reception: &Reception<'_, D, L, C, E>,
    peer: ServerId,
    stream: &TcpStream,
) -> bool {
    let since = Since::now(reception.clock);
    let most = Most::Milliseconds(GREETING_MILLISECONDS);
    for _ in 0..=MAX_INQUIRIES {
        match front_in_time(reception.clock, reception.hall, &since, most, stream) {
            Some(FrameFront::Kind(kind)) if is_of_digests(kind) => {
                if !hear(rt, alloc, reception, peer, &since, stream) {
                    return false;
                }
            }
            Some(_) => return true,
            None => return false,
        }
    }
    false
}

// Compares what the peer told with what is held, and answers it: whether both hold the same, as far as this server can see, and a request comes.
fn answer_peer<D: Device, L: Desks, C: Clock, E: Write, T: Wait>(
    rt: &T,
    alloc: Global,
    reception: &Reception<'_, D, L, C, E>,
    peer: ServerId,
    theirs: &Held,
    held: Held,
    stream: &TcpStream,
) -> bool {
    let comparison = reception.comparison;
    let Some(origin) = comparison.difference(rt, theirs, reception.own.id) else {
        return tell_known(rt, alloc, reception, Some(held), stream)
            && answer_inquiries(rt, alloc, reception, peer, stream);
    };
    let _ = meet_difference(rt, alloc, reception, peer, origin);
    let told = comparison.difference(rt, theirs, peer).unwrap_or(origin);
    let mut channel = CountedChannel::new((), stream);
    if say(alloc, &Greeting::Differs(told), &mut channel).is_some() {
        // Nothing that is asked after that is served.
        let _ = answer_inquiries(rt, alloc, reception, peer, stream);
    }
    false
}

/// Answers who greeted and was let in: whether it may ask, and learned what is held. A peer that told its digests learns this server's too, if it holds
/// the same Writes, and else that it doesn't.
pub(crate) fn answer_guest<D, L, C, E, T>(
    rt: &T,
    alloc: Global,
    reception: &Reception<'_, D, L, C, E>,
    guest: &Guest,
    stream: &TcpStream,
) -> bool
where
    D: Device,
    L: Desks,
    C: Clock + RandomSource,
    E: Write,
    T: Wait,
{
    let (Some(peer), Some(theirs)) = (guest.hello.from, guest.proving.held) else {
        return tell_known(rt, alloc, reception, None, stream);
    };
    let (comparison, node, teller) = (reception.comparison, reception.node, reception.teller);
    match comparison.held(rt, alloc, node, teller) {
        Some(held) => answer_peer(rt, alloc, reception, peer, &theirs, held, stream),
        None => tell_known(rt, alloc, reception, None, stream),
    }
}
