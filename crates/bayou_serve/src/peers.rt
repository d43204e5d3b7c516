//! The other servers of the store, from which a server that lives takes what it lacks.
ghost use Rattle.std.specs.Prelude.{◌≡◌, ◌↔◌, ◌⊎◌, IfSome, IsSome, None, Some, false, true};
ghost use Rattle.bayou_serve.specs.declared.visit.Visit.TheVariants.{Away};
ghost use Rattle.bayou_serve.specs.Visits.{Visited};

use crate::compared_way::compared_way_to;
use crate::comparing::Comparison;
use crate::greeting::{Strangers, Way, stranger_line};
use crate::hall::ServiceHall;
use crate::lines::news_line;
use crate::marking::{Loss, ServerMark, lose};
use crate::pace::Pace;
use crate::plan::Peer;
use crate::rollcall::{FirstAnswer, Rollcall, has_own_beyond, rest_while_starting};
use crate::teller::Teller;
use crate::visit::{Acquaintance, Visit, VisitOutcome, outcome_of};
use crate::waiting::{Most, PatientStream, PatientWait, Since};
use bayou_base::limits::{PEER_ANSWER_MILLISECONDS, PEER_REACH_SECONDS, TICK_MILLISECONDS};
use bayou_device::Device;
use bayou_greeting::Stranger;
use bayou_handshake::StoreServer;
use bayou_net::{Sockets, pull_from};
use bayou_node::{Desks, Node};
use bayou_streams::{CountedChannel, Patient};
use std::alloc::Global;
use std::io::{Read, Write};
use std::net::TcpStream;
use std::random::RandomSource;
use std::sync::Wait;
use std::thread;
use std::time::{Clock, Duration};

/// How often it is looked in a second whether to rest on.
pub(crate) const TICKS_PER_SECOND: u64 = 1_000 / TICK_MILLISECONDS;

/// Rests until it is looked whether to rest on.
pub(crate) fn tick<T: Clock>(rt: &T) {
    thread::sleep(rt, Duration::from_millis(TICK_MILLISECONDS));
}

/// Rests so long, or until the server ends.
pub(crate) fn rest<T: Clock>(rt: &T, hall: &ServiceHall, seconds: u32) {
    for _ in 0..u64::from(seconds) * TICKS_PER_SECOND {
        if hall.is_over() {
            return;
        }
        tick(rt);
    }
}

/// Whether reads at the socket end in time, and writes after so many milliseconds.
pub(crate) fn is_timed(stream: &TcpStream, write_milliseconds: u64) -> bool {
    // A socket that doesn't take this option sends small pieces later.
    let _ = stream.set_nodelay(true);
    let tick = Duration::from_millis(TICK_MILLISECONDS);
    let write = Duration::from_millis(write_milliseconds);
    stream.set_read_timeout(Some(tick)).is_ok() && stream.set_write_timeout(Some(write)).is_ok()
}

/// A connection to the peer, whose reads and writes end in time, if one comes about.
pub(crate) fn reach<T: Sockets>(rt: &T, peer: Peer) -> Option<TcpStream> {
    let stream = TcpStream::connect_timeout(
        rt,
        &peer.address,
        Duration::from_secs(PEER_REACH_SECONDS),
    ).ok()?;
    if is_timed(&stream, PEER_ANSWER_MILLISECONDS) {
        Some(stream)
    } else {
        None
    }
}

// Takes once what comes of the node's Offer over these streams, whose waits end by `WouldBlock`, and tells what became of that.
fn visit_over<'x, D: Device, L: Desks, R: Read + Drop, W: Write + Drop, T: Wait + Clock>(
    rt: &'x T,
    alloc: Global,
    node: &Node<D, L>,
    hall: &'x ServiceHall,
    since: &'x Since,
    pace: &'x Pace,
    reader: R,
    writer: W,
) -> VisitOutcome
    ensures { Visited L.begun (R.remaining reader) (W.contents writer) result }
{
    let most = Most::Paced(PEER_ANSWER_MILLISECONDS, pace);
    let patience = PatientWait::new(rt, hall, since, most);
    let patient = Patient::new(reader, patience);
    let reader = PatientStream::paced(patient, rt, since, pace);
    let writer = PatientStream::new(writer, rt, since);
    let mut channel = CountedChannel::new(reader, writer);
    let counts = node.offer(rt);
    outcome_of(node.id(), pull_from(rt, alloc, node, &counts, &mut channel))
}

/// What the threads of a server's peers share.
#[derive(Drop)]
pub(crate) struct Visiting<'a, M: Device, E> {
    pub(crate) own: &'a StoreServer,
    pub(crate) hall: &'a ServiceHall,
    pub(crate) mark: &'a ServerMark<M>,
    pub(crate) teller: &'a Teller<E>,
    pub(crate) rollcall: &'a Rollcall,
    pub(crate) comparison: &'a Comparison,
}

/// What is known of a peer.
#[derive(Drop)]
struct Known {
    visits: Acquaintance,
    strangers: Strangers,
}

// Takes once what this peer has and the server lacks, if who answers is that peer, and both hold the same Writes under the same names.
fn visit<D: Device, L: Desks, M: Device, E: Write, T: Wait + Clock + RandomSource + Sockets>(
    rt: &T,
    alloc: Global,
    node: &Node<D, L>,
    peer: Peer,
    visiting: &Visiting<'_, M, E>,
    known: &mut Known,
) -> Option<VisitOutcome>
    ensures away { IfSome result (λ outcome. outcome.visit ≡ Away → outcome.has_lost ≡ false) }
    ensures visited { IsSome result → known.new.visits ≡ known.old.visits }
    ensures unvisited { result ≡ None → known.new.visits.last ≡ None }
{
    let hall = visiting.hall;
    match compared_way_to(rt, alloc, node, peer, visiting) {
        Way::Away => Some(VisitOutcome {
            visit: Visit::Away,
            has_lost: false,
        }),
        Way::Differs { .. } | Way::Apart(_) => {
            known.visits = Acquaintance::new();
            None
        }
        Way::Stranger(stranger) => {
            known.visits = Acquaintance::new();
            if known.strangers.met(&stranger) {
                visiting
                    .teller
                    .tell_made(rt, stranger_line(alloc, peer, &stranger));
            }
            None
        }
        Way::Open {
            stream,
            is_older,
            ..
        } => {
            if known.strangers.met_itself(is_older) {
                visiting
                    .teller
                    .tell_made(rt, stranger_line(alloc, peer, &Stranger::Older));
            }
            let (since, pace) = (Since::now(rt), Pace::new());
            Some(visit_over(rt, alloc, node, hall, &since, &pace, &stream, &stream))
        }
    }
}

// Has no Write taken any more where the visit told that the server lost some of its own.
fn heed<'a, M: Device, T: Wait>(
    rt: &T,
    hall: &'a ServiceHall,
    mark: &ServerMark<M>,
    has_lost: bool,
) -> Option<Loss<'a>>
    ensures heeded { has_lost ≡ true ↔ IsSome result }
    ensures known { IfSome result (λ loss. loss.known.of ≡ hall.entry.now.lost.id) }
{
    if has_lost {
        return Some(lose(rt, hall, mark));
    }
    None
}

// Asks the peer for the rollcall, and tells where no answer came, or who answered in its place. Where it tells that the server lost Writes of its own,
// that is known from then on.
fn ask_first<D, L, M, E, T>(
    rt: &T,
    alloc: Global,
    node: &Node<D, L>,
    peer: Peer,
    visiting: &Visiting<'_, M, E>,
) -> Known
where
    D: Device,
    L: Desks,
    M: Device,
    E: Write,
    T: Wait + Clock + RandomSource + Sockets,
    ensures { (result.visits.last ≡ None) ⊎ (result.visits.last ≡ Some Away) }
{
    let mut known = Known {
        visits: Acquaintance::new(),
        strangers: Strangers::new(),
    };
    let Visiting {
        hall,
        mark,
        teller,
        rollcall,
        ..
    } = *visiting;
    let answer = has_own_beyond(rt, alloc, node, peer, visiting);
    match &answer {
        FirstAnswer::None => {
            if let Some(news) = known.visits.visited(Visit::Away) {
                teller.tell_made(rt, news_line(alloc, peer, &news));
            }
        }
        FirstAnswer::Stranger(stranger) => {
            if known.strangers.met(stranger) {
                teller.tell_made(rt, stranger_line(alloc, peer, stranger));
            }
        }
        FirstAnswer::Told(_) => {}
    }
    let has_lost = answer.has_lost();
    let _ = heed(rt, hall, mark, has_lost);
    rollcall.answered(rt, peer.id, has_lost);
    known
}

/// Rests until Writes may be made, or the server ends.
pub(crate) fn rest_until_open<T: Wait + Clock>(rt: &T, hall: &ServiceHall) {
    for _ in rt.forever() {
        if hall.is_opened() || hall.is_over() {
            return;
        }
        rest_while_starting(rt);
    }
}

/// Asks the peer for the rollcall, and once Writes may be made pulls from it every so many seconds, until the server ends, and tells what is news:
/// that is [`Acquaintance`]'s. Where the peer tells that the server lost Writes of its own, that is known and marked from then on. Nothing is pulled
/// into a journal whose file has strayed. That it pulls, and how often, no clause can say.
pub(crate) fn keep_pulling<D, L, M, E, T>(
    rt: &T,
    alloc: Global,
    node: &Node<D, L>,
    peer: Peer,
    every_seconds: u32,
    visiting: &Visiting<'_, M, E>,
)
where
    D: Device,
    L: Desks,
    M: Device,
    E: Write,
    T: Wait + Clock + RandomSource + Sockets,
{
    let mut known = ask_first(rt, alloc, node, peer, visiting);
    let hall = visiting.hall;
    rest_until_open(rt, hall);
    for _ in rt.forever() {
        if hall.is_over() || hall.has_strayed() {
            return;
        }
        if let Some(outcome) = visit(rt, alloc, node, peer, visiting, &mut known) {
            // What can't be marked now is marked by whoever keeps the server up, who tells it.
            let _ = heed(rt, hall, visiting.mark, outcome.has_lost);
            if let Some(news) = known.visits.visited(outcome.visit) {
                visiting.teller.tell_made(rt, news_line(alloc, peer, &news));
            }
        }
        rest(rt, hall, every_seconds);
    }
}
