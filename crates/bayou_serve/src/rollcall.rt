//! What the peers are asked before a server serves: whether one has Writes of the server's own, which it then lost.
ghost use Rattle.std.specs.Prelude.{◌≡◌, ◌↔◌, IsTrue, true};
ghost use Rattle.bayou_serve.specs.declared.rollcall.FirstAnswer.TheVariants.{Told};
ghost use Rattle.bayou_serve.specs.Losing.{AsksForOwn};

use crate::compared_way::compared_way_to;
use crate::greeting::Way;
use crate::hall::ServiceHall;
use crate::peers::Visiting;
use crate::plan::Peer;
use crate::waiting::{Most, PatientWait, Since};
use bayou_base::ServerId;
use bayou_base::limits::STARTING_SECONDS;
use bayou_device::Device;
use bayou_frames::ChannelFault;
use bayou_greeting::Stranger;
use bayou_net::Sockets;
use bayou_node::{Desks, Node};
use bayou_peer::has_lost;
use bayou_streams::{CountedChannel, Patient};
use std::alloc::Global;
use std::io::{Read, Write};
use std::random::RandomSource;
use std::sync::atomic::{AtomicU64, Ordering};
use std::sync::{OnceLock, Wait};
use std::thread;
use std::time::{Clock, Duration};

/// How often in a second it is looked whether all peers answered.
const LOOKS_PER_SECOND: u64 = 100;

/// Rests until it is looked once more how a start goes on.
pub(crate) fn rest_while_starting<T: Clock>(rt: &T) {
    thread::sleep(rt, Duration::from_millis(1_000 / LOOKS_PER_SECOND));
}

// Whether the other end of these streams, whose waits end by `WouldBlock`, has a Write of this server which the node lacks.
fn asked_over<'x, D: Device, L: Desks, R: Read + Drop, W: Write + Drop, T: Wait + Clock>(
    rt: &'x T,
    alloc: Global,
    node: &Node<D, L>,
    hall: &'x ServiceHall,
    since: &'x Since,
    reader: R,
    writer: W,
) -> Result<bool, ChannelFault>
    ensures { AsksForOwn L.begun (R.remaining reader) (W.contents writer) result }
{
    let most = Most::Milliseconds(STARTING_SECONDS * 1_000);
    let reader = Patient::new(reader, PatientWait::new(rt, hall, since, most));
    let mut channel = CountedChannel::new(reader, writer);
    let id = node.id();
    let own = node.offer(rt).get(id);
    has_lost(alloc, id, own, &mut channel)
}

/// What a peer answers that is asked before the server serves.
#[derive(Drop)]
pub(crate) enum FirstAnswer {
    /// It couldn't be asked, or didn't answer in time.
    None,
    /// Who answered isn't that peer.
    Stranger(Stranger),
    /// Whether it has a Write of the server's own which the server lacks.
    Told(bool),
}

impl FirstAnswer {
    /// Whether it told that the server lost Writes of its own.
    pub(crate) fn has_lost(&self) -> bool
        ensures { IsTrue result ↔ (self.now ≡ Told true) }
    {
        matches!(self, FirstAnswer::Told(true))
    }
}

/// Whether the peer has a Write of this server which the server lacks; nothing where it couldn't be asked, or didn't answer before the time that a
/// start takes since then was over. What an answer says is [`has_lost`]'s; that a peer is reached no clause can say.
pub(crate) fn has_own_beyond<D, L, M, E, T>(
    rt: &T,
    alloc: Global,
    node: &Node<D, L>,
    peer: Peer,
    visiting: &Visiting<'_, M, E>,
) -> FirstAnswer
where
    D: Device,
    L: Desks,
    M: Device,
    E: Write,
    T: Wait + Clock + RandomSource + Sockets,
{
    match compared_way_to(rt, alloc, node, peer, visiting) {
        Way::Away => FirstAnswer::None,
        Way::Stranger(stranger) => FirstAnswer::Stranger(stranger),
        // Its other Writes of this server are some that the server lacks.
        Way::Differs { origin, .. } | Way::Apart(origin) => {
            FirstAnswer::Told(origin == visiting.own.id)
        }
        Way::Open { stream, .. } => {
            let (hall, since) = (visiting.hall, visiting.rollcall.since());
            match asked_over(rt, alloc, node, hall, since, &stream, &stream) {
                Ok(told) => FirstAnswer::Told(told),
                Err(_) => FirstAnswer::None,
            }
        }
    }
}

/// What the peers answered that were asked side by side.
#[derive(Drop)]
pub(crate) struct Rollcall {
    since: Since,
    /// How many of them have yet to answer.
    left: AtomicU64,
    /// One that has Writes of the server's own, which that lost.
    loser: OnceLock<ServerId>,
}

impl Rollcall {
    /// So many are asked now.
    pub(crate) fn of<C: Clock>(clock: &C, peers: usize) -> Self {
        Rollcall {
            since: Since::now(clock),
            left: AtomicU64::new(peers as u64),
            loser: OnceLock::new(),
        }
    }

    /// Since when they are asked.
    pub(crate) fn since(&self) -> &Since
        ensures { result.now ≡ self.now.since }
    {
        &self.since
    }

    /// A peer answered, or can't be asked.
    pub(crate) fn answered<T: Wait>(&self, rt: &T, peer: ServerId, has_lost: bool) {
        if has_lost {
            let _ = self.loser.init(rt, || peer);
        }
        self.left.fetch_sub(1, Ordering::SeqCst);
    }

    /// Waits until each has answered, one told a loss, or the time for it is over, and gives the one that told a loss.
    pub(crate) fn wait<T: Clock>(&self, rt: &T) -> Option<ServerId> {
        for _ in 0..STARTING_SECONDS * LOOKS_PER_SECOND {
            if let Some(peer) = self.loser.get() {
                return Some(*peer);
            }
            let is_over = self.since.is_past(rt, STARTING_SECONDS * 1_000);
            if is_over || self.left.load(Ordering::SeqCst) == 0 {
                break;
            }
            rest_while_starting(rt);
        }
        self.loser.get().copied()
    }
}
