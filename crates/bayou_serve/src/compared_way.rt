//! A way to a peer that holds the same Writes under the same names, as far as both hold them.
ghost use Rattle.std.specs.Prelude.{◌≡◌, ◌≤◌, IfSome, None, slice_index};
ghost use Rattle.bayou_serve.specs.Ways.{IsWay};

use crate::comparing::Comparison;
use crate::greeting::{Way, way_to};
use crate::hall::ServiceHall;
use crate::marking::lose;
use crate::peers::Visiting;
use crate::plan::Peer;
use crate::searching::{say, search};
use crate::waiting::{Most, PatientWait, Since};
use bayou_base::ServerId;
use bayou_base::limits::GREETING_MILLISECONDS;
use bayou_device::Device;
use bayou_net::Sockets;
use bayou_node::{Desks, Node};
use bayou_streams::{CountedChannel, Patient};
use bayou_wire::{Greeting, Held, Known};
use std::alloc::Global;
use std::io::{Read, Write};
use std::net::TcpStream;
use std::random::RandomSource;
use std::sync::Wait;
use std::time::Clock;

/// What is known of a peer that has other Writes of an origin.
#[derive(Clone, Copy, Debug, PartialEq, Eq)]
struct Apart {
    origin: ServerId,
    /// How many of its Writes both hold.
    count: u32,
    /// Of which origin the peer is to learn this, if it doesn't know.
    told: Option<ServerId>,
}

// What comes of comparing what the peer made known.
fn apart_of<T: Wait>(
    rt: &T,
    comparison: &Comparison,
    own: ServerId,
    peer: ServerId,
    theirs: &Held,
) -> Option<Apart>
    ensures { IfSome result (λ apart. apart.count ≡ slice_index theirs.now.vector apart.origin.index) }
{
    let origin = comparison.difference(rt, theirs, own)?;
    Some(Apart {
        origin,
        count: theirs.vector.get(origin),
        told: comparison.difference(rt, theirs, peer),
    })
}

// Finds the first Write that the other end of these streams, whose waits end by `WouldBlock`, has otherwise, and says so to it, if it doesn't know.
fn search_over<'x, R: Read + Drop, W: Write + Drop, T: Wait + Clock>(
    rt: &'x T,
    alloc: Global,
    comparison: &Comparison,
    hall: &'x ServiceHall,
    since: &'x Since,
    apart: Apart,
    reader: R,
    writer: W,
) -> Option<u32>
    ensures { IfSome result (λ first. first ≤ apart.count) }
{
    let patience = PatientWait::new(rt, hall, since, Most::Milliseconds(GREETING_MILLISECONDS));
    let mut channel = CountedChannel::new(Patient::new(reader, patience), writer);
    let first = search(
        rt,
        alloc,
        comparison,
        apart.origin,
        apart.count,
        &mut channel,
    );
    if let Some(told) = apart.told {
        let _ = say(alloc, &Greeting::Differs(told), &mut channel);
    }
    first
}

// Finds the first Write that the peer has otherwise, says so to it, if it doesn't know, tells it, and takes no Write any more where it
// is one of this server.
fn meet_apart<M: Device, E: Write, T: Wait + Clock>(
    rt: &T,
    alloc: Global,
    visiting: &Visiting<'_, M, E>,
    peer: ServerId,
    apart: Apart,
    stream: &TcpStream,
) -> ServerId
    ensures { result ≡ apart.origin }
{
    let (hall, own, comparison) = (visiting.hall, visiting.own.id, visiting.comparison);
    if apart.origin == own {
        let _ = lose(rt, hall, visiting.mark);
    }
    let since = Since::now(rt);
    let first = search_over(rt, alloc, comparison, hall, &since, apart, stream, stream);
    comparison.tell(
        rt,
        alloc,
        rt,
        visiting.teller,
        own,
        peer,
        apart.origin,
        first,
    );
    apart.origin
}

// Whether other Writes are held than the peer made known; one that tells no digests isn't compared, which is reported once.
fn compare<M: Device, E: Write, T: Wait>(
    rt: &T,
    alloc: Global,
    visiting: &Visiting<'_, M, E>,
    peer: Peer,
    known: &Known,
) -> Option<Apart>
    ensures untold { known.now.digests ≡ None → result ≡ None }
    ensures count { IfSome result (λ apart. apart.count ≡ slice_index known.now.vector apart.origin.index) }
{
    let (comparison, own) = (visiting.comparison, visiting.own.id);
    let Some(digests) = known.digests else {
        if comparison.met_untold(peer.id) {
            let (id, address) = (peer.id.index, peer.address);
            let line = format!(in alloc;
                "bayou: peer {id} at {address} tells no digests: what it holds isn't compared\n"
            );
            visiting.teller.tell_made(rt, line);
        }
        return None;
    };
    let theirs = Held {
        vector: known.vector,
        digests,
    };
    apart_of(rt, comparison, own, peer.id, &theirs)
}

// Compares what the peer made known, and gives the origin of which other Writes are held, which both learned.
fn meet_known<M: Device, E: Write, T: Wait + Clock>(
    rt: &T,
    alloc: Global,
    visiting: &Visiting<'_, M, E>,
    peer: Peer,
    known: &Known,
    stream: &TcpStream,
) -> Option<ServerId>
    ensures { known.now.digests ≡ None → result ≡ None }
{
    let apart = compare(rt, alloc, visiting, peer, known)?;
    Some(meet_apart(rt, alloc, visiting, peer.id, apart, stream))
}

/// As [`way_to`], to a peer that learns the digests of what the node holds. Where either end finds that the other has other Writes, there is no way,
/// and that is reported; if they are this server's own, it takes no Write any more.
pub(crate) fn compared_way_to<D, L, M, E, T>(
    rt: &T,
    alloc: Global,
    node: &Node<D, L>,
    peer: Peer,
    visiting: &Visiting<'_, M, E>,
) -> Way
where
    D: Device,
    L: Desks,
    M: Device,
    E: Write,
    T: Wait + Clock + RandomSource + Sockets,
    ensures { IsWay visiting.now.own.now.key result }
{
    let (own, hall) = (visiting.own, visiting.hall);
    let Some(held) = visiting.comparison.held(rt, alloc, node, visiting.teller) else {
        return way_to(rt, alloc, own, peer, hall, None);
    };
    match way_to(rt, alloc, own, peer, hall, Some(held)) {
        Way::Open {
            stream,
            is_older,
            known,
        } => {
            let apart = match &known {
                Some(known) => meet_known(rt, alloc, visiting, peer, known, &stream),
                None => None,
            };
            match apart {
                Some(origin) => Way::Apart(origin),
                None => Way::Open {
                    stream,
                    is_older,
                    known,
                },
            }
        }
        Way::Differs { stream, origin } => {
            let apart = Apart {
                origin,
                count: held.vector.get(origin),
                told: None,
            };
            Way::Apart(meet_apart(rt, alloc, visiting, peer.id, apart, &stream))
        }
        Way::Away => Way::Away,
        Way::Stranger(stranger) => Way::Stranger(stranger),
        Way::Apart(origin) => Way::Apart(origin),
    }
}
