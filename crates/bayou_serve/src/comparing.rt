//! What a server keeps to see whether its peers hold the same Writes under the same names, and what it tells of that.
ghost use Rattle.std.specs.Prelude.{◌≡◌, ◌≢◌, ◌+◌, ◌≤◌, ◌<◌, ◌*◌, ◌↔◌, All, IfOk, IfSome, IsSome, None, Some, length, string_bytes, vec_len};
ghost use Rattle.bayou_base.specs.declared.limits.TheConstants.{SERVERS};
ghost use Rattle.bayou_serve.specs.Told.{difference_text, own_difference_text};

use crate::held_digests::{DigestSpan, HeldDigests};
use crate::notice::NoticeTime;
use crate::teller::Teller;
use arrayvec::ArrayVec;
use bayou_base::limits::DUMPED_AT_ONCE;
use bayou_base::{MAX_WRITES, SERVERS, ServerId};
use bayou_device::Device;
use bayou_node::{Desks, Node};
use bayou_wire::layout::DIGESTS_AT_ONCE;
use bayou_wire::{Held, Inquiry};
use std::alloc::{AllocError, Global};
use std::array;
use std::io::Write;
use std::sync::atomic::{AtomicU64, Ordering};
use std::sync::{Mutex, Wait};
use std::time::Clock;

/// What was reported of a peer's other Writes of one origin: when, and from which Write on, 0 where that isn't known.
#[derive(Drop)]
struct Difference {
    told: NoticeTime,
    first: AtomicU64,
}

// The place of what was reported of this peer and this origin.
fn place_of(peer: ServerId, origin: ServerId) -> usize
    ensures place { result ≡ peer.index * SERVERS + origin.index }
    ensures within { result < SERVERS * SERVERS }
{
    usize::from(peer.index) * SERVERS + usize::from(origin.index)
}

// From which Write on, as that is kept.
fn first_of(kept: u64) -> Option<u64>
    ensures none { result ≡ None ↔ kept ≡ 0 }
    ensures known { IfSome result (λ first. first ≡ kept) }
{
    if kept == 0 { None } else { Some(kept) }
}

impl Difference {
    // Whether to report it now: at first, each minute, and as soon as it is known from which Write on.
    fn is_due<C: Clock>(&self, clock: &C, first: Option<u32>) -> bool {
        let is_due = self.told.is_due(clock);
        match first {
            Some(first) => self.first.swap(u64::from(first), Ordering::SeqCst) == 0 || is_due,
            None => is_due,
        }
    }

    fn first(&self) -> Option<u64> {
        first_of(self.first.load(Ordering::SeqCst))
    }
}

/// The digests of what a server holds, and what was reported of its peers, as its threads share them.
#[derive(Drop)]
pub(crate) struct Comparison {
    digests: Mutex<HeldDigests>,
    /// Of each server and each origin.
    differences: Vec<Difference>,
    /// Of which servers it was reported that they tell no digests.
    untold: [AtomicU64; SERVERS],
    /// Whether it was reported that memory is wanting.
    is_short: AtomicU64,
}

/// The line of a peer that has other Writes of an origin than this server, from this one on, where that is known.
fn difference_line(
    alloc: Global,
    own: ServerId,
    peer: ServerId,
    origin: ServerId,
    first: Option<u64>,
) -> Result<String, AllocError>
    ensures own { origin ≡ own → IfOk result (λ line. string_bytes line ≡ own_difference_text peer.index origin.index first) }
    ensures other { origin ≢ own → IfOk result (λ line. string_bytes line ≡ difference_text peer.index origin.index first) }
{
    let (server, of) = (peer.index, origin.index);
    match (first, origin == own) {
        (Some(first), true) => {
            format!(in alloc;
                "bayou: server {server} has other Writes of this server from {of}:{first} on: this journal is an old copy, or there were two of it; docs/TROUBLE.md\n"
            )
        }
        (None, true) => {
            format!(in alloc;
                "bayou: server {server} has other Writes of this server: this journal is an old copy, or there were two of it; docs/TROUBLE.md\n"
            )
        }
        (Some(first), false) => {
            format!(in alloc;
                "bayou: server {server} has other Writes of server {of} from {of}:{first} on\n"
            )
        }
        (None, false) => {
            format!(in alloc; "bayou: server {server} has other Writes of server {of}\n")
        }
    }
}

// Nothing was reported yet of any server and origin.
fn no_differences(alloc: Global) -> Result<Vec<Difference>, AllocError>
    ensures { IfOk result (λ differences. vec_len differences ≡ SERVERS * SERVERS) }
{
    let mut differences = Vec::with_capacity(alloc, SERVERS * SERVERS)?;
    while differences.len() < SERVERS * SERVERS {
        differences.push(Difference {
            told: NoticeTime::new(),
            first: AtomicU64::new(0),
        })?;
    }
    Ok(differences)
}

impl Comparison {
    /// Of a server of which nothing was read, and nothing reported.
    pub(crate) fn new(alloc: Global) -> Result<Self, AllocError>
        ensures { IfOk result (λ comparison. vec_len comparison.differences ≡ SERVERS * SERVERS) }
    {
        Ok(Comparison {
            digests: Mutex::new(HeldDigests::new(alloc)),
            differences: no_differences(alloc)?,
            untold: array::from_fn(|_| AtomicU64::new(0)),
            is_short: AtomicU64::new(0),
        })
    }

    // Reads what the node holds beyond what was read of it. No lock is held meanwhile but that of one call.
    fn catch_up<D: Device, L: Desks, T: Wait>(
        &self,
        rt: &T,
        alloc: Global,
        node: &Node<D, L>,
    ) -> Result<(), AllocError> {
        for _ in 0..=MAX_WRITES {
            let read = self.digests.lock(rt).read();
            let writes = node.dump_part(rt, alloc, read, DUMPED_AT_ONCE)?;
            if writes.is_empty() {
                break;
            }
            self.digests.lock(rt).add_behind(alloc, read, &writes)?;
        }
        Ok(())
    }

    /// What the node holds, with its digests; nothing where memory is wanting, which is reported once. Then nothing is compared this time.
    pub(crate) fn held<D: Device, L: Desks, E: Write, T: Wait>(
        &self,
        rt: &T,
        alloc: Global,
        node: &Node<D, L>,
        teller: &Teller<E>,
    ) -> Option<Held> {
        if self.catch_up(rt, alloc, node).is_ok() {
            return Some(self.digests.lock(rt).held());
        }
        if self.is_short.swap(1, Ordering::SeqCst) == 0 {
            teller.tell(
                rt,
                "bayou: no memory for digests: what peers hold isn't compared\n",
            );
        }
        None
    }

    /// As [`HeldDigests::difference`].
    pub(crate) fn difference<T: Wait>(
        &self,
        rt: &T,
        told: &Held,
        sooner: ServerId,
    ) -> Option<ServerId> {
        self.digests.lock(rt).difference(told, sooner)
    }

    /// As [`HeldDigests::digested`].
    pub(crate) fn digested<T: Wait>(
        &self,
        rt: &T,
        inquiry: &Inquiry,
    ) -> ArrayVec<u64, DIGESTS_AT_ONCE> {
        self.digests.lock(rt).digested(inquiry)
    }

    /// As [`HeldDigests::narrowed`].
    pub(crate) fn narrowed<T: Wait>(
        &self,
        rt: &T,
        origin: ServerId,
        span: DigestSpan,
        counts: &[u32],
        told: &[u64],
    ) -> Option<DigestSpan>
        ensures told { IsSome result ↔ (length told.now ≡ length counts.now) }
        ensures within { All (λ count. (span.low < count) × (count < span.high)) counts.now → IfSome result (λ narrow. (span.low ≤ narrow.low) × (narrow.high ≤ span.high)) }
    {
        self.digests.lock(rt).narrowed(origin, span, counts, told)
    }

    /// Tells that the peer has other Writes of the origin, where that is due.
    pub(crate) fn tell<E: Write, C: Clock, T: Wait>(
        &self,
        rt: &T,
        alloc: Global,
        clock: &C,
        teller: &Teller<E>,
        own: ServerId,
        peer: ServerId,
        origin: ServerId,
        first: Option<u32>,
    ) {
        let Some(difference) = self.differences.get(place_of(peer, origin)) else {
            return;
        };
        if difference.is_due(clock, first) {
            let first = difference.first();
            teller.tell_made(rt, difference_line(alloc, own, peer, origin, first));
        }
    }

    /// Whether it is news that this peer tells no digests.
    pub(crate) fn met_untold(&self, peer: ServerId) -> bool {
        self.untold[usize::from(peer.index)].swap(1, Ordering::SeqCst) == 0
    }
}
