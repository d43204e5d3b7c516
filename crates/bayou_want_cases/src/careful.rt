//! What an opening of a journal with care drops, and what it refuses as damage: a journal of three entries is changed in one way each.
use crate::fixtures::must_be_so;
use bayou_base::ServerId;
use bayou_device::{Device, MemoryDevice, OpenGate};
use bayou_journal::{CarefulDevice, Damage, DamagedEntry, Journal, Opened};
use std::alloc::Global;
use std::process::Abort;

const OWNER: ServerId = ServerId { index: 0 };

/// The bodies: the entries begin at the bytes 10, 47 and 84, and the last one ends at 123.
static BODIES: [&str; 3] = ["one", "two", "three"];

/// What becomes of the bytes of the journal.
#[derive(Clone, Copy)]
enum Change {
    /// So many are left.
    Cut(usize),
    /// Bits of the byte at this place are turned: these.
    Turned(usize, u8),
    /// These come after them.
    Longer(&'static [u8]),
}

/// What an opening finds.
#[derive(Clone, Copy)]
enum Finding {
    /// So many bodies, with so many bytes dropped.
    Opens(usize, usize),
    /// The same, and the last entry is reported, from this byte on.
    Tells(usize, usize, usize),
    /// Damage after so many bytes, of so many; nothing is changed.
    Damaged(usize, usize),
}

use Change::{Cut, Longer, Turned};
use Finding::{Damaged, Opens, Tells};

static CASES: [(Change, Finding); 20] = [
    (Cut(123), Opens(3, 0)),
    (Cut(122), Opens(2, 38)),
    (Cut(86), Opens(2, 2)),
    (Cut(85), Opens(2, 1)),
    (Cut(84), Opens(2, 0)),
    (Cut(11), Opens(0, 1)),
    (Cut(9), Opens(0, 9)),
    // A bit of the last body, and one of its digest.
    (Turned(86, 1), Tells(2, 39, 84)),
    (Turned(122, 128), Tells(2, 39, 84)),
    // The last length: more than there is, less, and more than may be.
    (Turned(85, 64), Opens(2, 39)),
    (Turned(85, 1), Damaged(84, 39)),
    (Turned(84, 64), Damaged(84, 39)),
    // A bit of the second body; its length: more than there is after it, and just so much.
    (Turned(50, 4), Damaged(47, 76)),
    (Turned(48, 64), Damaged(47, 76)),
    (Turned(48, 41), Damaged(47, 76)),
    // The first body, and the first digest.
    (Turned(12, 1), Damaged(10, 113)),
    (Turned(20, 2), Damaged(10, 113)),
    // Room that isn't written yet; what can't be that.
    (Longer(&[0, 0, 0, 0, 0]), Opens(3, 5)),
    (Longer(&[0, 0, 0, 0, 1]), Damaged(123, 5)),
    (Longer(&[0]), Opens(3, 1)),
];

/// The bytes of the journal, changed so.
fn bytes_of(rt: &impl Abort, alloc: Global, change: Change) -> Vec<u8> {
    let device = MemoryDevice::new(alloc, OpenGate);
    let (journal, _) = Journal::open(alloc, OWNER, device)
        .ok()
        .expect(rt, "not opened");
    let mut journal = journal;
    for body in BODIES.iter() {
        must_be_so(rt, journal.append(body.as_bytes()).is_ok(), 0);
    }
    let mut device = journal.close();
    let mut bytes = device.read_all(alloc).ok().expect(rt, "not read");
    match change {
        Cut(len) => bytes.truncate(len),
        Turned(at, bits) => {
            assert!(rt; at < bytes.len(), "no byte {at}");
            bytes[at] ^= bits;
        }
        Longer(more) => bytes.extend_from_slice(more).expect(rt, "no memory"),
    }
    bytes
}

/// Whether an opening that succeeds finds this.
fn opens(opened: &Opened, entry: Option<DamagedEntry>, finding: Finding) -> bool {
    match (finding, entry) {
        (Opens(bodies, dropped), None) => opened.len() == bodies && opened.dropped() == dropped,
        (Tells(bodies, dropped, start), Some(entry)) => {
            let is_told = entry.start == start && entry.bytes == dropped;
            is_told && opened.len() == bodies && opened.dropped() == dropped
        }
        _ => false,
    }
}

/// Whether one that is refused finds this.
fn is_damage(damage: Option<Damage>, finding: Finding) -> bool {
    match (finding, damage) {
        (Damaged(whole, behind), Some(damage)) => damage.whole == whole && damage.behind == behind,
        _ => false,
    }
}

/// Whether the device holds so many bytes.
fn holds(alloc: Global, device: &mut CarefulDevice<MemoryDevice<OpenGate>>, count: usize) -> bool {
    match device.read_all(alloc) {
        Ok(bytes) => bytes.len() == count,
        Err(_) => false,
    }
}

#[test]
fn one_torn_entry_is_dropped_and_no_more(rt: HostRuntime) {
    for (at, (change, finding)) in CASES.iter().enumerate() {
        let bytes = bytes_of(&rt, rt.alloc(), *change);
        let count = bytes.len();
        let device = CarefulDevice::new(MemoryDevice::with_bytes(bytes, OpenGate));
        match Journal::open(rt.alloc(), OWNER, device) {
            Ok((journal, opened)) => {
                let entry = journal.see_device().entry();
                must_be_so(&rt, opens(&opened, entry, *finding), at);
            }
            Err(refused) => {
                let mut device = refused.device;
                must_be_so(&rt, is_damage(device.damage(), *finding), at);
                must_be_so(&rt, holds(rt.alloc(), &mut device, count), at);
            }
        }
    }
}
