//! A journal of the first version, as the program wrote it that knew no later one, and the mark that raises it, with each device call failing. The
//! mark is from `sha256sum`.
use crate::fixtures::{must_be_so, started};
use bayou_device::{MemoryDevice, OpenGate};
use bayou_fakes::sites::{Memory, Served};
use bayou_fakes::words::bytes_of;
use bayou_server::{JournalFault, LastHeld, StartFault};
use std::alloc::Global;
use std::process::Abort;

/// How many Writes a start finds, and how many bytes after them are dropped.
type Found = Result<(usize, usize), StartFault>;

/// Three Writes of server 0: 292 bytes.
const THREE: &str = "4241594f554a4e4c 0100
    003c 0000000001 00000001 <old-none> 00010104726f6f6d0101000000000000000100
    dd7fd99ca1386304a7db218154a54dd243b5f05e41fff44a7de8e59df8b6bbcb
    003c 0000000002 00000002 <old-one> 00010104726f6f6d0101000000000000000200
    b1a29d0a9a2e0d48348f0c377511fdaeba96a092e0e731985d153878b1f0e8b6
    003c 0000000003 00000003 <old-two> 00010104726f6f6d0101000000000000000300
    33b9670e0d0076c8c9f1415691b3f0781077a1d0250b26daceb2f1fac30ea17f";

/// The mark after them, which raises the journal.
const MARK: &str = "0001 03 f455ebd456ee5d78f4173b0d85848e05ce279c181b08de177fcfdfffadbdfd49";

/// How many bytes a mark has.
const MARK_BYTES: usize = 35;

/// The bytes of the three Writes, and so many of those of the mark.
fn with_front(rt: &impl Abort, alloc: Global, kept: usize) -> Vec<u8> {
    let mut bytes = bytes_of(alloc, THREE).expect(rt, "no bytes");
    let mark = bytes_of(alloc, MARK).expect(rt, "no bytes");
    let front = mark.get(..kept).unwrap_or(&mark);
    bytes.extend_from_slice(front).expect(rt, "no memory");
    bytes
}

/// What the server held, and its device.
fn stopped(server: Box<Served>) -> (LastHeld, Memory) {
    let stopped = Box::into_inner(server).stop();
    (stopped.last, stopped.device)
}

/// What a start finds on the device, and the device then.
fn starting(rt: &impl Abort, alloc: Global, device: Memory) -> (Found, Memory) {
    match started(rt, alloc, (0, 2, 100), device) {
        Ok((server, dropped)) => {
            let (last, device) = stopped(server);
            (Ok((last.receipts().len(), dropped)), device)
        }
        Err(refused) => (Err(refused.fault), refused.device),
    }
}

/// How many of so many bytes at the front of a mark are dropped: all, but where it is whole.
fn dropped_of(kept: usize) -> usize {
    kept % MARK_BYTES
}

/// What of three Writes and a torn mark after them fails: how many bytes of the mark there are, the device call of a start that fails, and
/// how many bytes are left; where that isn't said it is the append of the mark, of which so many are added.
static FAILING: [(usize, u32, Option<usize>); 9] = [
    // Nothing of the mark: the read, the append, the sync.
    (0, 1, Some(292)),
    (0, 2, None),
    (0, 3, Some(327)),
    // A front of it: the read, the cut, the append, the sync.
    (34, 1, Some(326)),
    (34, 2, Some(326)),
    (34, 3, None),
    (34, 4, Some(327)),
    // A whole one: the read, the sync.
    (35, 1, Some(327)),
    (35, 2, Some(327)),
];

/// Whether the start on the bytes fails at this call, so many are left of the raised journal, and the next start raises it.
fn fails_and_is_raised(
    rt: &impl Abort,
    alloc: Global,
    bytes: Vec<u8>,
    (call, kept, left): (u32, usize, usize),
) -> bool {
    let raised = with_front(rt, alloc, MARK_BYTES);
    let mut device = MemoryDevice::with_bytes(bytes, OpenGate);
    device.fuse(call.max(1), kept);
    let (refused, device) = starting(rt, alloc, device);
    let is_left = raised.get(..left) == Some(device.bytes());
    let (found, device) = starting(rt, alloc, device);
    let is_raised = found == Ok((3, dropped_of(left.saturating_sub(292))));
    let is_refused = refused == Err(StartFault::Journal(JournalFault::Device));
    is_refused && is_left && is_raised && device.bytes() == raised.as_slice()
}

#[test]
fn each_device_call_of_a_raising_may_fail(rt: HostRuntime) {
    for (front, call, left) in FAILING.iter() {
        for kept in 0..MARK_BYTES + 1 {
            let bytes = with_front(&rt, rt.alloc(), *front);
            let left = left.unwrap_or(kept.saturating_add(292));
            let is_so = fails_and_is_raised(&rt, rt.alloc(), bytes, (*call, kept, left));
            must_be_so(&rt, is_so, kept);
        }
    }
}
