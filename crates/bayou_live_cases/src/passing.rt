//! When a request passes its gate: a diary has what happens to a server that is asked over a stream.
use crate::fixtures::{bytes, on_device};
use bayou_device::{Gate, MemoryDevice};
use bayou_net::{RequestGate, serve_on};
use bayou_server::Server;
use bayou_streams::CountedChannel;
use std::alloc::Global;
use std::cell::Cell;
use std::io;
use std::io::{Read, Write};
use std::process::Abort;

/// The stream is read.
const READ: u64 = 1;

/// A request passes its gate.
const PASSED: u64 = 2;

/// A Write is added to the journal.
const ADDED: u64 = 3;

/// A reply is written.
const WRITTEN: u64 = 4;

/// What notes one event in a diary, which is a number: each event is one digit more.
struct Noting<'a> {
    event: u64,
    diary: &'a Cell<u64>,
}

impl Drop for Noting<'_> {
    fn drop(self) {
        let Noting { event: _, diary: _ } = self;
    }
}

impl Noting<'_> {
    fn note(&self) {
        let before = self.diary.get();
        self.diary
            .set(before.saturating_mul(10).saturating_add(self.event));
    }
}

impl RequestGate for Noting<'_> {
    fn pass(&self) {
        self.note();
    }
}

impl Gate for Noting<'_> {
    fn pass(&self, _held: usize) {
        self.note();
    }
}

impl Write for Noting<'_> {
    fn write(&mut self, buf: &[u8]) -> io::Result<usize> {
        self.note();
        Ok(buf.len())
    }

    fn flush(&mut self) -> io::Result<()> {
        Ok(())
    }
}

/// A reader that notes each call, and gives at most so many bytes.
struct NotingReader<'a> {
    bytes: &'a [u8],
    most: usize,
    noting: Noting<'a>,
}

impl Drop for NotingReader<'_> {
    fn drop(self) {
        let NotingReader {
            bytes: _,
            most: _,
            noting: _,
        } = self;
    }
}

impl Read for NotingReader<'_> {
    fn read(&mut self, buf: &mut [u8]) -> io::Result<usize> {
        self.noting.note();
        let count = self.bytes.len().min(self.most).min(buf.len());
        let (front, rest) = self.bytes.split_at(count);
        buf[..count].copy_from_slice(front);
        self.bytes = rest;
        Ok(count)
    }
}

/// The first of two servers, whose journal's appends are noted; of its start nothing stays in the diary.
fn begun<'a>(
    rt: &impl Abort,
    alloc: Global,
    diary: &'a Cell<u64>,
) -> Box<Server<MemoryDevice<Noting<'a>>>> {
    let gate = Noting {
        event: ADDED,
        diary,
    };
    let server = on_device(rt, alloc, (0, 2, 9), MemoryDevice::new(alloc, gate));
    diary.set(0);
    server
}

/// Whether the server, which is sent these bytes, at most so many a call, does two requests.
fn does_two<'a>(
    alloc: Global,
    server: &mut Server<MemoryDevice<Noting<'a>>>,
    diary: &'a Cell<u64>,
    sent: &'a [u8],
    most: usize,
) -> bool {
    let reader = NotingReader {
        bytes: sent,
        most,
        noting: Noting { event: READ, diary },
    };
    let writer = Noting {
        event: WRITTEN,
        diary,
    };
    let gate = Noting {
        event: PASSED,
        diary,
    };
    let mut channel = CountedChannel::new(reader, writer);
    serve_on(alloc, server, &gate, &mut channel) == Ok(2)
}

/// What is in the diary of a server then.
fn diary_of(rt: &impl Abort, alloc: Global, sent: &[u8], most: usize) -> Option<u64> {
    let diary = Cell::new(0);
    let is_done = does_two(alloc, &mut begun(rt, alloc, &diary), &diary, sent, most);
    if is_done { Some(diary.get()) } else { None }
}

/// Two Writes of 1 to `a`, of 92 bytes each.
const WRITES: &str = "005a 06 <tag-1> <none> <put-1> 005a 06 <tag-2> <none> <put-1>";

/// A request that is read alone passes the gate after its reading, and before its Write is added and its reply written. Of two that come at
/// once the second passes it after the reply to the first.
#[test]
fn a_gate_is_passed_behind_the_reading_and_before_the_doing(rt: HostRuntime) {
    let sent = bytes(&rt, rt.alloc(), WRITES);
    let are_apart = diary_of(&rt, rt.alloc(), &sent, 92) == Some(123_412_341);
    let are_together = diary_of(&rt, rt.alloc(), &sent, 184) == Some(12_342_341);
    assert!(rt; are_apart && are_together);
}
