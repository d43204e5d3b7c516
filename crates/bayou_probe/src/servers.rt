//! Journals, and servers over devices in memory: what an opening finds, what a server replies, and what it takes.
use crate::telling::{hex_of, told_refusal};
use bayou_base::{MAX_WRITES, SERVERS, ServerId};
use bayou_device::{MemoryDevice, OpenGate};
use bayou_journal::Journal;
use bayou_net::{NoGate, serve_on};
use bayou_peer::pull_on;
use bayou_server::{NotStarted, Server};
use bayou_streams::CountedChannel;
use std::alloc::{AllocError, Global};
use std::io;

type Memory = MemoryDevice<OpenGate>;

/// A server that there may be, and how many Writes it may hold: at most as many as any may.
#[derive(Clone, Copy)]
pub(crate) struct Place {
    pub(crate) id: ServerId,
    pub(crate) limit: u32,
}

/// The bodies that an opening finds, each after its version, how many bytes it drops, and what is left.
pub(crate) fn chain(alloc: Global, id: ServerId, bytes: Vec<u8>) -> Result<String, AllocError> {
    match Journal::open(alloc, id, MemoryDevice::with_bytes(bytes, OpenGate)) {
        Ok((journal, found)) => {
            let mut told = String::new(alloc);
            for at in 0..found.len() {
                let body = hex_of(alloc, found.body(at))?;
                told.push_str(format!(in alloc; "{}:{body} ", found.version(at))?.as_str())?;
            }
            let left = hex_of(alloc, journal.close().bytes())?;
            format!(in alloc; "{told}dropped {} {left}", found.dropped())
        }
        Err(refused) => told_refusal(alloc, &refused.fault, refused.device.bytes()),
    }
}

/// The server over these bytes, and how many of them its start drops.
fn start(
    alloc: Global,
    place: Place,
    bytes: Vec<u8>,
) -> Result<(Server<Memory>, usize), NotStarted<Memory>> {
    let device = MemoryDevice::with_bytes(bytes, OpenGate);
    Server::start(
        alloc,
        place.id,
        SERVERS as u8,
        place.limit.min(MAX_WRITES),
        device,
    )
}

/// How many Writes a server finds in its journal, how many bytes it drops, and what is left.
pub(crate) fn journal(alloc: Global, place: Place, bytes: Vec<u8>) -> Result<String, AllocError> {
    match start(alloc, place, bytes) {
        Ok((server, dropped)) => {
            let stopped = server.stop();
            let held = stopped.last.receipts().len();
            let left = hex_of(alloc, stopped.device.bytes())?;
            format!(in alloc; "holds {held} dropped {dropped} {left}")
        }
        Err(refused) => told_refusal(alloc, &refused.fault, refused.device.bytes()),
    }
}

/// The server, which is new.
fn started(alloc: Global, place: Place) -> Result<Box<Server<Memory>>, AllocError> {
    match start(alloc, place, Vec::new(alloc)) {
        Ok((server, _)) => Ok(Box::new(alloc, server)?),
        Err(_) => Err(AllocError),
    }
}

/// How a new server ends that is sent these requests, and what it replies.
pub(crate) fn serve(alloc: Global, place: Place, bytes: &[u8]) -> Result<String, AllocError> {
    let mut server = started(alloc, place)?;
    let mut channel = CountedChannel::new(bytes, Vec::new(alloc));
    let ended = serve_on(alloc, server.as_mut(), &NoGate, &mut channel);
    let written = channel.into_parts().1;
    let replies = hex_of(alloc, &written)?;
    format!(in alloc; "{ended:?} {replies}")
}

/// What a new server takes of this stream, and how many Writes of the first one it holds then.
pub(crate) fn pull(alloc: Global, place: Place, bytes: &[u8]) -> Result<String, AllocError> {
    let mut server = started(alloc, place)?;
    let mut channel = CountedChannel::new(bytes, io::sink());
    let ended = match pull_on(alloc, server.as_mut(), &mut channel) {
        Ok(pulled) => Ok(pulled),
        Err(stopped) => Err(stopped.fault),
    };
    let vector = server.vector();
    let [held, ..] = vector.counts();
    format!(in alloc; "{held} {ended:?}")
}
