//! A connection to one server.
ghost use Rattle.std.specs.Prelude.{◌≡◌, ◌≢◌, ◌≤◌, ℕ, Bool, false, true, List, Err, Option, Result, codes, replicate};
ghost use Rattle.std.specs.Io.KnownBytes.{Consumes, IsAtEnd};
ghost use Rattle.bayou_base.specs.declared.limits.TheConstants.{MAX_TURNS, SERVERS};
ghost use Rattle.bayou_client.specs.Exchange.{IsGone, LinkEnds, asks_dump, asks_read, asks_reopening, asks_vector, asks_write};
ghost use Rattle.bayou_client.specs.Inner.Exchanging.{Exchanges, Opens};
ghost use Rattle.bayou_wire.specs.declared.frame.Frame.TheVariants.{Dump, Offer, Read as ReadFrame, Reopen};
ghost use Rattle.bayou_wire.specs.Stream.{spelling};

use crate::fault::LinkFault;
use crate::judging::{accepted_of, dumped_of, reopened_of, seen_of};
use crate::reading::{Reply, read_reply};
use bayou_base::{Accepted, Key, Seen, ServerId, Vector, Wid};
use bayou_frames::send;
use bayou_lang::RestingWrite;
use bayou_streams::CountedChannel;
use bayou_wire::{Frame, encode_frame};
use std::alloc::Global;
use std::io::{Read, Write};

/// What a read reads that asks for a vector alone.
pub(crate) const ANY_KEY: &str = "a";

/// A connection to one server, open until no whole reply came to a request. All its requests together have the turns of one channel.
#[derive(Drop)]
pub struct Link<R, W> {
    pub(crate) channel: CountedChannel<R, W>,
    pub(crate) is_closed: bool,
}

// Sends the request, and reads its whole reply. The link is closed as sending begins.
fn exchange<R: Read, W: Write>(
    alloc: Global,
    link: &mut Link<R, W>,
    request: &Frame,
    many: bool,
) -> Result<Reply, LinkFault>
    ensures exchanges { (read : List ℕ) × Consumes (R.remaining link.old.channel.reader) (R.remaining link.new.channel.reader) read
        × Exchanges many (spelling request.now) (W.contents link.old.channel.writer) (W.contents link.new.channel.writer) read link.old.is_closed link.new.is_closed
        (IsGone link.new.channel.read_failed link.new.channel.write_failed link.new.channel.turns_left (IsAtEnd (R.remaining link.new.channel.reader))) result }
    ensures closed { link.old.is_closed ≡ true → link.new ≡ link.old }
    ensures turns { link.new.channel.turns_left ≤ link.old.channel.turns_left }
{
    if link.is_closed {
        return Err(LinkFault::Lost);
    }
    let text = encode_frame(alloc, request)?;
    link.is_closed = true;
    send(&mut link.channel, &text)?;
    let reply = read_reply(alloc, &mut link.channel, many)?;
    Ok(reply)
}

/// Whether the server's answer was received.
pub(crate) fn is_answered<A>(told: &Result<A, LinkFault>) -> bool
    ensures { Opens told.now result }
{
    match told {
        Ok(_) | Err(LinkFault::Refused(_)) => true,
        Err(LinkFault::Lost | LinkFault::BadFrame | LinkFault::OutOfMemory) => false,
    }
}

impl<R, W> Link<R, W> {
    /// A connection over which nothing was asked yet, open.
    pub fn new(reader: R, writer: W) -> Self
        ensures reader { result.channel.reader ≡ reader }
        ensures writer { result.channel.writer ≡ writer }
        ensures open { result.is_closed ≡ false }
        ensures left { result.channel.turns_left ≡ MAX_TURNS }
        ensures clean { (result.channel.read_failed ≡ false) × (result.channel.write_failed ≡ false) }
    {
        Link {
            channel: CountedChannel::new(reader, writer),
            is_closed: false,
        }
    }

    /// Whether every later request is lost.
    pub fn is_closed(&self) -> bool
        ensures { result ≡ self.now.is_closed }
    {
        self.is_closed
    }
}

impl<R: Read, W: Write> Link<R, W> {
    // Reads the key, at a server that has what is needed.
    pub(crate) fn read(
        &mut self,
        alloc: Global,
        need: &Vector,
        key: &Key,
    ) -> Result<Seen, LinkFault>
        ensures ends { (read : List ℕ) × Consumes (R.remaining self.old.channel.reader) (R.remaining self.new.channel.reader) read
            × LinkEnds (asks_read need.now) (spelling (ReadFrame need.now key.now)) (W.contents self.old.channel.writer) (W.contents self.new.channel.writer) read self.old.is_closed self.new.is_closed
            (IsGone self.new.channel.read_failed self.new.channel.write_failed self.new.channel.turns_left (IsAtEnd (R.remaining self.new.channel.reader))) result }
        ensures closed { self.old.is_closed ≡ true → self.new ≡ self.old }
        ensures turns { self.new.channel.turns_left ≤ self.old.channel.turns_left }
    {
        let reply = exchange(alloc, self, &Frame::Read(*need, key.copy()), false)?;
        let told = seen_of(reply, need);
        self.is_closed = !is_answered(&told);
        told
    }

    // Has what this request names accepted as a Write, at this server, which has what is needed. The request stays with the caller.
    pub(crate) fn write(
        &mut self,
        alloc: Global,
        request: &Frame,
        need: &Vector,
        server: ServerId,
    ) -> Result<Accepted, LinkFault>
        ensures ends { (read : List ℕ) × Consumes (R.remaining self.old.channel.reader) (R.remaining self.new.channel.reader) read
            × LinkEnds (asks_write need.now server) (spelling request.now) (W.contents self.old.channel.writer) (W.contents self.new.channel.writer) read self.old.is_closed self.new.is_closed
            (IsGone self.new.channel.read_failed self.new.channel.write_failed self.new.channel.turns_left (IsAtEnd (R.remaining self.new.channel.reader))) result }
        ensures closed { self.old.is_closed ≡ true → self.new ≡ self.old }
        ensures turns { self.new.channel.turns_left ≤ self.old.channel.turns_left }
    {
        let reply = exchange(alloc, self, request, false)?;
        let told = accepted_of(reply, need, server);
        self.is_closed = !is_answered(&told);
        told
    }

    /// What the server tells of the key: to a read that needs nothing, of no session.
    pub fn look(&mut self, alloc: Global, key: &Key) -> Result<Seen, LinkFault>
        ensures ends { (read : List ℕ) × Consumes (R.remaining self.old.channel.reader) (R.remaining self.new.channel.reader) read
            × LinkEnds (asks_read (replicate SERVERS 0)) (spelling (ReadFrame (replicate SERVERS 0) key.now)) (W.contents self.old.channel.writer) (W.contents self.new.channel.writer) read self.old.is_closed self.new.is_closed
            (IsGone self.new.channel.read_failed self.new.channel.write_failed self.new.channel.turns_left (IsAtEnd (R.remaining self.new.channel.reader))) result }
        ensures closed { self.old.is_closed ≡ true → self.new ≡ self.old }
        ensures turns { self.new.channel.turns_left ≤ self.old.channel.turns_left }
    {
        self.read(alloc, &Vector::zero(), key)
    }

    /// What the server tells that it holds: to a read that needs nothing, of no session.
    pub fn vector(&mut self, alloc: Global) -> Result<Vector, LinkFault>
        ensures ends { (read : List ℕ) × Consumes (R.remaining self.old.channel.reader) (R.remaining self.new.channel.reader) read
            × LinkEnds asks_vector (spelling (ReadFrame (replicate SERVERS 0) (codes "a"))) (W.contents self.old.channel.writer) (W.contents self.new.channel.writer) read self.old.is_closed self.new.is_closed
            (IsGone self.new.channel.read_failed self.new.channel.write_failed self.new.channel.turns_left (IsAtEnd (R.remaining self.new.channel.reader))) result }
        ensures closed { self.old.is_closed ≡ true → self.new ≡ self.old }
        ensures turns { self.new.channel.turns_left ≤ self.old.channel.turns_left }
    {
        let Ok(key) = Key::new(ANY_KEY) else {
            unreachable!();
        };
        match self.look(alloc, &key) {
            Ok(seen) => Ok(seen.vector),
            Err(fault) => Err(fault),
        }
    }

    /// Has the server open its journal again, and tells which Write it adopted, if any.
    pub fn reopen(&mut self, alloc: Global) -> Result<Option<Wid>, LinkFault>
        ensures ends { (read : List ℕ) × Consumes (R.remaining self.old.channel.reader) (R.remaining self.new.channel.reader) read
            × LinkEnds asks_reopening (spelling Reopen) (W.contents self.old.channel.writer) (W.contents self.new.channel.writer) read self.old.is_closed self.new.is_closed
            (IsGone self.new.channel.read_failed self.new.channel.write_failed self.new.channel.turns_left (IsAtEnd (R.remaining self.new.channel.reader))) result }
        ensures closed { self.old.is_closed ≡ true → self.new ≡ self.old }
        ensures turns { self.new.channel.turns_left ≤ self.old.channel.turns_left }
    {
        let reply = exchange(alloc, self, &Frame::Reopen, false)?;
        let told = reopened_of(reply);
        self.is_closed = !is_answered(&told);
        told
    }

    /// The Writes that the server holds, as it sends them: in its order of receipt, if it is one of ours.
    pub fn dump(&mut self, alloc: Global) -> Result<Vec<RestingWrite>, LinkFault>
        ensures ends { (read : List ℕ) × Consumes (R.remaining self.old.channel.reader) (R.remaining self.new.channel.reader) read
            × LinkEnds asks_dump (spelling Dump) (W.contents self.old.channel.writer) (W.contents self.new.channel.writer) read self.old.is_closed self.new.is_closed
            (IsGone self.new.channel.read_failed self.new.channel.write_failed self.new.channel.turns_left (IsAtEnd (R.remaining self.new.channel.reader))) result }
        ensures closed { self.old.is_closed ≡ true → self.new ≡ self.old }
        ensures turns { self.new.channel.turns_left ≤ self.old.channel.turns_left }
    {
        let reply = exchange(alloc, self, &Frame::Dump, true)?;
        let told = dumped_of(reply);
        self.is_closed = !is_answered(&told);
        told
    }

    /// The Writes that the server holds and these counts don't cover, as it sends them: in stamp order, if it is one of ours. It is asked as by a peer, and
    /// takes nothing in return.
    pub fn lacking(
        &mut self,
        alloc: Global,
        counts: &Vector,
    ) -> Result<Vec<RestingWrite>, LinkFault>
        ensures ends { (read : List ℕ) × Consumes (R.remaining self.old.channel.reader) (R.remaining self.new.channel.reader) read
            × LinkEnds asks_dump (spelling (Offer counts.now)) (W.contents self.old.channel.writer) (W.contents self.new.channel.writer) read self.old.is_closed self.new.is_closed
            (IsGone self.new.channel.read_failed self.new.channel.write_failed self.new.channel.turns_left (IsAtEnd (R.remaining self.new.channel.reader))) result }
        ensures closed { self.old.is_closed ≡ true → self.new ≡ self.old }
        ensures turns { self.new.channel.turns_left ≤ self.old.channel.turns_left }
    {
        let reply = exchange(alloc, self, &Frame::Offer(*counts), true)?;
        let told = dumped_of(reply);
        self.is_closed = !is_answered(&told);
        told
    }
}
