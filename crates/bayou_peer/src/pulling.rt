ghost use Rattle.std.specs.Prelude.{◌≡◌, ◌≢◌, ◌+◌, ◌*◌, ◌<◌, ◌≤◌, ◌^◌, ◌++◌, true, ℕ, List, None, Some, IfErr, IfOk, IfSome, OnOk, length};
ghost use Rattle.std.specs.List.{AllByRecursion};
ghost use Rattle.std.specs.Io.KnownBytes.{Appends, Consumes, IsAtEnd};
ghost use Rattle.bayou_base.specs.declared.limits.TheConstants.{MAX_TURNS, READ_BYTES};
ghost use Rattle.bayou_peer.specs.declared.pulling.TheConstants.{PULL_TURN_BYTES};
ghost use Rattle.bayou_lang.specs.declared.write.Write.{Write as Written};
ghost use Rattle.bayou_lang.specs.Writes.{count_of};
ghost use Rattle.bayou_frames.specs.declared.fault.ChannelFault.TheVariants.{BadFrame, OutOfMemory};
ghost use Rattle.bayou_peer.specs.declared.fault.PullFault.TheVariants.{Stream};
ghost use Rattle.bayou_peer.specs.Pulls.{EndsInMemory, EndsOf, HasNoPlace, PullEnds, Received, nothing_pulled};
ghost use Rattle.bayou_peer.specs.Inner.Steps.{Gathers, Goes, GoesOn, IsFrontOf, IsNoItem, IsTakeFault};
ghost use Rattle.bayou_peer.specs.Stopping.{StopsPull};
ghost use Rattle.bayou_streams.specs.Written.{AppendsFront};
ghost use Rattle.bayou_wire.specs.declared.frame.Frame.{Frame as Sent};
ghost use Rattle.bayou_wire.specs.declared.frame.Frame.TheVariants.{End, Item, Offer};
ghost use Rattle.bayou_wire.specs.Spelling.{IsFrame};
ghost use Rattle.bayou_wire.specs.Stream.{IsPartial, spelling, spellings};

use crate::fault::PullFault;
use crate::replica::Replica;
use bayou_base::limits::{PULL_BYTES, READ_BYTES};
use bayou_base::{Vector, Wid};
use bayou_frames::{Came, ChannelFault, feed_piece, read_piece, send};
use bayou_lang::RestingWrite;
use bayou_streams::CountedChannel;
use bayou_wire::{Frame, Frames, encode_frame};
use std::alloc::{AllocError, Global};
use std::io::{Read, Write};

/// How many bytes one turn of a pull reads at the most: those of some hundreds of Writes, which are applied once where they come late.
pub const PULL_TURN_BYTES: usize = 65_536;

/// What a pull did.
#[derive(Clone, Copy, Debug, PartialEq, Eq)]
pub struct Pulled {
    /// How many Writes came that were new.
    pub taken: u32,
    /// How many came that were held already.
    pub had: u32,
}

/// Why a pull ended before its End, and what had come by then. What was taken is kept.
#[derive(Clone, Copy, Debug, PartialEq, Eq)]
pub struct PullStopped {
    pub fault: PullFault,
    pub before: Pulled,
    /// The name of the Write that was refused, if one was.
    pub refused: Option<Wid>,
}

impl PullStopped {
    /// A pull that ended so before anything came.
    pub fn at_once(fault: ChannelFault) -> Self
        ensures { result ≡ record { fault = Stream fault; before = nothing_pulled; refused = None } }
    {
        Stop::from(fault).behind(Pulled { taken: 0, had: 0 })
    }
}

// Why a step of a pull ends it.
#[derive(Clone, Copy, Debug, PartialEq, Eq)]
struct Stop {
    fault: PullFault,
    refused: Option<Wid>,
}

impl From<ChannelFault> for Stop {
    ghost use Rattle.std.specs.Prelude.{◌≡◌, None};
    ghost use Rattle.bayou_peer.specs.declared.fault.PullFault.TheVariants.{Stream};

    ghost from_gives = { λ cause stop. stop ≡ record { fault = Stream cause; refused = None } };

    fn from(fault: ChannelFault) -> Stop {
        Stop {
            fault: PullFault::Stream(fault),
            refused: None,
        }
    }
}

impl Stop {
    // It ends a pull by which so much had come.
    fn behind(self, before: Pulled) -> PullStopped
        ensures { result ≡ record { fault = self.fault; before = before; refused = self.refused } }
    {
        PullStopped {
            fault: self.fault,
            before,
            refused: self.refused,
        }
    }
}

// Frames that came: the Writes of the Items that stand in front, and the frame after them, if one came.
#[derive(Drop)]
struct Front {
    items: Vec<RestingWrite>,
    next: Option<Frame>,
}

// What bytes gave: the front of their frames, and whether what comes after all of these has a fault.
#[derive(Drop)]
struct Gathered {
    front: Front,
    is_bad: bool,
}

// The front of the frames. Its Writes are theirs, and no copies.
fn front_of(alloc: Global, frames: Vec<Frame>) -> Result<Front, AllocError>
    ensures { IfOk result (λ front. IsFrontOf frames.items front.items.items front.next) }
{
    let mut items = Vec::with_capacity(alloc, frames.len())?;
    for frame in frames {
        match frame {
            Frame::Item(write) => items.push(write)?,
            other => {
                let next = Some(other);
                return Ok(Front { items, next });
            }
        }
    }
    Ok(Front { items, next: None })
}

impl Front {
    // The same of these frames, and more after them.
    fn with(self, alloc: Global, more: Vec<Frame>) -> Result<Front, AllocError>
        requires { IsNoItem self.next }
        ensures other { IfOk result (λ front. IsNoItem front.next) }
        ensures front { (came : List Sent) → IsFrontOf came self.items.items self.next → IfOk result (λ front. IsFrontOf (came ++ more.items) front.items.items front.next) }
    {
        if self.next.is_some() {
            return Ok(self);
        }
        let mut items = self.items;
        let mut front = front_of(alloc, more)?;
        items.append(&mut front.items)?;
        let next = front.next;
        Ok(Front { items, next })
    }
}

// The End ends the pull where it tells the number of the Items.
fn take_end(count: u32, pulled: &Pulled) -> Result<bool, ChannelFault>
    requires few { pulled.now.taken + pulled.now.had < 2 ^ 32 }
    ensures at { IfOk result (λ ended. (ended ≡ true) × (count ≡ pulled.now.taken + pulled.now.had)) }
    ensures bad { IfErr result (λ fault. (fault ≡ BadFrame) × (count ≢ pulled.now.taken + pulled.now.had)) }
{
    if count != pulled.taken + pulled.had {
        return Err(ChannelFault::BadFrame);
    }
    Ok(true)
}

// Takes a frame after the Items: an End of their number ends the pull. No other frame has a place there.
fn take_other(frame: &Frame, pulled: &Pulled) -> Result<bool, ChannelFault>
    requires other { (write : Written) → frame.now ≢ Item write }
    requires few { pulled.now.taken + pulled.now.had < 2 ^ 32 }
    ensures ends { IfOk result (λ ended. (ended ≡ true) × (frame.now ≡ End (pulled.now.taken + pulled.now.had))) }
    ensures bad { IfErr result (λ fault. (fault ≡ BadFrame) × HasNoPlace (pulled.now.taken + pulled.now.had) frame.now) }
{
    match frame {
        Frame::End(count) => take_end(*count, pulled),
        _ => Err(ChannelFault::BadFrame),
    }
}

// Takes what came, up to what ends the pull, and tells whether that was its End. The Items that came together are taken together.
fn take_came<P: Replica>(
    alloc: Global,
    replica: &mut P,
    front: Front,
    pulled: &mut Pulled,
) -> Result<bool, Stop>
    requires few { pulled.old.taken + pulled.old.had + length front.items.items < 2 ^ 32 }
    requires other { IsNoItem front.next }
    ensures goes { (start : P) (read behind : List ℕ) (came : List Sent) → AllByRecursion IsFrame came → IsFrontOf came front.items.items front.next
        → Received (record { list = P.list; takes = P.takes }) start replica.old read (spellings came ++ behind) pulled.old.taken pulled.old.had
        → Goes (record { list = P.list; takes = P.takes }) start replica.new read behind pulled.new result }
    ensures fault { IfErr result (λ stop. IsTakeFault stop.fault) }
{
    let Front { items, next } = front;
    let told = replica.take_all(alloc, items);
    pulled.taken += told.taken;
    pulled.had += told.had;
    if let Some(refused) = told.refused {
        return Err(Stop {
            fault: PullFault::Refused(refused.fault),
            refused: Some(refused.wid),
        });
    }
    match next {
        Some(frame) => Ok(take_other(&frame, pulled)?),
        None => Ok(false),
    }
}

// Feeds the bytes, a small piece at a time, so that neither a copy of them all is held nor all of their frames beside the Writes.
fn feed_pieces(alloc: Global, frames: &mut Frames, bytes: &[u8]) -> Result<Gathered, ChannelFault>
    ensures comes { (held : List ℕ) → IsPartial held → frames.old ≡ Some held → IfOk result (λ gathered. Gathers held bytes.now gathered.front.items.items gathered.front.next gathered.is_bad frames.new) }
    ensures other { IfOk result (λ gathered. IsNoItem gathered.front.next) }
    ensures refused { IfErr result (λ fault. fault ≡ OutOfMemory) }
{
    let (first, mut rest) = bytes.split_at(bytes.len().min(READ_BYTES));
    let Came {
        frames: came,
        mut is_bad,
    } = feed_piece(alloc, frames, first)?;
    let mut front = front_of(alloc, came)?;
    while !is_bad && !rest.is_empty() {
        let (piece, behind) = rest.split_at(rest.len().min(READ_BYTES));
        let more = feed_piece(alloc, frames, piece)?;
        front = front.with(alloc, more.frames)?;
        is_bad = more.is_bad;
        rest = behind;
    }
    Ok(Gathered { front, is_bad })
}

// Takes a piece of what comes, and tells whether the pull came to its End.
fn take_piece<P: Replica>(
    alloc: Global,
    replica: &mut P,
    frames: &mut Frames,
    piece: &[u8],
    pulled: &mut Pulled,
) -> Result<bool, Stop>
    requires few { (held : List ℕ) × IsPartial held × (frames.old ≡ Some held)
        × (16 * (pulled.old.taken + pulled.old.had) + (length held + length piece.now) ≤ PULL_TURN_BYTES * MAX_TURNS) }
    ensures goes { (start : P) (read held : List ℕ) → IsPartial held → frames.old ≡ Some held
        → Received (record { list = P.list; takes = P.takes }) start replica.old read held pulled.old.taken pulled.old.had
        → GoesOn (record { list = P.list; takes = P.takes }) start replica.new (read ++ piece.now) frames.new pulled.new result }
    ensures fault { IfErr result (λ stop. IsTakeFault stop.fault) }
{
    let Gathered { front, is_bad } = feed_pieces(alloc, frames, piece)?;
    if take_came(alloc, replica, front, pulled)? {
        return Ok(true);
    }
    if is_bad {
        return Err(Stop::from(ChannelFault::BadFrame));
    }
    Ok(false)
}

// Takes what comes, each piece as it comes, up to the End. A turn may bring many Writes, which are then taken together.
fn receive<P: Replica, R: Read, W>(
    alloc: Global,
    replica: &mut P,
    channel: &mut CountedChannel<R, W>,
) -> Result<Pulled, PullStopped>
    ensures ends { (read : List ℕ) × Consumes (R.remaining channel.old.reader) (R.remaining channel.new.reader) read
        × PullEnds (record { list = P.list; takes = P.takes }) replica.old replica.new read (IsAtEnd (R.remaining channel.new.reader)) result }
    ensures stopped { IfErr result (λ stopped. StopsPull channel.new.read_failed channel.new.write_failed channel.new.turns_left stopped.fault) }
    ensures few { IfOk result (λ pulled. pulled.taken + pulled.had < 2 ^ 32) }
    ensures turns { channel.new.turns_left ≤ channel.old.turns_left }
    ensures other { (channel.new.writer ≡ channel.old.writer) × (channel.new.write_failed ≡ channel.old.write_failed) }
{
    let mut frames = Frames::new(alloc);
    let mut pulled = Pulled { taken: 0, had: 0 };
    let mut piece = [0; PULL_TURN_BYTES];
    loop {
        let count = match read_piece(channel, &mut piece) {
            Ok(0) => return Err(Stop::from(ChannelFault::Cut).behind(pulled)),
            Ok(count) => count,
            Err(fault) => return Err(Stop::from(fault).behind(pulled)),
        };
        match take_piece(alloc, replica, &mut frames, &piece[..count], &mut pulled) {
            Ok(true) => return Ok(pulled),
            Ok(false) => {}
            Err(stop) => return Err(stop.behind(pulled)),
        }
    }
}

/// Takes the Writes of an answer in memory, a piece at a time, up to the End, as [`pull_from_on`] takes what a stream brings. Bytes in memory
/// don't fail and take no turns; those that end before the End are a cut answer.
pub fn take_answer<P: Replica>(
    alloc: Global,
    replica: &mut P,
    answer: &[u8],
) -> Result<Pulled, PullStopped>
    requires few { length answer.now ≤ READ_BYTES * MAX_TURNS }
    ensures ends { EndsOf (record { list = P.list; takes = P.takes }) replica.old replica.new answer.now result }
    ensures fault { IfErr result (λ stopped. EndsInMemory stopped.fault) }
{
    let mut frames = Frames::new(alloc);
    let mut pulled = Pulled { taken: 0, had: 0 };
    let mut rest = answer;
    while !rest.is_empty() {
        let (piece, behind) = rest.split_at(rest.len().min(PULL_BYTES));
        match take_piece(alloc, replica, &mut frames, piece, &mut pulled) {
            Ok(true) => return Ok(pulled),
            Ok(false) => rest = behind,
            Err(stop) => return Err(stop.behind(pulled)),
        }
    }
    Err(Stop::from(ChannelFault::Cut).behind(pulled))
}

/// Sends the vector as an Offer, and takes the Writes that come, those of one read together and before the next read, up to the End.
pub fn pull_from_on<P: Replica, R: Read, W: Write>(
    alloc: Global,
    replica: &mut P,
    counts: &Vector,
    channel: &mut CountedChannel<R, W>,
) -> Result<Pulled, PullStopped>
    ensures offered { OnOk result (Appends (W.contents channel.old.writer) (W.contents channel.new.writer) (spelling (Offer counts.now))) }
    ensures part { AppendsFront (W.contents channel.old.writer) (W.contents channel.new.writer) (spelling (Offer counts.now)) }
    ensures ends { (read : List ℕ) × Consumes (R.remaining channel.old.reader) (R.remaining channel.new.reader) read
        × PullEnds (record { list = P.list; takes = P.takes }) replica.old replica.new read (IsAtEnd (R.remaining channel.new.reader)) result }
    ensures stopped { IfErr result (λ stopped. StopsPull channel.new.read_failed channel.new.write_failed channel.new.turns_left stopped.fault) }
    ensures few { IfOk result (λ pulled. pulled.taken + pulled.had < 2 ^ 32) }
    ensures turns { channel.new.turns_left ≤ channel.old.turns_left }
{
    let Ok(offer) = encode_frame(alloc, &Frame::Offer(*counts)) else {
        return Err(PullStopped::at_once(ChannelFault::OutOfMemory));
    };
    match send(channel, &offer) {
        Ok(()) => receive(alloc, replica, channel),
        Err(fault) => Err(PullStopped::at_once(fault)),
    }
}

/// Sends the replica's own vector as an Offer, and takes what comes, as [`pull_from_on`] does.
pub fn pull_on<P: Replica, R: Read, W: Write>(
    alloc: Global,
    replica: &mut P,
    channel: &mut CountedChannel<R, W>,
) -> Result<Pulled, PullStopped>
    ensures offered { (counts : List ℕ) × IfSome (P.list replica.old) (λ held. counts ≡ count_of held)
        × AppendsFront (W.contents channel.old.writer) (W.contents channel.new.writer) (spelling (Offer counts))
        × OnOk result (Appends (W.contents channel.old.writer) (W.contents channel.new.writer) (spelling (Offer counts))) }
    ensures ends { (read : List ℕ) × Consumes (R.remaining channel.old.reader) (R.remaining channel.new.reader) read
        × PullEnds (record { list = P.list; takes = P.takes }) replica.old replica.new read (IsAtEnd (R.remaining channel.new.reader)) result }
    ensures stopped { IfErr result (λ stopped. StopsPull channel.new.read_failed channel.new.write_failed channel.new.turns_left stopped.fault) }
    ensures few { IfOk result (λ pulled. pulled.taken + pulled.had < 2 ^ 32) }
    ensures turns { channel.new.turns_left ≤ channel.old.turns_left }
{
    let counts = replica.offer();
    pull_from_on(alloc, replica, &counts, channel)
}
