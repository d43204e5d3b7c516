//! Whether another server has Writes of a server's own that it lost.
ghost use Rattle.std.specs.Prelude.{◌≡◌, ◌≢◌, ◌≤◌, ◌<◌, ◌↔◌, ◌++◌, ℕ, List, [], Ok, Err, All, Any, Contains, IfErr, IfOk, IfSome, IsSome, IsTrue, OnOk, true, false, length};
ghost use Rattle.std.specs.Io.KnownBytes.{Appends, Consumes, IsAtEnd};
ghost use Rattle.bayou_base.specs.declared.limits.TheConstants.{MAX_WRITES as MOST, SERVERS as NUMBER};
ghost use Rattle.bayou_frames.specs.declared.fault.ChannelFault.TheVariants.{BadFrame, Cut};
ghost use Rattle.bayou_frames.specs.First.{StopsInTime};
ghost use Rattle.bayou_frames.specs.Spelled.{answer_bytes};
ghost use Rattle.bayou_frames.specs.Stopping.{Stops};
ghost use Rattle.bayou_lang.specs.declared.write.Write.{Write as Written};
ghost use Rattle.bayou_lang.specs.Ranges.{IsWrite};
ghost use Rattle.bayou_lang.specs.Writes.{lacking_of};
ghost use Rattle.bayou_peer.specs.Losing.{IsBeyond, LossRead, all_but};
ghost use Rattle.bayou_streams.specs.Written.{AppendsFront};
ghost use Rattle.bayou_wire.specs.declared.frame.Frame.TheVariants.{End, Item, Offer};
ghost use Rattle.bayou_wire.specs.Stream.{spelling};

use bayou_base::{MAX_WRITES, SERVERS, ServerId, Vector, Wid};
use bayou_frames::{ChannelFault, read_frame, send};
use bayou_streams::CountedChannel;
use bayou_wire::{Frame, encode_frame};
use std::alloc::Global;
use std::io::{Read, Write};

/// The counts that all Writes are within, but for those of this server, of which so many are counted.
pub fn all_but_own(id: ServerId, own: u32) -> Option<Vector>
    requires { own ≤ MOST }
    ensures some { IsSome result }
    ensures counts { IfSome result (λ counts. counts ≡ all_but id.index own) }
{
    let mut counts = [MAX_WRITES; SERVERS];
    counts[usize::from(id.index)] = own;
    Vector::from_counts(counts)
}

// Whether the Write of this name is one of this server after its first `own`.
fn is_beyond(wid: Wid, id: ServerId, own: u32) -> bool
    ensures { IsTrue result ↔ ((wid.origin.index ≡ id.index) × (own < wid.seq)) }
{
    wid.origin == id && wid.seq > own
}

// What the first frame of an answer says.
fn tells_loss(frame: &Frame, id: ServerId, own: u32) -> Result<bool, ChannelFault>
    ensures lost { result ≡ Ok true → (write : Written) × IsBeyond id.index own write × (frame.now ≡ Item write) }
    ensures kept { result ≡ Ok false → frame.now ≡ End 0 }
    ensures fault { IfErr result (λ fault. (fault ≡ BadFrame) × (frame.now ≢ End 0) × ((write : Written) → IsBeyond id.index own write → frame.now ≢ Item write)) }
{
    match frame {
        Frame::Item(write) if is_beyond(write.wid(), id, own) => Ok(true),
        Frame::End(0) => Ok(false),
        _ => Err(ChannelFault::BadFrame),
    }
}

// Looks at the first frame of an answer.
fn look<R: Read, W>(
    alloc: Global,
    id: ServerId,
    own: u32,
    channel: &mut CountedChannel<R, W>,
) -> Result<bool, ChannelFault>
    ensures looks { (read : List ℕ) × Consumes (R.remaining channel.old.reader) (R.remaining channel.new.reader) read × StopsInTime read
        × LossRead id.index own read (IsAtEnd (R.remaining channel.new.reader)) result }
    ensures stopped { IfErr result (Stops channel.new.read_failed channel.new.write_failed channel.new.turns_left) }
    ensures turns { channel.new.turns_left ≤ channel.old.turns_left }
    ensures other { (channel.new.writer ≡ channel.old.writer) × (channel.new.write_failed ≡ channel.old.write_failed) }
{
    let frame = read_frame(alloc, channel)?;
    tells_loss(&frame, id, own)
}

/// Whether the other end has a Write of this server after its first `own`, which the server then lost. It sends an Offer of all Writes but
/// those, and looks at the first frame that comes: nothing is taken. Where the answer is none, it isn't known.
pub fn has_lost<R: Read, W: Write>(
    alloc: Global,
    id: ServerId,
    own: u32,
    channel: &mut CountedChannel<R, W>,
) -> Result<bool, ChannelFault>
    requires { own ≤ MOST }
    ensures offered { OnOk result (Appends (W.contents channel.old.writer) (W.contents channel.new.writer) (spelling (Offer (all_but id.index own)))) }
    ensures part { AppendsFront (W.contents channel.old.writer) (W.contents channel.new.writer) (spelling (Offer (all_but id.index own))) }
    ensures looks { (read : List ℕ) × Consumes (R.remaining channel.old.reader) (R.remaining channel.new.reader) read × StopsInTime read
        × LossRead id.index own read (IsAtEnd (R.remaining channel.new.reader)) result }
    ensures stopped { IfErr result (Stops channel.new.read_failed channel.new.write_failed channel.new.turns_left) }
    ensures turns { channel.new.turns_left ≤ channel.old.turns_left }
{
    let Some(counts) = all_but_own(id, own) else {
        unreachable!();
    };
    let offer = encode_frame(alloc, &Frame::Offer(counts))?;
    send(channel, &offer)?;
    look(alloc, id, own, channel)
}

/// What such an Offer asks of a server that holds these Writes is each Write of the first server that it lacks, and no other. So the first
/// frame of an honest answer tells whether there is one, and no honest answer is reported as none.
pub fn what_is_asked_for_is_own()
    ensures own { (server own : ℕ) (held : List Written) → server < NUMBER → All (IsBeyond server own) (lacking_of (all_but server own) held) }
    ensures each { (server own : ℕ) (held : List Written) (write : Written) → server < NUMBER → Contains held write → IsBeyond server own write
        → Contains (lacking_of (all_but server own) held) write }
    ensures lost { (server own : ℕ) (held : List Written) (read left : List ℕ) → server < NUMBER → All IsWrite held → length held ≤ MOST
        → answer_bytes (lacking_of (all_but server own) held) ≡ read ++ left → LossRead server own read (left ≡ []) (Ok true) → Any (IsBeyond server own) held }
    ensures kept { (server own : ℕ) (held : List Written) (read left : List ℕ) → server < NUMBER → All IsWrite held → length held ≤ MOST
        → answer_bytes (lacking_of (all_but server own) held) ≡ read ++ left → LossRead server own read (left ≡ []) (Ok false) → ¬ (Any (IsBeyond server own) held) }
    ensures known { (server own : ℕ) (held : List Written) (read left : List ℕ) → server < NUMBER → All IsWrite held → length held ≤ MOST
        → answer_bytes (lacking_of (all_but server own) held) ≡ read ++ left → ¬ (LossRead server own read (left ≡ []) (Err BadFrame)) × ¬ (LossRead server own read (left ≡ []) (Err Cut)) }
{}
