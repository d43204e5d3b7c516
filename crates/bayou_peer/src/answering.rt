ghost use Rattle.std.specs.Prelude.{◌≡◌, ◌≤◌, ℕ, List, IfErr};
ghost use Rattle.std.specs.Io.KnownBytes.{Consumes, IsAtEnd};
ghost use Rattle.bayou_frames.specs.First.{StopsInTime};
ghost use Rattle.bayou_peer.specs.Offers.{Answers, OfferServed};
ghost use Rattle.bayou_peer.specs.Inner.Sending.{SendsItems};
ghost use Rattle.bayou_frames.specs.Stopping.{IsSendFault, Stops};

use crate::replica::Replica;
use crate::sending::send_batch;
use bayou_base::Vector;
use bayou_frames::{ChannelFault, read_offer, send};
use bayou_streams::CountedChannel;
use bayou_wire::{Frame, encode_frame};
use std::alloc::Global;
use std::io::{Read, Write};

// Sends an Item of each Write that is held and that the vector doesn't count, in stamp order, and tells how many they are.
fn send_items<P: Replica, R, W: Write>(
    alloc: Global,
    replica: &mut P,
    counts: &Vector,
    channel: &mut CountedChannel<R, W>,
) -> Result<u32, ChannelFault>
    ensures same { replica.new ≡ replica.old }
    ensures sends { SendsItems (P.list replica.old) counts.now (W.contents channel.old.writer) (W.contents channel.new.writer) result }
    ensures fault { IfErr result IsSendFault }
    ensures stopped { IfErr result (Stops channel.new.read_failed channel.new.write_failed channel.new.turns_left) }
    ensures turns { channel.new.turns_left ≤ channel.old.turns_left }
    ensures reader { (channel.new.reader ≡ channel.old.reader) × (channel.new.read_failed ≡ channel.old.read_failed) }
{
    let mut told = *counts;
    let mut number = 0;
    loop {
        let sent = send_batch(alloc, replica, &mut told, channel)?;
        if sent == 0 {
            return Ok(number);
        }
        number += sent;
    }
}

/// Sends an Item of each Write that is held and that the vector doesn't count, in stamp order, and an End of their number,
/// which it answers.
pub fn answer_offer_on<P: Replica, R, W: Write>(
    alloc: Global,
    replica: &mut P,
    counts: &Vector,
    channel: &mut CountedChannel<R, W>,
) -> Result<u32, ChannelFault>
    ensures same { replica.new ≡ replica.old }
    ensures answers { Answers (P.list replica.old) counts.now (W.contents channel.old.writer) (W.contents channel.new.writer) result }
    ensures fault { IfErr result IsSendFault }
    ensures stopped { IfErr result (Stops channel.new.read_failed channel.new.write_failed channel.new.turns_left) }
    ensures turns { channel.new.turns_left ≤ channel.old.turns_left }
    ensures reader { (channel.new.reader ≡ channel.old.reader) × (channel.new.read_failed ≡ channel.old.read_failed) }
{
    let number = send_items(alloc, replica, counts, channel)?;
    let end = encode_frame(alloc, &Frame::End(number))?;
    send(channel, &end)?;
    Ok(number)
}

/// Reads one Offer, and answers it as [`answer_offer_on`] does. What came after the Offer in the same piece is dropped.
pub fn serve_offer_on<P: Replica, R: Read, W: Write>(
    alloc: Global,
    replica: &mut P,
    channel: &mut CountedChannel<R, W>,
) -> Result<u32, ChannelFault>
    ensures same { replica.new ≡ replica.old }
    ensures serves { (read : List ℕ) × Consumes (R.remaining channel.old.reader) (R.remaining channel.new.reader) read × StopsInTime read
        × OfferServed (P.list replica.old) read (W.contents channel.old.writer) (W.contents channel.new.writer) (IsAtEnd (R.remaining channel.new.reader)) result }
    ensures stopped { IfErr result (Stops channel.new.read_failed channel.new.write_failed channel.new.turns_left) }
    ensures turns { channel.new.turns_left ≤ channel.old.turns_left }
{
    let counts = read_offer(alloc, channel)?;
    answer_offer_on(alloc, replica, &counts, channel)
}
