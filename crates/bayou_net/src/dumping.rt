//! The answer to a Dump, a part at a time: no more of it is copied at once than a part.
ghost use Rattle.std.specs.Prelude.{◌≡◌, ◌≤◌, ℕ, List, Option, IfErr, IfOk};
ghost use Rattle.bayou_base.specs.declared.limits.TheConstants.{ITEMS_AT_ONCE};
ghost use Rattle.bayou_frames.specs.Stopping.{IsSendFault, Stops};
ghost use Rattle.bayou_net.specs.Inner.Dumping.{HasDumped, IsPart, SendsHeld};
ghost use Rattle.bayou_net.specs.Inner.Steps.{DoesOne};
ghost use Rattle.bayou_wire.specs.declared.frame.Frame.TheVariants.{Dump};

use crate::replying::{encoded, wanting};
use crate::served::Served;
use bayou_base::limits::ITEMS_AT_ONCE;
use bayou_frames::{ChannelFault, send};
use bayou_peer::gather;
use bayou_streams::CountedChannel;
use bayou_wire::Frame;
use std::alloc::{AllocError, Global};
use std::io::Write;

// Items of Writes that stand one after another, and how many they are.
#[derive(Drop)]
struct Part {
    text: Vec<u8>,
    number: u32,
}

// The part of what is held that begins at this place.
fn part_at<S: Served>(alloc: Global, served: &mut S, place: u32) -> Result<Part, AllocError>
    ensures same { served.new ≡ served.old }
    ensures part { IfOk result (λ part. IsPart (S.list served.old) place part.text.items part.number) }
    ensures few { IfOk result (λ part. part.number ≤ ITEMS_AT_ONCE) }
{
    let writes = served.dump_part(alloc, place as usize, ITEMS_AT_ONCE)?;
    let text = gather(alloc, &writes)?;
    Ok(Part {
        text,
        number: writes.len() as u32,
    })
}

// Sends the parts after so many Writes, whose Items were sent, and tells how many were sent in all.
fn send_behind<S: Served, R, W: Write>(
    alloc: Global,
    served: &mut S,
    first: u32,
    channel: &mut CountedChannel<R, W>,
) -> Result<u32, ChannelFault>
    requires few { first ≤ ITEMS_AT_ONCE }
    ensures same { served.new ≡ served.old }
    ensures sends { (before : Option (List ℕ)) → HasDumped (S.list served.old) before (W.contents channel.old.writer) first
        → SendsHeld (S.list served.old) before (W.contents channel.new.writer) result }
    ensures fault { IfErr result IsSendFault }
    ensures stopped { IfErr result (Stops channel.new.read_failed channel.new.write_failed channel.new.turns_left) }
    ensures turns { channel.new.turns_left ≤ channel.old.turns_left }
    ensures reader { (channel.new.reader ≡ channel.old.reader) × (channel.new.read_failed ≡ channel.old.read_failed) }
{
    let mut number = first;
    loop {
        let part = part_at(alloc, served, number)?;
        if part.number == 0 {
            return Ok(number);
        }
        send(channel, &part.text)?;
        number += part.number;
    }
}

/// Sends an Item of each Write held, in order of receipt, and an End of their number. For want of memory for the first of them that is reported
/// instead; later on it ends the answer.
pub(crate) fn answer_dump<S: Served, R, W: Write>(
    alloc: Global,
    served: &mut S,
    channel: &mut CountedChannel<R, W>,
) -> Result<(), ChannelFault>
    ensures does { DoesOne (record { list = S.list; reads = S.reads; writes = S.writes; reopens = S.reopens }) served.old Dump (W.contents channel.old.writer) (W.contents channel.new.writer) result served.new }
    ensures fault { IfErr result IsSendFault }
    ensures stopped { IfErr result (Stops channel.new.read_failed channel.new.write_failed channel.new.turns_left) }
    ensures turns { channel.new.turns_left ≤ channel.old.turns_left }
    ensures reader { (channel.new.reader ≡ channel.old.reader) × (channel.new.read_failed ≡ channel.old.read_failed) }
{
    let Ok(first) = part_at(alloc, served, 0) else {
        let text = wanting(alloc)?;
        return send(channel, &text);
    };
    let Part { text, number } = first;
    send(channel, &text)?;
    // It isn't needed while the others are sent.
    drop(text);
    let number = send_behind(alloc, served, number, channel)?;
    let end = encoded(alloc, &Frame::End(number))?;
    send(channel, &end)
}
