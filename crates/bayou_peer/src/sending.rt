//! A few Items at a time.
ghost use Rattle.std.specs.Prelude.{◌≡◌, ◌<◌, ◌≤◌, [], IfErr, IfOk, IfSome};
ghost use Rattle.std.specs.List.{AllByRecursion};
ghost use Rattle.bayou_base.specs.declared.limits.TheConstants.{ITEMS_AT_ONCE};
ghost use Rattle.bayou_lang.specs.Ranges.{IsWrite};
ghost use Rattle.bayou_lang.specs.Writes.{lacking_of, raised_by};
ghost use Rattle.bayou_peer.specs.Inner.Sending.{SendsBatch};
ghost use Rattle.bayou_frames.specs.Spelled.{item_bytes};
ghost use Rattle.bayou_frames.specs.Stopping.{IsSendFault, Stops};

use crate::replica::Replica;
use bayou_base::Vector;
use bayou_base::limits::ITEMS_AT_ONCE;
use bayou_frames::{ChannelFault, send};
use bayou_lang::RestingWrite;
use bayou_streams::CountedChannel;
use bayou_wire::encode_item;
use std::alloc::{AllocError, Global};
use std::io::Write;

/// The Items of the Writes, one after another.
pub fn gather(alloc: Global, batch: &[RestingWrite]) -> Result<Vec<u8>, AllocError>
    ensures spelled { IfOk result (λ text. text.items ≡ item_bytes batch.now) }
    ensures each { IfOk result (λ _. AllByRecursion IsWrite batch.now) }
{
    let mut text = Vec::new(alloc);
    for write in batch {
        text.extend_from_slice(&encode_item(alloc, write)?)?;
    }
    Ok(text)
}

fn raise_all(told: &mut Vector, batch: &[RestingWrite])
    ensures { told.new ≡ raised_by told.old batch.now }
{
    for write in batch {
        told.raise(write.wid());
    }
}

/// Sends Items of the first Writes that are held and that the vector doesn't count, counts those, and tells how many they are:
/// none only where nothing is lacking.
pub(crate) fn send_batch<P: Replica, R, W: Write>(
    alloc: Global,
    replica: &mut P,
    told: &mut Vector,
    channel: &mut CountedChannel<R, W>,
) -> Result<u32, ChannelFault>
    ensures same { replica.new ≡ replica.old }
    ensures sends { SendsBatch (P.list replica.old) told.old told.new (W.contents channel.old.writer) (W.contents channel.new.writer) result }
    ensures few { IfOk result (λ number. number ≤ ITEMS_AT_ONCE) }
    ensures none { IfOk result (λ number. number ≡ 0 → IfSome (P.list replica.old) (λ held. lacking_of told.old held ≡ [])) }
    ensures spent { IfOk result (λ number. 0 < number → channel.new.turns_left < channel.old.turns_left) }
    ensures fault { IfErr result IsSendFault }
    ensures stopped { IfErr result (Stops channel.new.read_failed channel.new.write_failed channel.new.turns_left) }
    ensures turns { channel.new.turns_left ≤ channel.old.turns_left }
    ensures reader { (channel.new.reader ≡ channel.old.reader) × (channel.new.read_failed ≡ channel.old.read_failed) }
{
    let batch = replica.lacking(alloc, told, ITEMS_AT_ONCE)?;
    raise_all(told, &batch);
    let text = gather(alloc, &batch)?;
    send(channel, &text)?;
    Ok(batch.len() as u32)
}
