//! One greeting to a channel.
ghost use Rattle.std.specs.Prelude.{◌≡◌, ◌≤◌, OnOk};
ghost use Rattle.std.specs.Io.KnownBytes.{Appends};
ghost use Rattle.bayou_wire.specs.Greetings.{greeting_bytes};

use bayou_frames::{ChannelFault, send};
use bayou_streams::CountedChannel;
use bayou_wire::{Greeting, encode_greeting};
use std::alloc::Global;
use std::io::Write;

/// Sends a greeting whole.
pub(crate) fn send_greeting<R, W: Write>(
    alloc: Global,
    channel: &mut CountedChannel<R, W>,
    greeting: &Greeting,
) -> Result<(), ChannelFault>
    ensures whole { OnOk result (Appends (W.contents channel.old.writer) (W.contents channel.new.writer) (greeting_bytes greeting.now)) }
    ensures turns { channel.new.turns_left ≤ channel.old.turns_left }
    ensures other { (channel.new.reader ≡ channel.old.reader) × (channel.new.read_failed ≡ channel.old.read_failed) }
{
    let text = encode_greeting(alloc, greeting)?;
    send(channel, &text)
}
