//! How it is found which Write of an origin is the first that a peer has otherwise: by digests at more and more of their counts.
ghost use Rattle.std.specs.Prelude.{◌≡◌, ◌≤◌, ℕ, IfSome, List, OnSome};
ghost use Rattle.std.specs.Io.KnownBytes.{Appends, Consumes};
ghost use Rattle.bayou_streams.specs.Written.{AppendsFront};
ghost use Rattle.bayou_wire.specs.Greetings.{SpellsGreeting, greeting_bytes};
ghost use Rattle.bayou_wire.specs.declared.greeting.Greeting.TheVariants.{Digested as DigestedFrame, Digests as DigestsFrame};
ghost use Rattle.bayou_wire.specs.declared.greeting.Inquiry.{Inquiry as Asked};

use crate::comparing::Comparison;
use crate::held_digests::DigestSpan;
use arrayvec::ArrayVec;
use bayou_base::ServerId;
use bayou_frames::send;
use bayou_handshake::read_greeting;
use bayou_streams::CountedChannel;
use bayou_wire::layout::DIGESTS_AT_ONCE;
use bayou_wire::{Greeting, Inquiry, encode_greeting};
use std::alloc::Global;
use std::io::{Read, Write};
use std::sync::Wait;

/// How often a peer is asked for digests at the most after one greeting. Sixteen counts at once make a seventeenth of what is left, so that four
/// times are enough for a full store.
pub(crate) const MAX_INQUIRIES: u32 = 8;

/// Sends a greeting, if it can be sent.
pub(crate) fn say<R, W: Write>(
    alloc: Global,
    greeting: &Greeting,
    channel: &mut CountedChannel<R, W>,
) -> Option<()>
    ensures whole { OnSome result (Appends (W.contents channel.old.writer) (W.contents channel.new.writer) (greeting_bytes greeting.now)) }
    ensures part { AppendsFront (W.contents channel.old.writer) (W.contents channel.new.writer) (greeting_bytes greeting.now) }
    ensures other { (channel.new.reader ≡ channel.old.reader) × (channel.new.read_failed ≡ channel.old.read_failed) }
{
    let text = encode_greeting(alloc, greeting).ok()?;
    send(channel, &text).ok()
}

// The digests of the origin's Writes at these counts, as the other end has them.
fn ask<R: Read, W: Write>(
    alloc: Global,
    origin: ServerId,
    counts: ArrayVec<u32, DIGESTS_AT_ONCE>,
    channel: &mut CountedChannel<R, W>,
) -> Option<ArrayVec<u64, DIGESTS_AT_ONCE>>
    ensures asked { AppendsFront (W.contents channel.old.writer) (W.contents channel.new.writer) (greeting_bytes (DigestsFrame (record { origin = origin; counts = counts }))) }
    ensures told { IfSome result (λ digests. (read : List ℕ) × Consumes (R.remaining channel.old.reader) (R.remaining channel.new.reader) read
        × SpellsGreeting read (DigestedFrame digests)) }
{
    let inquiry = Inquiry { origin, counts };
    say(alloc, &Greeting::Digests(inquiry), channel)?;
    match read_greeting(channel) {
        Ok(Some(Greeting::Digested(digests))) => Some(digests),
        _ => None,
    }
}

/// The first Write of the origin that the other end has otherwise, where of the first so many one is another; nothing where it doesn't tell.
pub(crate) fn search<R: Read, W: Write, T: Wait>(
    rt: &T,
    alloc: Global,
    comparison: &Comparison,
    origin: ServerId,
    count: u32,
    channel: &mut CountedChannel<R, W>,
) -> Option<u32>
    ensures { IfSome result (λ first. first ≤ count) }
{
    let mut span = DigestSpan {
        low: 0,
        high: count,
    };
    for _ in 0..MAX_INQUIRIES {
        if span.first().is_some() {
            break;
        }
        let told = ask(alloc, origin, span.counts(), channel)?;
        let counts = span.counts();
        span = comparison.narrowed(rt, origin, span, counts.as_slice(), told.as_slice())?;
    }
    span.first()
}
