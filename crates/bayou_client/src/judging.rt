//! Whether a whole reply answers the request.
ghost use Rattle.std.specs.Prelude.{◌≡◌, [], if◌then◌else◌};
ghost use Rattle.bayou_client.specs.declared.fault.LinkFault.TheVariants.{BadFrame, Refused};
ghost use Rattle.bayou_client.specs.Exchange.{Judges, asks_dump, asks_read, asks_reopening, asks_write};

use crate::fault::LinkFault;
use crate::reading::Reply;
use bayou_base::{Accepted, Refusal, Seen, ServerId, Vector, Wid};
use bayou_lang::RestingWrite;
use bayou_wire::Frame;

// A refusal, where it answers what was asked; any other is no reply to it.
fn refused(refusal: Refusal, answers: bool) -> LinkFault
    ensures { result ≡ (if answers then Refused refusal else BadFrame) }
{
    if answers {
        LinkFault::Refused(refusal)
    } else {
        LinkFault::BadFrame
    }
}

/// A read is served by a Seen that has what was needed.
pub(crate) fn seen_of(reply: Reply, need: &Vector) -> Result<Seen, LinkFault>
    ensures { reply.writes.items ≡ [] → Judges (asks_read need.now) reply.writes.items reply.last result }
{
    let Reply { writes: _, last } = reply;
    let seen = match last {
        Frame::Seen(seen) => seen,
        Frame::Refused(refusal) => return Err(refused(refusal, refusal.refuses_operation())),
        _ => return Err(LinkFault::BadFrame),
    };
    if !seen.vector.dominates(need) {
        return Err(LinkFault::BadFrame);
    }
    Ok(seen)
}

/// A program is accepted by the server asked, which had what was needed.
pub(crate) fn accepted_of(
    reply: Reply,
    need: &Vector,
    server: ServerId,
) -> Result<Accepted, LinkFault>
    ensures { reply.writes.items ≡ [] → Judges (asks_write need.now server) reply.writes.items reply.last result }
{
    let Reply { writes: _, last } = reply;
    let accepted = match last {
        Frame::Accepted(accepted) => accepted,
        Frame::Refused(refusal) => return Err(refused(refusal, refusal.refuses_operation())),
        _ => return Err(LinkFault::BadFrame),
    };
    if !accepted.deps.dominates(need) || accepted.wid.origin.index != server.index {
        return Err(LinkFault::BadFrame);
    }
    Ok(accepted)
}

pub(crate) fn reopened_of(reply: Reply) -> Result<Option<Wid>, LinkFault>
    ensures { reply.writes.items ≡ [] → Judges asks_reopening reply.writes.items reply.last result }
{
    let Reply { writes: _, last } = reply;
    match last {
        Frame::Reopened(adopted) => Ok(adopted),
        Frame::Refused(refusal) => Err(refused(refusal, refusal.refuses_reopening())),
        _ => Err(LinkFault::BadFrame),
    }
}

/// A dump is the Writes of its Items, with their number.
pub(crate) fn dumped_of(reply: Reply) -> Result<Vec<RestingWrite>, LinkFault>
    ensures { Judges asks_dump reply.writes.items reply.last result }
{
    let Reply { writes, last } = reply;
    let number = match last {
        Frame::End(number) => number,
        // A refusal stands alone: after Items it is no reply.
        Frame::Refused(refusal) => return Err(refused(refusal, writes.is_empty())),
        _ => return Err(LinkFault::BadFrame),
    };
    if number as usize != writes.len() {
        return Err(LinkFault::BadFrame);
    }
    Ok(writes)
}
