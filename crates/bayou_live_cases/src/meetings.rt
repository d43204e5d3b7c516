//! One node that pulls from another, over memory.
use bayou_base::Vector;
use bayou_fakes::sites::Memory;
use bayou_frames::ChannelFault;
use bayou_net::{answer_offer, pull_from};
use bayou_node::{Desks, Node};
use bayou_peer::PullFault;
use bayou_server::TakeFault;
use bayou_streams::CountedChannel;
use std::alloc::Global;
use std::io;
use std::sync::Wait;

/// The node's answer to an Offer of these counts.
fn answered<L: Desks, R: Wait>(
    rt: &R,
    alloc: Global,
    node: &Node<Memory, L>,
    counts: &Vector,
) -> Result<Vec<u8>, ChannelFault> {
    let mut channel = CountedChannel::new((), Vec::new(alloc));
    answer_offer(rt, alloc, node, counts, &mut channel)?;
    Ok(channel.into_parts().1)
}

/// Whether the one takes all that it lacks of the other, or is down, now or before. Nothing else may end it, whatever others do to the two
/// meanwhile.
pub fn meets<L: Desks, M: Desks, R: Wait>(
    rt: &R,
    alloc: Global,
    to: &Node<Memory, L>,
    from: &Node<Memory, M>,
) -> bool {
    let counts = to.offer(rt);
    let Ok(answer) = answered(rt, alloc, from, &counts) else {
        return false;
    };
    let mut channel = CountedChannel::new(answer.as_slice(), io::sink());
    match pull_from(rt, alloc, to, &counts, &mut channel) {
        Ok(_) => true,
        Err(stopped) => matches!(
            stopped.fault,
            PullFault::Refused(TakeFault::Down | TakeFault::Journal)
        ),
    }
}
