//! Servers that send each other what they lack, where memory is refused.
use crate::fixtures::{begun_at_last, reopen_at_last, vector};
use crate::takes::take_three_at_last;
use bayou_base::{SERVERS, Vector};
use bayou_fakes::sites::Served;
use bayou_frames::ChannelFault;
use bayou_peer::{PullFault, Pulled, answer_offer_on, pull_on, serve_offer_on};
use bayou_server::TakeFault;
use bayou_streams::CountedChannel;
use std::alloc::Global;
use std::io;
use std::process::Abort;

/// The server's answer to an Offer of these counts, and the number of Items that it tells. There is room for it, so any want of
/// memory is the server's.
fn answered(
    alloc: Global,
    server: &mut Served,
    counts: &Vector,
) -> Result<(Vec<u8>, u32), ChannelFault> {
    let mut channel = CountedChannel::new((), Vec::with_capacity(alloc, 4096)?);
    let number = answer_offer_on(alloc, server, counts, &mut channel)?;
    Ok((channel.into_parts().1, number))
}

/// What the server makes of what is sent to it.
fn pulled(alloc: Global, server: &mut Served, sent: &[u8]) -> Result<Pulled, PullFault> {
    match pull_on(alloc, server, &mut CountedChannel::new(sent, io::sink())) {
        Ok(pulled) => Ok(pulled),
        Err(stopped) => Err(stopped.fault),
    }
}

/// The server's answer to an Offer of nothing, and once more where memory ran out.
fn answered_at_last(alloc: Global, server: &mut Served) -> Result<(Vec<u8>, u32), ChannelFault> {
    match answered(alloc, server, &Vector::zero()) {
        Err(ChannelFault::OutOfMemory) => answered(alloc, server, &Vector::zero()),
        answer => answer,
    }
}

/// The number that the server answers to this Offer.
fn served_for(alloc: Global, server: &mut Served, offer: &[u8]) -> Result<u32, ChannelFault> {
    serve_offer_on(alloc, server, &mut CountedChannel::new(offer, io::sink()))
}

/// The number that the server answers to an Offer of nothing which it reads, and once more where memory ran out.
fn served_at_last(alloc: Global, server: &mut Served) -> Result<u32, ChannelFault> {
    let mut offer = [0; 67];
    offer[1] = 0x41;
    offer[2] = 5;
    match served_for(alloc, server, &offer) {
        Err(ChannelFault::OutOfMemory) => served_for(alloc, server, &offer),
        answer => answer,
    }
}

/// Whether a pull ended so for want of memory: a journal that finds none has failed.
fn is_want(fault: PullFault) -> bool {
    matches!(
        fault,
        PullFault::Stream(ChannelFault::OutOfMemory)
            | PullFault::Refused(TakeFault::OutOfMemory)
            | PullFault::Refused(TakeFault::Journal)
    )
}

/// Takes the three Writes that are sent, and once more where that was refused; a Write in doubt is settled first. Whether it was
/// refused for want of memory alone, and what was held by then is kept.
fn pulled_at_last(alloc: Global, puller: &mut Served, sent: &[u8]) -> bool {
    let Err(fault) = pulled(alloc, puller, sent) else {
        return true;
    };
    let held = puller.receipts().len() as u64;
    let is_up = reopen_at_last(alloc, puller);
    let Ok(again) = pulled(alloc, puller, sent) else {
        return false;
    };
    let count = again.taken.saturating_add(again.had);
    is_up && is_want(fault) && u64::from(again.had) >= held && count == 3
}

/// Whether the server, which has the first server's three Writes, is asked for them, and one that has none takes them.
fn are_handed_on(rt: &impl Abort, alloc: Global, server: &mut Served, puller: &mut Served) -> bool {
    let is_served = served_at_last(alloc, server) == Ok(3);
    let Ok((answer, number)) = answered_at_last(alloc, server) else {
        return false;
    };
    let is_kept = pulled_at_last(alloc, puller, &answer);
    is_served && is_kept && number == 3 && puller.vector() == vector(rt, 3, 0)
}

/// For runs in which any one allocation is refused: what was refused for it can be done again, and costs no Write that was taken.
#[test]
fn one_want_of_memory_costs_no_pulled_write(rt: HostRuntime) {
    let alloc = rt.alloc();
    let mut server = begun_at_last(&rt, alloc, (2, SERVERS as u8, 100));
    let are_taken = take_three_at_last(&rt, alloc, server.as_mut());
    let mut puller = begun_at_last(&rt, alloc, (3, SERVERS as u8, 100));
    assert!(rt; are_taken && are_handed_on(&rt, alloc, server.as_mut(), puller.as_mut()));
}
