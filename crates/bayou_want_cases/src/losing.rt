//! Whether another server has Writes of a server's own that it lost, where memory is refused.
use crate::fixtures::{must_be_so, server_id};
use bayou_base::ServerId;
use bayou_fakes::items::{THREE, item};
use bayou_frames::ChannelFault;
use bayou_peer::has_lost;
use bayou_streams::CountedChannel;
use std::alloc::Global;
use std::io;

/// What a server that holds no Write of its own learns of the answer.
fn told(alloc: Global, id: ServerId, answer: &[u8]) -> Result<bool, ChannelFault> {
    has_lost(alloc, id, 0, &mut CountedChannel::new(answer, io::sink()))
}

/// Whether this is reported of the answer, or want of memory first and this then.
fn is_told_at_last(alloc: Global, id: ServerId, answer: &[u8], is_lost: bool) -> bool {
    match told(alloc, id, answer) {
        Err(ChannelFault::OutOfMemory) => told(alloc, id, answer) == Ok(is_lost),
        first => first == Ok(is_lost),
    }
}

/// For runs in which any one allocation is refused: nothing is reported then that isn't so.
#[test]
fn one_want_of_memory_tells_nothing_of_lost_writes(rt: HostRuntime) {
    let id = server_id(&rt, 0);
    let is_lost = is_told_at_last(rt.alloc(), id, &item(THREE[0]), true);
    must_be_so(&rt, is_lost, 0);
    let is_none = is_told_at_last(rt.alloc(), id, &[0, 5, 22, 0, 0, 0, 0], false);
    must_be_so(&rt, is_none, 1);
}
