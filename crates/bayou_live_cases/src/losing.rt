//! Whether another server has Writes of a server's own that it lost: what is reported where the stream fails at each of its calls.
use crate::fakes::slow_reader;
use crate::fixtures::{bytes, must_be_so, server_id};
use bayou_frames::ChannelFault;
use bayou_peer::has_lost;
use bayou_streams::CountedChannel;
use std::io;

/// A reader gives four bytes at a call, so the first frame comes with the 23rd one.
#[test]
fn a_stream_that_fails_tells_nothing(rt: HostRuntime) {
    let alloc = rt.alloc();
    let answer = bytes(&rt, alloc, "<item-1> 0005 16 00000001");
    for fails_at in 1..30_u32 {
        let reader = slow_reader(&answer, 4, fails_at);
        let mut channel = CountedChannel::new(reader, io::sink());
        let told = has_lost(alloc, server_id(&rt), 0, &mut channel);
        let expected = if fails_at > 23 {
            Ok(true)
        } else {
            Err(ChannelFault::Read)
        };
        must_be_so(&rt, told == expected, fails_at as usize);
    }
}
