//! A pull that is watched from both sides: the reader that gives Items sees how many were taken.
use bayou_base::Vector;
use bayou_fakes::items::{THREE, item};
use bayou_frames::ChannelFault;
use bayou_lang::RestingWrite;
use bayou_peer::{PullFault, Replica, pull_from_on};
use bayou_server::TookAll;
use bayou_streams::CountedChannel;
use std::alloc::{AllocError, Global};
use std::cell::Cell;
use std::io;
use std::io::Read;

/// Counts the Writes that it is given, and keeps none.
#[derive(Drop)]
struct Counting<'a> {
    taken: &'a Cell<u32>,
}

impl Replica for Counting<'_> {
    ghost use Rattle.std.specs.Prelude.{None};

    ghost list = { λ _. None };

    ghost takes = { λ _ _ _ _. Unit {0} };

    fn offer(&mut self) -> Vector {
        Vector::zero()
    }

    fn lacking(
        &mut self,
        alloc: Global,
        _counts: &Vector,
        _most: usize,
    ) -> Result<Vec<RestingWrite>, AllocError> {
        Ok(Vec::new(alloc))
    }

    fn take_all(&mut self, _alloc: Global, writes: Vec<RestingWrite>) -> TookAll {
        let count = writes.len() as u32;
        self.taken.set(self.taken.get().saturating_add(count));
        TookAll {
            taken: count,
            had: 0,
            refused: None,
        }
    }
}

/// Gives four Items, one at each read, and looks at each whether those before it were taken.
#[derive(Drop)]
struct Watching<'a> {
    taken: &'a Cell<u32>,
    item: &'a [u8],
    given: u32,
    is_so: bool,
}

impl Read for Watching<'_> {
    fn read(&mut self, buf: &mut [u8]) -> io::Result<usize> {
        self.is_so = self.is_so && self.taken.get() == self.given;
        if self.given == 4 {
            return Ok(0);
        }
        self.given = self.given.saturating_add(1);
        let count = self.item.len().min(buf.len());
        let (front, _) = self.item.split_at(count);
        buf[..count].copy_from_slice(front);
        Ok(count)
    }
}

#[test]
fn each_item_is_taken_before_the_next_is_read(rt: HostRuntime) {
    let alloc = rt.alloc();
    let item = item(THREE[0]);
    let taken = Cell::new(0);
    let mut replica = Counting { taken: &taken };
    let reader = Watching {
        taken: &taken,
        item: &item,
        given: 0,
        is_so: true,
    };
    let mut channel = CountedChannel::new(reader, io::sink());
    let answer = pull_from_on(alloc, &mut replica, &Vector::zero(), &mut channel);
    let (reader, _) = channel.into_parts();
    let is_cut = answer.is_err_and(|stopped| stopped.fault == PullFault::Stream(ChannelFault::Cut));
    assert!(rt; is_cut && reader.is_so && taken.get() == 4);
}
