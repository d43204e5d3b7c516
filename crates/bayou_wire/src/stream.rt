ghost use Rattle.std.specs.Prelude.{◌≡◌, ◌+◌, ◌≤◌, ◌↔◌, [], None, Some, IsTrue, IfSome, MatchOption, length};
ghost use Rattle.bayou_base.specs.declared.limits.TheConstants.{MAX_FRAME_BYTES};
ghost use Rattle.bayou_wire.specs.declared.layout.TheConstants.{LENGTH_BYTES};
ghost use Rattle.bayou_wire.specs.Inner.Reading.{FedOpen, IsFirst, IsTaken, Keeps, StandsBehind};
ghost use Rattle.bayou_wire.specs.Stream.{Fed, IsFaultAt, listed};

use crate::fault::DecodeFault;
use crate::frame::Frame;
use crate::front::{Taken, take_frames};
use crate::layout::LENGTH_BYTES;
use bayou_base::MAX_FRAME_BYTES;
use bytes::BytesMut;
use std::alloc::Global;
use std::marker::Model;

/// Why [`Frames::feed`] gives no frames.
#[derive(Clone, Copy, Debug, PartialEq, Eq)]
pub enum FeedFault {
    /// This stands in a frame's place, where no frame stands before it.
    Fault(DecodeFault),
    /// A fault was reported before.
    Failed,
    /// A growth was refused. The piece counts as not fed.
    OutOfMemory,
}

/// The frames of a stream that comes in pieces, however it is cut.
#[derive(Drop)]
pub struct Frames {
    alloc: Global,
    held: BytesMut,
    /// The fault that stands in a frame's place in what is held back, if any.
    fault: Option<DecodeFault>,
    failed: bool,
}

impl Model for Frames {
    ghost use Rattle.std.specs.Prelude.{◌≡◌, ◌+◌, ◌≤◌, ℕ, List, None, Option, Some, false, length, if◌then◌else◌};
    ghost use Rattle.bayou_base.specs.declared.limits.TheConstants.{MAX_FRAME_BYTES};
    ghost use Rattle.bayou_wire.specs.declared.layout.TheConstants.{LENGTH_BYTES};
    ghost use Rattle.bayou_wire.specs.Stream.{IsFaultAt};

    ghost Value = { Option (List ℕ) };

    ghost view = { λ frames. if frames.failed then None else Some frames.held.items };

    ghost invariant = { λ frames. (length frames.held.items ≤ LENGTH_BYTES + MAX_FRAME_BYTES) × (frames.failed ≡ false → IsFaultAt frames.held.items frames.fault) };
}

/// The fault that stands first, where no frame was taken before it.
fn first_fault(taken: &Taken) -> Option<DecodeFault>
    ensures { IsFirst taken.now.frames.items taken.now.fault result }
{
    match taken.frames.as_slice() {
        [] => taken.fault,
        [_, ..] => None,
    }
}

/// Gives the frames taken, and holds back what they leave with the fault that stands there, or tells the fault that stands first.
fn keep(
    held: &mut BytesMut,
    behind: &mut Option<DecodeFault>,
    taken: Taken,
) -> Result<Vec<Frame>, FeedFault>
    requires { IsTaken held.old.items taken.frames.items taken.left taken.fault }
    ensures kept { Keeps held.old.items (listed result) held.new.items }
    ensures behind { StandsBehind (listed result) held.new.items behind.new }
    ensures held_back { length held.new.items ≤ LENGTH_BYTES + MAX_FRAME_BYTES }
{
    match first_fault(&taken) {
        Some(fault) => {
            held.clear();
            Err(FeedFault::Fault(fault))
        }
        None => {
            held.advance(held.len() - taken.left);
            held.truncate(LENGTH_BYTES + MAX_FRAME_BYTES);
            *behind = taken.fault;
            Ok(taken.frames)
        }
    }
}

/// A call where no fault was reported before, but may stand in what is held back.
fn feed_open(
    alloc: Global,
    held: &mut BytesMut,
    behind: &mut Option<DecodeFault>,
    piece: &[u8],
) -> Result<Vec<Frame>, FeedFault>
    requires { IsFaultAt held.old.items behind.old }
    ensures fed { FedOpen held.old.items piece.now (listed result) held.new.items }
    ensures behind { StandsBehind (listed result) held.new.items behind.new }
    ensures held_back { length held.old.items ≤ LENGTH_BYTES + MAX_FRAME_BYTES → length held.new.items ≤ LENGTH_BYTES + MAX_FRAME_BYTES }
{
    if let Some(fault) = *behind {
        return Err(FeedFault::Fault(fault));
    }
    let before = held.len();
    if held.extend_from_slice(piece).is_err() {
        return Err(FeedFault::OutOfMemory);
    }
    let Ok(taken) = take_frames(alloc, held.as_slice()) else {
        held.truncate(before);
        return Err(FeedFault::OutOfMemory);
    };
    keep(held, behind, taken)
}

impl Frames {
    /// A stream of which nothing has come. It takes no memory.
    pub fn new(alloc: Global) -> Self
        ensures { result ≡ Some [] }
    {
        Frames {
            alloc,
            held: BytesMut::new(alloc),
            fault: None,
            failed: false,
        }
    }

    /// Takes the next piece, and gives the frames that are whole now.
    ///
    /// A fault is reported by the call whose piece completes it, where that call has no frame to give, else by the next call,
    /// which takes nothing of its piece (an empty one will do). After it every call answers [`FeedFault::Failed`]. Where
    /// memory is lacking nothing changes, and the piece counts as not fed. A frame given takes memory at the size of what it
    /// says.
    pub fn feed(&mut self, piece: &[u8]) -> Result<Vec<Frame>, FeedFault>
        ensures fed { Fed self.old piece.now (listed result) self.new }
        ensures held_back { IfSome self.new (λ held. length held ≤ LENGTH_BYTES + MAX_FRAME_BYTES) }
    {
        if self.failed {
            return Err(FeedFault::Failed);
        }
        let result = feed_open(self.alloc, &mut self.held, &mut self.fault, piece);
        self.failed = matches!(result, Err(FeedFault::Fault(_)));
        result
    }

    /// The fault that stands in a frame's place in what is held back, if any. The next call of [`Frames::feed`] tells it. Where
    /// one was reported before there is none.
    pub fn fault(&self) -> Option<DecodeFault>
        ensures { MatchOption self.now (result ≡ None) (λ held. IsFaultAt held result) }
    {
        if self.failed {
            return None;
        }
        self.fault
    }

    /// Whether no frame is begun, and no fault stands in a frame's place.
    pub fn is_between(&self) -> bool
        ensures { IsTrue result ↔ (self.now ≡ Some []) }
    {
        !self.failed && self.held.is_empty()
    }
}
