use std::alloc::AllocError;

/// Why frames could not be written or read further.
#[derive(Clone, Copy, Debug, PartialEq, Eq)]
pub enum ChannelFault {
    /// A call of the reader failed.
    Read,
    /// A call of the writer failed.
    Write,
    /// The input ended too soon.
    Cut,
    /// What came is no frame, or one that has no place there.
    BadFrame,
    /// All turns of the channel were spent.
    TooManyTurns,
    OutOfMemory,
}

impl From<AllocError> for ChannelFault {
    ghost use Rattle.std.specs.Prelude.{◌≡◌};
    ghost use Rattle.bayou_frames.specs.declared.fault.ChannelFault.TheVariants.{OutOfMemory};

    ghost from_gives = { λ _ fault. fault ≡ OutOfMemory };

    fn from(_refused: AllocError) -> ChannelFault {
        ChannelFault::OutOfMemory
    }
}
