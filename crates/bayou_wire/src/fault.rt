ghost use Rattle.std.specs.Prelude.{◌≡◌};
ghost use Rattle.bayou_wire.specs.declared.fault.RestingFault.TheVariants.{OutOfMemory};

use std::alloc::AllocError;

/// What is wrong with bytes that should be a Write or a frame.
#[derive(Clone, Copy, Debug, PartialEq, Eq)]
pub enum DecodeFault {
    /// A frame's length is above [`bayou_base::MAX_FRAME_BYTES`].
    TooLong,
    /// A frame's kind is none of those known.
    BadKind,
    /// The bytes don't begin with what they should be, or end too soon.
    BadBody,
    /// Bytes follow what is whole.
    Trailing,
}

/// Why bytes give no Write or frame at rest.
#[derive(Clone, Copy, Debug, PartialEq, Eq)]
pub enum RestingFault {
    /// They spell none.
    Fault(DecodeFault),
    /// A growth was refused.
    OutOfMemory,
}

impl From<AllocError> for RestingFault {
    ghost from_gives = { λ _ fault. fault ≡ OutOfMemory };

    fn from(_refused: AllocError) -> RestingFault {
        RestingFault::OutOfMemory
    }
}
