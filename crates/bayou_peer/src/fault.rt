use bayou_frames::ChannelFault;
use bayou_server::TakeFault;

/// Why a pull ended before its End. What was taken until then is kept.
#[derive(Clone, Copy, Debug, PartialEq, Eq)]
pub enum PullFault {
    Stream(ChannelFault),
    /// The replica refused a Write that came.
    Refused(TakeFault),
}

impl From<ChannelFault> for PullFault {
    ghost use Rattle.std.specs.Prelude.{◌≡◌};
    ghost use Rattle.bayou_peer.specs.declared.fault.PullFault.TheVariants.{Stream};

    ghost from_gives = { λ cause fault. fault ≡ Stream cause };

    fn from(fault: ChannelFault) -> PullFault {
        PullFault::Stream(fault)
    }
}
