use bayou_base::Refusal;
use bayou_frames::ChannelFault;
use std::alloc::AllocError;

/// Why a request over a link has no answer.
#[derive(Clone, Copy, Debug, PartialEq, Eq)]
pub enum LinkFault {
    /// No whole reply was received: the link was closed before, or a stream failed or ended, or all turns were spent. The request may
    /// have been done.
    Lost,
    /// What was received is no reply to the request. It may have been done.
    BadFrame,
    /// The server refused it.
    Refused(Refusal),
    /// Memory ran out here. Where the link is still open, nothing was sent; else the request may have been done.
    OutOfMemory,
}

/// Why a session was served nothing.
#[derive(Clone, Copy, Debug, PartialEq, Eq)]
pub enum ClientFault {
    /// The book has no room left: nothing was begun and nothing sent.
    AuditFull,
    /// A place was begun.
    Link(LinkFault),
}

impl From<AllocError> for LinkFault {
    ghost use Rattle.std.specs.Prelude.{◌≡◌};
    ghost use Rattle.bayou_client.specs.declared.fault.LinkFault.TheVariants.{OutOfMemory};

    ghost from_gives = { λ _ fault. fault ≡ OutOfMemory };

    fn from(_refused: AllocError) -> LinkFault {
        LinkFault::OutOfMemory
    }
}

impl From<ChannelFault> for LinkFault {
    ghost use Rattle.std.specs.Prelude.{◌≡◌};
    ghost use Rattle.bayou_client.specs.Inner.Faults.{told_fault};

    ghost from_gives = { λ cause fault. fault ≡ told_fault cause };

    fn from(fault: ChannelFault) -> LinkFault {
        match fault {
            ChannelFault::BadFrame => LinkFault::BadFrame,
            ChannelFault::OutOfMemory => LinkFault::OutOfMemory,
            ChannelFault::Read
            | ChannelFault::Write
            | ChannelFault::Cut
            | ChannelFault::TooManyTurns => LinkFault::Lost,
        }
    }
}

impl From<LinkFault> for ClientFault {
    ghost use Rattle.std.specs.Prelude.{◌≡◌};
    ghost use Rattle.bayou_client.specs.declared.fault.ClientFault.TheVariants.{Link};

    ghost from_gives = { λ cause fault. fault ≡ Link cause };

    fn from(fault: LinkFault) -> ClientFault {
        ClientFault::Link(fault)
    }
}
