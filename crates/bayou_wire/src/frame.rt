use bayou_base::{Accepted, Key, Refusal, Seen, Tag, Vector, Wid};
use bayou_lang::{Program, RestingProgram, RestingWrite, Write};

/// What servers and clients say to each other: the requests, and then their replies. What it says of programs and Writes is at rest.
#[derive(Debug, Drop, PartialEq, Eq)]
pub enum Frame {
    /// Read this key, at a server that has what is needed.
    Read(Vector, Key),
    /// Accept a Write of this program, at a server that has what is needed. The tag is the name of its asking.
    Write(Tag, Vector, RestingProgram),
    /// Open the journal again.
    Reopen,
    /// Send every held Write.
    Dump,
    /// Send the Writes that this vector doesn't cover.
    Offer(Vector),
    /// The read was served.
    Seen(Seen),
    /// The Write was accepted.
    Accepted(Accepted),
    /// The request was refused.
    Refused(Refusal),
    /// The journal was opened again, and this Write was adopted, if any.
    Reopened(Option<Wid>),
    /// One of the Writes asked for.
    Item(RestingWrite),
    /// The end of the Writes asked for, with their number.
    End(u32),
}

/// A [`Frame`] that takes no memory: what [`crate::decode_frame`] gives.
///
/// It has about eight thousand bytes, whatever it says: keep it behind a reference, and move it once.
#[derive(Debug, Drop, PartialEq, Eq)]
pub enum PlainFrame {
    /// As [`Frame::Read`].
    Read(Vector, Key),
    /// As [`Frame::Write`].
    Write(Tag, Vector, Program),
    /// As [`Frame::Reopen`].
    Reopen,
    /// As [`Frame::Dump`].
    Dump,
    /// As [`Frame::Offer`].
    Offer(Vector),
    /// As [`Frame::Seen`].
    Seen(Seen),
    /// As [`Frame::Accepted`].
    Accepted(Accepted),
    /// As [`Frame::Refused`].
    Refused(Refusal),
    /// As [`Frame::Reopened`].
    Reopened(Option<Wid>),
    /// As [`Frame::Item`].
    Item(Write),
    /// As [`Frame::End`].
    End(u32),
}
