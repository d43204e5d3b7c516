//! What became of an operation at one server.
use bayou_base::{Accepted, Refusal, Seen};
use bayou_wire::{Fate, Page};

/// What became of an operation of a session at one server.
#[derive(Debug, Drop)]
pub enum ServerTold {
    /// No connection came about: nothing was sent, and no place begun.
    Away,
    /// A read was served.
    Seen(Seen),
    /// A server listed rows.
    Rows(Page),
    /// A server reported what became of a Write.
    Fate(Fate),
    /// A Write was accepted.
    Accepted(Accepted),
    /// It was refused.
    Refused(Refusal),
    /// No reply came, or what came is none, or memory ran out here as it was asked: it may have been done.
    Lost,
}
