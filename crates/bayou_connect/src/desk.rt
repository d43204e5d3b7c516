//! A person's desk, at which lines are done, and what becomes of them is printed.
ghost use Rattle.std.specs.Prelude.{◌≡◌, ◌<◌, ◌≤◌, ◌&&◌, false, OnOk, true};
ghost use Rattle.bayou_base.specs.declared.limits.TheConstants.{SERVERS as NUMBER};
ghost use Rattle.bayou_connect.specs.Claims.{IsMade, IsMadeAs};
ghost use Rattle.bayou_connect.specs.Printing.{is_service, nothing_text, told_text};
ghost use Rattle.bayou_connect.specs.Sessions.{IsNumbered};
ghost use Rattle.bayou_streams.specs.Account.{TakesBytes, account};

use crate::fault::ConnectFault;
use crate::saying::{nothing_line, told_line};
use crate::store::Store;
use crate::told::ServerTold;
use bayou_base::{Accepted, Key, SESSIONS, SessionId, Wid};
use bayou_print::write_text;
use bayou_streams::Output;
use std::alloc::Global;
use std::io::Write;

/// The session of short lines.
pub(crate) const OWN: SessionId = SessionId { index: 0 };

/// What a person has at hand.
#[derive(Drop)]
pub(crate) struct PersonDesk {
    pub(crate) alloc: Global,
    pub(crate) store: Store,
    /// How many counts of a vector are printed.
    pub(crate) servers: u8,
    /// Whether `list`, `servers` and `mine` print an object a line.
    pub(crate) is_json: bool,
    /// The run of a session that is opened.
    pub(crate) run: u32,
    /// The number that session 0 has in tags and in the book. The others' follow.
    pub(crate) first_number: SessionId,
    /// The server that short lines ask first, by its place in the list.
    pub(crate) first: usize,
    /// How often a short line goes round once more, each time after a rest.
    pub(crate) rounds: u64,
    /// Which sessions a line has opened.
    pub(crate) opened: [bool; SESSIONS],
    /// Whether each operation was served so far.
    pub(crate) is_served: bool,
    /// Whether an own Write was reported to have come to nothing for good.
    pub(crate) is_void: bool,
    pub(crate) ghost number: { servers ≤ NUMBER },
    pub(crate) ghost runs: { 0 < run },
}

/// A Write that was accepted: its server's place in the list, and its name.
#[derive(Clone, Copy, Debug, PartialEq, Eq)]
pub(crate) struct MadeWrite {
    pub(crate) at: usize,
    pub(crate) wid: Wid,
    pub(crate) clock: u32,
}

/// The number that a session has in tags and in the book, where session 0 has this one first: it is so many further on, and 0 comes after the last.
pub(crate) fn numbered(first: SessionId, who: SessionId) -> SessionId
    ensures { IsNumbered first who result }
{
    let further = who.index + first.index;
    let is_beyond = usize::from(further) >= SESSIONS;
    let index = if is_beyond {
        further - SESSIONS as u8
    } else {
        further
    };
    SessionId { index }
}

/// Puts a line to the output at once.
pub(crate) fn print<W: Write>(output: &mut Output<W>, line: &str) -> Result<(), ConnectFault>
    ensures { OnOk result (TakesBytes (account W.contents output.old) (account W.contents output.new) line.now) }
{
    write_text(output, line.as_bytes())?;
    Ok(())
}

impl PersonDesk {
    // Prints what an operation heard, with its key if it is a read.
    pub(crate) fn finish<W: Write>(
        &mut self,
        output: &mut Output<W>,
        who: SessionId,
        key: &Option<Key>,
        told: ServerTold,
    ) -> Result<(), ConnectFault>
        ensures printed { OnOk result (TakesBytes (account W.contents output.old) (account W.contents output.new) (told_text self.old.servers who key.now told)) }
        ensures served { self.new.is_served ≡ (self.old.is_served && is_service told) }
        ensures same { self.new.store ≡ self.old.store }
        ensures others { self.new ≡ record self.old { is_served = self.new.is_served } }
    {
        if !matches!(
            told,
            ServerTold::Seen(_)
                | ServerTold::Rows(_)
                | ServerTold::Fate(_)
                | ServerTold::Accepted(_)
        ) {
            self.is_served = false;
        }
        let line = told_line(self.alloc, self.servers, who, key, told)?;
        print(output, line.as_str())
    }

    /// Lets count what comes from here on alone: each operation so far counts as served.
    pub(crate) fn begin_anew(&mut self)
        ensures { self.new ≡ record self.old { is_served = true } }
    {
        self.is_served = true;
    }

    /// Prints that a Write did nothing. It isn't what was asked for.
    pub(crate) fn tell_nothing<W: Write>(
        &mut self,
        output: &mut Output<W>,
        who: SessionId,
    ) -> Result<(), ConnectFault>
        ensures printed { OnOk result (TakesBytes (account W.contents output.old) (account W.contents output.new) (nothing_text who)) }
        ensures served { self.new.is_served ≡ false }
        ensures same { self.new.store ≡ self.old.store }
        ensures others { self.new ≡ record self.old { is_served = false } }
    {
        self.is_served = false;
        let line = nothing_line(self.alloc, who)?;
        print(output, line.as_str())
    }

    // The Write that was accepted, where its server is at hand.
    fn made_of(&self, accepted: &Accepted) -> Option<MadeWrite>
        ensures { IsMadeAs self.now.store.accesses.items accepted.now result }
    {
        let (wid, clock) = (accepted.wid, accepted.stamp.clock);
        let at = self.store.place_of(wid.origin)?;
        Some(MadeWrite { at, wid, clock })
    }

    // The Write that was accepted, if it was reported that one was, where its server is at hand.
    pub(crate) fn made_by(&self, told: &ServerTold) -> Option<MadeWrite>
        ensures { IsMade self.now.store.accesses.items told.now result }
    {
        match told {
            ServerTold::Accepted(accepted) => self.made_of(accepted),
            ServerTold::Away
            | ServerTold::Seen(_)
            | ServerTold::Rows(_)
            | ServerTold::Fate(_)
            | ServerTold::Refused(_)
            | ServerTold::Lost => None,
        }
    }
}
