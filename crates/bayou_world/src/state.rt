//! The servers and the sessions as they run.
ghost use Rattle.std.specs.Prelude.{◌≡◌, ◌++◌, IfOk, OnOk};
ghost use Rattle.bayou_world.specs.Inner.WorldSessions.{served_entries};
ghost use Rattle.bayou_world.specs.Inner.WorldBooks.{TakesOldest};
ghost use Rattle.bayou_world.specs.Faults.{tells_fault, tells_fuse};
ghost use Rattle.bayou_world.specs.declared.event.Event.TheVariants.{Again};
ghost use Rattle.bayou_world.specs.Inner.Charges.{AreSpent, SpendsAt, Waits};
ghost use Rattle.bayou_world.specs.Inner.Tie.{Follows};
ghost use Rattle.bayou_world.specs.Steps.{AgainStep, CollectStep, DeliverStep, FuseStep, LoseStep, OfferStep, ReadStep, ReopenStep, RestartStep, TakeStep, WriteStep};

use crate::reply::Reply;
use crate::world_server::{WorldServer, lacking_in, reopen_server, take_write};
use crate::world_session::WorldSession;
use bayou_base::{Entry, Key, MAX_NUMBER, ServerId, SessionId, Vector, What};
use bayou_lang::{RestingProgram, RestingWrite};
use bayou_session::laws::{read_need_is_what_is_asked, write_need_is_what_is_asked};
use std::alloc::{AllocError, Global};

/// Servers on devices in memory, sessions, and what is in flight between them.
#[derive(Drop)]
pub struct State {
    pub servers: Vec<WorldServer>,
    // One place for each session that there may be.
    pub sessions: Vec<Option<WorldSession>>,
    pub offers: Vec<Vector>,
    pub items: Vec<RestingWrite>,
    pub served: Vec<Entry>,
}

/// Keeps the entry, if it is of a read or a Write.
fn keep_served(served: &mut Vec<Entry>, entry: Entry) -> Result<(), AllocError>
    ensures { OnOk result (served.new.items ≡ served.old.items ++ served_entries entry.what entry) }
{
    if let What::Refused = entry.what {
        return Ok(());
    }
    served.push(entry)?;
    Ok(())
}

impl State {
    /// The session asks the server what the key has.
    pub fn read(&mut self, who: SessionId, place: ServerId, key: &Key) -> Reply
        ensures follows { Follows self.old (λ machine next. ReadStep machine who.index place.index key.now result next) self.new }
        ensures same { self.new.servers ≡ self.old.servers }
    {
        read_need_is_what_is_asked();
        let (seat, at) = (usize::from(who.index), usize::from(place.index));
        if seat >= self.sessions.len() || at >= self.servers.len() {
            return Reply::Skipped;
        }
        let Some(session) = &mut self.sessions[seat] else {
            return Reply::Skipped;
        };
        if !session.may_begin() {
            return Reply::Skipped;
        }
        let WorldServer::Running(server) = &self.servers[at] else {
            return Reply::Skipped;
        };
        Reply::Read(session.read(server, key))
    }

    /// The session asks the server to make a Write of the program, which is copied first.
    pub fn write(
        &mut self,
        alloc: Global,
        who: SessionId,
        place: ServerId,
        program: RestingProgram,
    ) -> Result<Reply, AllocError>
        ensures follows { IfOk result (λ reply. Follows self.old (λ machine next. WriteStep machine who.index place.index program reply next) self.new) }
        ensures spent { IfOk result (λ reply. AreSpent place.index (tells_fault reply) (tells_fuse reply) self.old.servers.items self.new.servers.items) }
    {
        write_need_is_what_is_asked();
        let (seat, at) = (usize::from(who.index), usize::from(place.index));
        if seat >= self.sessions.len() || at >= self.servers.len() {
            return Ok(Reply::Skipped);
        }
        let Some(session) = &mut self.sessions[seat] else {
            return Ok(Reply::Skipped);
        };
        if !session.may_begin() {
            return Ok(Reply::Skipped);
        }
        let WorldServer::Running(server) = &mut self.servers[at] else {
            return Ok(Reply::Skipped);
        };
        let answer = session.write(alloc, server, program)?;
        Ok(Reply::Wrote(answer))
    }

    /// The session asks its last Write again, a copy of whose program is made first.
    pub fn again(&mut self, alloc: Global, who: SessionId) -> Result<Reply, AllocError>
        ensures follows { IfOk result (λ reply. Follows self.old (λ machine next. AgainStep machine who.index reply next) self.new) }
        ensures spent { IfOk result (λ reply. SpendsAt (Again who) reply self.old.servers.items self.new.servers.items) }
    {
        write_need_is_what_is_asked();
        let seat = usize::from(who.index);
        if seat >= self.sessions.len() {
            return Ok(Reply::Skipped);
        }
        let Some(session) = &mut self.sessions[seat] else {
            return Ok(Reply::Skipped);
        };
        if !session.may_begin() {
            return Ok(Reply::Skipped);
        }
        let Some(place) = session.asked_at() else {
            return Ok(Reply::Skipped);
        };
        let at = usize::from(place.index);
        if at >= self.servers.len() {
            return Ok(Reply::Skipped);
        }
        let WorldServer::Running(server) = &mut self.servers[at] else {
            return Ok(Reply::Skipped);
        };
        match session.again(alloc, server)? {
            Some(answer) => Ok(Reply::AskedAgain(place, answer)),
            None => Ok(Reply::Skipped),
        }
    }

    /// The answer on its way reaches the session. Want of memory leaves it half told.
    pub fn deliver(&mut self, who: SessionId) -> Result<Reply, AllocError>
        ensures follows { IfOk result (λ reply. Follows self.old (λ machine next. DeliverStep machine who.index reply next) self.new) }
        ensures same { OnOk result (self.new.servers ≡ self.old.servers) }
    {
        let seat = usize::from(who.index);
        if seat >= self.sessions.len() {
            return Ok(Reply::Skipped);
        }
        let Some(session) = &mut self.sessions[seat] else {
            return Ok(Reply::Skipped);
        };
        let Some(entry) = session.hear()? else {
            return Ok(Reply::Skipped);
        };
        keep_served(&mut self.served, entry)?;
        Ok(Reply::Delivered)
    }

    /// The answer on its way is lost.
    pub fn lose(&mut self, who: SessionId) -> Reply
        ensures follows { Follows self.old (λ machine next. LoseStep machine who.index result next) self.new }
        ensures same { self.new.servers ≡ self.old.servers }
    {
        let seat = usize::from(who.index);
        if seat >= self.sessions.len() {
            return Reply::Skipped;
        }
        let Some(session) = &mut self.sessions[seat] else {
            return Reply::Skipped;
        };
        if session.lose() {
            Reply::Dropped
        } else {
            Reply::Skipped
        }
    }

    /// What the server holds is kept as an offer.
    pub fn offer(&mut self, place: ServerId) -> Result<Reply, AllocError>
        ensures follows { IfOk result (λ reply. Follows self.old (λ machine next. OfferStep machine place.index reply next) self.new) }
        ensures same { OnOk result (self.new.servers ≡ self.old.servers) }
    {
        let at = usize::from(place.index);
        let number = self.offers.len();
        if at >= self.servers.len() || number > MAX_NUMBER as usize {
            return Ok(Reply::Skipped);
        }
        let WorldServer::Running(server) = &self.servers[at] else {
            return Ok(Reply::Skipped);
        };
        self.offers.push(server.vector())?;
        Ok(Reply::Kept(number as u32))
    }

    /// What the server holds and the offer hasn't goes in flight.
    pub fn collect(
        &mut self,
        alloc: Global,
        place: ServerId,
        offer: u32,
    ) -> Result<Reply, AllocError>
        ensures follows { IfOk result (λ reply. Follows self.old (λ machine next. CollectStep machine place.index offer reply next) self.new) }
        ensures same { OnOk result (self.new.servers ≡ self.old.servers) }
    {
        let (at, offer) = (usize::from(place.index), offer as usize);
        if at >= self.servers.len() || offer >= self.offers.len() {
            return Ok(Reply::Skipped);
        }
        let WorldServer::Running(server) = &self.servers[at] else {
            return Ok(Reply::Skipped);
        };
        let offered = &self.offers[offer];
        let Ok(mut lacking) = lacking_in(alloc, server, offered) else {
            return Ok(Reply::NoMemory);
        };
        let first = self.items.len();
        let number = lacking.len();
        if first as u64 + number.max(1) as u64 > MAX_NUMBER as u64 + 1 {
            return Ok(Reply::Skipped);
        }
        self.items.append(&mut lacking)?;
        Ok(Reply::Flown {
            first: first as u32,
            number: number as u32,
        })
    }

    /// The server is given the item, which is copied first.
    pub fn take(&mut self, alloc: Global, place: ServerId, item: u32) -> Result<Reply, AllocError>
        ensures follows { IfOk result (λ reply. Follows self.old (λ machine next. TakeStep machine place.index item reply next) self.new) }
        ensures spent { IfOk result (λ reply. AreSpent place.index (tells_fault reply) (tells_fuse reply) self.old.servers.items self.new.servers.items) }
    {
        let (at, item) = (usize::from(place.index), item as usize);
        if at >= self.servers.len() || item >= self.items.len() {
            return Ok(Reply::Skipped);
        }
        let WorldServer::Running(server) = &mut self.servers[at] else {
            return Ok(Reply::Skipped);
        };
        let write = self.items[item].copy(alloc)?;
        Ok(Reply::Took(take_write(alloc, server, write)))
    }

    /// A device call of the server is to fail.
    pub fn fuse(&mut self, place: ServerId, call: u32, kept: usize) -> Reply
        ensures follows { Follows self.old (λ machine next. FuseStep machine place.index call result next) self.new }
        ensures waits { Waits place.index call kept result self.old.servers.items self.new.servers.items }
        ensures spent { AreSpent place.index (tells_fault result) (tells_fuse result) self.old.servers.items self.new.servers.items }
    {
        let at = usize::from(place.index);
        if at >= self.servers.len() || call == 0 {
            return Reply::Skipped;
        }
        self.servers[at].fuse(call, kept);
        Reply::Fused
    }

    /// The server opens its journal again.
    pub fn reopen(&mut self, alloc: Global, place: ServerId) -> Reply
        ensures follows { Follows self.old (λ machine next. ReopenStep machine place.index result next) self.new }
        ensures spent { AreSpent place.index (tells_fault result) (tells_fuse result) self.old.servers.items self.new.servers.items }
    {
        let at = usize::from(place.index);
        if at >= self.servers.len() {
            return Reply::Skipped;
        }
        let WorldServer::Running(server) = &mut self.servers[at] else {
            return Reply::Skipped;
        };
        Reply::Reopened(reopen_server(alloc, server))
    }

    /// The server is stopped, and started on what its device has.
    pub fn restart(&mut self, alloc: Global, place: ServerId) -> Reply
        ensures follows { Follows self.old (λ machine next. RestartStep machine place.index result next) self.new }
        ensures spent { AreSpent place.index (tells_fault result) (tells_fuse result) self.old.servers.items self.new.servers.items }
    {
        let at = usize::from(place.index);
        if at >= self.servers.len() {
            return Reply::Skipped;
        }
        let (server, answer) = self.servers.remove(at).restart(alloc);
        let Ok(()) = self.servers.insert(at, server) else {
            unreachable!();
        };
        Reply::Restarted(answer)
    }

    /// Takes the session's oldest entry that waits for the book.
    pub fn oldest(&mut self, who: SessionId) -> Option<Entry>
        ensures follows { TakesOldest self.old who.index result self.new }
        ensures same { self.new.servers ≡ self.old.servers }
    {
        let seat = usize::from(who.index);
        if seat >= self.sessions.len() {
            return None;
        }
        let Some(session) = &mut self.sessions[seat] else {
            return None;
        };
        session.oldest()
    }
}
