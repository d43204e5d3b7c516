//! What is asked of servers beside a session's operations.
ghost use Rattle.std.specs.Prelude.{◌≡◌, ◌&&◌, IfOk, OnOk, is_some, option_map, string_bytes, vec_len};
ghost use Rattle.bayou_connect.specs.Commands.{Reopens};
ghost use Rattle.bayou_connect.specs.Desks.{IsSameDesk, IsSameSeat};
ghost use Rattle.bayou_connect.specs.Operating.{recovery_told};
ghost use Rattle.bayou_connect.specs.Wishing.{DumpServers, Dumps, DumpsServer, TellServers, TellsServer, TellsSession, server_told, servers_at};
ghost use Rattle.bayou_streams.specs.Account.{account};

use crate::desk::{OWN, PersonDesk, print};
use crate::fault::ConnectFault;
use crate::objects::server_object;
use crate::saying::asks_line;
use bayou_answers::{Answer, Recovery};
use bayou_base::{ServerId, Wid};
use bayou_client::LinkFault;
use bayou_lang::RestingWrite;
use bayou_net::Sockets;
use bayou_print::{Holds, REOPEN_AWAY, dumped_line, last_line, seat_line, server_line};
use bayou_streams::Output;
use std::alloc::AllocError;
use std::io::Write;
use std::sync::Wait;
use std::time::Clock;

// What a reopening came to, unless no reply came that tells it.
fn recovery_of(server: ServerId, told: Result<Option<Wid>, LinkFault>) -> Option<Recovery>
    ensures { result ≡ recovery_told server told }
{
    match told {
        Ok(adopted) => Some(Recovery::Reopened { server, adopted }),
        Err(LinkFault::Refused(refusal)) => Some(Recovery::NotReopened(refusal)),
        Err(LinkFault::Lost | LinkFault::BadFrame | LinkFault::OutOfMemory) => None,
    }
}

impl PersonDesk {
    /// Has a server open its journal again. Whether it is one that is at hand.
    pub(crate) fn reopen<W: Write, T: Sockets + Clock>(
        &mut self,
        rt: &T,
        output: &mut Output<W>,
        server: ServerId,
    ) -> Result<bool, ConnectFault>
        ensures done { IfOk result (Reopens server self.old self.new (account W.contents output.old) (account W.contents output.new)) }
        ensures same { IsSameDesk self.old self.new }
    {
        let Some(at) = self.store.place_of(server) else {
            return Ok(false);
        };
        let recovery = match self.store.reopen(rt, at) {
            None => None,
            Some(told) => recovery_of(server, told),
        };
        match recovery {
            Some(recovery) => {
                if let Recovery::NotReopened(_) = recovery {
                    self.is_served = false;
                }
                let line = last_line(self.alloc, self.servers, &Answer::Recovered(recovery))?;
                print(output, line.as_str())?;
            }
            None => {
                self.is_served = false;
                print(output, REOPEN_AWAY)?;
            }
        }
        Ok(true)
    }

    // What is printed of what the server holds, or that it is away: a line, or an object.
    fn server_text(&self, server: ServerId, held: &Option<Holds>) -> Result<String, AllocError>
        ensures { IfOk result (λ text. string_bytes text ≡ server_told self.now.is_json server.index self.now.servers held.now) }
    {
        if self.is_json {
            return server_object(self.alloc, server, self.servers, held);
        }
        server_line(self.alloc, server, self.servers, held)
    }

    // What the server tells that it holds; nothing, where it is away.
    fn held_by<T: Sockets + Clock>(
        &mut self,
        rt: &T,
        server: ServerId,
    ) -> Result<Option<Holds>, ConnectFault>
        ensures same { IsSameDesk self.old self.new }
        ensures served { self.new.is_served ≡ self.old.is_served }
    {
        match self.store.place_of(server) {
            None => Ok(None),
            Some(at) => self.store.held_at(rt, at),
        }
    }

    // Prints what the server holds, or that it is away.
    fn tell_server<W: Write, T: Sockets + Clock>(
        &mut self,
        rt: &T,
        output: &mut Output<W>,
        server: ServerId,
    ) -> Result<(), ConnectFault>
        ensures { OnOk result (TellsServer server self.old self.new (account W.contents output.old) (account W.contents output.new)) }
    {
        let held = self.held_by(rt, server)?;
        if held.is_none() {
            self.is_served = false;
        }
        let text = self.server_text(server, &held)?;
        print(output, text.as_str())
    }

    /// Prints what each server holds, or that it is away.
    pub(crate) fn tell_servers<W: Write, T: Sockets + Wait + Clock>(
        &mut self,
        rt: &T,
        output: &mut Output<W>,
    ) -> Result<(), ConnectFault>
        ensures { OnOk result (TellServers (servers_at self.old.store.accesses.items) self.old self.new (account W.contents output.old) (account W.contents output.new)) }
    {
        let servers = self.store.servers()?;
        for server in &servers {
            self.tell_server(rt, output, *server)?;
        }
        Ok(())
    }

    /// Prints what the session of short lines asks for, and what it has read and written.
    pub(crate) fn tell_session<W: Write>(
        &mut self,
        output: &mut Output<W>,
    ) -> Result<(), ConnectFault>
        ensures told { OnOk result (TellsSession self.old (account W.contents output.old) (account W.contents output.new)) }
        ensures same { self.new ≡ self.old }
    {
        let Some(kept) = self.store.session(OWN) else {
            return Ok(());
        };
        let session = *kept.session();
        let asks = asks_line(self.alloc, OWN, session.asks())?;
        print(output, asks.as_str())?;
        let past = session.past();
        let line = seat_line(self.alloc, OWN, self.servers, &past.reads, &past.writes)?;
        print(output, line.as_str())
    }

    // The Writes that the server sends as what it holds, if it sends them.
    fn sent_by<T: Sockets + Clock>(
        &mut self,
        rt: &T,
        server: ServerId,
    ) -> Result<Option<Vec<RestingWrite>>, ConnectFault>
        ensures same { IsSameDesk self.old self.new }
        ensures served { self.new.is_served ≡ self.old.is_served }
    {
        match self.store.place_of(server) {
            None => Ok(None),
            Some(at) => self.store.dump(rt, at),
        }
    }

    // Puts what the server sent into the book, and tells how many Writes that are. That it sent nothing isn't what was asked for.
    fn hold_sent(
        &mut self,
        server: ServerId,
        sent: Option<Vec<RestingWrite>>,
    ) -> Result<Option<usize>, ConnectFault>
        ensures number { IfOk result (λ number. number ≡ option_map (λ writes. vec_len writes) sent) }
        ensures served { IfOk result (λ number. self.new.is_served ≡ (self.old.is_served && is_some number)) }
        ensures seat { IsSameSeat self.old self.new }
        ensures sessions { (self.new.store.sessions ≡ self.old.store.sessions) × (self.new.store.state ≡ self.old.store.state) }
    {
        match sent {
            None => {
                self.is_served = false;
                Ok(None)
            }
            Some(writes) => {
                self.store.hold(server, &writes)?;
                Ok(Some(writes.len()))
            }
        }
    }

    // Puts what the server holds into the book, if it sends it, and prints how many Writes that are.
    fn dump_server<W: Write, T: Sockets + Clock>(
        &mut self,
        rt: &T,
        output: &mut Output<W>,
        server: ServerId,
    ) -> Result<(), ConnectFault>
        ensures { OnOk result (DumpsServer server self.old self.new (account W.contents output.old) (account W.contents output.new)) }
    {
        let sent = self.sent_by(rt, server)?;
        let number = self.hold_sent(server, sent)?;
        let line = dumped_line(self.alloc, server, number)?;
        print(output, line.as_str())
    }

    // Puts what each server holds into the book.
    fn dump_servers<W: Write, T: Sockets + Clock>(
        &mut self,
        rt: &T,
        output: &mut Output<W>,
    ) -> Result<(), ConnectFault>
        ensures { OnOk result (DumpServers (servers_at self.old.store.accesses.items) self.old self.new (account W.contents output.old) (account W.contents output.new)) }
    {
        let servers = self.store.servers()?;
        for server in &servers {
            self.dump_server(rt, output, *server)?;
        }
        Ok(())
    }

    /// Puts what each server holds into the book. Whether there is one.
    pub(crate) fn dump<W: Write, T: Sockets + Clock>(
        &mut self,
        rt: &T,
        output: &mut Output<W>,
    ) -> Result<bool, ConnectFault>
        ensures { IfOk result (Dumps self.old self.new (account W.contents output.old) (account W.contents output.new)) }
    {
        if !self.store.has_book() {
            return Ok(false);
        }
        self.dump_servers(rt, output)?;
        Ok(true)
    }
}
