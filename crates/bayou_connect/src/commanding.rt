//! A script's line, where lines come one by one.
ghost use Rattle.std.specs.Prelude.{◌≡◌, ◌↔◌, false, IfOk, IsTrue, OnOk, Some, option_map, slice_get, slice_set, true};
ghost use Rattle.std.specs.Bool.{OnFalse, OnTrue};
ghost use Rattle.bayou_connect.specs.Commands.{AsksAgain, DoesCommand, Operates, OperatesAt, TellsNoneAgain, Tries, WritesAgain, WritesAgainAt};
ghost use Rattle.bayou_connect.specs.Sessions.{IsOpenedFrom, kept_of};
ghost use Rattle.bayou_streams.specs.Account.{account};

use crate::asking::Requested;
use crate::desk::{MadeWrite, PersonDesk, numbered, print};
use crate::fault::ConnectFault;
use bayou_answers::Answer;
use bayou_base::{Asks, Key, ServerId, SessionId};
use bayou_net::Sockets;
use bayou_print::last_line;
use bayou_streams::Output;
use bayou_text::{Attempt as Said, Command, Operation, Trial, TrialKind};
use std::fs::{File, Files};
use std::io::Write;
use std::sync::Wait;
use std::time::Clock;

impl PersonDesk {
    // An operation of a session: at the server that is named, once. Whether that is at hand, and the session is open.
    fn operate_at<W: Write, T: Files<File = File> + Sockets + Wait + Clock>(
        &mut self,
        rt: &T,
        output: &mut Output<W>,
        who: SessionId,
        server: ServerId,
        key: Option<Key>,
        attempt: Requested,
    ) -> Result<bool, ConnectFault>
        ensures { IfOk result (OperatesAt who server key attempt self.old self.new (account W.contents output.old) (account W.contents output.new)) }
    {
        let Some(at) = self.store.place_of(server) else {
            return Ok(false);
        };
        if self.store.session(who).is_none() {
            return Ok(false);
        }
        let told = self.store.ask_at(rt, who, at, attempt)?;
        self.finish(output, who, &key, told)?;
        Ok(true)
    }

    // Prints that the session has no Write that may be asked again.
    fn tell_none_again<W: Write>(
        &mut self,
        output: &mut Output<W>,
        who: SessionId,
    ) -> Result<(), ConnectFault>
        ensures { OnOk result (TellsNoneAgain who self.old self.new (account W.contents output.old) (account W.contents output.new)) }
    {
        let line = last_line(self.alloc, self.servers, &Answer::NotAgain { session: who })?;
        print(output, line.as_str())
    }

    // The server that was asked last for the session's Write that may be asked again, if there is one; nothing where the session isn't open.
    fn server_again(&self, who: SessionId) -> Option<Option<ServerId>>
        ensures { result ≡ option_map (λ kept. option_map (λ asked. asked.server) kept.asked) (kept_of self.now.store.sessions.items who) }
    {
        let kept = self.store.session(who)?;
        match kept.asked() {
            None => Some(None),
            Some(asked) => Some(Some(asked.server)),
        }
    }

    // The session's Write that may be asked again, once more. Whether its server is at hand, and the session is open.
    fn ask_again<W: Write, T: Files<File = File> + Sockets + Wait + Clock>(
        &mut self,
        rt: &T,
        output: &mut Output<W>,
        who: SessionId,
    ) -> Result<bool, ConnectFault>
        ensures { IfOk result (AsksAgain who self.old self.new (account W.contents output.old) (account W.contents output.new)) }
    {
        match self.server_again(who) {
            None => Ok(false),
            Some(None) => {
                self.tell_none_again(output, who)?;
                Ok(true)
            }
            Some(Some(server)) => self.operate_at(rt, output, who, server, None, Requested::Again),
        }
    }

    // Asks this server once more for the session's Write that may be asked again, if it is at hand. As what it was accepted, if it was.
    fn write_again_at<W: Write, T: Files<File = File> + Sockets + Wait + Clock>(
        &mut self,
        rt: &T,
        output: &mut Output<W>,
        who: SessionId,
        server: ServerId,
    ) -> Result<Option<MadeWrite>, ConnectFault>
        ensures { IfOk result (WritesAgainAt who server self.old self.new (account W.contents output.old) (account W.contents output.new)) }
    {
        let Some(at) = self.store.place_of(server) else {
            return Ok(None);
        };
        let told = self.store.ask_at(rt, who, at, Requested::Again)?;
        let made = self.made_by(&told);
        self.finish(output, who, &None, told)?;
        Ok(made)
    }

    /// The Write of short lines that may be asked again, once more, at the server that was asked for it last. As what it was accepted, if it was.
    pub(crate) fn write_again<W: Write, T: Files<File = File> + Sockets + Wait + Clock>(
        &mut self,
        rt: &T,
        output: &mut Output<W>,
        who: SessionId,
    ) -> Result<Option<MadeWrite>, ConnectFault>
        ensures { IfOk result (WritesAgain who self.old self.new (account W.contents output.old) (account W.contents output.new)) }
    {
        match self.server_again(who) {
            None => Ok(None),
            Some(None) => {
                self.tell_none_again(output, who)?;
                Ok(None)
            }
            Some(Some(server)) => self.write_again_at(rt, output, who, server),
        }
    }

    // A script's operation. Whether it can be done here.
    fn operate<W: Write, T: Files<File = File> + Sockets + Wait + Clock>(
        &mut self,
        rt: &T,
        output: &mut Output<W>,
        operation: Operation,
    ) -> Result<bool, ConnectFault>
        ensures { IfOk result (Operates operation self.old self.new (account W.contents output.old) (account W.contents output.new)) }
    {
        let who = operation.session;
        match operation.attempt {
            Said::Write { server, program } => {
                self.operate_at(rt, output, who, server, None, Requested::Write(program))
            }
            Said::Read { server, key } => {
                let asked = Requested::Read(key.copy());
                self.operate_at(rt, output, who, server, Some(key), asked)
            }
            Said::Again => self.ask_again(rt, output, who),
        }
    }

    // Opens the session, unless a line did so before.
    fn open(&mut self, who: SessionId, asks: Asks) -> bool
        ensures first { IsTrue result ↔ (slice_get self.old.opened who.index ≡ Some false) }
        ensures opened { OnTrue result (IsOpenedFrom self.old.first_number who self.old.run asks self.old.store.sessions.items self.new.store.sessions.items) }
        ensures noted { OnTrue result (self.new.opened ≡ slice_set self.old.opened who.index true) }
        ensures same { OnFalse result (self.new ≡ self.old) }
    {
        let at = usize::from(who.index);
        if self.opened[at] {
            return false;
        }
        self.opened[at] = true;
        self.store
            .open(who, numbered(self.first_number, who), self.run, asks);
        true
    }

    // A trial of a server. Whether it can be done here.
    fn try_server<W: Write, T: Sockets + Clock>(
        &mut self,
        rt: &T,
        output: &mut Output<W>,
        trial: Trial,
    ) -> Result<bool, ConnectFault>
        ensures { IfOk result (Tries trial.kind trial.server self.old self.new (account W.contents output.old) (account W.contents output.new)) }
    {
        match trial.kind {
            TrialKind::Reopen => self.reopen(rt, output, trial.server),
            TrialKind::Fuse(_) | TrialKind::Lose(_) | TrialKind::Restart => Ok(false),
        }
    }

    /// Does what a script's line asks for. Whether the line is in its place here.
    pub(crate) fn command<W: Write, T: Files<File = File> + Sockets + Wait + Clock>(
        &mut self,
        rt: &T,
        output: &mut Output<W>,
        command: Command,
    ) -> Result<bool, ConnectFault>
        ensures { IfOk result (DoesCommand command self.old self.new (account W.contents output.old) (account W.contents output.new)) }
    {
        match command {
            Command::Session { session, asks } => Ok(self.open(session, asks)),
            Command::Operation(operation) => self.operate(rt, output, operation),
            Command::Trial(trial) => self.try_server(rt, output, trial),
            Command::Drop(_) | Command::Exchange(_) | Command::Question(_) | Command::Phase => {
                Ok(false)
            }
        }
    }
}
