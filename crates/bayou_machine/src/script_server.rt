//! A server of a script, and what it makes of each command.
ghost use Rattle.std.specs.Prelude.{◌≡◌, ◌<◌, IfOk, IfErr, IfSome, IsSome, ℕ};

use crate::seat::Seat;
use bayou_answers::{Answer, BeginFault, Recovery};
use bayou_base::{Key, Refusal, ServerId, SessionId, Tag};
use bayou_device::{MemoryDevice, OpenGate};
use bayou_lang::{RestingProgram, RestingWrite};
use bayou_script::Servers;
use bayou_server::{NotStarted, Server, StartFault, Stopped};
use bayou_text::PlannedFailure;
use std::alloc::{AllocError, Global};

/// A server of a script, on a device in memory.
#[derive(Drop)]
pub enum ScriptServer {
    /// It serves, up or down.
    Running(Server<MemoryDevice<OpenGate>>),
    /// Its last start was refused: its device, and what it held before.
    Stopped(Stopped<MemoryDevice<OpenGate>>),
}

impl ScriptServer {
    ghost use Rattle.bayou_machine.specs.Inner.Tagged.{AnswersTag};
    ghost use Rattle.bayou_machine.specs.ScriptServer.{IsBeginFault, IsBegun, IsFused, IsListed, IsRead, IsReopened, IsRestarted, IsShortened, IsWritten, IsWrittenAgain, device_of, held_at_last, held_by};

    /// A server that is started first, on an empty device.
    pub(crate) fn begin(alloc: Global, servers: Servers, id: ServerId) -> Result<Self, BeginFault>
        requires { id.index < servers.count }
        ensures begun { IfOk result (IsBegun servers.count servers.limit id.index) }
        ensures fault { IfErr result (IsBeginFault servers.count servers.limit id.index) }
    {
        let device = MemoryDevice::new(alloc, OpenGate);
        match Server::start(alloc, id, servers.count, servers.limit, device) {
            Ok((server, _)) => Ok(ScriptServer::Running(server)),
            Err(
                NotStarted {
                    fault: StartFault::OutOfMemory,
                    ..
                },
            ) => Err(BeginFault::OutOfMemory),
            Err(_) => Err(BeginFault::Device),
        }
    }

    // Answers what the session asks at the place that it has begun.
    fn reply(
        &mut self,
        alloc: Global,
        who: SessionId,
        seat: &mut Seat,
        drops: bool,
        tag: Tag,
    ) -> Answer
        requires { IsSome seat.old.asked }
        ensures { IfSome seat.old.asked (λ asked. AnswersTag who tag drops asked.program self.old seat.old result self.new seat.new) }
    {
        let ScriptServer::Running(server) = self else {
            return Answer::Lost { session: who };
        };
        let need = seat.session().need_write();
        let reply = server.write(alloc, tag, &need, seat.program());
        seat.hear_write(who, drops, reply)
    }

    /// The session tries a Write at the server, which has this name, under a tag of its own.
    pub(crate) fn write(
        &mut self,
        alloc: Global,
        id: ServerId,
        who: SessionId,
        seat: &mut Seat,
        program: RestingProgram,
    ) -> Answer
        ensures { IsWritten who id.index program self.old seat.old result self.new seat.new }
    {
        if seat.session().left() == 0 {
            return Answer::Lost { session: who };
        }
        let drops = seat.drops();
        let tag = seat.ask(id, program);
        self.reply(alloc, who, seat, drops, tag)
    }

    /// The session tries the Write again that it asked last, under the tag that it had.
    pub(crate) fn again(&mut self, alloc: Global, who: SessionId, seat: &mut Seat) -> Answer
        requires { IsSome seat.old.asked }
        ensures { IfSome seat.old.asked (λ asked. IsWrittenAgain who asked.program self.old seat.old result self.new seat.new) }
    {
        if seat.session().left() == 0 {
            return Answer::Lost { session: who };
        }
        let drops = seat.drops();
        let tag = seat.again();
        self.reply(alloc, who, seat, drops, tag)
    }

    /// The session tries a read.
    pub(crate) fn read(&self, who: SessionId, seat: &mut Seat, key: Key) -> Answer
        ensures { IsRead who key self.now seat.old result seat.new }
    {
        if seat.session().left() == 0 {
            return Answer::Lost { session: who };
        }
        let drops = seat.drops();
        seat.begin();
        let ScriptServer::Running(server) = self else {
            return Answer::Lost { session: who };
        };
        let reply = server.read(&seat.session().need_read(), &key);
        seat.hear_read(who, drops, key, reply)
    }

    /// Lists what the server holds, unless it is stopped.
    pub(crate) fn list(&self, alloc: Global, id: ServerId) -> Result<Answer, AllocError>
        ensures { IfOk result (IsListed id self.now) }
    {
        let ScriptServer::Running(server) = self else {
            return Ok(Answer::Stopped { server: id });
        };
        let listing = server.listing(alloc)?;
        let vector = server.vector();
        Ok(Answer::Logged {
            server: id,
            listing,
            vector,
        })
    }

    /// The Writes that it holds, or held as it was stopped, in order of receipt.
    pub(crate) fn held(&self) -> &[RestingWrite]
        ensures { result.now ≡ held_by self.now }
    {
        match self {
            ScriptServer::Running(server) => server.receipts(),
            ScriptServer::Stopped(stopped) => stopped.last.receipts(),
        }
    }

    /// Copies of the Writes that it holds, or held as it was stopped, in order of receipt.
    pub(crate) fn dump(&self, alloc: Global) -> Result<Vec<RestingWrite>, AllocError>
        ensures { IfOk result (λ writes. writes.items ≡ held_by self.now) }
    {
        match self {
            ScriptServer::Running(server) => server.dump(alloc),
            ScriptServer::Stopped(stopped) => stopped.last.dump(alloc),
        }
    }

    /// Sets a fuse on its device.
    pub(crate) fn fuse(&mut self, failure: PlannedFailure)
        ensures { IsFused failure.calls failure.kept self.old self.new }
    {
        match self {
            ScriptServer::Running(server) => server.device().fuse(failure.calls, failure.kept),
            ScriptServer::Stopped(stopped) => stopped.device.fuse(failure.calls, failure.kept),
        }
    }

    /// Its device loses so many bytes at its end.
    pub(crate) fn shorten(&mut self, count: usize)
        ensures { IsShortened count self.old self.new }
    {
        match self {
            ScriptServer::Running(server) => server.device().lose(count),
            ScriptServer::Stopped(stopped) => stopped.device.lose(count),
        }
    }

    /// Reopens the server, unless it is stopped.
    pub(crate) fn reopen(&mut self, alloc: Global, id: ServerId) -> Recovery
        ensures { IsReopened id self.old result self.new }
    {
        let ScriptServer::Running(server) = self else {
            return Recovery::NotRunning;
        };
        match server.reopen(alloc) {
            Ok(reopened) => Recovery::Reopened {
                server: id,
                adopted: reopened.adopted,
            },
            Err(fault) => Recovery::NotReopened(Refusal::from(fault)),
        }
    }

    /// Stops the server, if it runs.
    fn stop(self) -> Stopped<MemoryDevice<OpenGate>>
        ensures device { result.device ≡ device_of self }
        ensures last { result.last ≡ held_at_last self }
    {
        match self {
            ScriptServer::Running(server) => server.stop(),
            ScriptServer::Stopped(stopped) => stopped,
        }
    }

    /// Stops the server, if it runs, and starts it on what its device has.
    pub(crate) fn restart(self, alloc: Global, servers: Servers, id: ServerId) -> (Self, Recovery)
        requires { id.index < servers.count }
        ensures { IsRestarted servers.count servers.limit id self result.1 result.0 }
    {
        let Stopped { device, last } = self.stop();
        match Server::start(alloc, id, servers.count, servers.limit, device) {
            Ok((server, dropped)) => {
                let holds = server.receipts().len();
                let recovery = Recovery::Restarted {
                    server: id,
                    holds,
                    dropped,
                };
                (ScriptServer::Running(server), recovery)
            }
            Err(NotStarted { fault, device }) => {
                let stopped = Stopped { device, last };
                (
                    ScriptServer::Stopped(stopped),
                    Recovery::NotRestarted(fault),
                )
            }
        }
    }
}
