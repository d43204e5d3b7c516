//! The servers and the sessions of a script.
ghost use Rattle.std.specs.Prelude.{◌≡◌, ◌<◌, ◌≤◌, ◌^◌, ℕ, All, IfOk, IfErr, IsTrue, List, length};
ghost use Rattle.std.specs.Option.{option_map};
ghost use Rattle.bayou_script.specs.Script.{is_served};
ghost use Rattle.bayou_base.specs.declared.limits.TheConstants.{SERVERS as SERVERS_NUMBER, SESSIONS as SESSIONS_NUMBER};
ghost use Rattle.bayou_machine.specs.Inner.Seated.{AreUnopened};
ghost use Rattle.bayou_answers.specs.declared.answer.Answer.TheVariants.{Done, Exchanged, Recovered};
ghost use Rattle.bayou_text.specs.Said.{again, attempt_said, drop, exchange_said, fuse, log, lose, operation_said, pull, read, reopen, resend, restart, session, trial_said, write};

use crate::script_server::ScriptServer;
use crate::seat::Seat;
use arrayvec::ArrayVec;
use bayou_answers::{Answer, BeginFault, Recovery, Transfer};
use bayou_base::{Asks, Key, SERVERS, SESSIONS, ServerId, SessionId, Vector};
use bayou_lang::{RestingProgram, RestingWrite};
use bayou_peer::cut_after;
use bayou_peer::meeting::an_answer_is_short;
use bayou_script::Servers;
use bayou_session::Session;
use bayou_text::{Attempt, Exchange, Extent, Operation, PlannedFailure, Trial, TrialKind};
use std::alloc::{AllocError, Global};
use std::marker::Model;

/// The servers and the sessions of a script.
#[derive(Drop)]
pub(crate) struct Parties {
    plan: Servers,
    // One for each server of the plan.
    servers: Vec<ScriptServer>,
    // One for each session that there may be.
    seats: Vec<Seat>,
}

impl Model for Parties {
    ghost use Rattle.std.specs.Prelude.{◌≡◌, length};
    ghost use Rattle.bayou_machine.specs.Inner.Seated.{AreSeats};
    ghost use Rattle.bayou_machine.specs.Standing.{Standing};

    ghost Value = { Standing };

    ghost view = { λ p. record { count = p.plan.count; limit = p.plan.limit; servers = p.servers.items; sessions = p.seats.items } };

    ghost invariant = { λ p. (length p.servers.items ≡ p.plan.count) × AreSeats p.plan.count p.seats.items };
}

/// The sessions that there may be, none of which was opened.
fn unopened(alloc: Global) -> Result<Vec<Seat>, AllocError>
    ensures { IfOk result (λ seats. AreUnopened SESSIONS_NUMBER seats.items) }
{
    let mut seats = Vec::with_capacity(alloc, SESSIONS)?;
    for index in 0..SESSIONS as u8 {
        seats.push(Seat::new(SessionId { index }, Asks::default()))?;
    }
    Ok(seats)
}

impl Parties {
    ghost use Rattle.bayou_machine.specs.Exchange.{Exchanges};
    ghost use Rattle.bayou_machine.specs.declared.script_server.ScriptServer.{ScriptServer as Stood};
    ghost use Rattle.bayou_judge.specs.History.{lent_lists, lists_of};
    ghost use Rattle.bayou_machine.specs.Standing.{FailsToBegin, HasBegun, StandsAt, dumps_of, seat_of, tried_at};
    ghost use Rattle.bayou_machine.specs.Run.{ScriptStep};

    /// The servers of a script as it begins, each on an empty device.
    pub(crate) fn new(alloc: Global, plan: Servers) -> Result<Self, BeginFault>
        ensures begun { IfOk result (HasBegun plan.count plan.limit) }
        ensures fault { IfErr result (FailsToBegin plan.count plan.limit) }
    {
        let mut servers = Vec::new(alloc);
        for index in 0..plan.count {
            servers.push(ScriptServer::begin(alloc, plan, ServerId { index })?)?;
        }
        Ok(Parties {
            plan,
            servers,
            seats: unopened(alloc)?,
        })
    }

    /// The session of this name, as what it heard. One that wasn't opened asks for nothing; no script uses it.
    pub(crate) fn session(&self, who: SessionId) -> Session
        ensures { result ≡ (seat_of self.now who).told }
    {
        self.seats[usize::from(who.index)].session()
    }

    /// The server at which the session tries the operation: `None` where it has no Write to ask again.
    pub(crate) fn server_of(&self, operation: &Operation) -> Option<ServerId>
        ensures { option_map (λ server. (operation.now.session.index, server.index)) result ≡ tried_at self.now (operation_said operation.now) }
    {
        match &operation.attempt {
            Attempt::Write { server, .. } | Attempt::Read { server, .. } => Some(*server),
            Attempt::Again => self.seats[usize::from(operation.session.index)].asked_at(),
        }
    }

    /// How many servers there are.
    pub(crate) fn count(&self) -> u8
        ensures value { result ≡ self.now.count }
        ensures in_range { (0 < result) × (result ≤ SERVERS_NUMBER) }
    {
        self.plan.count
    }

    /// Copies of the Writes that each server holds, or held as it was stopped, in order of receipt.
    pub(crate) fn dumps(&self, alloc: Global) -> Result<Vec<Vec<RestingWrite>>, AllocError>
        ensures held { IfOk result (λ dumps. lists_of dumps.items ≡ dumps_of self.now) }
        ensures one_each { IfOk result (λ dumps. length dumps.items ≡ self.now.count) }
    {
        let mut dumps = Vec::new(alloc);
        for server in &self.servers {
            dumps.push(server.dump(alloc)?)?;
        }
        Ok(dumps)
    }

    /// The Writes that each server holds, or held as it was stopped, in order of receipt.
    pub(crate) fn lend(&self) -> ArrayVec<&[RestingWrite], SERVERS>
        ensures lists { lent_lists result.items ≡ dumps_of self.now }
        ensures one_each { length result.items ≡ self.now.count }
        ensures few { All (λ dump. length dump.now < 2 ^ 63) result.items }
    {
        let mut lent = ArrayVec::new();
        for server in &self.servers {
            lent.push(server.held());
        }
        lent
    }

    /// Opens the session.
    pub(crate) fn open(&mut self, who: SessionId, asks: Asks)
        ensures { ScriptStep self.old (session who.index asks) Done self.new }
    {
        self.seats[usize::from(who.index)] = Seat::new(who, asks);
    }

    /// Has the reply dropped to the operation that the session tries next.
    pub(crate) fn drop_next(&mut self, who: SessionId)
        ensures { ScriptStep self.old (drop who.index) Done self.new }
    {
        self.seats[usize::from(who.index)].drop_next();
    }

    /// What the server holds. It may want memory that it has no answer for.
    pub(crate) fn list(&self, alloc: Global, server: ServerId) -> Result<Answer, AllocError>
        requires { server.index < self.now.count }
        ensures { IfOk result (λ answer. ScriptStep self.now (log server.index) answer self.now) }
    {
        self.servers[usize::from(server.index)].list(alloc, server)
    }

    fn write(
        &mut self,
        alloc: Global,
        who: SessionId,
        server: ServerId,
        program: RestingProgram,
    ) -> Answer
        requires { server.index < self.old.count }
        ensures { ScriptStep self.old (write who.index server.index program) result self.new }
    {
        let seat = &mut self.seats[usize::from(who.index)];
        let at = &mut self.servers[usize::from(server.index)];
        at.write(alloc, server, who, seat, program)
    }

    fn again(&mut self, alloc: Global, who: SessionId) -> Answer
        ensures { ScriptStep self.old (again who.index) result self.new }
    {
        let seat = &mut self.seats[usize::from(who.index)];
        let Some(server) = seat.asked_at() else {
            return Answer::NotAgain { session: who };
        };
        self.servers[usize::from(server.index)].again(alloc, who, seat)
    }

    fn read(&mut self, who: SessionId, server: ServerId, key: Key) -> Answer
        requires { server.index < self.old.count }
        ensures { ScriptStep self.old (read who.index server.index key) result self.new }
    {
        let seat = &mut self.seats[usize::from(who.index)];
        self.servers[usize::from(server.index)].read(who, seat, key)
    }

    /// The session tries the operation.
    #[tactic(auto, unfolding(bayou_script::specs::Script::are_servers))]
    pub(crate) fn operate(&mut self, alloc: Global, operation: Operation) -> Answer
        requires { IsTrue (is_served self.old.count (operation_said operation)) }
        ensures { ScriptStep self.old (operation_said operation) result self.new }
    {
        let Operation { session, attempt } = operation;
        match attempt {
            Attempt::Write { server, program } => self.write(alloc, session, server, program),
            Attempt::Read { server, key } => self.read(session, server, key),
            Attempt::Again => self.again(alloc, session),
        }
    }

    fn fuse(&mut self, server: ServerId, failure: PlannedFailure)
        requires { server.index < self.old.count }
        ensures { ScriptStep self.old (fuse server.index failure.calls failure.kept) Done self.new }
    {
        self.servers[usize::from(server.index)].fuse(failure);
    }

    fn shorten(&mut self, server: ServerId, count: usize)
        requires { server.index < self.old.count }
        ensures { ScriptStep self.old (lose server.index count) Done self.new }
    {
        self.servers[usize::from(server.index)].shorten(count);
    }

    fn reopen(&mut self, alloc: Global, server: ServerId) -> Recovery
        requires { server.index < self.old.count }
        ensures { ScriptStep self.old (reopen server.index) (Recovered result) self.new }
    {
        self.servers[usize::from(server.index)].reopen(alloc, server)
    }

    fn restart(&mut self, alloc: Global, server: ServerId) -> Recovery
        requires { server.index < self.old.count }
        ensures { ScriptStep self.old (restart server.index) (Recovered result) self.new }
    {
        let at = usize::from(server.index);
        let (restarted, recovery) = self.servers.remove(at).restart(alloc, self.plan, server);
        let Ok(()) = self.servers.insert(at, restarted) else {
            unreachable!();
        };
        recovery
    }

    /// What becomes of a server that is put through this.
    pub(crate) fn put_through(&mut self, alloc: Global, trial: Trial) -> Answer
        requires { trial.server.index < self.old.count }
        ensures { ScriptStep self.old (trial_said trial) result self.new }
    {
        let server = trial.server;
        match trial.kind {
            TrialKind::Fuse(failure) => {
                self.fuse(server, failure);
                Answer::Done
            }
            TrialKind::Lose(count) => {
                self.shorten(server, count);
                Answer::Done
            }
            TrialKind::Reopen => Answer::Recovered(self.reopen(alloc, server)),
            TrialKind::Restart => Answer::Recovered(self.restart(alloc, server)),
        }
    }

    /// The first server is sent what these counts don't cover of what the other holds, and takes what comes.
    fn transfer(
        &mut self,
        alloc: Global,
        to: ServerId,
        from: ServerId,
        counts: &Vector,
        cut: Option<u32>,
    ) -> Transfer
        requires to { to.index < self.old.count }
        requires from { from.index < self.old.count }
        ensures { (counts_of : Stood → List ℕ) → ((before : Stood) → StandsAt self.old to.index before → counts_of before ≡ counts.now)
            → Exchanges counts_of cut self.old to.index from.index (Exchanged result) self.new }
    {
        if let ScriptServer::Stopped(_) = &self.servers[usize::from(to.index)] {
            return Transfer::NotRunning;
        }
        let answer = match self.servers[usize::from(from.index)].answer(alloc, counts) {
            Ok(answer) => answer,
            Err(transfer) => return transfer,
        };
        let input = match cut {
            Some(items) => cut_after(&answer, items),
            None => &answer,
        };
        an_answer_is_short();
        self.servers[usize::from(to.index)].take_from(alloc, input)
    }

    fn pull(&mut self, alloc: Global, to: ServerId, from: ServerId, cut: Option<u32>) -> Transfer
        requires to { to.index < self.old.count }
        requires from { from.index < self.old.count }
        ensures { ScriptStep self.old (pull to.index from.index cut) (Exchanged result) self.new }
    {
        let counts = self.servers[usize::from(to.index)].counts();
        self.transfer(alloc, to, from, &counts, cut)
    }

    fn resend(&mut self, alloc: Global, to: ServerId, from: ServerId) -> Transfer
        requires to { to.index < self.old.count }
        requires from { from.index < self.old.count }
        ensures { ScriptStep self.old (resend to.index from.index) (Exchanged result) self.new }
    {
        self.transfer(alloc, to, from, &Vector::zero(), None)
    }

    /// What becomes of a server that is to take Writes from another.
    pub(crate) fn exchange(&mut self, alloc: Global, exchange: Exchange) -> Transfer
        requires to { exchange.to.index < self.old.count }
        requires from { exchange.from.index < self.old.count }
        ensures { ScriptStep self.old (exchange_said exchange) (Exchanged result) self.new }
    {
        let Exchange { to, from, extent } = exchange;
        match extent {
            Extent::Lacking { cut } => self.pull(alloc, to, from, cut),
            Extent::All => self.resend(alloc, to, from),
        }
    }
}
