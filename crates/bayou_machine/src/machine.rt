//! The machine of a script: a command enters it, and what a session hears is filed in its book.
ghost use Rattle.std.specs.Prelude.{◌≡◌, ◌≢◌, ◌<◌, [], IfErr, IfOk, IsTrue, MatchResult, None, length};
ghost use Rattle.bayou_answers.specs.declared.answer.Answer.TheVariants.{Booked};
ghost use Rattle.bayou_audit.specs.Blanks.{AreBlanksOf, named};
ghost use Rattle.bayou_base.specs.declared.limits.TheConstants.{SESSIONS as SESSIONS_NUMBER};
ghost use Rattle.bayou_script.specs.declared.audit.AuditFile.{AuditFile};
ghost use Rattle.bayou_script.specs.Script.{is_served};
ghost use Rattle.bayou_script.specs.Capacity.{operation_of};
ghost use Rattle.bayou_machine.specs.Run.{IsBooked, IsJudged, IsSurveyed, LendsFile, TakesMemory, Turn};
ghost use Rattle.bayou_machine.specs.Standing.{FailsToBegin, HasBegun};
ghost use Rattle.bayou_text.specs.Said.{command_said, operation_said, question_said};

use crate::lent::Lent;
use crate::parties::Parties;
use crate::script_book::ScriptBook;
use bayou_answers::{Answer, BeginFault, judged, surveyed};
use bayou_audit::{Blanks, Ledgers};
use bayou_script::{AuditFile, Servers};
use bayou_text::{Command, Operation, Question};
use std::alloc::{AllocError, Global};
use std::marker::Model;

/// The servers and the sessions of a script, and the book of what they were served.
#[derive(Drop)]
pub struct Machine<K: Ledgers> {
    parties: Parties,
    book: ScriptBook<K>,
}

impl<K: Ledgers> Model for Machine<K> {
    ghost use Rattle.bayou_machine.specs.Run.{ScriptState};

    ghost Value = { ScriptState };

    ghost view = { λ m. record { standing = m.parties; book = m.book } };
}

impl<K: Ledgers> Machine<K> {
    /// A script's servers as it begins, each on an empty device, no session, and a book of this capacity, in which nothing was filed.
    pub fn new(
        alloc: Global,
        blanks: Blanks,
        plan: Servers,
        capacity: usize,
    ) -> Result<Self, BeginFault>
        requires blanks { AreBlanksOf blanks (named K.Slips.name K.Slips.parts) (named K.Reads.name K.Reads.parts) (named K.Writes.name K.Writes.parts) (named K.Refusals.name K.Refusals.parts) SESSIONS_NUMBER }
        ensures begun { IfOk result (λ machine. HasBegun plan.count plan.limit machine.standing) }
        ensures none_filed { IfOk result (λ machine. machine.book ≡ record { capacity = capacity; entries = [] }) }
        ensures fault { IfErr result (FailsToBegin plan.count plan.limit) }
    {
        let parties = Parties::new(alloc, plan)?;
        let book = ScriptBook::new(alloc, blanks, capacity)?;
        Ok(Machine { parties, book })
    }

    /// The session tries an operation; what it hears is filed.
    fn operate(&mut self, alloc: Global, operation: Operation) -> Answer
        requires served { IsTrue (is_served self.old.standing.count (operation_said operation)) }
        requires room { length self.old.book.entries < self.old.book.capacity }
        ensures { Turn self.old (operation_said operation) result self.new }
    {
        let who = operation.session;
        let session = self.parties.session(who);
        let tried = self.parties.server_of(&operation);
        let answer = self.parties.operate(alloc, operation);
        if let Some(server) = tried {
            self.book.file(who, &session, server, &answer);
        }
        answer
    }

    /// What was filed so far, and what the servers hold.
    fn evidence(&self, alloc: Global) -> Result<AuditFile, AllocError>
        ensures { IfOk result (λ file. IsBooked self.now (Booked file)) }
    {
        let entries = self.book.entries(alloc)?;
        let dumps = self.parties.dumps(alloc)?;
        Ok(AuditFile {
            count: self.parties.count(),
            entries,
            dumps,
        })
    }

    /// What was filed so far, and what the servers hold, lent: what the book is answered, with nothing copied.
    pub fn lend(&self) -> Lent<'_>
        ensures { (file : AuditFile) × IsBooked self.now (Booked file) × LendsFile file result }
    {
        Lent {
            count: self.parties.count(),
            entries: self.book.filed(),
            dumps: self.parties.lend(),
        }
    }

    /// The verdict on that.
    fn judge(&self, alloc: Global) -> Result<Answer, AllocError>
        ensures { IfOk result (IsJudged self.now) }
    {
        let dumps = self.parties.lend();
        judged(alloc, self.parties.count(), self.book.filed(), &dumps)
    }

    /// The survey of that.
    fn survey(&self, alloc: Global) -> Result<Answer, AllocError>
        ensures { IfOk result (IsSurveyed self.now) }
    {
        let dumps = self.parties.lend();
        surveyed(alloc, self.parties.count(), self.book.filed(), &dumps)
    }

    /// What is asked. A long answer may want memory for which there is no answer.
    #[tactic(auto, unfolding(bayou_script::specs::Script::are_servers))]
    fn ask(&self, alloc: Global, question: Question) -> Result<Answer, AllocError>
        requires served { IsTrue (is_served self.now.standing.count (question_said question)) }
        ensures { MatchResult result (λ answer. Turn self.now (question_said question) answer self.now) (λ _. TakesMemory (question_said question)) }
    {
        match question {
            Question::Log(server) => self.parties.list(alloc, server),
            Question::Totals => Ok(Answer::Counted(self.book.totals())),
            Question::Judge => self.judge(alloc),
            Question::Survey => self.survey(alloc),
            Question::Book => Ok(Answer::Booked(self.evidence(alloc)?)),
        }
    }

    /// What the command is answered, and files what sessions hear. Only a long answer may want memory for which there is
    /// no answer.
    #[tactic(auto, unfolding(bayou_script::specs::Script::are_servers))]
    pub fn answer(&mut self, alloc: Global, command: Command) -> Result<Answer, AllocError>
        requires served { IsTrue (is_served self.old.standing.count (command_said command)) }
        requires room { operation_of (command_said command) ≢ None → length self.old.book.entries < self.old.book.capacity }
        ensures { MatchResult result
            (λ answer. Turn self.old (command_said command) answer self.new)
            (λ _. TakesMemory (command_said command) × (self.new ≡ self.old)) }
    {
        match command {
            Command::Session { session, asks } => {
                self.parties.open(session, asks);
                Ok(Answer::Done)
            }
            Command::Operation(operation) => Ok(self.operate(alloc, operation)),
            Command::Drop(session) => {
                self.parties.drop_next(session);
                Ok(Answer::Done)
            }
            Command::Trial(trial) => Ok(self.parties.put_through(alloc, trial)),
            Command::Exchange(exchange) => {
                Ok(Answer::Exchanged(self.parties.exchange(alloc, exchange)))
            }
            Command::Question(question) => self.ask(alloc, question),
            Command::Phase => Ok(Answer::Done),
        }
    }
}
