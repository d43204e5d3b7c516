//! Sessions that reach the servers of a run over links.
ghost use Rattle.std.specs.Prelude.{◌≡◌, ◌+◌, ◌<◌, ◌≤◌, None, IfOk, IfSome, length, vec_capacity, vec_len};
ghost use Rattle.bayou_fleet.specs.Opening.{IsOpened};
ghost use Rattle.bayou_fleet.specs.Operating.{AnswersAgain, AnswersAttempt, AnswersRead, AnswersWrite, IsAnswerTo, IsUnserved, KeepsOthers};
ghost use Rattle.bayou_base.specs.declared.limits.TheConstants.{MAX_PLACES};
ghost use Rattle.std.specs.List.{AllZip};
ghost use Rattle.bayou_fleet.specs.Refusals.{UnservedAs};
ghost use Rattle.bayou_session.specs.Needs.{new_session};

use crate::fault::FleetFault;
use crate::links::{SocketLink, links_to, renew};
use bayou_answers::Answer;
use bayou_audit::{AuditBook, Ledgers, Share};
use bayou_base::{Asks, Key, Refusal, ServerId, SessionId};
use bayou_client::{Client, ClientFault, LinkFault};
use bayou_lang::RestingProgram;
use bayou_net::Sockets;
use bayou_session::Session;
use bayou_text::{Attempt, Operation};
use std::alloc::{AllocError, Global};
use std::net::SocketAddr;
use std::sync::Wait;

/// A session that was opened: with its share of the book, and with a link to each server, which it keeps until it asks a Write again there.
#[derive(Drop)]
pub struct OpenSession<K: Ledgers> {
    client: Client<K>,
    who: SessionId,
    links: Vec<SocketLink>,
}

/// A session of a run.
#[derive(Drop)]
pub enum RunSession<K: Ledgers> {
    /// It wasn't opened yet. This is its share of the book.
    Unopened(Share<K>),
    /// It was opened.
    Open(OpenSession<K>),
}

// What an operation is answered that wasn't served.
fn unserved(who: SessionId, fault: ClientFault) -> Answer
    ensures told { UnservedAs who fault result }
    ensures whose { IsUnserved who result }
{
    match fault {
        ClientFault::Link(LinkFault::Refused(refusal)) => Answer::Refused {
            session: who,
            refusal,
        },
        ClientFault::Link(LinkFault::OutOfMemory) => Answer::Refused {
            session: who,
            refusal: Refusal::OutOfMemory,
        },
        ClientFault::AuditFull | ClientFault::Link(LinkFault::Lost | LinkFault::BadFrame) => {
            Answer::Lost { session: who }
        }
    }
}

impl<K: Ledgers> OpenSession<K> {
    // Opens the session whose share this is, in this run of the program.
    fn open<T: Sockets>(
        rt: &T,
        alloc: Global,
        share: Share<K>,
        run: u32,
        asks: Asks,
        addresses: &[SocketAddr],
    ) -> Result<Self, FleetFault>
        requires { 0 < run }
        ensures { IfOk result (λ opened. (opened.client.session ≡ new_session share.session run asks) × (opened.who ≡ share.session)) }
    {
        let who = share.session();
        let client = Client::new(Session::new(who, run, asks), share);
        let links = links_to(rt, alloc, addresses)?;
        Ok(OpenSession { client, who, links })
    }

    // Reads the key at the server.
    fn read<T: Wait>(
        &mut self,
        rt: &T,
        alloc: Global,
        book: &AuditBook<K>,
        server: ServerId,
        key: Key,
    ) -> Answer
        ensures { AnswersRead self.old.who self.old.client.session key result × (self.new.who ≡ self.old.who) }
    {
        let who = self.who;
        let at = usize::from(server.index);
        if at >= self.links.len() || self.client.left() == 0 {
            return Answer::Lost { session: who };
        }
        let link = &mut self.links[at];
        match self.client.read(rt, alloc, book, link, server, &key) {
            Ok(seen) => Answer::Read {
                session: who,
                key,
                seen,
            },
            Err(fault) => unserved(who, fault),
        }
    }

    // Writes at the server.
    fn write<T: Wait>(
        &mut self,
        rt: &T,
        alloc: Global,
        book: &AuditBook<K>,
        server: ServerId,
        program: RestingProgram,
    ) -> Answer
        ensures { AnswersWrite self.old.who self.old.client.session server result × (self.new.who ≡ self.old.who) }
    {
        let who = self.who;
        let at = usize::from(server.index);
        if at >= self.links.len() || self.client.left() == 0 {
            return Answer::Lost { session: who };
        }
        let link = &mut self.links[at];
        match self.client.write(rt, alloc, book, link, server, program) {
            Ok(accepted) => Answer::Wrote {
                session: who,
                accepted,
            },
            Err(fault) => unserved(who, fault),
        }
    }

    // Asks the last Write once more, at the server that it was asked at: over a new connection, which the link there goes over from then on, or
    // over the link as it is, where no connection comes about.
    #[tactic(auto, using(crate::proofs::Asking::told_none, crate::proofs::Asking::nothing_asked, crate::proofs::Asking::told_unserved, crate::proofs::Asking::kept_all, crate::proofs::Asking::kept_others))]
    fn again<T: Sockets + Wait>(
        &mut self,
        rt: &T,
        alloc: Global,
        book: &AuditBook<K>,
        addresses: &[SocketAddr],
    ) -> Answer
        ensures told { AnswersAgain self.old.who self.old.client.session self.old.client.asked result × (self.new.who ≡ self.old.who) }
        ensures none { self.old.client.asked ≡ None → self.new ≡ self.old }
        ensures full { self.old.client.session.begun ≡ MAX_PLACES → self.new ≡ self.old }
        ensures others { IfSome self.old.client.asked (λ asked. KeepsOthers asked.server.index self.old.links.items self.new.links.items) }
    {
        let who = self.who;
        let Some(server) = self.client.asked_at() else {
            return Answer::NotAgain { session: who };
        };
        let at = usize::from(server.index);
        if at >= self.links.len() || self.client.left() == 0 {
            return Answer::Lost { session: who };
        }
        let link = &mut self.links[at];
        renew(rt, addresses, at, link);
        match self.client.again(rt, alloc, book, link) {
            Ok(accepted) => Answer::Wrote {
                session: who,
                accepted,
            },
            Err(fault) => unserved(who, fault),
        }
    }

    // Does an operation.
    fn operate<T: Sockets + Wait>(
        &mut self,
        rt: &T,
        alloc: Global,
        book: &AuditBook<K>,
        addresses: &[SocketAddr],
        operation: Operation,
    ) -> Answer
        ensures { AnswersAttempt self.old.who self.old.client.session self.old.client.asked operation.attempt result × (self.new.who ≡ self.old.who) }
    {
        match operation.attempt {
            Attempt::Write { server, program } => self.write(rt, alloc, book, server, program),
            Attempt::Read { server, key } => self.read(rt, alloc, book, server, key),
            Attempt::Again => self.again(rt, alloc, book, addresses),
        }
    }

    /// Does these operations in order, and tells what each is answered. The servers are at these addresses.
    pub(crate) fn operate_all<T: Sockets + Wait>(
        &mut self,
        rt: &T,
        alloc: Global,
        book: &AuditBook<K>,
        addresses: &[SocketAddr],
        operations: Vec<Operation>,
    ) -> Result<Vec<Answer>, AllocError>
        ensures one_each { IfOk result (λ answers. vec_len answers ≡ vec_len operations) }
        ensures told { IfOk result (λ answers. AllZip (IsAnswerTo self.old.who) operations.items answers.items) }
    {
        let mut answers = Vec::with_capacity(alloc, operations.len())?;
        for operation in operations {
            answers.push_reserved(self.operate(rt, alloc, book, addresses, operation));
        }
        Ok(answers)
    }
}

impl<K: Ledgers> RunSession<K> {
    /// Opens the session, in this run of the program, where it wasn't yet.
    pub(crate) fn open<T: Sockets>(
        self,
        rt: &T,
        alloc: Global,
        run: u32,
        asks: Asks,
        addresses: &[SocketAddr],
    ) -> Result<Self, FleetFault>
        requires { 0 < run }
        ensures { IfOk result (IsOpened run asks self) }
    {
        match self {
            RunSession::Unopened(share) => Ok(RunSession::Open(OpenSession::open(
                rt, alloc, share, run, asks, addresses,
            )?)),
            RunSession::Open(session) => Ok(RunSession::Open(session)),
        }
    }
}
