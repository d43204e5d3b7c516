//! What is asked of a run when sessions and pulls have ended.
ghost use Rattle.std.specs.Prelude.{◌≡◌, ◌<◌, ◌≤◌, Err, IfErr, IfOk, List, Ok, vec_len};
ghost use Rattle.bayou_base.specs.declared.limits.TheConstants.{SERVERS};
ghost use Rattle.bayou_base.specs.declared.entry.Entry.{Entry as Filed};
ghost use Rattle.bayou_answers.specs.declared.answer.Answer.TheVariants.{Booked, Recovered};
ghost use Rattle.bayou_answers.specs.declared.answer.Recovery.{Recovery as Recovering};
ghost use Rattle.bayou_fleet.specs.Closings.{AnswersClosing, AnswersQuestion, IsLogged, IsReopening};
ghost use Rattle.bayou_fleet.specs.Refusals.{reopening_told, undumped};
ghost use Rattle.bayou_fleet.specs.Servers.{InOne};
ghost use Rattle.bayou_lang.specs.Writes.{count_of};
ghost use Rattle.bayou_log.specs.Listing.{listing_of};
ghost use Rattle.bayou_lang.specs.declared.write.Write.{Write as Held};
ghost use Rattle.bayou_script.specs.declared.audit.AuditFile.{AuditFile as Filing};
ghost use Rattle.bayou_answers.specs.Verdicts.{IsSurveyOn, IsVerdictOn};

use crate::fault::FleetFault;
use crate::links::{SocketLink, links_to};
use crate::mailbox::Mailbox;
use crate::network::Network;
use crate::phase::Closing;
use bayou_answers::{Answer, Recovery, judged, surveyed};
use bayou_audit::Ledgers;
use bayou_base::{Entry, Refusal, ServerId, Vector, Wid};
use bayou_client::LinkFault;
use bayou_judge::lend_dumps;
use bayou_lang::RestingWrite;
use bayou_log::Listed;
use bayou_net::Sockets;
use bayou_script::AuditFile;
use bayou_text::Question;
use std::alloc::Global;
use std::sync::Wait;

/// Whoever asks what closes the phases of a run, with a link to each server.
#[derive(Drop)]
pub struct Inquiry {
    count: u8,
    links: Vec<SocketLink>,
    ghost count_in_range: { (0 < count) × (count ≤ SERVERS) },
    ghost one_each: { vec_len links ≡ count },
}

// What the reply to a reopening tells; without one the run ends.
fn recovery_of(
    server: ServerId,
    told: Result<Option<Wid>, LinkFault>,
) -> Result<Recovery, FleetFault>
    ensures told { result ≡ reopening_told server told }
    ensures whose { IfOk result (λ recovery. IsReopening server recovery) }
{
    match told {
        Ok(adopted) => Ok(Recovery::Reopened { server, adopted }),
        Err(LinkFault::Refused(refusal)) => Ok(Recovery::NotReopened(refusal)),
        Err(LinkFault::OutOfMemory) => Err(FleetFault::Memory),
        Err(LinkFault::Lost | LinkFault::BadFrame) => Err(FleetFault::Network),
    }
}

// What a server sends of what it holds; without it the run ends.
fn dump_of(told: Result<Vec<RestingWrite>, LinkFault>) -> Result<Vec<RestingWrite>, FleetFault>
    ensures sent { IfOk told (λ writes. result ≡ Ok writes) }
    ensures unsent { IfErr told (λ fault. result ≡ Err (undumped fault)) }
{
    match told {
        Ok(writes) => Ok(writes),
        Err(LinkFault::OutOfMemory | LinkFault::Refused(Refusal::OutOfMemory)) => {
            Err(FleetFault::Memory)
        }
        Err(_) => Err(FleetFault::Network),
    }
}

impl Inquiry {
    /// A link to each server.
    pub fn new<K: Ledgers, T: Sockets>(
        rt: &T,
        alloc: Global,
        network: &Network<K>,
    ) -> Result<Self, FleetFault>
        ensures { IfOk result (λ inquiry. inquiry.count ≡ network.now.count) }
    {
        let count = network.count;
        let links = links_to(rt, alloc, network.addresses.as_slice())?;
        Ok(Inquiry { count, links })
    }

    // Has the server open its journal again.
    fn reopen(&mut self, alloc: Global, server: ServerId) -> Result<Answer, FleetFault>
        ensures answered { IfOk result (λ answer. (recovery : Recovering) × (answer ≡ Recovered recovery) × IsReopening server recovery) }
        ensures same { self.new.count ≡ self.old.count }
    {
        let at = usize::from(server.index);
        if at >= self.links.len() {
            return Err(FleetFault::Network);
        }
        let recovery = recovery_of(server, self.links[at].reopen(alloc))?;
        Ok(Answer::Recovered(recovery))
    }

    // What each server sends of what it holds.
    fn sent(&mut self, alloc: Global) -> Result<Vec<Vec<RestingWrite>>, FleetFault>
        ensures dumps { IfOk result (λ dumps. vec_len dumps ≡ self.old.count) }
        ensures same { self.new.count ≡ self.old.count }
    {
        let mut dumps = Vec::new(alloc);
        for at in 0..self.count {
            let link = &mut self.links[usize::from(at)];
            dumps.push(dump_of(link.dump(alloc))?)?;
        }
        Ok(dumps)
    }

    // The audit file of what was filed so far, and of what the servers send.
    fn book<K: Ledgers, T: Wait>(
        &mut self,
        rt: &T,
        alloc: Global,
        network: &Network<K>,
    ) -> Result<Answer, FleetFault>
        ensures answered { IfOk result (λ answer. (file : Filing) × (answer ≡ Booked file) × (file.count ≡ self.old.count)) }
        ensures same { self.new.count ≡ self.old.count }
    {
        let entries = network.book.entries(rt, alloc)?;
        let dumps = self.sent(alloc)?;
        Ok(Answer::Booked(AuditFile {
            count: self.count,
            entries,
            dumps,
        }))
    }

    // Answers a question.
    fn ask<K: Ledgers, T: Wait>(
        &mut self,
        rt: &T,
        alloc: Global,
        network: &Network<K>,
        question: Question,
    ) -> Result<Answer, FleetFault>
        ensures answered { IfOk result (AnswersQuestion network.now.mailboxes.items self.old.count question) }
        ensures same { self.new.count ≡ self.old.count }
    {
        match question {
            Question::Log(server) => logged(rt, alloc, &network.mailboxes, server),
            Question::Totals => Ok(Answer::Counted(network.book.totals(rt))),
            Question::Judge => verdict(rt, alloc, network, self.count),
            Question::Survey => survey(rt, alloc, network, self.count),
            Question::Book => self.book(rt, alloc, network),
        }
    }

    /// Does what closes a phase, and tells what it is answered.
    pub fn answer<K: Ledgers, T: Wait>(
        &mut self,
        rt: &T,
        alloc: Global,
        network: &Network<K>,
        closing: Closing,
    ) -> Result<Answer, FleetFault>
        ensures answered { IfOk result (AnswersClosing network.now.mailboxes.items self.old.count closing) }
        ensures same { self.new.count ≡ self.old.count }
    {
        match closing {
            Closing::Reopen(server) => self.reopen(alloc, server),
            Closing::Question(question) => self.ask(rt, alloc, network, question),
            Closing::Phase => Ok(Answer::Done),
        }
    }
}

// The log of the server of this index, and its vector. Where there is no such server, it holds nothing.
fn log_at<T: Wait>(
    rt: &T,
    alloc: Global,
    mailboxes: &[Mailbox],
    at: usize,
) -> Result<(Vec<Listed>, Vector), FleetFault>
    ensures lists { IfOk result (λ log. InOne mailboxes.now at (λ core. log.0.items ≡ listing_of core.held)) }
    ensures counts { IfOk result (λ log. InOne mailboxes.now at (λ core. log.1 ≡ count_of core.held)) }
{
    match mailboxes.get(at) {
        Some(mailbox) => mailbox.log(rt),
        None => Ok((Vec::new(alloc), Vector::zero())),
    }
}

// What the server holds.
fn logged<T: Wait>(
    rt: &T,
    alloc: Global,
    mailboxes: &[Mailbox],
    server: ServerId,
) -> Result<Answer, FleetFault>
    ensures { IfOk result (IsLogged mailboxes.now server) }
{
    let at = usize::from(server.index);
    let (listing, vector) = log_at(rt, alloc, mailboxes, at)?;
    Ok(Answer::Logged {
        server,
        listing,
        vector,
    })
}

// What each of so many servers holds, in order of receipt.
fn dumps<T: Wait>(
    rt: &T,
    alloc: Global,
    mailboxes: &[Mailbox],
    count: u8,
) -> Result<Vec<Vec<RestingWrite>>, FleetFault>
    ensures { IfOk result (λ dumps. vec_len dumps ≡ count) }
{
    let mut dumps = Vec::new(alloc);
    for at in 0..count {
        let dump = match mailboxes.get(usize::from(at)) {
            Some(mailbox) => mailbox.dump(rt)?,
            None => Vec::new(alloc),
        };
        dumps.push(dump)?;
    }
    Ok(dumps)
}

// The verdict on what was filed so far and what each of so many servers holds.
fn verdict<K: Ledgers, T: Wait>(
    rt: &T,
    alloc: Global,
    network: &Network<K>,
    count: u8,
) -> Result<Answer, FleetFault>
    requires { (0 < count) × (count ≤ SERVERS) }
    ensures { IfOk result (λ answer. (entries : List Filed) × (dumps : List (List Held)) × IsVerdictOn count entries dumps answer) }
{
    let entries = network.book.entries(rt, alloc)?;
    let dumps = dumps(rt, alloc, &network.mailboxes, count)?;
    Ok(judged(alloc, count, &entries, &lend_dumps(&dumps))?)
}

// The survey of that.
fn survey<K: Ledgers, T: Wait>(
    rt: &T,
    alloc: Global,
    network: &Network<K>,
    count: u8,
) -> Result<Answer, FleetFault>
    requires { (0 < count) × (count ≤ SERVERS) }
    ensures { IfOk result (λ answer. (entries : List Filed) × (dumps : List (List Held)) × IsSurveyOn count entries dumps answer) }
{
    let entries = network.book.entries(rt, alloc)?;
    let dumps = dumps(rt, alloc, &network.mailboxes, count)?;
    Ok(surveyed(alloc, count, &entries, &lend_dumps(&dumps))?)
}
