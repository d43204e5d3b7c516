ghost use Rattle.std.specs.Prelude.{◌≡◌, ◌≤◌, ◌++◌, [], Some, IfOk, OnOk, string_bytes};
ghost use Rattle.serde_json.specs.Data.{string};
ghost use Rattle.serde_json.specs.Written.{compact_text};
ghost use Rattle.bayou_base.specs.declared.limits.TheConstants.{SERVERS};
ghost use Rattle.bayou_answers.specs.declared.answer.Answer.TheVariants.{Read, Wrote};
ghost use Rattle.bayou_print.specs.Printed.{adopted_text, counts_text, transfer_text, last_text, listed_text, pulling_text, recovery_text, refusal_text, settled_text, starting_text, taking_text, totals_text, value_text};

use crate::verdict::{refused_line, verdict_line};
use bayou_answers::{Answer, Recovery, Transfer};
use bayou_audit::Totals;
use bayou_base::{Accepted, Key, Refusal, Seen, ServerId, SessionId, Value, Vector, Wid};
use bayou_frames::ChannelFault;
use bayou_lang::Outcome;
use bayou_log::Listed;
use bayou_node::NodeSettled;
use bayou_peer::{PullFault, Pulled};
use bayou_server::{StartFault, TakeFault};
use serde_json::Value as Json;
use std::alloc::{AllocError, Global};
use std::fmt;

/// Room for most lines that are printed for an operation, in bytes. It is taken at once, and no limit.
const LINE_ROOM: usize = 128;

/// The first counts of a vector, as many as there are servers.
#[derive(Drop)]
pub struct Counts<'a> {
    pub vector: &'a Vector,
    pub servers: u8,
    pub ghost in_range: { servers ≤ SERVERS },
}

impl fmt::Display for Counts<'_> {
    ghost output = { λ c. Some (counts_text c.servers c.vector.now) };

    fn fmt<W: fmt::Write>(&self, f: &mut fmt::Formatter<W>) -> fmt::Result {
        for index in 0..self.servers {
            let separator = if index > 0 { "," } else { "" };
            let count = self.vector.get(ServerId { index });
            write!(f, "{separator}{count}")?;
        }
        Ok(())
    }
}

/// The text as a JSON string.
fn json_of(alloc: Global, text: &str) -> Result<String, AllocError>
    ensures { IfOk result (λ json. string_bytes json ≡ compact_text (string text.now)) }
{
    Json::String(String::from_str(alloc, text)?).to_string(alloc)
}

/// An empty line, with room for most of those that are printed for an operation, so that it seldom grows.
fn empty_line(alloc: Global) -> Result<String, AllocError>
    ensures { IfOk result (λ line. string_bytes line ≡ []) }
{
    String::with_capacity(alloc, LINE_ROOM)
}

/// Puts what a read found after the text.
fn put_found(alloc: Global, text: &mut String, value: &Option<Value>) -> Result<(), AllocError>
    ensures { OnOk result (string_bytes text.new ≡ string_bytes text.old ++ value_text value.now) }
{
    match value {
        None => write!(text, "none"),
        Some(Value::Num(number)) => write!(text, "num {number}"),
        Some(Value::Text(found)) => {
            let json = json_of(alloc, found.as_str())?;
            write!(text, "text {json}")
        }
    }
}

/// What a read found.
pub(crate) fn found(alloc: Global, value: &Option<Value>) -> Result<String, AllocError>
    ensures { IfOk result (λ text. string_bytes text ≡ value_text value.now) }
{
    let mut text = String::new(alloc);
    put_found(alloc, &mut text, value)?;
    Ok(text)
}

/// The line of a Write in the log of a server.
pub(crate) fn listed_line(
    alloc: Global,
    server: ServerId,
    listed: &Listed,
) -> Result<String, AllocError>
    ensures { IfOk result (λ line. string_bytes line ≡ listed_text server.index listed.now) }
{
    let server = server.index;
    let (origin, seq) = (listed.wid.origin.index, listed.wid.seq);
    let clock = listed.stamp.clock;
    let mut line = empty_line(alloc)?;
    write!(line, "log {server} {origin}:{seq} clock {clock} ")?;
    match listed.outcome {
        Outcome::Updated => writeln!(line, "updated")?,
        Outcome::Merged(index) => writeln!(line, "merged {index}")?,
        Outcome::Nothing => writeln!(line, "nothing")?,
    }
    Ok(line)
}

/// Why an operation was refused.
fn refusal_words(alloc: Global, servers: u8, refusal: &Refusal) -> Result<String, AllocError>
    requires { servers ≤ SERVERS }
    ensures { IfOk result (λ text. string_bytes text ≡ refusal_text servers refusal.now) }
{
    match refusal {
        Refusal::Behind(vector) => {
            let counts = Counts { vector, servers };
            format!(in alloc; "behind at {counts}")
        }
        _ => String::from_str(alloc, refusal.word()),
    }
}

/// Why a server wasn't started.
fn starting_word(refusal: &StartFault) -> &'static str
    ensures { result.now ≡ starting_text refusal.now }
{
    match refusal {
        StartFault::Journal(_) => "journal",
        StartFault::BadRecord(_) => "record",
        StartFault::Gap(_) => "gap",
        StartFault::LogFull => "full",
        StartFault::OutOfMemory => "memory",
    }
}

/// The Write that a reopening adopted, if any.
fn adopted_words(alloc: Global, adopted: &Option<Wid>) -> Result<String, AllocError>
    ensures { IfOk result (λ text. string_bytes text ≡ adopted_text adopted.now) }
{
    match adopted {
        None => String::from_str(alloc, "none"),
        Some(wid) => {
            let (origin, seq) = (wid.origin.index, wid.seq);
            format!(in alloc; "{origin}:{seq}")
        }
    }
}

/// The line of a Write that was accepted.
fn wrote_line(
    alloc: Global,
    servers: u8,
    session: SessionId,
    accepted: &Accepted,
) -> Result<String, AllocError>
    requires { servers ≤ SERVERS }
    ensures { IfOk result (λ text. string_bytes text ≡ last_text servers (Wrote session accepted.now)) }
{
    let session = session.index;
    let (origin, seq) = (accepted.wid.origin.index, accepted.wid.seq);
    let clock = accepted.stamp.clock;
    let deps = Counts {
        vector: &accepted.deps,
        servers,
    };
    let mut line = empty_line(alloc)?;
    writeln!(
        line,
        "{session} wrote {origin}:{seq} clock {clock} deps {deps}"
    )?;
    Ok(line)
}

/// The line of a read that was served.
fn read_line(
    alloc: Global,
    servers: u8,
    session: SessionId,
    key: &Key,
    seen: &Seen,
) -> Result<String, AllocError>
    requires { servers ≤ SERVERS }
    ensures { IfOk result (λ text. string_bytes text ≡ last_text servers (Read session key.now seen.now)) }
{
    let session = session.index;
    let key = key.as_str();
    let counts = Counts {
        vector: &seen.vector,
        servers,
    };
    let mut line = empty_line(alloc)?;
    write!(line, "{session} read {key} ")?;
    put_found(alloc, &mut line, &seen.value)?;
    writeln!(line, " at {counts}")?;
    Ok(line)
}

/// The line of a server that was to be reopened or restarted.
fn recovery_line(alloc: Global, recovery: &Recovery) -> Result<String, AllocError>
    ensures { IfOk result (λ text. string_bytes text ≡ recovery_text recovery.now) }
{
    match recovery {
        Recovery::Reopened { server, adopted } => {
            let server = server.index;
            let adopted = adopted_words(alloc, adopted)?;
            format!(in alloc; "reopened {server} adopted {adopted}\n")
        }
        Recovery::NotReopened(refusal) => {
            let why = refusal.word();
            format!(in alloc; "reopen refused {why}\n")
        }
        Recovery::NotRunning => String::from_str(alloc, "reopen refused stopped\n"),
        Recovery::Restarted {
            server,
            holds,
            dropped,
        } => {
            let server = server.index;
            format!(in alloc; "restarted {server} holds {holds} dropped {dropped}\n")
        }
        Recovery::NotRestarted(refusal) => {
            let why = starting_word(refusal);
            format!(in alloc; "restart refused {why}\n")
        }
    }
}

/// Why a Write that came wasn't taken.
fn taking_word(refusal: &TakeFault) -> &'static str
    ensures { result.now ≡ taking_text refusal.now }
{
    match refusal {
        TakeFault::Conflict => "conflict",
        TakeFault::Down => "down",
        TakeFault::OwnLost => "ownlost",
        TakeFault::Gap => "gap",
        TakeFault::BadStamp => "stamp",
        TakeFault::LogFull => "full",
        TakeFault::OutOfMemory => "memory",
        TakeFault::Journal => "journal",
    }
}

/// Why a pull ended before its End.
pub fn pulling_word(fault: &PullFault) -> &'static str
    ensures { result.now ≡ pulling_text fault.now }
{
    match fault {
        PullFault::Refused(refusal) => taking_word(refusal),
        PullFault::Stream(ChannelFault::Read) => "read",
        PullFault::Stream(ChannelFault::Write) => "write",
        PullFault::Stream(ChannelFault::Cut) => "cut",
        PullFault::Stream(ChannelFault::BadFrame) => "frame",
        PullFault::Stream(ChannelFault::TooManyTurns) => "turns",
        PullFault::Stream(ChannelFault::OutOfMemory) => "memory",
    }
}

/// The line of a server that was to take Writes from another.
fn transfer_line(alloc: Global, transfer: &Transfer) -> Result<String, AllocError>
    ensures { IfOk result (λ text. string_bytes text ≡ transfer_text transfer.now) }
{
    match transfer {
        Transfer::NotRunning => String::from_str(alloc, "pull fault lost\n"),
        Transfer::Ended(Ok(Pulled { taken, had })) => format!(in alloc;
            "pulled {taken} had {had}\n"
        ),
        Transfer::Ended(Err(stopped)) => {
            let why = pulling_word(&stopped.fault);
            format!(in alloc; "pull fault {why}\n")
        }
    }
}

/// The line of what was filed so far.
fn totals_line(alloc: Global, totals: Totals) -> Result<String, AllocError>
    ensures { IfOk result (λ text. string_bytes text ≡ totals_text totals) }
{
    let Totals {
        slips,
        reads,
        writes,
        refusals,
    } = totals;
    format!(in alloc; "totals reads {reads} writes {writes} refusals {refusals} slips {slips}\n")
}

/// The line of what a node of this server comes to, once all its desks are back.
pub fn settled_line(
    alloc: Global,
    server: ServerId,
    settled: &NodeSettled,
) -> Result<String, AllocError>
    ensures { IfOk result (λ line. string_bytes line ≡ settled_text server.index settled.now) }
{
    let server = server.index;
    let (accepted, adopted) = (settled.accepted, settled.adopted);
    format!(in alloc; "settled {server} accepted {accepted} adopted {adopted}\n")
}

/// The last line that is printed for an answer where there are so many servers, or nothing.
pub fn last_line(alloc: Global, servers: u8, answer: &Answer) -> Result<String, AllocError>
    requires { servers ≤ SERVERS }
    ensures { IfOk result (λ text. string_bytes text ≡ last_text servers answer.now) }
{
    match answer {
        Answer::Done => Ok(String::new(alloc)),
        Answer::Wrote { session, accepted } => wrote_line(alloc, servers, *session, accepted),
        Answer::Read { session, key, seen } => read_line(alloc, servers, *session, key, seen),
        Answer::Refused { session, refusal } => {
            let session = session.index;
            let why = refusal_words(alloc, servers, refusal)?;
            format!(in alloc; "{session} refused {why}\n")
        }
        Answer::Lost { session } => {
            let session = session.index;
            format!(in alloc; "{session} lost\n")
        }
        Answer::NotAgain { session } => {
            let session = session.index;
            format!(in alloc; "{session} again none\n")
        }
        Answer::Logged { server, vector, .. } => {
            let server = server.index;
            let counts = Counts { vector, servers };
            format!(in alloc; "log {server} at {counts}\n")
        }
        Answer::Stopped { server } => {
            let server = server.index;
            format!(in alloc; "stopped {server}\n")
        }
        Answer::Recovered(recovery) => recovery_line(alloc, recovery),
        Answer::Exchanged(transfer) => transfer_line(alloc, transfer),
        Answer::Counted(totals) => totals_line(alloc, *totals),
        Answer::Judged(verdict) => verdict_line(alloc, verdict),
        Answer::Surveyed(Err(refusal)) => refused_line(alloc, refusal),
        Answer::Surveyed(Ok(_)) | Answer::Booked(_) => Ok(String::new(alloc)),
    }
}
