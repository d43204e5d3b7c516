//! All the faults of a text.
ghost use Rattle.std.specs.Prelude.{◌≡◌, ◌↔◌, ◌≤◌, IfOk, MatchOption, None, Some, vec_len};
ghost use Rattle.bayou_script.specs.Order.{lines_of};
ghost use Rattle.bayou_check.specs.declared.kind.TextKind.TheVariants.{Audit, Script};
ghost use Rattle.bayou_check.specs.Checked.{ChecksAudit, ChecksNetwork, ChecksScript, IsTaken, IsTakenAs, least_told};

use crate::cut::{Lines, Numbered, count_lines};
use crate::kind::TextKind;
use crate::least::{Least, least_fault};
use crate::look::look_line;
use crate::report::Report;
use crate::standing::LinesStanding;
use crate::telling::{Faulty, tell};
use crate::told::{FaultyLine, Looked, Mistake};
use crate::within::headed;
use bayou_base::{SERVERS, SESSIONS, SessionId};
use bayou_script::laws::{a_script_is_read_in_one_way, an_audit_file_is_read_in_one_way};
use bayou_script::{AuditDraft, Draft, NetworkDraft, ScriptFault};
use bayou_text::{Command, Line, LineFault, read_line};
use serde_json::Value as Json;
use std::alloc::{AllocError, Global};
use std::str;

/// How many lines with a fault are reported, after the first one. More are counted.
pub const MAX_TOLD: usize = 1_000;

// The word that the line begins with, if it is JSON that begins with one: whether it is one of an audit file alone, or one of a script alone.
fn kind_of_line(alloc: Global, bytes: &[u8]) -> Result<Option<TextKind>, AllocError> {
    let Some(json) = json_of(alloc, bytes)? else {
        return Ok(None);
    };
    let Some((word, _)) = headed(&json) else {
        return Ok(None);
    };
    Ok(match word {
        "servers" => None,
        "entry" | "held" => Some(TextKind::Audit),
        _ if TextKind::Script.known().contains(&word) => Some(TextKind::Script),
        _ => None,
    })
}

// That of the first line whose word only one kind has. A text without one is a script.
fn kind_by_words(alloc: Global, text: &[u8]) -> Result<TextKind, AllocError> {
    let mut lines = Lines::of(text);
    while let Some(line) = lines.take() {
        if let Some(kind) = kind_of_line(alloc, line.bytes)? {
            return Ok(kind);
        }
    }
    Ok(TextKind::Script)
}

/// Which kind of text it is: one that it is taken as, if it is taken; else that of its first line whose word only one kind has. A text without one
/// is a script.
pub fn kind_of(alloc: Global, text: &[u8]) -> Result<TextKind, AllocError>
    ensures { IfOk result (λ kind. IsTaken (lines_of text.now) → IsTakenAs kind (lines_of text.now)) }
{
    a_script_is_read_in_one_way();
    an_audit_file_is_read_in_one_way();
    let Some(_) = least_fault::<Draft>(alloc, text)? else {
        return Ok(TextKind::Script);
    };
    let Some(_) = least_fault::<AuditDraft>(alloc, text)? else {
        return Ok(TextKind::Audit);
    };
    kind_by_words(alloc, text)
}

// What the bytes are as JSON, if they are.
fn json_of(alloc: Global, bytes: &[u8]) -> Result<Option<Json>, AllocError> {
    let Ok(text) = str::from_utf8(bytes) else {
        return Ok(None);
    };
    match Json::from_str(alloc, text) {
        Ok(json) => Ok(Some(json)),
        Err(fault) if fault.is_memory() => Err(AllocError),
        Err(_) => Ok(None),
    }
}

// For each session the first line that opens it, wherever that stands; 0 where none does.
fn opens_of(alloc: Global, text: &[u8]) -> Result<[u64; SESSIONS], AllocError> {
    let mut opens = [0; SESSIONS];
    let mut lines = Lines::of(text);
    while let Some(line) = lines.take() {
        if let Some(session) = opened_by(alloc, line.bytes)? {
            let who = usize::from(session.index);
            if opens[who] == 0 {
                opens[who] = line.number;
            }
        }
    }
    Ok(opens)
}

fn opened_by(alloc: Global, bytes: &[u8]) -> Result<Option<SessionId>, AllocError> {
    let Some(json) = json_of(alloc, bytes)? else {
        return Ok(None);
    };
    Ok(session_meant(&json))
}

// The session that a `session` line speaks of, read or not.
fn session_meant(json: &Json) -> Option<SessionId> {
    let (word, members) = headed(json)?;
    if word != "session" {
        return None;
    }
    SessionId::new(number_meant(members.get(1), 0, SESSIONS as u8 - 1)?)
}

// The kind of a line's own fault; want of memory is none.
fn fault_of(fault: LineFault) -> Result<ScriptFault, AllocError> {
    match fault {
        LineFault::OutOfMemory => Err(AllocError),
        LineFault::NotJson => Ok(ScriptFault::NotJson),
        LineFault::BadShape(_) => Ok(ScriptFault::BadShape),
        LineFault::Key(_) => Ok(ScriptFault::BadKey),
        LineFault::Program(_) => Ok(ScriptFault::BadProgram),
    }
}

// The number that a member is, or that its text says, if it is one from here to there.
fn number_meant(json: Option<&Json>, least: u8, most: u8) -> Option<u8> {
    let json = json?;
    let number = match json.as_str() {
        Some(text) => text.parse::<u8>().ok()?,
        None => u8::try_from(json.as_u64()?).ok()?,
    };
    if least <= number && number <= most {
        Some(number)
    } else {
        None
    }
}

// Goes on after a line with a fault, which is as if it weren't there: but the servers and the session that it speaks of are there.
fn presume(standing: &mut LinesStanding, number: u64, json: &Json) {
    if let Some(session) = session_meant(json) {
        standing.presume_session(number, session);
    }
    if let Some(("servers", members)) = headed(json) {
        let count = number_meant(members.get(1), 1, SERVERS as u8);
        standing.presume_servers(number, count.unwrap_or(SERVERS as u8));
    }
}

/// What a look at a line comes to.
#[derive(Drop)]
enum Seen {
    /// It says something that has its place, or nothing.
    Well,
    Faulty(ScriptFault, Option<Mistake>),
}

// A line that wasn't read.
fn look_unread(
    alloc: Global,
    kind: TextKind,
    standing: &mut LinesStanding,
    line: Numbered<'_>,
    fault: ScriptFault,
) -> Result<Seen, AllocError> {
    let Some(json) = json_of(alloc, line.bytes)? else {
        return Ok(Seen::Faulty(fault, None));
    };
    presume(standing, line.number, &json);
    let looked: Looked = look_line(alloc, kind, &json);
    Ok(Seen::Faulty(fault, looked?))
}

// A line, after those that were looked at.
fn look_at(
    alloc: Global,
    kind: TextKind,
    standing: &mut LinesStanding,
    line: Numbered<'_>,
) -> Result<Seen, AllocError> {
    if line.bytes.is_empty() {
        return Ok(Seen::Well);
    }
    let read = match read_line(alloc, line.bytes) {
        Ok(read) => read,
        Err(fault) => return look_unread(alloc, kind, standing, line, fault_of(fault)?),
    };
    let Some(mistake) = standing.look(alloc, kind, line.number, &read)? else {
        standing.take(line.number, &read);
        return Ok(Seen::Well);
    };
    if let Line::Command(Command::Session { session, .. }) = read {
        standing.presume_session(line.number, session);
    }
    standing.presume_start(line.number);
    Ok(Seen::Faulty(ScriptFault::OutOfPlace, Some(mistake)))
}

// The lines before this one, which have no fault; and this one, which each text has.
fn lines_before<'a>(
    alloc: Global,
    kind: TextKind,
    standing: &mut LinesStanding,
    lines: &mut Lines<'a>,
    number: u64,
) -> Result<&'a [u8], AllocError> {
    while let Some(line) = lines.take() {
        if line.number >= number {
            return Ok(line.bytes);
        }
        look_at(alloc, kind, standing, line)?;
    }
    Ok(b"")
}

// The lines that are left: those with a fault, and how many have one.
fn lines_behind(
    alloc: Global,
    kind: TextKind,
    standing: &mut LinesStanding,
    lines: &mut Lines<'_>,
) -> Result<(Vec<FaultyLine>, u64), AllocError>
    ensures { IfOk result (λ told. vec_len told.0 ≤ told.1) }
{
    let mut others = Vec::new(alloc);
    let mut faults: u64 = 0;
    while let Some(line) = lines.take() {
        let Seen::Faulty(fault, mistake) = look_at(alloc, kind, standing, line)? else {
            continue;
        };
        faults = faults.saturating_add(1);
        if others.len() < MAX_TOLD {
            let faulty = Faulty {
                number: line.number,
                fault,
                bytes: line.bytes,
            };
            others.push(tell(alloc, faulty, mistake)?)?;
        }
    }
    Ok((others, faults))
}

// The least line with a fault, as it is reported.
fn tell_least(
    alloc: Global,
    kind: TextKind,
    standing: &mut LinesStanding,
    least: Least,
    bytes: &[u8],
) -> Result<FaultyLine, AllocError>
    ensures { IfOk result (λ told. (told.line ≡ least.number) × (told.fault ≡ least.fault)) }
{
    let line = Numbered {
        number: least.number,
        bytes,
    };
    let mistake = match look_at(alloc, kind, standing, line)? {
        Seen::Faulty(_, mistake) => mistake,
        Seen::Well => None,
    };
    let faulty = Faulty {
        number: least.number,
        fault: least.fault,
        bytes,
    };
    tell(alloc, faulty, mistake)
}

// What is reported of a text that is refused for this line.
fn refused(
    alloc: Global,
    kind: TextKind,
    text: &[u8],
    least: Least,
    network: Option<Least>,
) -> Result<Report, AllocError>
    ensures kind { IfOk result (λ report. report.kind ≡ kind) }
    ensures least { IfOk result (λ report. least_told report ≡ Some least) }
    ensures network { IfOk result (λ report. report.network ≡ network) }
{
    let mut standing = LinesStanding::new(opens_of(alloc, text)?);
    let mut lines = Lines::of(text);
    let bytes = lines_before(alloc, kind, &mut standing, &mut lines, least.number)?;
    let told = tell_least(alloc, kind, &mut standing, least, bytes)?;
    let (others, more) = lines_behind(alloc, kind, &mut standing, &mut lines)?;
    Ok(Report {
        kind,
        least: Some(told),
        others,
        faults: more.saturating_add(1),
        lines: count_lines(text),
        counts: standing.counts,
        network,
    })
}

// What is reported of a text that isn't refused.
fn taken(
    alloc: Global,
    kind: TextKind,
    text: &[u8],
    network: Option<Least>,
) -> Result<Report, AllocError>
    ensures kind { IfOk result (λ report. report.kind ≡ kind) }
    ensures least { IfOk result (λ report. report.least ≡ None) }
    ensures network { IfOk result (λ report. report.network ≡ network) }
{
    let mut standing = LinesStanding::new([0; SESSIONS]);
    let mut lines = Lines::of(text);
    while let Some(line) = lines.take() {
        look_at(alloc, kind, &mut standing, line)?;
    }
    Ok(Report {
        kind,
        least: None,
        others: Vec::new(alloc),
        faults: 0,
        lines: count_lines(text),
        counts: standing.counts,
        network,
    })
}

fn report_of(
    alloc: Global,
    kind: TextKind,
    text: &[u8],
    least: Option<Least>,
    network: Option<Least>,
) -> Result<Report, AllocError>
    ensures kind { IfOk result (λ report. report.kind ≡ kind) }
    ensures least { IfOk result (λ report. least_told report ≡ least) }
    ensures network { IfOk result (λ report. report.network ≡ network) }
{
    match least {
        Some(least) => refused(alloc, kind, text, least, network),
        None => taken(alloc, kind, text, network),
    }
}

/// What is reported of a script.
pub fn check_script(alloc: Global, text: &[u8]) -> Result<Report, AllocError>
    ensures kind { IfOk result (λ report. report.kind ≡ Script) }
    ensures least { IfOk result (λ report. ChecksScript (lines_of text.now) (least_told report)) }
    ensures network { IfOk result (λ report. ChecksNetwork (lines_of text.now) report.network) }
{
    let least = least_fault::<Draft>(alloc, text)?;
    let network = least_fault::<NetworkDraft>(alloc, text)?;
    report_of(alloc, TextKind::Script, text, least, network)
}

/// What is reported of an audit file.
pub fn check_audit(alloc: Global, text: &[u8]) -> Result<Report, AllocError>
    ensures kind { IfOk result (λ report. report.kind ≡ Audit) }
    ensures least { IfOk result (λ report. ChecksAudit (lines_of text.now) (least_told report)) }
{
    let least = least_fault::<AuditDraft>(alloc, text)?;
    report_of(alloc, TextKind::Audit, text, least, None)
}

/// What is reported of a text, as the kind that it is. Nothing is wrong with a text that is taken as either kind, and with no other.
pub fn check_text(alloc: Global, text: &[u8]) -> Result<Report, AllocError>
    ensures nothing { IfOk result (λ report. (report.least ≡ None) ↔ IsTaken (lines_of text.now)) }
    ensures script { IfOk result (λ report. report.kind ≡ Script → ChecksScript (lines_of text.now) (least_told report)) }
    ensures audit { IfOk result (λ report. report.kind ≡ Audit → ChecksAudit (lines_of text.now) (least_told report)) }
{
    a_script_is_read_in_one_way();
    an_audit_file_is_read_in_one_way();
    match kind_of(alloc, text)? {
        TextKind::Script => check_script(alloc, text),
        TextKind::Audit => check_audit(alloc, text),
    }
}
