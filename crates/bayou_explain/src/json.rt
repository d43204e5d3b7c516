//! An audit as lines of JSON, an object each.
ghost use Rattle.std.specs.Prelude.{◌≡◌, ◌≤◌, IfOk, length, string_bytes};
ghost use Rattle.bayou_base.specs.declared.limits.TheConstants.{SERVERS};
ghost use Rattle.bayou_explain.specs.Json.{TellEachAsJson, TellsBreachAsJson, bad_json, breach_json, counted_json, fields_json, found_json, lack_json, places_json, reads_json, surveyed_json, surveys_json, verdict_json, word_of, writes_json};

use crate::counted::counts_of;
use crate::dumped::held_at;
use crate::each_server::first_counts;
use crate::explained::{Explained, ShownLine, explain_each, held};
use crate::line::Located;
use crate::misfit::{DumpMisfit, dump_at, misfit_at};
use crate::refused::{Cause, explain_forged};
use crate::telling::line_of;
use bayou_judge::{BadEvidence, Breach, Guarantee, Surveyed, Verdict};
use bayou_lang::RestingWrite;
use std::alloc::{AllocError, Global};

/// The word of a guarantee, as a survey has it.
fn word_in_survey(guarantee: Guarantee) -> &'static str
    ensures { result.now ≡ word_of guarantee }
{
    match guarantee {
        Guarantee::ReadYourWrites => "ryw",
        Guarantee::MonotonicReads => "mr",
        Guarantee::WritesFollowReads => "wfr",
        Guarantee::MonotonicWrites => "mw",
    }
}

// The places of a breach.
fn places(alloc: Global, breach: &Breach) -> Result<String, AllocError>
    ensures { IfOk result (λ text. string_bytes text ≡ places_json breach.now) }
{
    let (first, second) = (breach.first, breach.second);
    format!(in alloc; "\"first\":{first},\"second\":{second}")
}

// What a breach lacks, and where.
fn lack(alloc: Global, breach: &Breach) -> Result<String, AllocError>
    ensures { IfOk result (λ text. string_bytes text ≡ lack_json breach.now) }
{
    let server = breach.server.index;
    let (origin, seq) = (breach.wid.origin.index, breach.wid.seq);
    format!(in alloc; "\"server\":{server},\"wid\":[{origin},{seq}]")
}

// Where a breach shows.
fn fields(alloc: Global, breach: &Breach) -> Result<String, AllocError>
    ensures { IfOk result (λ text. string_bytes text ≡ fields_json breach.now) }
{
    let places = places(alloc, breach)?;
    let lack = lack(alloc, breach)?;
    format!(in alloc; "{places},{lack}")
}

// A breach with its guarantee and its session.
fn breach_object(alloc: Global, breach: &Breach) -> Result<String, AllocError>
    ensures { IfOk result (λ text. string_bytes text ≡ breach_json breach.now) }
{
    let word = word_in_survey(breach.guarantee);
    let session = breach.session.index;
    let fields = fields(alloc, breach)?;
    format!(in alloc; "\"guarantee\":\"{word}\",\"session\":{session},{fields}")
}

// Why there is no verdict.
fn bad_object(alloc: Global, bad: &BadEvidence) -> Result<String, AllocError>
    ensures { IfOk result (λ text. string_bytes text ≡ bad_json bad.now) }
{
    match bad {
        BadEvidence::BadDump(server, place) => {
            let server = server.index;
            format!(in alloc; "\"dump\":{server},\"place\":{place}")
        }
        BadEvidence::Forged(number) => format!(in alloc; "\"entry\":{number}"),
    }
}

/// The verdict, in a line.
pub fn verdict_object(
    alloc: Global,
    verdict: &Result<Verdict, BadEvidence>,
) -> Result<String, AllocError>
    ensures { IfOk result (λ text. string_bytes text ≡ verdict_json verdict.now) }
{
    match verdict {
        Ok(Verdict::Clean) => { "{\"kind\":\"verdict\",\"verdict\":\"clean\"}\n".to_string(alloc) }
        Ok(Verdict::Broken(breach)) => {
            let breach = breach_object(alloc, breach)?;
            format!(in alloc; "{{\"kind\":\"verdict\",\"verdict\":\"broken\",{breach}}}\n")
        }
        Err(bad) => {
            let bad = bad_object(alloc, bad)?;
            format!(in alloc; "{{\"kind\":\"verdict\",\"verdict\":\"refused\",{bad}}}\n")
        }
    }
}

// What became of a guarantee.
fn found(alloc: Global, found: &Option<Breach>) -> Result<String, AllocError>
    ensures { IfOk result (λ text. string_bytes text ≡ found_json found.now) }
{
    match found {
        Some(breach) => {
            let fields = fields(alloc, breach)?;
            format!(in alloc; "{{{fields}}}")
        }
        None => "null".to_string(alloc),
    }
}

// The two guarantees of reads.
fn reads(alloc: Global, surveyed: &Surveyed) -> Result<String, AllocError>
    ensures { IfOk result (λ text. string_bytes text ≡ reads_json surveyed.now) }
{
    let ryw = found(alloc, &surveyed.ryw)?;
    let mr = found(alloc, &surveyed.mr)?;
    format!(in alloc; "\"ryw\":{ryw},\"mr\":{mr}")
}

// The two guarantees of Writes.
fn writes(alloc: Global, surveyed: &Surveyed) -> Result<String, AllocError>
    ensures { IfOk result (λ text. string_bytes text ≡ writes_json surveyed.now) }
{
    let wfr = found(alloc, &surveyed.wfr)?;
    let mw = found(alloc, &surveyed.mw)?;
    format!(in alloc; "\"wfr\":{wfr},\"mw\":{mw}")
}

// What became of a session, in a line.
fn surveyed_object(alloc: Global, surveyed: &Surveyed) -> Result<String, AllocError>
    ensures { IfOk result (λ text. string_bytes text ≡ surveyed_json surveyed.now) }
{
    let session = surveyed.session.index;
    let reads = reads(alloc, surveyed)?;
    let writes = writes(alloc, surveyed)?;
    format!(in alloc; "{{\"kind\":\"survey\",\"session\":{session},{reads},{writes}}}\n")
}

/// A survey, a line for each session.
pub fn survey_objects(alloc: Global, survey: &[Surveyed]) -> Result<String, AllocError>
    ensures { IfOk result (λ text. string_bytes text ≡ surveys_json survey.now) }
{
    let mut text = String::new(alloc);
    for surveyed in survey {
        let line = surveyed_object(alloc, surveyed)?;
        text.push_str(line.as_str())?;
    }
    Ok(text)
}

// Where the line is among the lines of its text.
fn at_of(line: Option<ShownLine<'_>>) -> Option<usize> {
    match line {
        Some(line) => Some(line.at),
        None => None,
    }
}

// The number of a line; none where there is no line.
fn number(alloc: Global, line: Option<usize>) -> Result<String, AllocError> {
    match line {
        Some(at) => {
            let number = (at as u64).saturating_add(1);
            format!(in alloc; "{number}")
        }
        None => "null".to_string(alloc),
    }
}

// The lines that show a breach.
fn lines(alloc: Global, explained: &Explained<'_>) -> Result<String, AllocError> {
    let first = number(alloc, at_of(explained.first))?;
    let second = number(alloc, at_of(explained.second))?;
    let write = number(alloc, at_of(explained.write))?;
    let there = number(alloc, at_of(explained.there))?;
    format!(in alloc;
        "\"lines\":{{\"first\":{first},\"second\":{second},\"write\":{write},\"there\":{there}}}"
    )
}

// A breach with the lines that show it, in a line.
fn explained_object(alloc: Global, explained: &Explained<'_>) -> Result<String, AllocError>
    ensures { IfOk result (λ text. TellsBreachAsJson explained.now.breach (string_bytes text)) }
{
    let breach = breach_object(alloc, &explained.breach)?;
    let lines = lines(alloc, explained)?;
    format!(in alloc; "{{\"kind\":\"breach\",{breach},{lines}}}\n")
}

/// Each of the breaches with the lines that show it, in a line; nothing where there is none.
pub fn explanation_objects(
    alloc: Global,
    lines: &[Located<'_>],
    breaches: &[Breach],
) -> Result<String, AllocError>
    ensures { IfOk result (λ text. TellEachAsJson breaches.now (string_bytes text)) }
{
    let list = explain_each(alloc, lines, breaches)?;
    let mut text = String::new(alloc);
    for explained in list.as_slice() {
        let told = explained_object(alloc, explained)?;
        text.push_str(told.as_str())?;
    }
    Ok(text)
}

/// How many breaches there are in all, in a line.
pub fn counted_object(alloc: Global, breaches: usize) -> Result<String, AllocError>
    ensures { IfOk result (λ text. string_bytes text ≡ counted_json breaches) }
{
    format!(in alloc; "{{\"kind\":\"breaches\",\"count\":{breaches}}}\n")
}

// The word of a condition that an entry fails.
fn cause_word(cause: Option<Cause<'_>>) -> &'static str {
    match cause {
        Some(Cause::Place(_)) => "place",
        Some(Cause::Asks(_)) => "asks",
        Some(Cause::Origin) => "origin",
        Some(Cause::Again(_)) => "again",
        Some(Cause::Lost) => "lost",
        Some(Cause::Differs(_)) => "differs",
        Some(Cause::Database) => "database",
        None => "unknown",
    }
}

// A condition that a Write fails: its word, what is found, and what is expected or held.
fn misfit_fields(alloc: Global, misfit: Option<DumpMisfit>) -> Result<String, AllocError> {
    match misfit {
        Some(DumpMisfit::Origin(origin)) => {
            let origin = origin.index;
            format!(in alloc; "\"condition\":\"origin\",\"found\":{origin}")
        }
        Some(DumpMisfit::Number { wid, held }) => {
            let seq = wid.seq;
            format!(in alloc; "\"condition\":\"number\",\"found\":{seq},\"held\":{held}")
        }
        Some(
            DumpMisfit::Counts {
                server,
                counted,
                held,
            },
        ) => {
            format!(in alloc;
                "\"condition\":\"counts\",\"of\":{server},\"found\":{counted},\"held\":{held}"
            )
        }
        Some(DumpMisfit::Own { wid, counted }) => {
            let seq = wid.seq;
            format!(in alloc; "\"condition\":\"own\",\"found\":{counted},\"number\":{seq}")
        }
        Some(DumpMisfit::Clock { found, expected }) => {
            format!(in alloc; "\"condition\":\"clock\",\"found\":{found},\"expected\":{expected}")
        }
        Some(
            DumpMisfit::Past {
                server,
                counted,
                held,
            },
        ) => {
            format!(in alloc;
                "\"condition\":\"past\",\"of\":{server},\"found\":{counted},\"held\":{held}"
            )
        }
        Some(DumpMisfit::Other { server, .. }) => {
            let server = server.index;
            format!(in alloc; "\"condition\":\"other\",\"of\":{server}")
        }
        None => "\"condition\":\"unknown\"".to_string(alloc),
    }
}

// The line that a misfit names.
fn against(lines: &[Located<'_>], misfit: Option<DumpMisfit>) -> Option<usize> {
    match misfit {
        Some(DumpMisfit::Other { server, wid }) => match held(lines, server, wid) {
            Some(shown) => Some(shown.at),
            None => None,
        },
        _ => None,
    }
}

/// Why the verdict on lines and on the dumps that they tell is refused, in a line: the line of the entry or of the Write, which condition it fails, and the line that it
/// doesn't go with.
pub fn refusal_object(
    alloc: Global,
    lines: &[Located<'_>],
    count: u8,
    dumps: &[&[RestingWrite]],
    bad: BadEvidence,
) -> Result<String, AllocError> {
    match bad {
        BadEvidence::BadDump(server, place) => {
            let misfit = misfit_at(count, dumps, server, place);
            let line = number(alloc, at_of(held_at(lines, server, place)))?;
            let fields = misfit_fields(alloc, misfit)?;
            let against = number(alloc, against(lines, misfit))?;
            format!(in alloc;
                "{{\"kind\":\"refusal\",\"line\":{line},{fields},\"against\":{against}}}\n"
            )
        }
        BadEvidence::Forged(entry) => {
            let forged = explain_forged(lines, entry);
            let (shown, cause) = match forged {
                Some(forged) => (Some(forged.entry), forged.cause),
                None => (None, None),
            };
            let line = number(alloc, at_of(shown))?;
            let word = cause_word(cause);
            let against = number(alloc, at_of(line_of(cause)))?;
            format!(in alloc;
                "{{\"kind\":\"refusal\",\"line\":{line},\"condition\":\"{word}\",\"against\":{against}}}\n"
            )
        }
    }
}

// The counts of a server, between brackets.
fn counts_object(
    alloc: Global,
    dumps: &[&[RestingWrite]],
    server: usize,
) -> Result<String, AllocError>
    requires { length dumps.now ≤ SERVERS }
{
    let counts = first_counts(alloc, &counts_of(dump_at(dumps, server)), dumps.len())?;
    let comma = if server == 0 { "" } else { "," };
    format!(in alloc; "{comma}[{counts}]")
}

/// What was audited, and how many Writes of each server each server holds, in a line.
pub fn audited_object(
    alloc: Global,
    entries: usize,
    dumps: &[&[RestingWrite]],
) -> Result<String, AllocError>
    requires { length dumps.now ≤ SERVERS }
{
    let servers = dumps.len();
    let mut held = String::new(alloc);
    for server in 0..dumps.len() {
        let counts = counts_object(alloc, dumps, server)?;
        held.push_str(counts.as_str())?;
    }
    format!(in alloc;
        "{{\"kind\":\"audited\",\"servers\":{servers},\"entries\":{entries},\"held\":[{held}]}}\n"
    )
}
