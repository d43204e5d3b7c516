//! The lines of a verdict and of a survey.
ghost use Rattle.std.specs.Prelude.{◌≡◌, IfOk, string_bytes};
ghost use Rattle.bayou_print.specs.Verdicts.{broken_text, found_text, guarantee_text, refused_text, shown_text, surveyed_text, verdict_text};

use bayou_judge::{BadEvidence, Breach, Guarantee, Surveyed, Verdict};
use std::alloc::{AllocError, Global};

/// The word of the guarantee.
fn guarantee_word(guarantee: Guarantee) -> &'static str
    ensures { result.now ≡ guarantee_text guarantee }
{
    match guarantee {
        Guarantee::ReadYourWrites => "ryw",
        Guarantee::MonotonicReads => "mr",
        Guarantee::WritesFollowReads => "wfr",
        Guarantee::MonotonicWrites => "mw",
    }
}

/// Where a breach shows.
fn shown(alloc: Global, breach: &Breach) -> Result<String, AllocError>
    ensures { IfOk result (λ text. string_bytes text ≡ shown_text breach.now) }
{
    let (first, second) = (breach.first, breach.second);
    let server = breach.server.index;
    let (origin, seq) = (breach.wid.origin.index, breach.wid.seq);
    format!(in alloc; " places {first} {second} server {server} wid {origin}:{seq}\n")
}

/// The line of the least breach.
fn broken_line(alloc: Global, breach: &Breach) -> Result<String, AllocError>
    ensures { IfOk result (λ line. string_bytes line ≡ broken_text breach.now) }
{
    let guarantee = guarantee_word(breach.guarantee);
    let session = breach.session.index;
    let shown = shown(alloc, breach)?;
    format!(in alloc; "broken {guarantee} session {session}{shown}")
}

/// The line of what can be no evidence.
pub(crate) fn refused_line(alloc: Global, bad: &BadEvidence) -> Result<String, AllocError>
    ensures { IfOk result (λ line. string_bytes line ≡ refused_text bad.now) }
{
    match bad {
        BadEvidence::BadDump(server, at) => {
            let server = server.index;
            format!(in alloc; "judge refused dump {server} {at}\n")
        }
        BadEvidence::Forged(at) => format!(in alloc; "judge refused forged {at}\n"),
    }
}

/// The line of the verdict, or of why there is none.
pub fn verdict_line(
    alloc: Global,
    verdict: &Result<Verdict, BadEvidence>,
) -> Result<String, AllocError>
    ensures { IfOk result (λ line. string_bytes line ≡ verdict_text verdict.now) }
{
    match verdict {
        Ok(Verdict::Clean) => String::from_str(alloc, "clean\n"),
        Ok(Verdict::Broken(breach)) => broken_line(alloc, breach),
        Err(bad) => refused_line(alloc, bad),
    }
}

/// What became of a guarantee.
fn found_words(alloc: Global, breach: &Option<Breach>) -> Result<String, AllocError>
    ensures { IfOk result (λ text. string_bytes text ≡ found_text breach.now) }
{
    match breach {
        None => String::from_str(alloc, "ok"),
        Some(breach) => {
            let (first, second) = (breach.first, breach.second);
            let server = breach.server.index;
            let (origin, seq) = (breach.wid.origin.index, breach.wid.seq);
            format!(in alloc; "broken {first} {second} {server} {origin}:{seq}")
        }
    }
}

/// The line of a session in a survey.
pub(crate) fn surveyed_line(alloc: Global, surveyed: &Surveyed) -> Result<String, AllocError>
    ensures { IfOk result (λ line. string_bytes line ≡ surveyed_text surveyed.now) }
{
    let session = surveyed.session.index;
    let ryw = found_words(alloc, &surveyed.ryw)?;
    let mr = found_words(alloc, &surveyed.mr)?;
    let wfr = found_words(alloc, &surveyed.wfr)?;
    let mw = found_words(alloc, &surveyed.mw)?;
    format!(in alloc; "survey {session} ryw {ryw} mr {mr} wfr {wfr} mw {mw}\n")
}
