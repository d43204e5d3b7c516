//! An audit that is explained, from the words to the exit status.
ghost use Rattle.std.specs.Global.{Vec};
ghost use Rattle.std.specs.Prelude.{◌≡◌, ◌<◌, ◌≤◌, ◌++◌, ℕ, false, true, IfOk, IfSome, List, Result, is_some, length, option_map, string_bytes};
ghost use Rattle.bayou_base.specs.declared.entry.Entry.{Entry as Tried};
ghost use Rattle.bayou_base.specs.declared.limits.TheConstants.{SERVERS};
ghost use Rattle.bayou_command.specs.Audit.{auditing_seen};
ghost use Rattle.bayou_command.specs.Words.{input_seen};
ghost use Rattle.bayou_explain.specs.Json.{verdict_json};
ghost use Rattle.bayou_judge.specs.Answers.{Judges, SurveyAnswer};
ghost use Rattle.bayou_judge.specs.History.{lent_lists};
ghost use Rattle.bayou_judge.specs.declared.breach.Breach.{Breach as Violation};
ghost use Rattle.bayou_judge.specs.declared.verdict.BadEvidence.{BadEvidence as Bad};
ghost use Rattle.bayou_judge.specs.declared.verdict.Surveyed.{Surveyed as Found};
ghost use Rattle.bayou_lang.specs.declared.write.Write.{Write};
ghost use Rattle.bayou_script.specs.AuditFile.{evidence_of};
ghost use Rattle.bayou_streams.specs.Account.{TakesBytes, account};
ghost use Rattle.bayou_tasks.specs.Checks.{input_kept};
ghost use Rattle.bayou_tasks.specs.Explanations.{ExplainsAs, IsCounted, IsDrawnBeside, IsExplainingOf, IsJsonAudit, IsShownOf, IsSurveyedOf, IsToldAsJson, IsToldBeside, IsToldOf, SaysAudit, Shows, survey_json};

use crate::audit::audit;
use crate::checked::{FAILED, REFUSED, STANDARD, read_whole};
use crate::reading::read_audit;
use crate::telling::tell;
use bayou_base::Entry;
use bayou_command::{Auditing, Source};
use bayou_explain::{
    Located, audited_object, audited_text, counted_object, counted_text, every_breach,
    explanation_objects, explanation_text, least_breaches, locate, refusal_object, refusal_text,
    standing_text, survey_objects, verdict_object,
};
use bayou_judge::{
    BadEvidence, Breach, Surveyed, Verdict, breaches, lend_dumps, survey, verdict_of,
};
use bayou_lang::RestingWrite;
use bayou_picture::picture_text;
use bayou_print::{Ended, RunFault, Waiting, write_text};
use bayou_script::AuditFile;
use bayou_streams::{CountedChannel, Output};
use std::alloc::{AllocError, Global};
use std::fs::File;
use std::io::{Read, Write};
use std::{fs, io};

/// A picture that would go over the file that is audited.
const OVER_ITSELF: &str = "bayou: --picture names the file that is audited\n";

/// What an audit prints beside its verdict and its survey.
#[derive(Clone, Copy)]
pub struct Beside {
    /// Whether it is explained.
    pub is_explained: bool,
    /// Whether every breach is explained, and not the least of each guarantee in each session alone.
    pub is_all: bool,
    /// Whether all is printed as lines of JSON.
    pub is_json: bool,
    /// Whether a picture is drawn.
    pub is_drawn: bool,
}

/// An audit that was made: its exit status, and its picture, where one was drawn.
#[derive(Drop)]
pub struct AuditOutcome {
    pub status: u8,
    pub picture: Option<Vec<u8>>,
}

/// What is to be audited, and what is printed of it.
#[derive(Drop)]
pub struct Explaining {
    /// `None` where it is the standard input.
    file: Option<String>,
    is_explained: bool,
    is_all: bool,
    is_json: bool,
    /// The file that a picture goes into, if one is drawn.
    picture: Option<String>,
}

// A copy of a name, where there is one.
fn kept(alloc: Global, name: Option<&str>) -> Result<Option<String>, AllocError>
    ensures { IfOk result (λ kept. option_map (λ text. string_bytes text) kept ≡ option_map (λ text. text.now) name.entry) }
{
    match name {
        Some(name) => Ok(Some(name.to_string(alloc)?)),
        None => Ok(None),
    }
}

// A copy of the name of an input, where it has one.
fn kept_source(alloc: Global, source: Source<'_>) -> Result<Option<String>, AllocError>
    ensures { IfOk result (λ kept. input_seen source.entry ≡ input_kept (option_map (λ text. string_bytes text) kept)) }
{
    match source {
        Source::Standard => Ok(None),
        Source::File(name) => Ok(Some(name.to_string(alloc)?)),
    }
}

impl Explaining {
    /// What the words ask for.
    pub fn of(alloc: Global, auditing: &Auditing<'_>) -> Result<Self, AllocError>
        ensures { IfOk result (IsExplainingOf (auditing_seen auditing.now)) }
    {
        let file = kept_source(alloc, auditing.file)?;
        let picture = kept(alloc, auditing.picture)?;
        Ok(Explaining {
            file,
            is_explained: auditing.is_explained,
            is_all: auditing.is_all,
            is_json: auditing.is_json,
            picture,
        })
    }

    // What is printed beside the verdict and the survey.
    fn beside(&self) -> Beside
        ensures said { (result.is_explained ≡ self.now.is_explained) × (result.is_all ≡ self.now.is_all) × (result.is_json ≡ self.now.is_json) }
        ensures drawn { result.is_drawn ≡ is_some self.now.picture }
    {
        Beside {
            is_explained: self.is_explained,
            is_all: self.is_all,
            is_json: self.is_json,
            is_drawn: self.picture.is_some(),
        }
    }
}

// The least breaches of a survey, or why there is none.
fn least_shown(
    alloc: Global,
    surveyed: &Result<Vec<Surveyed>, BadEvidence>,
) -> Result<Result<Vec<Breach>, BadEvidence>, AllocError>
    ensures { IfOk result (λ shown. (count : ℕ) (entries : List Tried) (dumps : List (List Write)) → SurveyAnswer count entries dumps surveyed.now → Shows false count entries dumps shown) }
{
    match surveyed {
        Ok(list) => Ok(Ok(least_breaches(alloc, list.as_slice())?)),
        Err(bad) => Ok(Err(*bad)),
    }
}

// Every breach of the evidence, or why there is none.
fn every_shown(
    alloc: Global,
    count: u8,
    entries: &[Entry],
    dumps: &[&[RestingWrite]],
) -> Result<Result<Vec<Breach>, BadEvidence>, AllocError>
    requires servers { (0 < count) × (count ≤ SERVERS) }
    requires dumps { length dumps.now ≡ count }
    ensures { IfOk result (λ shown. Shows true count entries.now (lent_lists dumps.now) shown) }
{
    match breaches(alloc, count, entries, dumps)? {
        Ok(found) => Ok(Ok(every_breach(alloc, found.as_slice())?)),
        Err(bad) => Ok(Err(bad)),
    }
}

// What is printed of breaches, or of why there are none.
fn told_of(
    alloc: Global,
    lines: &[Located<'_>],
    count: u8,
    dumps: &[&[RestingWrite]],
    shown: &Result<Vec<Breach>, BadEvidence>,
) -> Result<String, AllocError>
    ensures { IfOk result (λ text. IsToldOf shown.now (string_bytes text)) }
{
    match shown {
        Ok(list) => explanation_text(alloc, lines, list.as_slice()),
        Err(bad) => refusal_text(alloc, lines, count, dumps, *bad),
    }
}

// The same as lines of JSON.
fn objects_of(
    alloc: Global,
    lines: &[Located<'_>],
    count: u8,
    dumps: &[&[RestingWrite]],
    shown: &Result<Vec<Breach>, BadEvidence>,
) -> Result<String, AllocError>
    ensures { IfOk result (λ text. IsToldAsJson shown.now (string_bytes text)) }
{
    match shown {
        Ok(list) => explanation_objects(alloc, lines, list.as_slice()),
        Err(bad) => refusal_object(alloc, lines, count, dumps, *bad),
    }
}

// How many Writes the servers hold, one after another.
fn held(file: &AuditFile) -> usize {
    let mut sum = 0usize;
    for dump in file.dumps.as_slice() {
        sum = sum.saturating_add(dump.len());
    }
    sum
}

// How many breaches there are, where every one is shown, as lines or as lines of JSON.
fn counted(
    alloc: Global,
    beside: Beside,
    shown: &Result<Vec<Breach>, BadEvidence>,
) -> Result<String, AllocError>
    ensures { IfOk result (λ text. IsCounted beside shown.now (string_bytes text)) }
{
    match shown {
        Ok(list) if beside.is_all && beside.is_json => counted_object(alloc, list.len()),
        Ok(list) if beside.is_all => counted_text(alloc, list.len()),
        _ => Ok(String::new(alloc)),
    }
}

// What explains the evidence, and what it was, in lines.
fn told_lines(
    alloc: Global,
    beside: Beside,
    lines: &[Located<'_>],
    file: &AuditFile,
    dumps: &[&[RestingWrite]],
    shown: &Result<Vec<Breach>, BadEvidence>,
) -> Result<String, AllocError>
    requires { length dumps.now ≤ SERVERS }
    ensures { IfOk result (λ text. IsToldOf shown.now (string_bytes text)) }
{
    let told = told_of(alloc, lines, file.count, dumps, shown)?;
    let counted = counted(alloc, beside, shown)?;
    let standing = standing_text(alloc, dumps)?;
    let audited = audited_text(alloc, file.count, file.entries.len(), held(file))?;
    format!(in alloc; "{told}{counted}{standing}{audited}")
}

// The same in lines of JSON.
fn told_objects(
    alloc: Global,
    beside: Beside,
    lines: &[Located<'_>],
    file: &AuditFile,
    dumps: &[&[RestingWrite]],
    shown: &Result<Vec<Breach>, BadEvidence>,
) -> Result<String, AllocError>
    requires { length dumps.now ≤ SERVERS }
    ensures { IfOk result (λ text. IsToldAsJson shown.now (string_bytes text)) }
{
    let told = objects_of(alloc, lines, file.count, dumps, shown)?;
    let counted = counted(alloc, beside, shown)?;
    let audited = audited_object(alloc, file.entries.len(), dumps)?;
    format!(in alloc; "{told}{counted}{audited}")
}

// The breaches that are to be shown: every one, or the least of each guarantee in each session; or why there are none.
fn shown_of(
    alloc: Global,
    is_all: bool,
    count: u8,
    entries: &[Entry],
    dumps: &[&[RestingWrite]],
    surveyed: &Result<Vec<Surveyed>, BadEvidence>,
) -> Result<Result<Vec<Breach>, BadEvidence>, AllocError>
    requires servers { (0 < count) × (count ≤ SERVERS) }
    requires dumps { length dumps.now ≡ count }
    requires surveyed { SurveyAnswer count entries.now (lent_lists dumps.now) surveyed.now }
    ensures { IfOk result (λ shown. Shows is_all count entries.now (lent_lists dumps.now) shown) }
{
    if is_all {
        every_shown(alloc, count, entries, dumps)
    } else {
        least_shown(alloc, surveyed)
    }
}

// What explains the evidence, and what it was; nothing where that isn't asked for.
fn told_beside(
    alloc: Global,
    beside: Beside,
    lines: &[Located<'_>],
    file: &AuditFile,
    dumps: &[&[RestingWrite]],
    shown: &Result<Vec<Breach>, BadEvidence>,
) -> Result<String, AllocError>
    requires { length dumps.now ≤ SERVERS }
    ensures { IfOk result (λ text. IsToldBeside beside.is_explained beside.is_json shown.now (string_bytes text)) }
{
    if !beside.is_explained {
        return Ok(String::new(alloc));
    }
    if beside.is_json {
        return told_objects(alloc, beside, lines, file, dumps, shown);
    }
    told_lines(alloc, beside, lines, file, dumps, shown)
}

// The picture of the evidence, where one is asked for.
fn drawn_beside(
    alloc: Global,
    beside: Beside,
    name: &str,
    count: u8,
    lines: &[Located<'_>],
    surveyed: &Result<Vec<Surveyed>, BadEvidence>,
) -> Result<Option<Vec<u8>>, AllocError>
    ensures { IfOk result (λ picture. IsDrawnBeside beside.is_drawn surveyed.now picture) }
{
    if !beside.is_drawn {
        return Ok(None);
    }
    Ok(Some(picture_text(alloc, name, count, lines, surveyed)?))
}

// What is printed of the evidence beside its verdict and its survey, and its picture.
fn explain_file(
    alloc: Global,
    name: &str,
    beside: Beside,
    text: &[u8],
    file: &AuditFile,
) -> Result<(String, Option<Vec<u8>>), AllocError>
    ensures { IfOk result (λ told. (survey : Result (Vec Found) Bad) × IsSurveyedOf (evidence_of file.now) survey
        × (shown : Result (Vec Violation) Bad) × IsShownOf beside.is_all (evidence_of file.now) shown × IsToldBeside beside.is_explained beside.is_json shown (string_bytes told.0)
        × IsDrawnBeside beside.is_drawn survey told.1) }
{
    let lines = locate(alloc, text)?;
    let dumps = lend_dumps(&file.dumps);
    let surveyed = survey(alloc, file.count, &file.entries, &dumps)?;
    let shown = shown_of(
        alloc,
        beside.is_all,
        file.count,
        &file.entries,
        &dumps,
        &surveyed,
    )?;
    let told = told_beside(alloc, beside, lines.as_slice(), file, &dumps, &shown)?;
    let drawn = drawn_beside(alloc, beside, name, file.count, lines.as_slice(), &surveyed)?;
    Ok((told, drawn))
}

// The verdict that a survey comes to.
fn verdict_in(
    entries: &[Entry],
    surveyed: &Result<Vec<Surveyed>, BadEvidence>,
) -> Result<Verdict, BadEvidence>
    ensures { (count : ℕ) (dumps : List (List Write)) → SurveyAnswer count entries.now dumps surveyed.now → Judges count entries.now dumps result }
{
    match surveyed {
        Ok(list) => Ok(verdict_of(entries, list.as_slice())),
        Err(bad) => Err(*bad),
    }
}

// The verdict and the survey, as lines of JSON.
fn objects_text(
    alloc: Global,
    verdict: &Result<Verdict, BadEvidence>,
    surveyed: &Result<Vec<Surveyed>, BadEvidence>,
) -> Result<String, AllocError>
    ensures { IfOk result (λ text. string_bytes text ≡ verdict_json verdict.now ++ survey_json surveyed.now) }
{
    let first = verdict_object(alloc, verdict)?;
    let rest = match surveyed {
        Ok(list) => survey_objects(alloc, list.as_slice())?,
        Err(_) => String::new(alloc),
    };
    format!(in alloc; "{first}{rest}")
}

// Prints the verdict and the survey as lines of JSON.
fn print_objects<W: Write>(
    alloc: Global,
    file: &AuditFile,
    output: &mut Output<W>,
) -> Result<Ended, RunFault>
    ensures { IfOk result (λ ended. (text : List ℕ) × IsJsonAudit (evidence_of file.now) ended text × TakesBytes (account W.contents output.old) (account W.contents output.new) text) }
{
    let dumps = lend_dumps(&file.dumps);
    let surveyed = survey(alloc, file.count, &file.entries, &dumps)?;
    let verdict = verdict_in(&file.entries, &surveyed);
    let text = objects_text(alloc, &verdict, &surveyed)?;
    write_text(output, text.as_bytes())?;
    Ok(Ended::of_verdict(&verdict))
}

// Prints the verdict and the survey, as they are asked for.
fn print_audit<W: Write>(
    alloc: Global,
    is_json: bool,
    file: &AuditFile,
    output: &mut Output<W>,
) -> Result<Ended, RunFault>
    ensures { IfOk result (λ ended. (text : List ℕ) × SaysAudit is_json (evidence_of file.now) ended text × TakesBytes (account W.contents output.old) (account W.contents output.new) text) }
{
    if is_json {
        return print_objects(alloc, file, output);
    }
    audit(alloc, file, output, Waiting::new(alloc)?)
}

/// Reads an audit file to its end, prints the verdict and the survey and what explains them, and gives the exit status and the picture, as it is asked for. `name` is
/// the file's, as the picture shows it.
pub fn explain_input<R: Read, W: Write>(
    alloc: Global,
    name: &str,
    beside: Beside,
    input: &mut CountedChannel<R, ()>,
    output: &mut Output<W>,
) -> Result<AuditOutcome, RunFault>
    ensures { IfOk result (λ audited. IfSome (R.remaining input.old.reader) (λ text. ExplainsAs beside text audited (account W.contents output.old) (account W.contents output.new))) }
{
    let text = read_whole(alloc, input)?;
    let file = read_audit(alloc, &mut CountedChannel::new(text.as_slice(), ()))?;
    let ended = print_audit(alloc, beside.is_json, &file, output)?;
    let (told, picture) = explain_file(alloc, name, beside, text.as_slice(), &file)?;
    write_text(output, told.as_bytes())?;
    Ok(AuditOutcome {
        status: ended.status(),
        picture,
    })
}

// Writes a file under another name, and gives it its own once it is whole.
fn put_whole<T: fs::Files<File = File>>(
    rt: &T,
    path: &str,
    part: &str,
    bytes: &[u8],
) -> io::Result<()> {
    let mut file = File::create(rt, part)?;
    file.write_all(bytes)?;
    file.sync_all()?;
    fs::rename(rt, part, path)
}

// Puts the picture into the file of this name, over what is there, whole or not at all; tells a fault, and gives the exit status. What a file has no clause can say.
fn put_picture<T: fs::Files<File = File>, E: Write>(
    rt: &T,
    alloc: Global,
    path: &str,
    audited: &AuditOutcome,
    errors: &mut Output<E>,
) -> Result<u8, AllocError> {
    let Some(picture) = &audited.picture else {
        return Ok(audited.status);
    };
    let part = format!(in alloc; "{path}.part")?;
    match put_whole(rt, path, part.as_str(), picture.as_slice()) {
        Ok(()) => Ok(audited.status),
        Err(error) => {
            let _ = fs::remove_file(rt, part.as_str());
            let line = format!(in alloc; "bayou: picture\n  {path}: {error}\n")?;
            let _ = write_text(errors, line.as_bytes());
            Ok(FAILED)
        }
    }
}

// The audit of the file of this name.
fn explain_named<T: fs::Files<File = File>, W: Write, E: Write>(
    rt: &T,
    alloc: Global,
    name: &str,
    beside: Beside,
    output: &mut Output<W>,
    errors: &mut Output<E>,
) -> Result<AuditOutcome, RunFault> {
    match File::open(rt, name) {
        Ok(reader) => {
            let mut input = CountedChannel::new(reader, ());
            explain_input(alloc, name, beside, &mut input, output)
        }
        Err(error) => {
            let line = format!(in alloc; "bayou: input\n  {name}: {error}\n")?;
            let _ = write_text(errors, line.as_bytes());
            Ok(AuditOutcome {
                status: FAILED,
                picture: None,
            })
        }
    }
}

// Audits the file that is asked for, tells what is asked for of it, and gives the exit status.
fn explain<T, R, W, E>(
    rt: &T,
    alloc: Global,
    explaining: &Explaining,
    input: &mut CountedChannel<R, ()>,
    output: &mut Output<W>,
    errors: &mut Output<E>,
) -> Result<u8, RunFault>
where
    T: fs::Files<File = File>,
    R: Read,
    W: Write,
    E: Write,
{
    let beside = explaining.beside();
    let audited = match explaining.file.as_deref() {
        Some(name) => explain_named(rt, alloc, name, beside, output, errors)?,
        None => explain_input(alloc, STANDARD, beside, input, output)?,
    };
    match explaining.picture.as_deref() {
        Some(path) => Ok(put_picture(rt, alloc, path, &audited, errors)?),
        None => Ok(audited.status),
    }
}

// Whether the picture would go over the file that is audited.
fn is_over_itself(explaining: &Explaining) -> bool {
    match (explaining.file.as_deref(), explaining.picture.as_deref()) {
        (Some(file), Some(picture)) => file == picture,
        _ => false,
    }
}

/// Audits the file that is asked for and tells what is asked for of it, tells a fault of the call itself, and gives the exit status.
pub fn run_explained<T, R, W, E>(
    rt: &T,
    alloc: Global,
    explaining: &Explaining,
    input: &mut CountedChannel<R, ()>,
    output: &mut Output<W>,
    errors: &mut Output<E>,
) -> u8
where
    T: fs::Files<File = File>,
    R: Read,
    W: Write,
    E: Write,
{
    if is_over_itself(explaining) {
        let _ = write_text(errors, OVER_ITSELF.as_bytes());
        return REFUSED;
    }
    match explain(rt, alloc, explaining, input, output, errors) {
        Ok(status) => status,
        Err(fault) => tell(errors, fault),
    }
}
