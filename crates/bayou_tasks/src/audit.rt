//! Audit files to the lines of a verdict and a survey.
ghost use Rattle.std.specs.Prelude.{◌≡◌, ◌≤◌, [], Err, List, ℕ, IfErr, IfOk, IfSome, OnOk};
ghost use Rattle.bayou_script.specs.AuditFile.{evidence_of};
ghost use Rattle.bayou_print.specs.Fault.{ended_status, verdict_status};
ghost use Rattle.bayou_print.specs.Verdicts.{verdict_text};
ghost use Rattle.bayou_tasks.specs.Audit.{AuditsAs, IsAudit, IsAuditPart};
ghost use Rattle.bayou_tasks.specs.Inner.Surveyed.{IsEvidenceSurveyed};
ghost use Rattle.bayou_print.specs.Faults.{IsRunFault};
ghost use Rattle.bayou_print.specs.Waiting.{Gathers, stage};
ghost use Rattle.bayou_print.specs.Turns.{EndsReading, EndsWriting, cut_lines};
ghost use Rattle.bayou_streams.specs.Account.{Pays, TakesBytes, account};

use crate::reading::read_audit;
use bayou_judge::{BadEvidence, Surveyed, lend_dumps, survey, verdict_of};
use bayou_print::{Ended, RunFault, Survey, Waiting, verdict_line, write_each};
use bayou_script::AuditFile;
use bayou_streams::{CountedChannel, Output};
use std::alloc::Global;
use std::io::{Read, Write};

/// Writes the verdict on evidence that was surveyed, and the survey after it, or has them wait.
fn write_surveyed<W: Write>(
    alloc: Global,
    file: &AuditFile,
    surveyed: &[Surveyed],
    output: &mut Output<W>,
    waiting: &mut Waiting,
) -> Result<Ended, RunFault>
    requires { IsEvidenceSurveyed (evidence_of file.now) surveyed.now }
    ensures whole { IfOk result (λ ended. (text : List ℕ) × IsAudit (evidence_of file.now) ended text × Gathers (stage W.contents output.old waiting.old) (stage W.contents output.new waiting.new) text []) }
    ensures part { IfErr result (λ fault. IsRunFault fault × (text missing : List ℕ) × IsAuditPart (evidence_of file.now) text × Gathers (stage W.contents output.old waiting.old) (stage W.contents output.new waiting.new) text missing) }
    ensures ended { IfErr result (EndsWriting output.new.channel.write_failed output.new.channel.turns_left) }
    ensures ready { OnOk result (output.old.channel.turns_left ≤ output.new.channel.turns_left) }
{
    let verdict = Ok(verdict_of(&file.entries, surveyed));
    let line = verdict_line(alloc, &verdict)?;
    waiting.print(output, line.as_bytes())?;
    write_each(alloc, &Survey, surveyed, output, waiting)?;
    Ok(Ended::of_verdict(&verdict))
}

/// Writes why there is no verdict on the evidence, or has it wait.
fn write_refused<W: Write>(
    alloc: Global,
    bad: BadEvidence,
    output: &mut Output<W>,
    waiting: &mut Waiting,
) -> Result<Ended, RunFault>
    ensures whole { IfOk result (λ ended. (ended_status ended ≡ verdict_status (Err bad)) × Gathers (stage W.contents output.old waiting.old) (stage W.contents output.new waiting.new) (verdict_text (Err bad)) []) }
    ensures part { IfErr result (λ fault. IsRunFault fault × (missing : List ℕ) × Gathers (stage W.contents output.old waiting.old) (stage W.contents output.new waiting.new) (verdict_text (Err bad)) missing) }
    ensures ended { IfErr result (EndsWriting output.new.channel.write_failed output.new.channel.turns_left) }
    ensures ready { OnOk result (output.old.channel.turns_left ≤ output.new.channel.turns_left) }
{
    let verdict = Err(bad);
    let line = verdict_line(alloc, &verdict)?;
    waiting.print(output, line.as_bytes())?;
    Ok(Ended::of_verdict(&verdict))
}

/// Writes the verdict on the evidence, and the survey after it unless the verdict is refused, or has them wait. The entries are gone through
/// once for both.
fn write_audit<W: Write>(
    alloc: Global,
    file: &AuditFile,
    output: &mut Output<W>,
    waiting: &mut Waiting,
) -> Result<Ended, RunFault>
    ensures whole { IfOk result (λ ended. (text : List ℕ) × IsAudit (evidence_of file.now) ended text × Gathers (stage W.contents output.old waiting.old) (stage W.contents output.new waiting.new) text []) }
    ensures part { IfErr result (λ fault. IsRunFault fault × (text missing : List ℕ) × IsAuditPart (evidence_of file.now) text × Gathers (stage W.contents output.old waiting.old) (stage W.contents output.new waiting.new) text missing) }
    ensures ended { IfErr result (EndsWriting output.new.channel.write_failed output.new.channel.turns_left) }
    ensures ready { OnOk result (output.old.channel.turns_left ≤ output.new.channel.turns_left) }
{
    let dumps = lend_dumps(&file.dumps);
    match survey(alloc, file.count, &file.entries, &dumps)? {
        Ok(list) => write_surveyed(alloc, file, &list, output, waiting),
        Err(bad) => write_refused(alloc, bad, output, waiting),
    }
}

/// Writes the verdict and the survey. What was printed before a fault is written too.
pub(crate) fn audit<W: Write>(
    alloc: Global,
    file: &AuditFile,
    output: &mut Output<W>,
    waiting: Waiting,
) -> Result<Ended, RunFault>
    requires none { waiting.lines.items ≡ [] }
    ensures ok { IfOk result (λ ended. (text : List ℕ) × IsAudit (evidence_of file.now) ended text × TakesBytes (account W.contents output.old) (account W.contents output.new) text) }
    ensures err { IfErr result (λ fault. IsRunFault fault × (text : List ℕ) × IsAuditPart (evidence_of file.now) text × TakesBytes (account W.contents output.old) (account W.contents output.new) text) }
    ensures ended { IfErr result (EndsWriting output.new.channel.write_failed output.new.channel.turns_left) }
    ensures ready { OnOk result (output.old.channel.turns_left ≤ output.new.channel.turns_left) }
{
    let mut waiting = waiting;
    let ended = write_audit(alloc, file, output, &mut waiting);
    waiting.end(ended, output)
}

/// Reads an audit file to its end, or to its least line with a fault, and writes the verdict on what it says, and the survey.
pub fn run_audit<R: Read, W: Write>(
    alloc: Global,
    input: &mut CountedChannel<R, ()>,
    output: &mut Output<W>,
) -> Result<Ended, RunFault>
    ensures audits { IfSome (R.remaining input.old.reader) (λ text. AuditsAs text result (W.contents output.old.channel.writer) (W.contents output.new.channel.writer)) }
    ensures read { IfErr result (EndsReading input.new.read_failed input.new.turns_left) }
    ensures written { IfErr result (EndsWriting output.new.channel.write_failed output.new.channel.turns_left) }
    ensures turns { input.new.turns_left ≤ input.old.turns_left }
    ensures paid { Pays (account W.contents output.old) (account W.contents output.new) (cut_lines result) }
{
    let file = read_audit(alloc, input)?;
    let waiting = Waiting::new(alloc)?;
    audit(alloc, &file, output, waiting)
}
