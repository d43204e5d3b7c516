//! Answers to what is written for them, line by line.
ghost use Rattle.std.specs.Prelude.{◌≡◌, ◌<◌, ◌≤◌, [], List, ℕ, IfErr, OnOk, flat_map, length};
ghost use Rattle.bayou_base.specs.declared.limits.TheConstants.{SERVERS};
ghost use Rattle.bayou_judge.specs.History.{lent_lists, lists_of};
ghost use Rattle.bayou_print.specs.Booked.{book_text, dumps_text, evidence_text};
ghost use Rattle.bayou_print.specs.Printed.{answer_text, last_text, lines_text};
ghost use Rattle.bayou_print.specs.Faults.{IsRunFault};
ghost use Rattle.bayou_print.specs.Waiting.{Gathers, stage};
ghost use Rattle.bayou_print.specs.Turns.{EndsWriting};

use crate::book::{Entries, Holding, servers_line};
use crate::fault::RunFault;
use crate::printed::last_line;
use crate::printer::{Listing, Printer, Survey};
use crate::waiting::Waiting;
use bayou_answers::Answer;
use bayou_base::{Entry, ServerId};
use bayou_judge::lend_dumps;
use bayou_lang::RestingWrite;
use bayou_script::AuditFile;
use bayou_streams::Output;
use std::alloc::Global;
use std::io::Write;

/// Writes the line of each part.
pub fn write_each<P: Printer, W: Write>(
    alloc: Global,
    printer: &P,
    parts: &[P::Part],
    output: &mut Output<W>,
    waiting: &mut Waiting,
) -> Result<(), RunFault>
    ensures whole { OnOk result (Gathers (stage W.contents output.old waiting.old) (stage W.contents output.new waiting.new) (flat_map (P.text printer.now) parts.now) []) }
    ensures fault { IfErr result IsRunFault }
    ensures ended { IfErr result (EndsWriting output.new.channel.write_failed output.new.channel.turns_left) }
    ensures part { (missing : List ℕ) × Gathers (stage W.contents output.old waiting.old) (stage W.contents output.new waiting.new) (flat_map (P.text printer.now) parts.now) missing }
    ensures ready { OnOk result (output.old.channel.turns_left ≤ output.new.channel.turns_left) }
{
    for part in parts {
        let line = printer.line(alloc, part)?;
        waiting.print(output, line.as_bytes())?;
    }
    Ok(())
}

/// Writes the lines of what each of so many servers holds.
fn write_dumps<W: Write>(
    alloc: Global,
    count: u8,
    dumps: &[&[RestingWrite]],
    output: &mut Output<W>,
    waiting: &mut Waiting,
) -> Result<(), RunFault>
    requires servers { (0 < count) × (count ≤ SERVERS) }
    requires dumps { length dumps.now ≡ count }
    ensures whole { OnOk result (Gathers (stage W.contents output.old waiting.old) (stage W.contents output.new waiting.new) (dumps_text count (lent_lists dumps.now) count) []) }
    ensures fault { IfErr result IsRunFault }
    ensures ended { IfErr result (EndsWriting output.new.channel.write_failed output.new.channel.turns_left) }
    ensures part { (missing : List ℕ) × Gathers (stage W.contents output.old waiting.old) (stage W.contents output.new waiting.new) (dumps_text count (lent_lists dumps.now) count) missing }
    ensures ready { OnOk result (output.old.channel.turns_left ≤ output.new.channel.turns_left) }
{
    for index in 0..count {
        let holding = Holding {
            server: ServerId { index },
            count,
        };
        let dump = dumps[usize::from(index)];
        write_each(alloc, &holding, dump, output, waiting)?;
    }
    Ok(())
}

/// Writes the lines of an audit file after its first.
fn write_evidence<W: Write>(
    alloc: Global,
    count: u8,
    entries: &[Entry],
    dumps: &[&[RestingWrite]],
    output: &mut Output<W>,
    waiting: &mut Waiting,
) -> Result<(), RunFault>
    requires servers { (0 < count) × (count ≤ SERVERS) }
    requires dumps { length dumps.now ≡ count }
    ensures whole { OnOk result (Gathers (stage W.contents output.old waiting.old) (stage W.contents output.new waiting.new) (evidence_text count entries.now (lent_lists dumps.now)) []) }
    ensures fault { IfErr result IsRunFault }
    ensures ended { IfErr result (EndsWriting output.new.channel.write_failed output.new.channel.turns_left) }
    ensures part { (missing : List ℕ) × Gathers (stage W.contents output.old waiting.old) (stage W.contents output.new waiting.new) (evidence_text count entries.now (lent_lists dumps.now)) missing }
    ensures ready { OnOk result (output.old.channel.turns_left ≤ output.new.channel.turns_left) }
{
    write_each(alloc, &Entries { count }, entries, output, waiting)?;
    write_dumps(alloc, count, dumps, output, waiting)
}

/// Writes the lines of an audit file: of these entries, and of what each of so many servers holds. It copies one of them at a time.
pub fn write_book<W: Write>(
    alloc: Global,
    count: u8,
    entries: &[Entry],
    dumps: &[&[RestingWrite]],
    output: &mut Output<W>,
    waiting: &mut Waiting,
) -> Result<(), RunFault>
    requires servers { (0 < count) × (count ≤ SERVERS) }
    requires dumps { length dumps.now ≡ count }
    ensures whole { OnOk result (Gathers (stage W.contents output.old waiting.old) (stage W.contents output.new waiting.new) (book_text count entries.now (lent_lists dumps.now)) []) }
    ensures fault { IfErr result IsRunFault }
    ensures ended { IfErr result (EndsWriting output.new.channel.write_failed output.new.channel.turns_left) }
    ensures part { (missing : List ℕ) × Gathers (stage W.contents output.old waiting.old) (stage W.contents output.new waiting.new) (book_text count entries.now (lent_lists dumps.now)) missing }
    ensures ready { OnOk result (output.old.channel.turns_left ≤ output.new.channel.turns_left) }
{
    let line = servers_line(alloc, count)?;
    waiting.print(output, line.as_bytes())?;
    write_evidence(alloc, count, entries, dumps, output, waiting)
}

/// Writes the lines of an audit file that is kept.
fn write_file<W: Write>(
    alloc: Global,
    file: &AuditFile,
    output: &mut Output<W>,
    waiting: &mut Waiting,
) -> Result<(), RunFault>
    ensures whole { OnOk result (Gathers (stage W.contents output.old waiting.old) (stage W.contents output.new waiting.new) (book_text file.now.count file.now.entries.items (lists_of file.now.dumps.items)) []) }
    ensures fault { IfErr result IsRunFault }
    ensures ended { IfErr result (EndsWriting output.new.channel.write_failed output.new.channel.turns_left) }
    ensures part { (missing : List ℕ) × Gathers (stage W.contents output.old waiting.old) (stage W.contents output.new waiting.new) (book_text file.now.count file.now.entries.items (lists_of file.now.dumps.items)) missing }
    ensures ready { OnOk result (output.old.channel.turns_left ≤ output.new.channel.turns_left) }
{
    let dumps = lend_dumps(&file.dumps);
    write_book(alloc, file.count, &file.entries, &dumps, output, waiting)
}

/// Writes the lines of the parts of an answer, if it has such.
fn write_parts<W: Write>(
    alloc: Global,
    answer: &Answer,
    output: &mut Output<W>,
    waiting: &mut Waiting,
) -> Result<(), RunFault>
    ensures whole { OnOk result (Gathers (stage W.contents output.old waiting.old) (stage W.contents output.new waiting.new) (lines_text answer.now) []) }
    ensures fault { IfErr result IsRunFault }
    ensures ended { IfErr result (EndsWriting output.new.channel.write_failed output.new.channel.turns_left) }
    ensures part { (missing : List ℕ) × Gathers (stage W.contents output.old waiting.old) (stage W.contents output.new waiting.new) (lines_text answer.now) missing }
    ensures ready { OnOk result (output.old.channel.turns_left ≤ output.new.channel.turns_left) }
{
    match answer {
        Answer::Logged {
            server,
            listing,
            ..
        } => write_each(
            alloc,
            &Listing { server: *server },
            listing.as_slice(),
            output,
            waiting,
        ),
        Answer::Surveyed(told) => match told {
            Ok(list) => write_each(alloc, &Survey, list.as_slice(), output, waiting),
            Err(_) => Ok(()),
        },
        Answer::Booked(file) => write_file(alloc, file, output, waiting),
        // The others have a last line alone, or none.
        _ => Ok(()),
    }
}

/// Writes the last line that is printed for an answer where there are so many servers, or nothing.
fn write_last<W: Write>(
    alloc: Global,
    servers: u8,
    answer: &Answer,
    output: &mut Output<W>,
    waiting: &mut Waiting,
) -> Result<(), RunFault>
    requires { servers ≤ SERVERS }
    ensures whole { OnOk result (Gathers (stage W.contents output.old waiting.old) (stage W.contents output.new waiting.new) (last_text servers answer.now) []) }
    ensures fault { IfErr result IsRunFault }
    ensures ended { IfErr result (EndsWriting output.new.channel.write_failed output.new.channel.turns_left) }
    ensures part { (missing : List ℕ) × Gathers (stage W.contents output.old waiting.old) (stage W.contents output.new waiting.new) (last_text servers answer.now) missing }
    ensures ready { OnOk result (output.old.channel.turns_left ≤ output.new.channel.turns_left) }
{
    let last = last_line(alloc, servers, answer)?;
    waiting.print(output, last.as_bytes())
}

/// Writes what is printed for an answer where there are so many servers.
pub fn write_answer<W: Write>(
    alloc: Global,
    servers: u8,
    answer: &Answer,
    output: &mut Output<W>,
    waiting: &mut Waiting,
) -> Result<(), RunFault>
    requires { servers ≤ SERVERS }
    ensures whole { OnOk result (Gathers (stage W.contents output.old waiting.old) (stage W.contents output.new waiting.new) (answer_text servers answer.now) []) }
    ensures fault { IfErr result IsRunFault }
    ensures ended { IfErr result (EndsWriting output.new.channel.write_failed output.new.channel.turns_left) }
    ensures part { (missing : List ℕ) × Gathers (stage W.contents output.old waiting.old) (stage W.contents output.new waiting.new) (answer_text servers answer.now) missing }
    ensures ready { OnOk result (output.old.channel.turns_left ≤ output.new.channel.turns_left) }
{
    write_parts(alloc, answer, output, waiting)?;
    write_last(alloc, servers, answer, output, waiting)
}
