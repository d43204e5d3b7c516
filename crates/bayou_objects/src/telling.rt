//! Answers to what is written for them, object by object.
ghost use Rattle.std.specs.Prelude.{◌≡◌, ◌<◌, ◌≤◌, [], List, ℕ, IfErr, OnOk, length};
ghost use Rattle.bayou_base.specs.declared.limits.TheConstants.{SERVERS};
ghost use Rattle.bayou_judge.specs.History.{lent_lists, lists_of};
ghost use Rattle.bayou_objects.specs.Objects.{answer_json, book_json, dumps_json, evidence_json, last_json, lines_json};
ghost use Rattle.bayou_print.specs.Faults.{IsRunFault};
ghost use Rattle.bayou_print.specs.Turns.{EndsWriting};
ghost use Rattle.bayou_print.specs.Waiting.{Gathers, stage};

use crate::answer::last_objects;
use crate::book::{EntryObjects, HoldingObjects, servers_object};
use crate::listing::ListingObjects;
use bayou_answers::Answer;
use bayou_base::{Entry, ServerId};
use bayou_judge::lend_dumps;
use bayou_lang::RestingWrite;
use bayou_print::{RunFault, Waiting, write_each};
use bayou_script::AuditFile;
use bayou_streams::Output;
use std::alloc::Global;
use std::io::Write;

/// Writes the objects of what each of so many servers holds.
fn write_dumps<W: Write>(
    alloc: Global,
    count: u8,
    dumps: &[&[RestingWrite]],
    output: &mut Output<W>,
    waiting: &mut Waiting,
) -> Result<(), RunFault>
    requires servers { (0 < count) × (count ≤ SERVERS) }
    requires dumps { length dumps.now ≡ count }
    ensures whole { OnOk result (Gathers (stage W.contents output.old waiting.old) (stage W.contents output.new waiting.new) (dumps_json count (lent_lists dumps.now) count) []) }
    ensures fault { IfErr result IsRunFault }
    ensures ended { IfErr result (EndsWriting output.new.channel.write_failed output.new.channel.turns_left) }
    ensures part { (missing : List ℕ) × Gathers (stage W.contents output.old waiting.old) (stage W.contents output.new waiting.new) (dumps_json count (lent_lists dumps.now) count) missing }
    ensures ready { OnOk result (output.old.channel.turns_left ≤ output.new.channel.turns_left) }
{
    for index in 0..count {
        let holding = HoldingObjects {
            server: ServerId { index },
            count,
        };
        let dump = dumps[usize::from(index)];
        write_each(alloc, &holding, dump, output, waiting)?;
    }
    Ok(())
}

/// Writes the objects of the lines of an audit file after its first.
fn write_evidence<W: Write>(
    alloc: Global,
    count: u8,
    entries: &[Entry],
    dumps: &[&[RestingWrite]],
    output: &mut Output<W>,
    waiting: &mut Waiting,
) -> Result<(), RunFault>
    requires servers { (0 < count) × (count ≤ SERVERS) }
    requires dumps { length dumps.now ≡ count }
    ensures whole { OnOk result (Gathers (stage W.contents output.old waiting.old) (stage W.contents output.new waiting.new) (evidence_json count entries.now (lent_lists dumps.now)) []) }
    ensures fault { IfErr result IsRunFault }
    ensures ended { IfErr result (EndsWriting output.new.channel.write_failed output.new.channel.turns_left) }
    ensures part { (missing : List ℕ) × Gathers (stage W.contents output.old waiting.old) (stage W.contents output.new waiting.new) (evidence_json count entries.now (lent_lists dumps.now)) missing }
    ensures ready { OnOk result (output.old.channel.turns_left ≤ output.new.channel.turns_left) }
{
    write_each(alloc, &EntryObjects { count }, entries, output, waiting)?;
    write_dumps(alloc, count, dumps, output, waiting)
}

/// Writes the objects of the lines of an audit file: of these entries, and of what each of so many servers holds. It copies one of them at a time.
pub fn write_book_objects<W: Write>(
    alloc: Global,
    count: u8,
    entries: &[Entry],
    dumps: &[&[RestingWrite]],
    output: &mut Output<W>,
    waiting: &mut Waiting,
) -> Result<(), RunFault>
    requires servers { (0 < count) × (count ≤ SERVERS) }
    requires dumps { length dumps.now ≡ count }
    ensures whole { OnOk result (Gathers (stage W.contents output.old waiting.old) (stage W.contents output.new waiting.new) (book_json count entries.now (lent_lists dumps.now)) []) }
    ensures fault { IfErr result IsRunFault }
    ensures ended { IfErr result (EndsWriting output.new.channel.write_failed output.new.channel.turns_left) }
    ensures part { (missing : List ℕ) × Gathers (stage W.contents output.old waiting.old) (stage W.contents output.new waiting.new) (book_json count entries.now (lent_lists dumps.now)) missing }
    ensures ready { OnOk result (output.old.channel.turns_left ≤ output.new.channel.turns_left) }
{
    let first = servers_object(alloc, count)?;
    waiting.print(output, first.as_bytes())?;
    write_evidence(alloc, count, entries, dumps, output, waiting)
}

/// Writes the objects of the lines of an audit file that is kept.
fn write_file<W: Write>(
    alloc: Global,
    file: &AuditFile,
    output: &mut Output<W>,
    waiting: &mut Waiting,
) -> Result<(), RunFault>
    ensures whole { OnOk result (Gathers (stage W.contents output.old waiting.old) (stage W.contents output.new waiting.new) (book_json file.now.count file.now.entries.items (lists_of file.now.dumps.items)) []) }
    ensures fault { IfErr result IsRunFault }
    ensures ended { IfErr result (EndsWriting output.new.channel.write_failed output.new.channel.turns_left) }
    ensures part { (missing : List ℕ) × Gathers (stage W.contents output.old waiting.old) (stage W.contents output.new waiting.new) (book_json file.now.count file.now.entries.items (lists_of file.now.dumps.items)) missing }
    ensures ready { OnOk result (output.old.channel.turns_left ≤ output.new.channel.turns_left) }
{
    let dumps = lend_dumps(&file.dumps);
    write_book_objects(alloc, file.count, &file.entries, &dumps, output, waiting)
}

/// Writes the objects of the parts of a log or of a book.
fn write_parts<W: Write>(
    alloc: Global,
    answer: &Answer,
    output: &mut Output<W>,
    waiting: &mut Waiting,
) -> Result<(), RunFault>
    ensures whole { OnOk result (Gathers (stage W.contents output.old waiting.old) (stage W.contents output.new waiting.new) (lines_json answer.now) []) }
    ensures fault { IfErr result IsRunFault }
    ensures ended { IfErr result (EndsWriting output.new.channel.write_failed output.new.channel.turns_left) }
    ensures part { (missing : List ℕ) × Gathers (stage W.contents output.old waiting.old) (stage W.contents output.new waiting.new) (lines_json answer.now) missing }
    ensures ready { OnOk result (output.old.channel.turns_left ≤ output.new.channel.turns_left) }
{
    match answer {
        Answer::Logged {
            server,
            listing,
            ..
        } => write_each(
            alloc,
            &ListingObjects { server: *server },
            listing.as_slice(),
            output,
            waiting,
        ),
        Answer::Booked(file) => write_file(alloc, file, output, waiting),
        // The others have what is printed last alone, or nothing.
        _ => Ok(()),
    }
}

/// Writes what is printed last for an answer where there are so many servers.
fn write_last<W: Write>(
    alloc: Global,
    servers: u8,
    answer: &Answer,
    output: &mut Output<W>,
    waiting: &mut Waiting,
) -> Result<(), RunFault>
    requires { servers ≤ SERVERS }
    ensures whole { OnOk result (Gathers (stage W.contents output.old waiting.old) (stage W.contents output.new waiting.new) (last_json servers answer.now) []) }
    ensures fault { IfErr result IsRunFault }
    ensures ended { IfErr result (EndsWriting output.new.channel.write_failed output.new.channel.turns_left) }
    ensures part { (missing : List ℕ) × Gathers (stage W.contents output.old waiting.old) (stage W.contents output.new waiting.new) (last_json servers answer.now) missing }
    ensures ready { OnOk result (output.old.channel.turns_left ≤ output.new.channel.turns_left) }
{
    let last = last_objects(alloc, servers, answer)?;
    waiting.print(output, last.as_bytes())
}

/// Writes the objects that are printed for an answer where there are so many servers.
pub fn write_answer_objects<W: Write>(
    alloc: Global,
    servers: u8,
    answer: &Answer,
    output: &mut Output<W>,
    waiting: &mut Waiting,
) -> Result<(), RunFault>
    requires { servers ≤ SERVERS }
    ensures whole { OnOk result (Gathers (stage W.contents output.old waiting.old) (stage W.contents output.new waiting.new) (answer_json servers answer.now) []) }
    ensures fault { IfErr result IsRunFault }
    ensures ended { IfErr result (EndsWriting output.new.channel.write_failed output.new.channel.turns_left) }
    ensures part { (missing : List ℕ) × Gathers (stage W.contents output.old waiting.old) (stage W.contents output.new waiting.new) (answer_json servers answer.now) missing }
    ensures ready { OnOk result (output.old.channel.turns_left ≤ output.new.channel.turns_left) }
{
    write_parts(alloc, answer, output, waiting)?;
    write_last(alloc, servers, answer, output, waiting)
}
