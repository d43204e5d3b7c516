//! What the program does with the words that it is called with.
ghost use Rattle.std.specs.IoError.{error_kind};
ghost use Rattle.std.specs.Prelude.{◌≡◌, ◌≢◌, ◌≤◌, ℕ, IfErr, IfSome, List, Result, map, true};
ghost use Rattle.bayou_command.specs.Words.{AskFor, Asked, file, input_seen, standard, task_seen};
ghost use Rattle.bayou_print.specs.declared.fault.RunFault.{RunFault};
ghost use Rattle.bayou_print.specs.declared.fault.RunFault.TheVariants.{Memory};
ghost use Rattle.bayou_print.specs.Fault.{status_of};
ghost use Rattle.bayou_print.specs.Telling.{TellsEnd, TellsFault};
ghost use Rattle.bayou_print.specs.Turns.{EndsReading, EndsWriting, cut_lines};
ghost use Rattle.bayou_shell.specs.declared.errand.Errand.{Errand as Left};
ghost use Rattle.bayou_shell.specs.declared.errand.Errand.TheVariants.{Done};
ghost use Rattle.bayou_shell.specs.Program.{IsWell, TellsOf, Works, WorksOn, WritesText, done_of, errand_of, input_of_asked, refused_status, text_status};
ghost use Rattle.bayou_streams.specs.Account.{Pays, account};

use crate::errand::Errand;
use crate::files::Files;
use crate::net::read_net;
use bayou_command::{Source, Stop, Task, read_words};
use bayou_errands::connected::Call;
use bayou_errands::exported::Extract;
use bayou_errands::imported::Intake;
use bayou_errands::keyed::NewKey;
use bayou_errands::renewed::Renewal;
use bayou_errands::served::Service;
use bayou_errands::shown::Window;
use bayou_print::{Ended, RunFault, write_text};
use bayou_streams::{CountedChannel, Output};
use bayou_tasks::audit::run_audit;
use bayou_tasks::checked::Checkup;
use bayou_tasks::explained::Explaining;
use bayou_tasks::form::AnswerForm;
use bayou_tasks::run::run_script;
use bayou_tasks::telling::tell;
use std::alloc::Global;
use std::convert::AsStr;
use std::io;
use std::io::{ErrorKind, Read, Write};

/// The exit status of a command line that is refused.
const REFUSED: u8 = 2;

/// Writes a text that was asked for, and gives the exit status.
fn show<W: Write, E: Write>(output: &mut Output<W>, errors: &mut Output<E>, text: &str) -> u8
    ensures written { (ended : Result (Unit {0}) RunFault) × WritesText text.now ended (W.contents output.old.channel.writer) (W.contents output.new.channel.writer) × (result ≡ text_status ended)
        × TellsEnd ended (account E.contents errors.old) (account E.contents errors.new) errors.new.channel.write_failed }
    ensures clean { result ≡ 0 → output.new.channel.write_failed ≡ true → output.old.channel.write_failed ≡ true }
    ensures paid { Pays (account W.contents output.old) (account W.contents output.new) 1 }
    ensures paid_errors { Pays (account E.contents errors.old) (account E.contents errors.new) 1 }
{
    match write_text(output, text.as_bytes()) {
        Ok(()) => 0,
        Err(fault) => tell(errors, fault),
    }
}

/// Tells that the program's words can't be had, and gives the exit status.
pub fn refuse_words<E: Write>(errors: &mut Output<E>, error: &io::Error) -> u8
    ensures memory { error_kind error.now ≡ ErrorKind.OutOfMemory → (result ≡ status_of Memory) × TellsFault (account E.contents errors.old) (account E.contents errors.new) errors.new.channel.write_failed }
    ensures others { error_kind error.now ≢ ErrorKind.OutOfMemory → result ≡ refused_status }
    ensures paid { Pays (account E.contents errors.old) (account E.contents errors.new) 1 }
{
    if error.kind() == ErrorKind::OutOfMemory {
        return tell(errors, RunFault::Memory);
    }
    let _ = write_text(errors, b"error: a word of the command line isn't UTF-8\n");
    REFUSED
}

/// Where the input of a task comes from. A server that is to live, a key, a renewal and an export have none, and lines for servers, of an import, of what is checked and of what is
/// explained are read only as they are done: for these it is the standard input, which isn't read.
fn source_of<'a>(task: &Task<'a>) -> Source<'a>
    ensures { input_seen result ≡ input_of_asked (task_seen task.now) }
{
    match task {
        Task::Run(source) | Task::RunAsJson(source) | Task::Audit(source) => *source,
        Task::Net { script, .. } => *script,
        Task::Serve(_) | Task::Connect(_) | Task::Key { .. } => Source::Standard,
        Task::Renew(_) | Task::Export(_) | Task::Import(_) => Source::Standard,
        Task::Web(_) | Task::Check(_) | Task::Explain(_) => Source::Standard,
    }
}

/// What was asked for is done, as it ended.
fn done(ended: Result<Ended, RunFault>) -> Result<Errand, RunFault>
    ensures { result ≡ done_of ended }
{
    match ended {
        Ok(ended) => Ok(Errand::Done(ended.status())),
        Err(fault) => Err(fault),
    }
}

/// Does a task on this input, or tells what of it is left to be done.
fn work<R: Read, W: Write>(
    alloc: Global,
    task: Task,
    input: &mut CountedChannel<R, ()>,
    output: &mut Output<W>,
) -> Result<Errand, RunFault>
    ensures works { IfSome (R.remaining input.old.reader) (λ text. Works (task_seen task.entry) text result (W.contents output.old.channel.writer) (W.contents output.new.channel.writer)) }
    ensures read { IfErr result (EndsReading input.new.read_failed input.new.turns_left) }
    ensures written { IfErr result (EndsWriting output.new.channel.write_failed output.new.channel.turns_left) }
    ensures turns { input.new.turns_left ≤ input.old.turns_left }
    ensures paid { Pays (account W.contents output.old) (account W.contents output.new) (cut_lines result) }
{
    match task {
        Task::Run(_) => done(run_script(alloc, AnswerForm::Lines, input, output)),
        Task::RunAsJson(_) => done(run_script(alloc, AnswerForm::Objects, input, output)),
        Task::Audit(_) => done(run_audit(alloc, input, output)),
        Task::Net { folder, .. } => read_net(alloc, folder, input),
        Task::Serve(serving) => Ok(Errand::Serve(Service::of(alloc, &serving)?)),
        Task::Connect(connecting) => Ok(Errand::Connect(Call::of(alloc, &connecting)?)),
        Task::Key { name, file } => Ok(Errand::Key(NewKey::of(alloc, name, file)?)),
        Task::Renew(renewing) => Ok(Errand::Renew(Renewal::of(alloc, &renewing)?)),
        Task::Export(exporting) => Ok(Errand::Export(Extract::of(alloc, &exporting)?)),
        Task::Import(importing) => Ok(Errand::Import(Intake::of(alloc, &importing)?)),
        Task::Web(showing) => Ok(Errand::Web(Window::of(alloc, &showing)?)),
        Task::Check(checking) => Ok(Errand::Check(Checkup::of(alloc, &checking)?)),
        Task::Explain(auditing) => Ok(Errand::Explain(Explaining::of(alloc, &auditing)?)),
    }
}

/// Does a task on the file of this name.
fn work_on<F: Files, W: Write>(
    alloc: Global,
    task: Task,
    name: &str,
    files: &mut F,
    output: &mut Output<W>,
) -> Result<Errand, RunFault>
    ensures works { WorksOn (F.opens name.now) (F.refuses name.now) ⟦<F::Reader as Read>⟧.remaining (F.kept files.new) (task_seen task.entry) result (W.contents output.old.channel.writer) (W.contents output.new.channel.writer) }
    ensures written { IfErr result (EndsWriting output.new.channel.write_failed output.new.channel.turns_left) }
    ensures paid { Pays (account W.contents output.old) (account W.contents output.new) (cut_lines result) }
{
    match files.open(alloc, name) {
        Ok(reader) => {
            let mut file = CountedChannel::new(reader, ());
            let came = work(alloc, task, &mut file, output);
            files.keep(file);
            came
        }
        Err(_) => Err(RunFault::Input),
    }
}

/// Does a task on the input that it names, or tells what of it is left to be done.
fn do_task<F: Files, R: Read, W: Write>(
    alloc: Global,
    task: Task,
    files: &mut F,
    input: &mut CountedChannel<R, ()>,
    output: &mut Output<W>,
) -> Result<Errand, RunFault>
    ensures standard { input_of_asked (task_seen task.entry) ≡ standard → IfSome (R.remaining input.old.reader) (λ text.
        Works (task_seen task.entry) text result (W.contents output.old.channel.writer) (W.contents output.new.channel.writer)) }
    ensures named { (name : List ℕ) → input_of_asked (task_seen task.entry) ≡ file name
        → WorksOn (F.opens name) (F.refuses name) ⟦<F::Reader as Read>⟧.remaining (F.kept files.new) (task_seen task.entry) result (W.contents output.old.channel.writer) (W.contents output.new.channel.writer) }
    ensures unread { ¬ (input_of_asked (task_seen task.entry) ≡ standard) → input.new ≡ input.old }
    ensures read { input_of_asked (task_seen task.entry) ≡ standard → IfErr result (EndsReading input.new.read_failed input.new.turns_left) }
    ensures written { IfErr result (EndsWriting output.new.channel.write_failed output.new.channel.turns_left) }
    ensures turns { input.new.turns_left ≤ input.old.turns_left }
    ensures paid { Pays (account W.contents output.old) (account W.contents output.new) (cut_lines result) }
{
    match source_of(&task) {
        Source::Standard => work(alloc, task, input, output),
        Source::File(name) => work_on(alloc, task, name, files, output),
    }
}

/// Tells a fault, where a task ended with one, which is done then.
fn end<E: Write>(errors: &mut Output<E>, came: Result<Errand, RunFault>) -> Errand
    ensures errand { result ≡ errand_of came }
    ensures told { TellsEnd came (account E.contents errors.old) (account E.contents errors.new) errors.new.channel.write_failed }
    ensures paid { Pays (account E.contents errors.old) (account E.contents errors.new) 1 }
{
    match came {
        Ok(errand) => errand,
        Err(fault) => Errand::Done(tell(errors, fault)),
    }
}

/// Does what the words say, of which the first is the program's own name, and tells what of it is left to be done: what wants threads or sockets is.
pub fn run_main<'a, S: AsStr, F: Files, R: Read, W: Write, E: Write>(
    alloc: Global,
    words: &'a [S],
    files: &mut F,
    input: &mut CountedChannel<R, ()>,
    output: &mut Output<W>,
    errors: &mut Output<E>,
) -> Errand
    // A task on the standard input.
    ensures standard { (asked : Asked) → AskFor (map S.text words.entry.now) asked → input_of_asked asked ≡ standard → IfSome (R.remaining input.old.reader) (λ text. (came : Result Left RunFault)
        × Works asked text came (W.contents output.old.channel.writer) (W.contents output.new.channel.writer) × (result ≡ errand_of came)
        × IfErr came (EndsReading input.new.read_failed input.new.turns_left) × IfErr came (EndsWriting output.new.channel.write_failed output.new.channel.turns_left)
        × TellsEnd came (account E.contents errors.old) (account E.contents errors.new) errors.new.channel.write_failed) }
    // A task on a file.
    ensures named { (asked : Asked) (name : List ℕ) → AskFor (map S.text words.entry.now) asked → input_of_asked asked ≡ file name → (came : Result Left RunFault)
        × WorksOn (F.opens name) (F.refuses name) ⟦<F::Reader as Read>⟧.remaining (F.kept files.new) asked came (W.contents output.old.channel.writer) (W.contents output.new.channel.writer)
        × (result ≡ errand_of came) × IfErr came (EndsWriting output.new.channel.write_failed output.new.channel.turns_left)
        × TellsEnd came (account E.contents errors.old) (account E.contents errors.new) errors.new.channel.write_failed }
    // The standard input isn't read where nothing is asked for of it.
    ensures unread { ¬ ((asked : Asked) × AskFor (map S.text words.entry.now) asked × (input_of_asked asked ≡ standard)) → input.new ≡ input.old }
    ensures others { ¬ ((asked : Asked) × AskFor (map S.text words.entry.now) asked) → (status : ℕ) × (result ≡ Done status)
        × TellsOf (map S.text words.entry.now) status (W.contents output.old.channel.writer) (W.contents output.new.channel.writer)
        (account E.contents errors.old) (account E.contents errors.new) errors.new.channel.write_failed }
    // A text that was asked for is not lost in silence.
    ensures clean { ¬ ((asked : Asked) × AskFor (map S.text words.entry.now) asked) → result ≡ Done 0 → output.new.channel.write_failed ≡ true → output.old.channel.write_failed ≡ true }
    ensures turns { input.new.turns_left ≤ input.old.turns_left }
    ensures paid { Pays (account W.contents output.old) (account W.contents output.new) 1 }
    ensures paid_whole { (asked : Asked) → AskFor (map S.text words.entry.now) asked → IsWell result → Pays (account W.contents output.old) (account W.contents output.new) 0 }
    ensures paid_errors { Pays (account E.contents errors.old) (account E.contents errors.new) 1 }
{
    match read_words(alloc, words) {
        Ok(task) => {
            let came = do_task(alloc, task, files, input, output);
            end(errors, came)
        }
        Err(Stop::Asked(text)) => Errand::Done(show(output, errors, text.as_str())),
        Err(Stop::Refused(text)) => {
            let _ = write_text(errors, text.as_bytes());
            Errand::Done(REFUSED)
        }
        Err(Stop::Memory) => Errand::Done(tell(errors, RunFault::Memory)),
    }
}
