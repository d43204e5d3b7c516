ghost use Rattle.std.specs.Prelude.{◌≡◌, ◌≢◌, ◌<◌, ◌≤◌, ◌⊎◌, [], List, ℕ, IfErr, IfOk, IfSome, IsTrue, MatchResult, None, OnOk, length};
ghost use Rattle.bayou_script.specs.Plan.{plan_of};
ghost use Rattle.bayou_script.specs.Script.{is_served};
ghost use Rattle.bayou_text.specs.Said.{command_said};
ghost use Rattle.bayou_answers.specs.declared.answer.Answer.{Answer};
ghost use Rattle.bayou_base.specs.declared.limits.TheConstants.{SESSIONS as SESSIONS_NUMBER};
ghost use Rattle.bayou_audit.specs.Blanks.{AreBlanksOf, named};
ghost use Rattle.bayou_script.specs.Capacity.{operation_of};
ghost use Rattle.bayou_machine.specs.Run.{IsBooked, IsNewRun, Turn};
ghost use Rattle.bayou_tasks.specs.Run.{Prints, PrintsPart, RunsAs, answer_told};
ghost use Rattle.bayou_print.specs.Fault.{answer_status, ended_status};
ghost use Rattle.bayou_print.specs.Faults.{IsRunFault};
ghost use Rattle.bayou_streams.specs.Account.{Pays, TakesBytes, account};
ghost use Rattle.bayou_print.specs.Waiting.{Gathers, stage};
ghost use Rattle.bayou_print.specs.Turns.{EndsReading, EndsWriting, cut_lines};

use crate::form::AnswerForm;
use crate::reading::read_script;
use bayou_audit::{Blanks, Four, Ledgers};
use bayou_base::SESSIONS;
use bayou_machine::Machine;
use bayou_print::{Ended, RunFault, Waiting};
use bayou_runs::laws::a_script_is_a_run;
use bayou_script::{Script, Servers, capacity_for};
use bayou_streams::{CountedChannel, Output};
use bayou_text::{Command, Question};
use std::alloc::Global;
use std::io::{Read, Write};
use std::marker::Brand;
use std::sync::ledger::{Blank, Ledger};

/// How answers are printed: in which form, and counts of how many servers.
#[derive(Clone, Copy)]
struct Printing {
    form: AnswerForm,
    servers: Servers,
}

/// Writes the book as the machine lends it, or has it wait.
fn write_lent<K: Ledgers, W: Write>(
    alloc: Global,
    printing: Printing,
    machine: &Machine<K>,
    output: &mut Output<W>,
    waiting: &mut Waiting,
) -> Result<Ended, RunFault>
    ensures answered { (answer : Answer) × IsBooked machine.now answer × MatchResult result
        (λ ended. (ended_status ended ≡ answer_status answer)
        × Gathers (stage W.contents output.old waiting.old) (stage W.contents output.new waiting.new) (answer_told printing.form printing.servers.count answer) [])
        (λ fault. IsRunFault fault
        × (missing : List ℕ) × Gathers (stage W.contents output.old waiting.old) (stage W.contents output.new waiting.new) (answer_told printing.form printing.servers.count answer) missing) }
    ensures ended { IfErr result (EndsWriting output.new.channel.write_failed output.new.channel.turns_left) }
    ensures ready { OnOk result (output.old.channel.turns_left ≤ output.new.channel.turns_left) }
{
    let lent = machine.lend();
    printing.form.write_book(alloc, &lent, output, waiting)?;
    Ok(Ended::Clean)
}

/// Answers one command, and writes what is printed for it, or has it wait. Where a log wants memory, nothing is printed for it.
fn answer_one<K: Ledgers, W: Write>(
    alloc: Global,
    printing: Printing,
    machine: &mut Machine<K>,
    command: Command,
    output: &mut Output<W>,
    waiting: &mut Waiting,
) -> Result<Ended, RunFault>
    requires served { IsTrue (is_served machine.old.standing.count (command_said command)) }
    requires room { operation_of (command_said command) ≢ None → length machine.old.book.entries < machine.old.book.capacity }
    ensures answered { MatchResult result
        (λ ended. (answer : Answer) × (ended_status ended ≡ answer_status answer)
        × Turn machine.old (command_said command) answer machine.new
        × Gathers (stage W.contents output.old waiting.old) (stage W.contents output.new waiting.new) (answer_told printing.form printing.servers.count answer) [])
        (λ fault. IsRunFault fault × ((stage W.contents output.new waiting.new ≡ stage W.contents output.old waiting.old)
        ⊎ (answer : Answer) × Turn machine.old (command_said command) answer machine.new
        × (missing : List ℕ) × Gathers (stage W.contents output.old waiting.old) (stage W.contents output.new waiting.new) (answer_told printing.form printing.servers.count answer) missing)) }
    ensures ended { IfErr result (EndsWriting output.new.channel.write_failed output.new.channel.turns_left) }
    ensures ready { OnOk result (output.old.channel.turns_left ≤ output.new.channel.turns_left) }
{
    if matches!(command, Command::Question(Question::Book)) {
        return write_lent(alloc, printing, machine, output, waiting);
    }
    let answer = machine.answer(alloc, command)?;
    let count = printing.servers.count;
    printing
        .form
        .write_answer(alloc, count, &answer, output, waiting)?;
    Ok(Ended::of(&answer))
}

/// Answers the commands in order, from what the servers hold as a script begins, and writes what is printed for each, or has
/// it wait.
fn answer_each<K: Ledgers, W: Write>(
    alloc: Global,
    form: AnswerForm,
    script: Script,
    machine: &mut Machine<K>,
    output: &mut Output<W>,
    waiting: &mut Waiting,
) -> Result<Ended, RunFault>
    requires { IsNewRun (plan_of script) machine.old }
    ensures ok { IfOk result (λ ended. (text : List ℕ) × Prints form (plan_of script) ended text × Gathers (stage W.contents output.old waiting.old) (stage W.contents output.new waiting.new) text []) }
    ensures err { IfErr result (λ fault. IsRunFault fault × (text : List ℕ) × (missing : List ℕ) × PrintsPart form (plan_of script) text
        × Gathers (stage W.contents output.old waiting.old) (stage W.contents output.new waiting.new) text missing) }
    ensures ended { IfErr result (EndsWriting output.new.channel.write_failed output.new.channel.turns_left) }
    ensures ready { OnOk result (output.old.channel.turns_left ≤ output.new.channel.turns_left) }
{
    let Script {
        servers,
        mut commands,
    } = script;
    let printing = Printing { form, servers };
    let mut ended = Ended::Clean;
    while let Some(command) = commands.pop_front() {
        let told = answer_one(alloc, printing, machine, command, output, waiting)?;
        ended = ended.and(told);
    }
    Ok(ended)
}

/// Answers the commands, and writes what is printed for them. What was printed before a fault is written too.
fn answer_all<K: Ledgers, W: Write>(
    alloc: Global,
    form: AnswerForm,
    script: Script,
    machine: &mut Machine<K>,
    output: &mut Output<W>,
    waiting: Waiting,
) -> Result<Ended, RunFault>
    requires begun { IsNewRun (plan_of script) machine.old }
    requires none { waiting.lines.items ≡ [] }
    ensures ok { IfOk result (λ ended. (text : List ℕ) × Prints form (plan_of script) ended text × TakesBytes (account W.contents output.old) (account W.contents output.new) text) }
    ensures err { IfErr result (λ fault. IsRunFault fault
        × (text : List ℕ) × PrintsPart form (plan_of script) text × TakesBytes (account W.contents output.old) (account W.contents output.new) text) }
    ensures ended { IfErr result (EndsWriting output.new.channel.write_failed output.new.channel.turns_left) }
    ensures ready { OnOk result (output.old.channel.turns_left ≤ output.new.channel.turns_left) }
{
    let mut waiting = waiting;
    let ended = answer_each(alloc, form, script, machine, output, &mut waiting);
    waiting.end(ended, output)
}

/// Reads a script to its end, or to its least line with a fault, and writes its answers in this form. The book counts in these
/// ledgers.
fn run_with<K: Ledgers, R: Read, W: Write>(
    alloc: Global,
    form: AnswerForm,
    blanks: Blanks,
    input: &mut CountedChannel<R, ()>,
    output: &mut Output<W>,
) -> Result<Ended, RunFault>
    requires blanks { AreBlanksOf blanks (named K.Slips.name K.Slips.parts) (named K.Reads.name K.Reads.parts) (named K.Writes.name K.Writes.parts) (named K.Refusals.name K.Refusals.parts) SESSIONS_NUMBER }
    ensures runs { IfSome (R.remaining input.old.reader) (λ text. RunsAs form text result (W.contents output.old.channel.writer) (W.contents output.new.channel.writer)) }
    ensures read { IfErr result (EndsReading input.new.read_failed input.new.turns_left) }
    ensures written { IfErr result (EndsWriting output.new.channel.write_failed output.new.channel.turns_left) }
    ensures turns { input.new.turns_left ≤ input.old.turns_left }
    ensures paid { Pays (account W.contents output.old) (account W.contents output.new) (cut_lines result) }
{
    let script = read_script(alloc, input)?;
    let waiting = Waiting::new(alloc)?;
    let capacity = capacity_for(&script.commands);
    let mut machine = Machine::<K>::new(alloc, blanks, script.servers, capacity)?;
    a_script_is_a_run();
    answer_all(alloc, form, script, &mut machine, output, waiting)
}

/// The same, with a ledger for each of the four totals.
fn run_over<S, T, U, V, R, W>(
    alloc: Global,
    form: AnswerForm,
    blanks: Blanks,
    input: &mut CountedChannel<R, ()>,
    output: &mut Output<W>,
) -> Result<Ended, RunFault>
where
    S: Ledger + Send + Sync,
    T: Ledger + Send + Sync,
    U: Ledger + Send + Sync,
    V: Ledger + Send + Sync,
    R: Read,
    W: Write,
    requires blanks { AreBlanksOf blanks (named S.name S.parts) (named T.name T.parts) (named U.name U.parts) (named V.name V.parts) SESSIONS_NUMBER }
    ensures runs { IfSome (R.remaining input.old.reader) (λ text. RunsAs form text result (W.contents output.old.channel.writer) (W.contents output.new.channel.writer)) }
    ensures read { IfErr result (EndsReading input.new.read_failed input.new.turns_left) }
    ensures written { IfErr result (EndsWriting output.new.channel.write_failed output.new.channel.turns_left) }
    ensures turns { input.new.turns_left ≤ input.old.turns_left }
    ensures paid { Pays (account W.contents output.old) (account W.contents output.new) (cut_lines result) }
{
    run_with::<Four<S, T, U, V>, R, W>(alloc, form, blanks, input, output)
}

/// Reads a script to its end, or to its least line with a fault, and writes its answers in this form.
pub fn run_script<R: Read, W: Write>(
    alloc: Global,
    form: AnswerForm,
    input: &mut CountedChannel<R, ()>,
    output: &mut Output<W>,
) -> Result<Ended, RunFault>
    ensures runs { IfSome (R.remaining input.old.reader) (λ text. RunsAs form text result (W.contents output.old.channel.writer) (W.contents output.new.channel.writer)) }
    ensures read { IfErr result (EndsReading input.new.read_failed input.new.turns_left) }
    ensures written { IfErr result (EndsWriting output.new.channel.write_failed output.new.channel.turns_left) }
    ensures turns { input.new.turns_left ≤ input.old.turns_left }
    ensures paid { Pays (account W.contents output.old) (account W.contents output.new) (cut_lines result) }
{
    let blanks = Blanks {
        slips: Blank::new(SESSIONS as u64),
        reads: Blank::new(SESSIONS as u64),
        writes: Blank::new(SESSIONS as u64),
        refusals: Blank::new(SESSIONS as u64),
    };
    run_over::<Brand, Brand, Brand, Brand, R, W>(alloc, form, blanks, input, output)
}
