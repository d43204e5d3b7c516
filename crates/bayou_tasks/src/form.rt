//! In which form answers are printed.
ghost use Rattle.std.specs.Prelude.{◌≡◌, ◌≤◌, [], List, ℕ, IfErr, OnOk};
ghost use Rattle.bayou_base.specs.declared.limits.TheConstants.{SERVERS};
ghost use Rattle.bayou_judge.specs.History.{lent_lists};
ghost use Rattle.bayou_print.specs.Faults.{IsRunFault};
ghost use Rattle.bayou_print.specs.Turns.{EndsWriting};
ghost use Rattle.bayou_print.specs.Waiting.{Gathers, stage};
ghost use Rattle.bayou_tasks.specs.Run.{answer_told, book_told};

use bayou_answers::Answer;
use bayou_machine::Lent;
use bayou_objects::{write_answer_objects, write_book_objects};
use bayou_print::{RunFault, Waiting, write_answer, write_book};
use bayou_streams::Output;
use std::alloc::Global;
use std::io::Write;

/// How answers are printed.
#[derive(Clone, Copy, Debug, PartialEq, Eq)]
pub enum AnswerForm {
    /// As lines of words, for people (`bayou_print`).
    Lines,
    /// As a JSON object in each line, for programs (`bayou_objects`).
    Objects,
}

impl AnswerForm {
    /// Writes what is printed for an answer where there are so many servers, or has it wait.
    pub(crate) fn write_answer<W: Write>(
        self,
        alloc: Global,
        servers: u8,
        answer: &Answer,
        output: &mut Output<W>,
        waiting: &mut Waiting,
    ) -> Result<(), RunFault>
        requires { servers ≤ SERVERS }
        ensures whole { OnOk result (Gathers (stage W.contents output.old waiting.old) (stage W.contents output.new waiting.new) (answer_told self servers answer.now) []) }
        ensures fault { IfErr result IsRunFault }
        ensures ended { IfErr result (EndsWriting output.new.channel.write_failed output.new.channel.turns_left) }
        ensures part { (missing : List ℕ) × Gathers (stage W.contents output.old waiting.old) (stage W.contents output.new waiting.new) (answer_told self servers answer.now) missing }
        ensures ready { OnOk result (output.old.channel.turns_left ≤ output.new.channel.turns_left) }
    {
        match self {
            AnswerForm::Lines => write_answer(alloc, servers, answer, output, waiting),
            AnswerForm::Objects => write_answer_objects(alloc, servers, answer, output, waiting),
        }
    }

    /// Writes a book that is lent, or has it wait.
    pub(crate) fn write_book<W: Write>(
        self,
        alloc: Global,
        lent: &Lent<'_>,
        output: &mut Output<W>,
        waiting: &mut Waiting,
    ) -> Result<(), RunFault>
        ensures whole { OnOk result (Gathers (stage W.contents output.old waiting.old) (stage W.contents output.new waiting.new) (book_told self lent.now.count lent.now.entries.now (lent_lists lent.now.dumps.items)) []) }
        ensures fault { IfErr result IsRunFault }
        ensures ended { IfErr result (EndsWriting output.new.channel.write_failed output.new.channel.turns_left) }
        ensures part { (missing : List ℕ) × Gathers (stage W.contents output.old waiting.old) (stage W.contents output.new waiting.new) (book_told self lent.now.count lent.now.entries.now (lent_lists lent.now.dumps.items)) missing }
        ensures ready { OnOk result (output.old.channel.turns_left ≤ output.new.channel.turns_left) }
    {
        let (count, entries, dumps) = (lent.count, lent.entries, lent.dumps.as_slice());
        match self {
            AnswerForm::Lines => write_book(alloc, count, entries, dumps, output, waiting),
            AnswerForm::Objects => write_book_objects(
                alloc, count, entries, dumps, output, waiting,
            ),
        }
    }
}
