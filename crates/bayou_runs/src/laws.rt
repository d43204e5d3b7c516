//! What is true of every script: the law is the contract of a function that does nothing.
ghost use Rattle.std.specs.Prelude.{ℕ, List, take};
ghost use Rattle.bayou_answers.specs.declared.answer.Answer.{Answer};
ghost use Rattle.bayou_machine.specs.Run.{IsNewRun, ScriptRun, ScriptState};
ghost use Rattle.bayou_runs.specs.Runs.{IsInRange, RestartsWhole, ToldByRun};
ghost use Rattle.bayou_script.specs.Script.{IsScript, Plan};

use bayou_device::{MemoryDevice, OpenGate};
use bayou_journal::laws::a_device_in_memory_only_tears;
use bayou_judge::laws::{a_breach_violates, a_verdict_is_one};
use bayou_server::laws::{
    a_start_on_an_empty_device_holds_nothing, a_start_on_an_honest_device_is_honest,
    an_honest_server_has_an_honest_device, an_honest_server_is_reopened_honestly,
    an_honest_server_stays_honest, what_its_device_holds_decides,
};
use bayou_world::laws::{
    a_sessions_vectors_stand_for_its_sets, every_book_is_judged_clean,
    every_run_keeps_what_was_asked_for, the_rules_of_servers_refuse_nothing_impossible,
    the_steps_of_servers_are_rows,
};

/// What a script is answered in which no server is restarted whose device lost bytes before comes of a run of the machine of all servers. So each session
/// had what it asked for, and each verdict and each survey that the script asks for says so.
pub fn a_script_is_a_run()
    ensures { (lines : List (List ℕ)) (plan : Plan) (number : ℕ) (answers : List Answer) (first last : ScriptState) → IsScript lines plan → IsInRange plan → IsNewRun plan first
        → ScriptRun first (take number plan.commands) answers last → RestartsWhole (take number plan.commands) → ToldByRun plan (take number plan.commands) answers last }
{
    a_breach_violates();
    a_device_in_memory_only_tears();
    a_sessions_vectors_stand_for_its_sets();
    a_start_on_an_empty_device_holds_nothing::<MemoryDevice<OpenGate>>();
    a_start_on_an_honest_device_is_honest::<MemoryDevice<OpenGate>>();
    a_verdict_is_one();
    an_honest_server_has_an_honest_device::<MemoryDevice<OpenGate>>();
    an_honest_server_is_reopened_honestly::<MemoryDevice<OpenGate>>();
    an_honest_server_stays_honest::<MemoryDevice<OpenGate>>();
    every_book_is_judged_clean();
    every_run_keeps_what_was_asked_for();
    the_rules_of_servers_refuse_nothing_impossible::<MemoryDevice<OpenGate>>();
    the_steps_of_servers_are_rows();
    what_its_device_holds_decides::<MemoryDevice<OpenGate>>();
}
