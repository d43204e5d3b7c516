//! What the order of a text's lines comes to: a law is the contract of a function that does nothing.
ghost use Rattle.std.specs.Prelude.{◌≡◌, ℕ, Bool, IsTrue, List, length, not};
ghost use Rattle.std.specs.List.{filter, list_all};
ghost use Rattle.bayou_text.specs.Said.{Said};
ghost use Rattle.bayou_text.specs.declared.command.Attempt.{Attempt};
ghost use Rattle.bayou_text.specs.declared.command.Extent.{Extent};
ghost use Rattle.bayou_text.specs.declared.command.Question.{Question};
ghost use Rattle.bayou_text.specs.declared.command.TrialKind.{TrialKind};
ghost use Rattle.bayou_script.specs.AuditFile.{Evidence, IsAuditFile, IsAuditRefused};
ghost use Rattle.bayou_script.specs.declared.fault.ScriptFault.{ScriptFault};
ghost use Rattle.bayou_script.specs.declared.script.NetworkScript.{NetworkScript};
ghost use Rattle.bayou_script.specs.Kinds.{IsExchange, IsOperation, IsQuestion, IsTrial};
ghost use Rattle.bayou_script.specs.Network.{IsNetworkRefused, IsNetworkScript, RunsOverNetwork};
ghost use Rattle.bayou_script.specs.Phases.{arranged, ends_phase, has_session};
ghost use Rattle.bayou_script.specs.Plan.{network_plan_of};
ghost use Rattle.bayou_script.specs.Script.{IsRefused, IsScript, Plan};

use bayou_text::laws::a_line_is_read_in_one_way;

/// Lines are a script or are refused, never both; what the script says is one, and so is the refusal.
pub fn a_script_is_read_in_one_way()
    ensures one_plan { (lines : List (List ℕ)) (one other : Plan) → IsScript lines one → IsScript lines other → one ≡ other }
    ensures one_refusal { (lines : List (List ℕ)) (number more : ℕ) (fault other : ScriptFault)
        → IsRefused lines number fault → IsRefused lines more other → (number ≡ more) × (fault ≡ other) }
    ensures not_both { (lines : List (List ℕ)) (plan : Plan) (number : ℕ) (fault : ScriptFault) → IsScript lines plan → ¬ IsRefused lines number fault }
{
    a_line_is_read_in_one_way();
}

/// Lines are a script over a network or are refused as one, never both; what the script says is one, and so is the refusal.
pub fn a_network_script_is_read_in_one_way()
    ensures one_plan { (lines : List (List ℕ)) (one other : Plan) → IsNetworkScript lines one → IsNetworkScript lines other → one ≡ other }
    ensures one_refusal { (lines : List (List ℕ)) (number more : ℕ) (fault other : ScriptFault)
        → IsNetworkRefused lines number fault → IsNetworkRefused lines more other → (number ≡ more) × (fault ≡ other) }
    ensures not_both { (lines : List (List ℕ)) (plan : Plan) (number : ℕ) (fault : ScriptFault) → IsNetworkScript lines plan → ¬ IsNetworkRefused lines number fault }
{
    a_line_is_read_in_one_way();
}

/// A script over a network starts few servers, and asks only what they can be asked, by its type.
pub fn a_network_script_runs_over_a_network()
    ensures { (script : NetworkScript) → RunsOverNetwork (network_plan_of script) }
{}

/// Of a script's lines, what is arranged phase by phase is all but those that end phases, each as often as it was said: so many pass each
/// test.
pub fn all_that_was_said_is_arranged()
    ensures { (holds : Said → Bool) (lines : List Said) → IsTrue (list_all has_session lines)
        → length (filter holds (arranged lines)) ≡ length (filter holds (filter (λ said. not (ends_phase said)) lines)) }
{}

/// Commands of a kind are alike in what they use, in which part of a phase they are, and in whether they claim room in the book.
pub fn commands_of_a_kind_are_alike()
    ensures operations { (who : ℕ) (tried : Attempt) → IsOperation who tried }
    ensures trials { (place : ℕ) (how : TrialKind) → IsTrial place how }
    ensures exchanges { (to source : ℕ) (much : Extent) → IsExchange to source much }
    ensures questions { (what : Question) → IsQuestion what }
{}

/// Lines are an audit file or are refused, never both; the evidence is one, and so is the refusal.
pub fn an_audit_file_is_read_in_one_way()
    ensures one_evidence { (lines : List (List ℕ)) (one other : Evidence) → IsAuditFile lines one → IsAuditFile lines other → one ≡ other }
    ensures one_refusal { (lines : List (List ℕ)) (number more : ℕ) (fault other : ScriptFault)
        → IsAuditRefused lines number fault → IsAuditRefused lines more other → (number ≡ more) × (fault ≡ other) }
    ensures not_both { (lines : List (List ℕ)) (evidence : Evidence) (number : ℕ) (fault : ScriptFault) → IsAuditFile lines evidence → ¬ IsAuditRefused lines number fault }
{
    a_line_is_read_in_one_way();
}
