//! Scripts and audit files to printed lines: what is done with one text alone, between the bytes that come in and the bytes that go out.
//!
//! Callers see each task as a relation in `specs/` between the bytes that the reader has left, how the task ended, and what
//! the writer holds before and after: `RunsAs` of a run, `AuditsAs` of an audit. The whole input is read, and checked by
//! `bayou_script` as it comes, before anything runs. Where it is refused, nothing is printed, and the least line with a fault is
//! reported; where a fault comes later, a front of what is to be printed is printed. What a run prints are the lines of its answers
//! (`bayou_machine`), which come of a run of the machine of all servers (`bayou_runs`).
//!
//! Streams come as `bayou_streams`' `CountedChannel` and `Output`, which alone call them: an input is read in at most
//! [`MAX_TURNS`](bayou_base::MAX_TURNS) turns, and each printed line is written in at most as many, however lines are gathered
//! into pieces. The input or the output is called at fault only where a call of it failed, or no turn was left.
//!
//! A caller owes nothing. The theorem on what is printed is about readers and writers that tell their bytes, as those over
//! memory do; of others only safety and the turns are promised. It isn't promised that memory suffices, or that a stream
//! gives or takes anything. Nothing here waits but for its streams.
#![tactic(auto)]

pub mod audit;
pub mod checked;
pub mod explained;
pub mod form;
pub mod reading;
pub mod run;
pub mod telling;

pub use audit::run_audit;
pub use checked::{Checkup, check_input, run_checked};
pub use explained::{AuditOutcome, Beside, Explaining, explain_input, run_explained};
pub use form::AnswerForm;
pub use run::run_script;
