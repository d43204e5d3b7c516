//! What a run comes to that had no fault.
ghost use Rattle.std.specs.Prelude.{◌≡◌, max};
ghost use Rattle.bayou_print.specs.Fault.{answer_status, ended_status, verdict_status};

use bayou_answers::Answer;
use bayou_judge::{BadEvidence, Verdict};

/// What the printed verdicts come to.
#[derive(Clone, Copy, Debug, PartialEq, Eq)]
pub enum Ended {
    /// Each verdict was clean, or none was asked for.
    Clean,
    /// A verdict told of a breach.
    Broken,
    /// A verdict or a survey was refused.
    Refused,
}

impl Ended {
    /// What the program's exit status is.
    pub fn status(self) -> u8
        ensures { result ≡ ended_status self }
    {
        match self {
            Ended::Clean => 0,
            Ended::Broken => 1,
            Ended::Refused => 2,
        }
    }

    /// What a verdict comes to.
    pub fn of_verdict(verdict: &Result<Verdict, BadEvidence>) -> Self
        ensures { ended_status result ≡ verdict_status verdict.now }
    {
        match verdict {
            Ok(Verdict::Clean) => Ended::Clean,
            Ok(Verdict::Broken(_)) => Ended::Broken,
            Err(_) => Ended::Refused,
        }
    }

    /// What an answer comes to.
    pub fn of(answer: &Answer) -> Self
        ensures { ended_status result ≡ answer_status answer.now }
    {
        match answer {
            Answer::Judged(verdict) => Ended::of_verdict(verdict),
            Answer::Surveyed(Err(_)) => Ended::Refused,
            Answer::Surveyed(Ok(_))
            | Answer::Done
            | Answer::Wrote { .. }
            | Answer::Read { .. }
            | Answer::Refused { .. }
            | Answer::Lost { .. }
            | Answer::NotAgain { .. }
            | Answer::Logged { .. }
            | Answer::Stopped { .. }
            | Answer::Recovered(_)
            | Answer::Exchanged(_)
            | Answer::Counted(_)
            | Answer::Booked(_) => Ended::Clean,
        }
    }

    /// The worse of the two.
    pub fn and(self, other: Self) -> Self
        ensures { ended_status result ≡ max (ended_status self) (ended_status other) }
    {
        if self.status() < other.status() {
            other
        } else {
            self
        }
    }
}
