//! The verdict and the survey of evidence, as answers.
ghost use Rattle.std.specs.Prelude.{◌≡◌, ◌<◌, ◌≤◌, IfOk, length};
ghost use Rattle.bayou_answers.specs.Verdicts.{IsSurveyOn, IsVerdictOn};
ghost use Rattle.bayou_base.specs.declared.limits.TheConstants.{SERVERS as SERVERS_NUMBER};
ghost use Rattle.bayou_judge.specs.History.{lent_lists};

use crate::answer::Answer;
use bayou_base::Entry;
use bayou_judge::{judge, survey};
use bayou_lang::RestingWrite;
use std::alloc::{AllocError, Global};

/// The verdict on these entries and dumps. Want of memory is no answer.
pub fn judged(
    alloc: Global,
    count: u8,
    entries: &[Entry],
    dumps: &[&[RestingWrite]],
) -> Result<Answer, AllocError>
    requires servers { (0 < count) × (count ≤ SERVERS_NUMBER) }
    requires dumps { length dumps.now ≡ count }
    ensures { IfOk result (IsVerdictOn count entries.now (lent_lists dumps.now)) }
{
    Ok(Answer::Judged(judge(alloc, count, entries, dumps)?))
}

/// Their survey. Want of memory is no answer.
pub fn surveyed(
    alloc: Global,
    count: u8,
    entries: &[Entry],
    dumps: &[&[RestingWrite]],
) -> Result<Answer, AllocError>
    requires servers { (0 < count) × (count ≤ SERVERS_NUMBER) }
    requires dumps { length dumps.now ≡ count }
    ensures { IfOk result (IsSurveyOn count entries.now (lent_lists dumps.now)) }
{
    Ok(Answer::Surveyed(survey(alloc, count, entries, dumps)?))
}
