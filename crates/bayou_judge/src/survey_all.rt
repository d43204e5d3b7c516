ghost use Rattle.std.specs.Prelude.{◌≡◌, ◌<◌, ◌≤◌, IfOk, length};
ghost use Rattle.bayou_base.specs.declared.limits.TheConstants.{SERVERS};
ghost use Rattle.bayou_judge.specs.Answers.{IsSurvey, SurveyAnswer};
ghost use Rattle.bayou_judge.specs.History.{history_of, lent_lists};

use crate::dumps::indexes_of;
use crate::entries::first_forged;
use crate::evidence::Evidence;
use crate::verdict::{BadEvidence, Surveyed};
use bayou_base::{Entry, SERVERS, SESSIONS};
use bayou_lang::RestingWrite;
use std::alloc::{AllocError, Global};

/// What became of each guarantee in each session that has an entry.
fn survey_sessions(alloc: Global, evidence: &Evidence) -> Result<Vec<Surveyed>, AllocError>
    ensures { IfOk result (λ list. IsSurvey (history_of evidence.now.entries evidence.now.dumps) evidence.now.entries list.items) }
{
    evidence.recall();
    let known = evidence.pass();
    let mut list = Vec::new(alloc);
    for session in 0..SESSIONS {
        if let Some(progress) = known[session] {
            let Ok(()) = list.push(progress.surveyed) else {
                return Err(AllocError);
            };
        }
    }
    Ok(list)
}

/// What became of each guarantee in each session that has an entry, asked for or not: its least breach, if it has one. Sessions
/// come in order of their numbers. What can be no evidence is refused as [`judge`](crate::judge) does.
pub fn survey(
    alloc: Global,
    count: u8,
    entries: &[Entry],
    dumps: &[&[RestingWrite]],
) -> Result<Result<Vec<Surveyed>, BadEvidence>, AllocError>
    requires servers { (0 < count) × (count ≤ SERVERS) }
    requires dumps { length dumps.now ≡ count }
    ensures { IfOk result (SurveyAnswer count entries.now (lent_lists dumps.now)) }
{
    let indexes = match indexes_of(alloc, count, dumps)? {
        Ok(indexes) => indexes,
        Err(bad) => return Ok(Err(bad)),
    };
    if let Some(at) = first_forged(alloc, count, entries, dumps, &indexes)? {
        return Ok(Err(BadEvidence::Forged(at)));
    }
    let evidence = Evidence::new(count, entries, dumps, &indexes);
    let list = survey_sessions(alloc, &evidence)?;
    Ok(Ok(list))
}
