ghost use Rattle.std.specs.Prelude.{◌≡◌, ◌<◌, ◌≤◌, ◌↔◌, ℕ, IfOk, IsTrue, List, Ok, length, true};
ghost use Rattle.bayou_base.specs.declared.limits.TheConstants.{SERVERS};
ghost use Rattle.bayou_judge.specs.Answers.{IsEvidence, IsSurvey, Judges};
ghost use Rattle.bayou_judge.specs.Breaches.{is_asked};
ghost use Rattle.bayou_judge.specs.History.{history_of, lent_lists};
ghost use Rattle.bayou_lang.specs.declared.write.Write.{Write};
ghost use Rattle.bayou_judge.specs.Inner.Verdicts.{IsAsked, IsAskedAt, IsFirstAsked, IsFirstOf};

use crate::breach::{Breach, Guarantee};
use crate::survey_all::survey;
use crate::verdict::{BadEvidence, Surveyed, Verdict};
use bayou_base::{Asks, Entry, SERVERS};
use bayou_lang::RestingWrite;
use std::alloc::{AllocError, Global};

/// Whether the guarantee is asked for.
fn asks_for(asks: Asks, guarantee: Guarantee) -> bool
    ensures { result ≡ is_asked asks guarantee }
{
    match guarantee {
        Guarantee::ReadYourWrites => asks.ryw,
        Guarantee::MonotonicReads => asks.mr,
        Guarantee::WritesFollowReads => asks.wfr,
        Guarantee::MonotonicWrites => asks.mw,
    }
}

/// Whether the entry is of the breach's session, which asks for its guarantee.
fn asks_of_it(entry: &Entry, breach: &Breach) -> bool
    ensures { IsTrue result ↔ ((entry.now.session.index ≡ breach.now.session.index) × (is_asked entry.now.asks breach.now.guarantee ≡ true)) }
{
    entry.session.index == breach.session.index && asks_for(entry.asks, breach.guarantee)
}

/// Whether the session of the breach asks for its guarantee.
fn is_asked_for(entries: &[Entry], breach: &Breach) -> bool
    ensures { IsTrue result ↔ IsAskedAt entries.now breach.now }
{
    for entry in entries {
        if asks_of_it(entry, breach) {
            return true;
        }
    }
    false
}

/// The breach, if it is asked for.
fn asked_one(entries: &[Entry], found: Option<Breach>) -> Option<Breach>
    ensures { IsAsked entries.now found result }
{
    let breach = found?;
    if is_asked_for(entries, &breach) {
        Some(breach)
    } else {
        None
    }
}

/// The first of the breaches that is asked for.
fn first_asked(entries: &[Entry], surveyed: &Surveyed) -> Option<Breach>
    ensures { IsFirstAsked entries.now surveyed.now result }
{
    if let Some(breach) = asked_one(entries, surveyed.ryw) {
        return Some(breach);
    }
    if let Some(breach) = asked_one(entries, surveyed.mr) {
        return Some(breach);
    }
    if let Some(breach) = asked_one(entries, surveyed.wfr) {
        return Some(breach);
    }
    asked_one(entries, surveyed.mw)
}

/// The first breach of the survey that is asked for.
fn first_of(entries: &[Entry], list: &[Surveyed]) -> Option<Breach>
    ensures { IsFirstOf entries.now list.now result }
{
    for surveyed in list {
        if let Some(breach) = first_asked(entries, surveyed) {
            return Some(breach);
        }
    }
    None
}

/// The verdict on entries that were surveyed: what [`judge`] answers, of one pass over the entries that was made already.
///
/// It allocates nothing. For each breach that was surveyed, four a session at most, it goes over the entries once
/// at most.
pub fn verdict_of(entries: &[Entry], surveyed: &[Surveyed]) -> Verdict
    ensures { (count : ℕ) (dumps : List (List Write)) → IsEvidence count entries.now dumps → IsSurvey (history_of entries.now dumps) entries.now surveyed.now
        → Judges count entries.now dumps (Ok result) }
{
    match first_of(entries, surveyed) {
        Some(breach) => Verdict::Broken(breach),
        None => Verdict::Clean,
    }
}

/// Whether each session had each of the four session guarantees (Terry et al. 1994) that it asked for, or the least breach of
/// what was asked for: by session, guarantee, later place, earlier place, server, and name.
///
/// There are `count` servers and as many dumps, each in order of receipt. Where these can't have been held, the least bad place is
/// told, by server and then by place from 0 on; else, where the entries can't have been answered, the first forged one. It takes
/// time in proportion to the entries and the dumps, and changes nothing.
pub fn judge(
    alloc: Global,
    count: u8,
    entries: &[Entry],
    dumps: &[&[RestingWrite]],
) -> Result<Result<Verdict, BadEvidence>, AllocError>
    requires servers { (0 < count) × (count ≤ SERVERS) }
    requires dumps { length dumps.now ≡ count }
    ensures { IfOk result (Judges count entries.now (lent_lists dumps.now)) }
{
    match survey(alloc, count, entries, dumps)? {
        Ok(surveyed) => Ok(Ok(verdict_of(entries, &surveyed))),
        Err(bad) => Ok(Err(bad)),
    }
}
