//! What is to be renewed, as the words of a command line say it.
ghost use Rattle.std.specs.Prelude.{◌≡◌, ◌<◌, ◌≤◌, Err, IfErr, IfNone, IfOk, IfSome, map};
ghost use Rattle.std.specs.List.{AllZip};
ghost use Rattle.bayou_renew.specs.Words.{Refuses, RefusesPrefixes, SaysNoPrefix, SaysPrefix, most_of};
ghost use Rattle.bayou_renew.specs.declared.plan.RenewalPlanFault.TheVariants.{LeftOut, NoServer};
ghost use Rattle.bayou_base.specs.declared.limits.TheConstants.{MAX_WRITES as MOST_WRITES, SERVERS as MOST_SERVERS};

use bayou_base::{MAX_WRITES, Prefix, SERVERS, ServerId, Vector};
use std::alloc::{AllocError, Global};
use thiserror::Error;

/// What is wanted of the new store.
#[derive(Drop)]
pub struct RenewalWish {
    /// What the old server must hold.
    pub at: Vector,
    /// What the keys begin with that are left out.
    pub without: Vec<Prefix>,
    /// As how many Writes the database may be made again.
    pub most: u32,
    pub ghost room: { most ≤ MOST_WRITES },
}

/// A server whose database is renewed: which one, of how many, and of how many it is then.
#[derive(Drop)]
pub struct RenewalPlan {
    pub id: ServerId,
    pub servers: u8,
    pub servers_then: u8,
    pub wish: RenewalWish,
    pub ghost among: { (id.index < servers) × (servers ≤ MOST_SERVERS) },
    pub ghost among_then: { (id.index < servers_then) × (servers_then ≤ MOST_SERVERS) },
}

/// Why the words of a command line make no plan.
#[derive(Clone, Copy, Debug, PartialEq, Eq, Error)]
pub enum RenewalPlanFault {
    #[error("--id is below --servers")]
    NoServer,
    #[error("--id is below --servers-then: a server that is left out isn't renewed")]
    LeftOut,
    #[error("--at takes a count of Writes for each server, as 12,7,30")]
    NoCounts,
    #[error("--without takes 1 to 32 bytes of a-z 0-9 . _ - /")]
    NoPrefix,
    #[error("--to is another folder than --dir")]
    SameFolder,
    #[error("memory")]
    OutOfMemory,
}

impl From<AllocError> for RenewalPlanFault {
    ghost use Rattle.std.specs.Prelude.{◌≡◌};
    ghost use Rattle.bayou_renew.specs.declared.plan.RenewalPlanFault.TheVariants.{OutOfMemory};

    ghost from_gives = { λ _ fault. fault ≡ OutOfMemory };

    fn from(_error: AllocError) -> RenewalPlanFault {
        RenewalPlanFault::OutOfMemory
    }
}

// The counts that a word says, one for each of so many servers, if it says them.
fn counts_of(word: &str, servers: u8) -> Option<Vector>
    requires { servers ≤ MOST_SERVERS }
{
    let mut counts = [0; SERVERS];
    let mut rest = Some(word);
    for index in 0..usize::from(servers) {
        let (first, behind) = match rest?.split_once(',') {
            Some((first, behind)) => (first, Some(behind)),
            None => (rest?, None),
        };
        counts[index] = first.parse::<u32>().ok()?;
        rest = behind;
    }
    match rest {
        Some(_) => None,
        None => Vector::from_counts(counts),
    }
}

// The prefix that a word says, if it says one. None is empty: that would leave out everything.
fn prefix_of(word: &str) -> Option<Prefix>
    ensures said { IfSome result (SaysPrefix word.now) }
    ensures none { IfNone result (SaysNoPrefix word.now) }
{
    if word.is_empty() {
        return None;
    }
    Prefix::new(word).ok()
}

// The prefixes that the words say.
fn prefixes_of(alloc: Global, words: &[&str]) -> Result<Vec<Prefix>, RenewalPlanFault>
    ensures said { IfOk result (λ prefixes. AllZip (λ word prefix. SaysPrefix word.now prefix) words.now prefixes.items) }
    ensures refused { IfErr result (RefusesPrefixes (map (λ word. word.now) words.now)) }
{
    let mut prefixes = Vec::new(alloc);
    for word in words {
        let Some(prefix) = prefix_of(word) else {
            return Err(RenewalPlanFault::NoPrefix);
        };
        if prefixes.push(prefix).is_err() {
            return Err(RenewalPlanFault::OutOfMemory);
        }
    }
    Ok(prefixes)
}

// As how many Writes a database may be made again: as half of those that a log has room for, or where that is asked for as all.
fn most_writes(is_full: bool) -> u32
    ensures { result ≡ most_of is_full }
{
    if is_full { MAX_WRITES } else { MAX_WRITES / 2 }
}

impl RenewalPlan {
    /// The plan to renew a server of this number among so many, as these words say; or the first of them that can't be done.
    pub fn new(
        alloc: Global,
        id: u8,
        servers: u8,
        servers_then: u8,
        at: &str,
        without: &[&str],
        is_full: bool,
    ) -> Result<RenewalPlan, RenewalPlanFault>
        requires in_range { servers ≤ MOST_SERVERS }
        requires then_in_range { servers_then ≤ MOST_SERVERS }
        ensures whose { IfOk result (λ plan. (plan.id.index ≡ id) × (plan.servers ≡ servers) × (plan.servers_then ≡ servers_then)) }
        ensures said { IfOk result (λ plan. AllZip (λ word prefix. SaysPrefix word.now prefix) without.now plan.wish.without.items) }
        ensures most { IfOk result (λ plan. plan.wish.most ≡ most_of is_full) }
        ensures none { servers ≤ id → result ≡ Err NoServer }
        ensures left { id < servers → servers_then ≤ id → result ≡ Err LeftOut }
        ensures refused { IfErr result (Refuses id servers servers_then (map (λ word. word.now) without.now)) }
    {
        if id >= servers {
            return Err(RenewalPlanFault::NoServer);
        }
        if id >= servers_then {
            return Err(RenewalPlanFault::LeftOut);
        }
        let Some(at) = counts_of(at, servers) else {
            return Err(RenewalPlanFault::NoCounts);
        };
        let without = match prefixes_of(alloc, without) {
            Ok(without) => without,
            Err(fault) => return Err(fault),
        };
        let most = most_writes(is_full);
        let wish = RenewalWish { at, without, most };
        Ok(RenewalPlan {
            id: ServerId { index: id },
            servers,
            servers_then,
            wish,
        })
    }
}
