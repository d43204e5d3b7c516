//! Whose rows are exported, as the words of a command line say it.
ghost use Rattle.std.specs.Prelude.{◌≡◌, ◌≤◌, IfNone, IfSome, IsSomeAnd, MatchResult, None, Ok};
ghost use Rattle.std.specs.Option.{option_copied};
ghost use Rattle.bayou_base.specs.declared.limits.TheConstants.{SERVERS as MOST_SERVERS};
ghost use Rattle.bayou_export.specs.Words.{IsPlanOf, IsWhose, Refuses, RefusesWhose, SaysNoPrefix, SaysPrefix};

use crate::whose::Whose;
use bayou_base::{Prefix, SERVERS, ServerId};
use thiserror::Error;

/// What is exported.
#[derive(Drop)]
pub struct ExportPlan {
    /// Whose journal is read; `None` where servers are asked.
    pub whose: Option<Whose>,
    /// What the keys begin with.
    pub prefix: Prefix,
}

/// Why the words of a command line make no plan.
#[derive(Clone, Copy, Debug, PartialEq, Eq, Error)]
pub enum ExportPlanFault {
    #[error("--dir and --id go together")]
    NotTogether,
    #[error("export takes either --server, or --dir and --id")]
    NotOne,
    #[error("--key goes with --server: a journal is read without it")]
    KeyOfJournal,
    #[error("--id is below --servers")]
    NoServer,
    #[error("PREFIX takes up to 32 bytes of a-z 0-9 . _ - /")]
    NoPrefix,
}

// The prefix that a word says, if it says one. Where there is no word, each key begins so.
fn prefix_of(word: Option<&str>) -> Option<Prefix>
    ensures said { IfSome result (SaysPrefix (option_copied word.entry)) }
    ensures none { IfNone result (SaysNoPrefix (option_copied word.entry)) }
{
    match word {
        None => Some(Prefix::default()),
        Some(word) => Prefix::new(word).ok(),
    }
}

// Whose journal is read, of so many servers, if that is said, else of as many as there may be.
fn whose_of(id: u8, count: Option<u8>, key: Option<&str>) -> Result<Whose, ExportPlanFault>
    requires { IfSome count (λ count. count ≤ MOST_SERVERS) }
    ensures { MatchResult result (IsWhose id count (option_copied key.entry)) (RefusesWhose id count (option_copied key.entry)) }
{
    if key.is_some() {
        return Err(ExportPlanFault::KeyOfJournal);
    }
    let count = count.unwrap_or(SERVERS as u8);
    if id >= count {
        return Err(ExportPlanFault::NoServer);
    }
    Ok(Whose {
        id: ServerId { index: id },
        count,
    })
}

// Whose journal is read, where one is.
fn whose_in(
    id: Option<u8>,
    count: Option<u8>,
    key: Option<&str>,
) -> Result<Option<Whose>, ExportPlanFault>
    requires { IfSome count (λ count. count ≤ MOST_SERVERS) }
    ensures none { id ≡ None → result ≡ Ok None }
    ensures some { IfSome id (λ id. MatchResult result (λ whose. IsSomeAnd whose (IsWhose id count (option_copied key.entry))) (RefusesWhose id count (option_copied key.entry))) }
{
    match id {
        None => Ok(None),
        Some(id) => Ok(Some(whose_of(id, count, key)?)),
    }
}

impl ExportPlan {
    /// The plan that these words make, of which so many name servers, or why they make none.
    pub fn new(
        servers: usize,
        count: Option<u8>,
        key: Option<&str>,
        folder: Option<&str>,
        id: Option<u8>,
        prefix: Option<&str>,
    ) -> Result<ExportPlan, ExportPlanFault>
        requires { IfSome count (λ count. count ≤ MOST_SERVERS) }
        ensures { MatchResult result (IsPlanOf servers count (option_copied key.entry) (option_copied folder.entry) id (option_copied prefix.entry))
            (Refuses servers count (option_copied key.entry) (option_copied folder.entry) id (option_copied prefix.entry)) }
    {
        if folder.is_some() != id.is_some() {
            return Err(ExportPlanFault::NotTogether);
        }
        if folder.is_some() == (servers > 0) {
            return Err(ExportPlanFault::NotOne);
        }
        let Some(prefix) = prefix_of(prefix) else {
            return Err(ExportPlanFault::NoPrefix);
        };
        let whose = whose_in(id, count, key)?;
        Ok(ExportPlan { whose, prefix })
    }
}
