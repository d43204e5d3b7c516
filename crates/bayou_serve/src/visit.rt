//! What became of visits to a peer, and what of it is news.
ghost use Rattle.std.specs.Prelude.{◌≡◌, ◌≢◌, ◌<◌, ◌↔◌, IfErr, IfOk, IfSome, None, Some, false};
ghost use Rattle.bayou_serve.specs.News.{IsNoNews, Tells};
ghost use Rattle.bayou_serve.specs.Visits.{tells_loss};
ghost use Rattle.bayou_serve.specs.declared.visit.Visit.TheVariants.{Failed, Pulled as Came};

use bayou_base::ServerId;
use bayou_peer::{PullFault, PullStopped, Pulled};
use bayou_server::TakeFault;

/// What a visit to a peer came to.
#[derive(Clone, Copy, Debug, PartialEq, Eq)]
pub enum Visit {
    /// No connection came about.
    Away,
    /// So many Writes were taken, and so many were held already. Where the pull ended early after some that were taken, the next one goes on
    /// there, so that is no fault.
    Pulled(Pulled),
    /// The pull ended early, and nothing was taken.
    Failed(PullFault),
}

/// What is known after a visit to a peer.
#[derive(Clone, Copy, Debug, PartialEq, Eq)]
pub struct VisitOutcome {
    pub visit: Visit,
    /// Whether the peer told that the server lost Writes of its own.
    pub has_lost: bool,
}

/// What is reported of a peer.
#[derive(Clone, Copy, Debug, PartialEq, Eq)]
pub enum News {
    Away,
    /// It answers, and didn't before.
    Reached(Pulled),
    /// It answers as before, and Writes came.
    Pulled(Pulled),
    Failed(PullFault),
}

// What a visit came to whose pull ended so.
fn visit_of(ended: Result<Pulled, PullStopped>) -> Visit
    ensures whole { IfOk ended (λ pulled. result ≡ Came pulled) }
    ensures some { IfErr ended (λ stopped. 0 < stopped.before.taken → result ≡ Came stopped.before) }
    ensures none { IfErr ended (λ stopped. stopped.before.taken ≡ 0 → result ≡ Failed stopped.fault) }
{
    match ended {
        Ok(pulled) => Visit::Pulled(pulled),
        Err(PullStopped { before, .. }) if before.taken > 0 => Visit::Pulled(before),
        Err(PullStopped { fault, .. }) => Visit::Failed(fault),
    }
}

// Whether the pull stopped at a Write that tells that the server lost Writes of its own: one that it made itself and lacks, or another one under a name
// of its own than the one that it holds.
fn is_loss(server: ServerId, stopped: &PullStopped) -> bool
    ensures { result ≡ tells_loss server.index stopped.now }
{
    match (stopped.fault, stopped.refused) {
        (PullFault::Refused(TakeFault::OwnLost), _) => true,
        (PullFault::Refused(TakeFault::Conflict), Some(wid)) => wid.origin == server,
        _ => false,
    }
}

/// What is known after a visit of this server whose pull ended so.
pub fn outcome_of(server: ServerId, ended: Result<Pulled, PullStopped>) -> VisitOutcome
    ensures whole { IfOk ended (λ pulled. (result.visit ≡ Came pulled) × (result.has_lost ≡ false)) }
    ensures some { IfErr ended (λ stopped. 0 < stopped.before.taken → result.visit ≡ Came stopped.before) }
    ensures none { IfErr ended (λ stopped. stopped.before.taken ≡ 0 → result.visit ≡ Failed stopped.fault) }
    ensures lost { IfErr ended (λ stopped. result.has_lost ≡ tells_loss server.index stopped) }
{
    let has_lost = match &ended {
        Ok(_) => false,
        Err(stopped) => is_loss(server, stopped),
    };
    VisitOutcome {
        visit: visit_of(ended),
        has_lost,
    }
}

// What to report of a visit after the last one: that the peer's state changed, or that Writes came.
fn news_behind(last: Option<Visit>, visit: Visit) -> Option<News>
    ensures none { result ≡ None ↔ IsNoNews last visit }
    ensures told { IfSome result (Tells last visit) }
{
    match visit {
        Visit::Away => match last {
            Some(Visit::Away) => None,
            _ => Some(News::Away),
        },
        Visit::Pulled(pulled) => match last {
            Some(Visit::Pulled(_)) if pulled.taken == 0 => None,
            Some(Visit::Pulled(_)) => Some(News::Pulled(pulled)),
            _ => Some(News::Reached(pulled)),
        },
        Visit::Failed(fault) => match last {
            Some(Visit::Failed(before)) if before == fault => None,
            _ => Some(News::Failed(fault)),
        },
    }
}

/// What is known of a peer: what the last visit to it came to, if there was one.
#[derive(Clone, Copy, Debug, PartialEq, Eq)]
pub struct Acquaintance {
    last: Option<Visit>,
}

impl Acquaintance {
    /// A peer that wasn't visited yet.
    pub fn new() -> Self
        ensures { result.last ≡ None }
    {
        Acquaintance { last: None }
    }

    /// Has seen one visit more: what to report of that, if anything.
    pub fn visited(&mut self, visit: Visit) -> Option<News>
        ensures last { self.new.last ≡ Some visit }
        ensures none { result ≡ None ↔ IsNoNews self.old.last visit }
        ensures told { IfSome result (Tells self.old.last visit) }
    {
        let news = news_behind(self.last, visit);
        self.last = Some(visit);
        news
    }
}
