//! Of which operations a guarantee speaks.
ghost use Rattle.std.specs.Prelude.{◌≡◌, ◌↔◌, IsTrue};
ghost use Rattle.bayou_judge.specs.Inner.Needs.{IsFirst, IsSecond, is_first, is_second};

use crate::breach::Guarantee;
use bayou_base::{Entry, SessionId, What};

/// Whether the guarantee speaks of such an operation as the earlier one.
fn is_first(guarantee: Guarantee, what: &What) -> bool
    ensures { result ≡ is_first guarantee what.now }
{
    match what {
        What::Read(_, _) => matches!(
            guarantee,
            Guarantee::MonotonicReads | Guarantee::WritesFollowReads
        ),
        What::Write(_, _, _) => matches!(
            guarantee,
            Guarantee::ReadYourWrites | Guarantee::MonotonicWrites
        ),
        What::Refused => false,
    }
}

/// Whether the guarantee speaks of such an operation as the later one.
fn is_second(guarantee: Guarantee, what: &What) -> bool
    ensures { result ≡ is_second guarantee what.now }
{
    match what {
        What::Read(_, _) => matches!(
            guarantee,
            Guarantee::ReadYourWrites | Guarantee::MonotonicReads
        ),
        What::Write(_, _, _) => matches!(
            guarantee,
            Guarantee::WritesFollowReads | Guarantee::MonotonicWrites
        ),
        What::Refused => false,
    }
}

/// Whether the entry is of the session, and the guarantee speaks of it as the earlier one.
pub(crate) fn is_first_of(guarantee: Guarantee, session: SessionId, entry: &Entry) -> bool
    ensures { IsTrue result ↔ IsFirst guarantee session.index entry.now }
{
    entry.session.index == session.index && is_first(guarantee, &entry.what)
}

/// Whether the entry is of the session, and the guarantee speaks of it as the later one.
pub(crate) fn is_second_of(guarantee: Guarantee, session: SessionId, entry: &Entry) -> bool
    ensures { IsTrue result ↔ IsSecond guarantee session.index entry.now }
{
    entry.session.index == session.index && is_second(guarantee, &entry.what)
}
