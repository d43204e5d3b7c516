//! Where what two servers handed over isn't the same.
ghost use Rattle.std.specs.Prelude.{◌≡◌, IfNone, IfSome, false, true};
ghost use Rattle.bayou_lang.specs.Writes.{AreFitting};
ghost use Rattle.bayou_restore.specs.Differing.{Agree, AgreeOnAll, Differ, IsFirstDifference};

use crate::gathering::Gathered;
use bayou_base::{ServerId, Wid};

// Whether both have a Write of this name, and the two aren't the same.
fn differ_at(one: &Gathered, other: &Gathered, wid: Wid) -> bool
    requires one { AreFitting one.now.count one.now.writes }
    requires other { AreFitting other.now.count other.now.writes }
    ensures differ { result ≡ true → Differ one.now.writes other.now.writes wid.origin.index wid.seq }
    ensures agree { result ≡ false → Agree one.now.writes other.now.writes wid.origin.index wid.seq }
{
    let (Some(write), Some(another)) = (one.find(wid), other.find(wid)) else {
        return false;
    };
    !(*write == *another)
}

/// The number of the first Write of this server which both have, and which isn't the same in both; none where each that both have is. So the
/// server gave that name twice.
pub fn first_difference(one: &Gathered, other: &Gathered, origin: ServerId) -> Option<u32>
    ensures some { IfSome result (λ number. IsFirstDifference one.now.writes other.now.writes origin.index number) }
    ensures none { IfNone result (AgreeOnAll one.now.writes other.now.writes origin.index) }
{
    // Each fits those before it.
    let (_writes, _others) = (one.writes(), other.writes());
    let both = one.vector().get(origin).min(other.vector().get(origin));
    for behind in 0..both {
        let wid = Wid {
            origin,
            seq: behind + 1,
        };
        if differ_at(one, other, wid) {
            return Some(wid.seq);
        }
    }
    None
}
