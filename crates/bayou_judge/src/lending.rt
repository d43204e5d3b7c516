ghost use Rattle.std.specs.Prelude.{◌≡◌, ◌≤◌, length};
ghost use Rattle.bayou_base.specs.declared.limits.TheConstants.{SERVERS};
ghost use Rattle.bayou_judge.specs.History.{lent_lists, lists_of};

use arrayvec::ArrayVec;
use bayou_base::SERVERS;
use bayou_lang::RestingWrite;

/// The dumps of servers as slices, for a caller that keeps them in lists of its own. It copies no Write and allocates nothing.
pub fn lend_dumps<'a>(dumps: &'a [Vec<RestingWrite>]) -> ArrayVec<&'a [RestingWrite], SERVERS>
    requires { length dumps.now ≤ SERVERS }
    ensures count { length result.items ≡ length dumps.now }
    ensures lists { lent_lists result.items ≡ lists_of dumps.now }
{
    let mut lent = ArrayVec::new();
    for dump in dumps {
        lent.push(dump.as_slice());
    }
    lent
}
