//! New ledgers for a book of what was served.
ghost use Rattle.std.specs.Prelude.{◌≡◌};

use bayou_audit::Blanks;
use std::sync::ledger::Blank;

/// New ledgers for so many shares.
pub fn blanks(shares: u8) -> Blanks
    ensures slips { result.slips.parts ≡ shares }
    ensures reads { result.reads.parts ≡ shares }
    ensures writes { result.writes.parts ≡ shares }
    ensures refusals { result.refusals.parts ≡ shares }
{
    Blanks {
        slips: Blank::new(u64::from(shares)),
        reads: Blank::new(u64::from(shares)),
        writes: Blank::new(u64::from(shares)),
        refusals: Blank::new(u64::from(shares)),
    }
}
