ghost use Rattle.std.specs.Prelude.{◌≡◌, ◌<◌, ◌≤◌, length};
ghost use Rattle.bayou_base.specs.declared.limits.TheConstants.{SERVERS};

use bayou_base::Entry;
use bayou_lang::RestingWrite;

/// An audit file, each line of which is in its place.
#[derive(Debug, Drop)]
pub struct AuditFile {
    /// How many servers there are, from server 0 on.
    pub count: u8,
    /// What became of each operation, in the order of the lines.
    pub entries: Vec<Entry>,
    /// What each server holds, in the order of the lines.
    pub dumps: Vec<Vec<RestingWrite>>,
    pub ghost count_in_range: { (0 < count) × (count ≤ SERVERS) },
    pub ghost one_each: { length dumps.items ≡ count },
}
