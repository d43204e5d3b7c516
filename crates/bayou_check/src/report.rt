//! What is reported of a text.
ghost use Rattle.std.specs.Prelude.{◌≡◌, ◌↔◌, ◌≤◌, None, vec_len};

use crate::kind::TextKind;
use crate::least::Least;
use crate::standing::LineCounts;
use crate::told::FaultyLine;

/// What a text is, and what is wrong with it.
#[derive(Drop)]
pub struct Report {
    pub kind: TextKind,
    /// The least line with a fault, for which the text is refused.
    pub least: Option<FaultyLine>,
    /// Lines with a fault after it, as if each line with a fault weren't there.
    pub others: Vec<FaultyLine>,
    /// How many lines have a fault.
    pub faults: u64,
    /// How many lines there are.
    pub lines: u64,
    pub counts: LineCounts,
    /// The least line for which a script is refused over sockets.
    pub network: Option<Least>,
    pub ghost none_counted: { (faults ≡ 0) ↔ (least ≡ None) },
    pub ghost others_counted: { vec_len others ≤ faults },
}
