ghost use Rattle.bayou_node.specs.Books.{Begun};

use std::marker::{Brand, Model};
use std::sync::ledger::{Ledger, Share};

/// The ledger of a node's accepted Writes, and what the node is of.
pub trait Desks: Ledger {
    /// Its server, as the node was made.
    ghost begun: { Begun };
}

impl Desks for Brand {
    ghost begun = { record { server = 0; count = 0; limit = 0; stored = 0 } };
}

/// Whoever has it may have programs accepted at its node, one after another. It counts them.
#[derive(Drop)]
pub struct Desk<L: Desks> {
    pub(crate) share: Share<L>,
}

impl<L: Desks> Model for Desk<L> {
    ghost use Rattle.std.specs.Prelude.{◌≡◌, ℕ};

    ghost Value = { ℕ };

    ghost view = { λ d. d.share.amount };

    ghost invariant = { λ d. d.share.parts ≡ 1 };
}
