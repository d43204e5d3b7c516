use crate::ledgers::Ledgers;
use crate::share::Share;
use crate::totals::Totals;
use bayou_base::Entry;

/// What a book comes to once all its shares are back.
#[derive(Debug, Drop)]
pub struct BookSettled {
    pub totals: Totals,
    /// In the order in which they were filed.
    pub entries: Vec<Entry>,
}

/// Why a book isn't settled.
#[derive(Clone, Copy, Debug, PartialEq, Eq)]
pub enum SettleFault {
    /// Fewer shares were given back than were made.
    ShareMissing,
    /// A slip wasn't spent.
    SlipOut,
}

/// A book that isn't settled, with the shares that were given back.
#[derive(Drop)]
pub struct Unsettled<B: Drop, K: Ledgers> {
    pub fault: SettleFault,
    pub book: B,
    pub shares: Vec<Share<K>>,
}
