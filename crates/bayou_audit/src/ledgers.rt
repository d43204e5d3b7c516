use std::marker::PhantomData;
use std::sync::ledger::{Blank, Ledger};

/// Which ledgers a book counts in, one for each of its totals. Its shares are of the same ones.
pub trait Ledgers {
    type Slips: Ledger + Send + Sync;

    type Reads: Ledger + Send + Sync;

    type Writes: Ledger + Send + Sync;

    type Refusals: Ledger + Send + Sync;
}

/// These four ledgers. A function that is generic over the four is called with a `Brand` for each.
pub struct Four<S, R, W, F> {
    slips: PhantomData<S>,
    reads: PhantomData<R>,
    writes: PhantomData<W>,
    refusals: PhantomData<F>,
}

impl<S, R, W, F> Ledgers for Four<S, R, W, F>
where
    S: Ledger + Send + Sync,
    R: Ledger + Send + Sync,
    W: Ledger + Send + Sync,
    F: Ledger + Send + Sync,
{
    type Slips = S;

    type Reads = R;

    type Writes = W;

    type Refusals = F;
}

/// New ledgers, which no type stands for yet.
#[derive(Drop)]
pub struct Blanks {
    pub slips: Blank,
    pub reads: Blank,
    pub writes: Blank,
    pub refusals: Blank,
}
