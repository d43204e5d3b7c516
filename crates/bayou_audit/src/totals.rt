/// How many slips are out, and how many reads, Writes and refusals were filed: of a whole book, or of one share.
#[derive(Clone, Copy, Debug, Default, PartialEq, Eq)]
pub struct Totals {
    pub slips: usize,
    pub reads: usize,
    pub writes: usize,
    pub refusals: usize,
}
