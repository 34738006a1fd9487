// Gate lists of a table: counting their gates, and the rows that are all ones.
#![tactic(auto)]

mod counts;
mod entries;
mod words;

pub use counts::{Method, all_counts, gate_counts, tally, tally_of};
pub use entries::full_row;
pub use words::coordinate;

// The numbers of a list's gates by kind: the papers' AND and XOR columns are never added together.
#[derive(Clone, Copy, Debug, PartialEq, Eq)]
pub struct AndCount(pub usize);

#[derive(Clone, Copy, Debug, PartialEq, Eq)]
pub struct XorCount(pub usize);

// The gates of a list by kind.
#[derive(Clone, Copy, Debug, PartialEq, Eq)]
pub struct GateCounts {
    pub ands: AndCount,
    pub xors: XorCount,
}

// The gates of the three lists.
#[derive(Clone, Copy, Debug, PartialEq, Eq)]
pub struct AllCounts {
    pub plain: GateCounts,
    pub reduced: GateCounts,
    pub common: GateCounts,
}

// The gates of a list by kind, the number of all gates, and the all-ones rows whose pairs are shared.
#[derive(Clone, Copy, Debug, PartialEq, Eq)]
pub struct Tallied {
    pub counts: GateCounts,
    pub gates: usize,
    pub full: usize,
}
