// Tables of products of basis elements: their shape, their rows, their ones, the four that are carried, and the check.
#![tactic(auto)]

mod carried;
mod counts;
mod first;
mod rows;
mod shaped;
mod sums;
mod symmetry;
mod triples;

pub use carried::Carried;
pub use counts::ones;
pub use shaped::Table;
pub use symmetry::SymmetricTable;
pub use triples::check;
