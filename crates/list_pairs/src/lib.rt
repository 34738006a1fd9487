// The first part of a gate list, written into a buffer of words: the gates that each pair gives by itself.
#![tactic(auto)]

mod pairs;
mod store;

pub use pairs::{fits, put_pairs};
pub use store::{Kind, put_gate};
