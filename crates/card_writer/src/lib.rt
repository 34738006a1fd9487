// Writing a table's card.
#![tactic(auto)]

mod writing;

pub use writing::write;
