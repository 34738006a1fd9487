// Writing the gate lists of a table.
#![tactic(auto)]

mod lists;

pub use lists::list;
