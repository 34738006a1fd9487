// Cards, the serialised form of a table that document 01 lays down: reading one.
#![tactic(auto)]

mod reading;
mod store;

pub use reading::read;
