// The C interface, exported: each call of crate nb under its name, by the C calling convention and with nb's clauses.
#![tactic(auto)]

mod cards;
mod drawing;
mod netlists;
mod operands;
mod tables;
