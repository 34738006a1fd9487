// Faults, and what a call judges: each part of an argument by itself, in document 01's order.
#![tactic(auto)]

mod fault;
mod parts;

pub use fault::{CallFault, CardFault, Fault, FaultNumber, ListFault};
pub use parts::{
    judge_both_high, judge_both_high_carried, judge_high, judge_high_carried, judge_length,
    judge_lengths, judge_pair_widths, judge_sizes, judge_table_size, judge_width, judge_widths,
};
