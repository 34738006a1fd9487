// The calls of the C interface: every one of document 01, and that of document 02's request (b), on byte slices, each answer one number
// of 64 bits. Crate nb_c exports them.
#![tactic(auto)]

mod cards;
mod drawing;
mod netlists;
mod operands;
mod packing;
mod tables;

pub use cards::{nb_card_read, nb_card_write};
pub use drawing::{nb_draw, nb_type};
pub use netlists::{
    nb_accept, nb_counts_common, nb_counts_plain, nb_counts_reduced, nb_list_common, nb_list_plain,
    nb_list_reduced, nb_run,
};
pub use operands::{nb_one, nb_solve, nb_sum, nb_trace, nb_turn, nb_zero};
pub use tables::{nb_check, nb_inverse, nb_ones, nb_product, nb_product_reduced};
