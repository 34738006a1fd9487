// The kernels of a product: its two methods; an operand written twice, the coordinates from one on, products of coordinates;
// what the ones of a row add at their slots, and the sum of all slots.
#![tactic(auto)]

mod methods;
mod slots;
mod windows;

pub use methods::{Method, first_row, row_count};
pub use slots::{add_row, clear, spread};
pub use windows::{masked, met, twice, window};

// Room for an operand's limbs twice, and one more to read past a limb's end.
pub const TWICE: usize = 2 * limbs::LIMBS + 1;

// A slot for each bit of a limb.
pub const SLOTS: usize = 64;

// The limbs of all slots, each with room for a product: some 10 KiB, which stay in a processor's nearest cache.
pub const ROOM: usize = SLOTS * TWICE;
