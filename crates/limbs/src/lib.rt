// The bytes of a carried operand as limbs of 64 bits, on which the kernels work: coordinate i is bit i % 64 of limb i / 64.
// The sizes of the house stand here.
#![tactic(auto)]

mod bytes;
mod limbs;
mod slices;

pub use bytes::{bytes_for, carried, cleared, copy_out, is_clear, is_clear_carried, xored};
pub use limbs::{
    ends_at, is_past, limb_at, limb_below, low_limb, low_limbs, lower_pair, raise_pair, store,
    to_bytes, to_limbs, xored_limbs,
};
pub use slices::{carried_limb, limb_of, plus_bytes, plus_each, slice_limbs, xored_slices};

// The greatest width.
pub const MAX_WIDTH: usize = 571;

// The bytes of a carried operand.
pub const BYTES: usize = 72;

// Its limbs.
pub const LIMBS: usize = BYTES / 8;

// A limb of ones.
pub const FULL: u64 = u64::MAX;

// The limbs of the narrower operands: where a width needs no more, the kernels end after these.
pub const FEW: usize = 4;
