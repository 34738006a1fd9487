// Sums of rows of a table: those at the ones of an operand, which is its product with β0.
ghost use Rattle.std.specs.Prelude.{◌≡◌, ℕ, ◌+◌, ◌*◌, ◌/◌, ◌%◌, ◌^◌, ◌<◌, ◌≤◌};
ghost use Rattle.gf2.specs.Sums.{sum};
ghost use Rattle.gf2.specs.Coordinates.{coord};
ghost use Rattle.gf2.specs.Operands.{carried_bytes, IsOperand};
ghost use Rattle.gf2.specs.Tables.{row};
ghost use Rattle.limbs.specs.Limbs.{limb_coord};
ghost use Rattle.table.specs.Inner.{Below, rows_at, limb_rows};

use crate::shaped::Table;

// A place below twice the width, modulo the width.
pub(crate) fn wrapped(place: usize, width: usize) -> usize
    requires { place < width + width }
    ensures { result ≡ place % width }
{
    if place < width { place } else { place - width }
}

impl<'a> Table<'a> {
    // The sum of `total` and row d, below the width. Where the table goes on for as many bytes as a carried operand has, these are read:
    // what follows the row adds nothing below the width.
    fn plus_row(&self, total: [u64; limbs::LIMBS], d: usize) -> [u64; limbs::LIMBS]
        requires { d < self.now.width }
        ensures { Below self.now.width (λ s. limb_coord total s + coord (row self.now.width self.now.bytes.now d) s) result }
    {
        let from = d * limbs::bytes_for(self.width);
        if from + limbs::BYTES <= self.bytes.len() {
            return limbs::plus_bytes(total, &self.bytes[from..from + limbs::BYTES], self.width);
        }
        limbs::plus_each(total, self.row(d))
    }

    // The sum of `total` and the rows at the ones of a limb, whose bits stand for the rows from `from` on, below the width.
    // The lowest one is taken off by an and, for which the next step needn't wait.
    fn plus_rows(&self, total: [u64; limbs::LIMBS], limb: u64, from: usize) -> [u64; limbs::LIMBS]
        requires { (b : ℕ) → self.now.width ≤ from + b → limb / 2 ^ b % 2 ≡ 0 }
        ensures { Below self.now.width (λ s. limb_coord total s + limb_rows self.now.width self.now.bytes.now limb from s) result }
    {
        let mut out = total;
        let mut rest = limb;
        while rest != 0 {
            let zeros = u64::trailing_zeros(rest) as usize;
            let next = self.plus_row(out, from + zeros);
            out = next;
            rest &= rest - 1;
        }
        out
    }

    // β0·x below the width: row d is β0·βd, so that this is the sum of the rows at the ones of x.
    pub(crate) fn rows_at(&self, x: &[u8]) -> [u64; limbs::LIMBS]
        requires { (i : ℕ) → self.now.width ≤ i → coord x.now i ≡ 0 }
        ensures { Below self.now.width (λ s. sum self.now.width (λ k. coord x.now k * coord (row self.now.width self.now.bytes.now k) s)) result }
    {
        let mut total = [0u64; limbs::LIMBS];
        for w in 0..limbs::LIMBS {
            if limbs::ends_at(w, self.width) {
                return total;
            }
            let limb = limbs::carried_limb(x, w);
            let next = self.plus_rows(total, limb, w * 64);
            total = next;
        }
        total
    }

    // β0·x, as a carried operand.
    pub(crate) fn times_first(&self, x: [u8; limbs::BYTES]) -> [u8; limbs::BYTES]
        requires { IsOperand carried_bytes self.now.width x }
        ensures { result ≡ rows_at self.now.width self.now.bytes.now x }
    {
        let total = self.rows_at(&x);
        limbs::to_bytes(limbs::low_limbs(total, self.width))
    }
}
