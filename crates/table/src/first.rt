// Rule 6 for i = 0, which under rules 4 and 5 decides it for every i: β1, the square of β0, acts on each βj as β0 twice.
ghost use Rattle.std.specs.Prelude.{◌≡◌, ◌-◌, ◌*◌, ◌^◌, ◌<◌, ◌≤◌, eqb};
ghost use Rattle.gf2.specs.Sums.{every};
ghost use Rattle.gf2.specs.Coordinates.{coord};
ghost use Rattle.gf2.specs.Operands.{max_width, bytes_for, minus, IsOperand};
ghost use Rattle.limbs.specs.Limbs.{limb_coord};
ghost use Rattle.table.specs.Inner.{associates};

use crate::sums;
use crate::symmetry::SymmetricTable;

// Coordinate m-1 of an operand of W bytes, as the highest bit of a limb.
fn last_high(s: &[u8], m: usize) -> u64
    requires { (1 ≤ m) × (IsOperand (bytes_for m) m s.now) }
    ensures { result ≡ coord s.now (m - 1) * 2 ^ 63 }
{
    let at = (m - 1) / 8;
    let last = s[at] >> ((m - 1) % 8);
    u64::from(last) << 63
}

// Whether limbs have, below m, the coordinates of the square of an operand of W bytes. Limb by limb, so that no square is stored.
fn is_square(x: &[u64; limbs::LIMBS], s: &[u8], m: usize) -> bool
    requires { (1 ≤ m) × (m ≤ max_width) × (IsOperand (bytes_for m) m s.now) }
    ensures { result ≡ every m (λ i. eqb (limb_coord x.now i) (coord s.now (minus m i 1))) }
{
    let mut previous = last_high(s, m);
    for w in 0..limbs::LIMBS {
        if limbs::ends_at(w, m) {
            return true;
        }
        let limb = limbs::carried_limb(s, w);
        if limbs::low_limb(x[w] ^ limbs::raise_pair(previous, limb, 1), w, m) != 0 {
            return false;
        }
        previous = limb;
    }
    true
}

impl<'a> SymmetricTable<'a> {
    // Whether (β0·β0)·βj is β0·(β0·βj). By rule 4 β0·β0 is β1, and β1·βj is row j-1 turned one place; β0·βj is row j.
    pub(crate) fn acts_twice(&self, j: usize) -> bool
        requires { j < self.now.table.width }
        ensures { result ≡ associates self.now.table.width self.now.table.bytes.now 0 j }
    {
        let width = self.table.width;
        let right = self.table.rows_at(self.table.row(j));
        is_square(
            &right,
            self.table.row(sums::wrapped(j + (width - 1), width)),
            width,
        )
    }

    // Whether that holds for every j.
    pub(crate) fn all_act_twice(&self) -> bool
        ensures { result ≡ every self.now.table.width (associates self.now.table.width self.now.table.bytes.now 0) }
    {
        for j in 0..self.table.width {
            if !self.acts_twice(j) {
                return false;
            }
        }
        true
    }
}
