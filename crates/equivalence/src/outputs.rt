// The outputs: each one's set of products beside the pairs whose product has its coordinate.
ghost use Rattle.std.specs.Prelude.{◌≡◌, ◌<◌, ◌≤◌, eqb};
ghost use Rattle.gf2.specs.Sums.{every};
ghost use Rattle.gf2.specs.Operands.{minus as minus_of};
ghost use Rattle.judging.specs.Causes.{judged};
ghost use Rattle.netlist.specs.Sets.{wanted, same_products, is_right_output};
ghost use Rattle.equivalence.specs.Causes.{most_width, most_gates, output_causes};
ghost use Rattle.equivalence.specs.Inner.{bit_at, AllGathered};

use crate::comparison::Comparison;
use crate::{MOST_WIDTH, sets};
use judging::{Fault, ListFault};

// Whether ai·bj is in the square of gate k.
fn in_set(squares: &[u64; sets::ROOM], k: usize, i: usize, j: usize) -> u64
    requires { (k < most_gates) × (i < most_width) × (j < most_width) }
    ensures { result ≡ bit_at squares.now k i j }
{
    let n = sets::BITS * k + (MOST_WIDTH * i + j);
    (squares[n / 64] >> (n % 64)) % 2
}

// i - k modulo the width.
fn minus(width: usize, i: usize, k: usize) -> usize
    requires { (width ≤ most_width) × (i < width) × (k < width) }
    ensures { (result ≡ minus_of width i k) × (result < width) }
{
    if k <= i { i - k } else { i + (width - k) }
}

impl<'a> Comparison<'a> {
    // Whether βi·βj has coordinate r: row j - i, turned i places.
    fn is_wanted(&self, r: usize, i: usize, j: usize) -> u64
        requires { (r < self.now.list.width) × (i < self.now.list.width) × (j < self.now.list.width) }
        ensures { result ≡ wanted self.now.list.width self.now.table.bytes.now r i j }
    {
        let width = self.list.width;
        let row = minus(width, j, i) * limbs::bytes_for(width);
        netlist::coordinate(self.table.bytes(), 8 * row + minus(width, r, i)) as u64
    }

    // Row i of the square of gate k.
    fn same_row(&self, squares: &[u64; sets::ROOM], k: usize, r: usize, i: usize) -> bool
        requires { (k < most_gates) × (r < self.now.list.width) × (i < self.now.list.width) }
        ensures { result ≡ every self.now.list.width (λ j. eqb (bit_at squares.now k i j) (wanted self.now.list.width self.now.table.bytes.now r i j)) }
    {
        for j in 0..self.list.width {
            if in_set(squares, k, i, j) != self.is_wanted(r, i, j) {
                return false;
            }
        }
        true
    }

    // The square of gate k, as far as the width goes.
    fn same_set(&self, squares: &[u64; sets::ROOM], k: usize, r: usize) -> bool
        requires { (k < most_gates) × (r < self.now.list.width) }
        ensures { result ≡ same_products self.now.list.width (bit_at squares.now k) (wanted self.now.list.width self.now.table.bytes.now r) }
    {
        (0..self.list.width).all(|i| self.same_row(squares, k, r, i))
    }

    // The output for r: no product is summed in an input wire.
    fn is_right(&self, squares: &[u64; sets::ROOM], r: usize) -> bool
        requires { AllGathered self.now.list.width self.now.list.words.now squares.now × (r < self.now.list.width) }
        ensures { result ≡ is_right_output self.now.list.width self.now.table.bytes.now self.now.list.words.now r }
    {
        let inputs = 2 * self.list.width;
        let wire = self.list.output(r);
        if inputs <= wire {
            return self.same_set(squares, wire - inputs, r);
        }
        false
    }

    // All outputs, to the first that is wrong.
    pub(crate) fn judge_outputs(&self, squares: &[u64; sets::ROOM]) -> Result<(), Fault>
        requires { AllGathered self.now.list.width self.now.list.words.now squares.now }
        ensures { result ≡ judged (output_causes self.now.list.width self.now.table.bytes.now self.now.list.words.now) }
    {
        for r in 0..self.list.width {
            if !self.is_right(squares, r) {
                return Err(Fault::List(ListFault::Output(r)));
            }
        }
        Ok(())
    }
}
