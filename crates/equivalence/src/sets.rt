// The products that are summed in each gate, as bits: a square of MOST_WIDTH by MOST_WIDTH for each gate, ai·bj at row i and column j.
ghost use Rattle.std.specs.Prelude.{◌≡◌, ◌+◌, ◌*◌, ◌/◌, ◌%◌, ◌^◌, ◌<◌, ◌≤◌, set};
ghost use Rattle.netlist.specs.Running.{gate_count};
ghost use Rattle.netlist.specs.Judgements.{InForm};
ghost use Rattle.equivalence.specs.Causes.{most_width, most_gates};
ghost use Rattle.equivalence.specs.Inner.{set_bits, set_limbs, place_of, Gathered, AllGathered, SumPut};

use crate::comparison::Comparison;
use crate::{MOST_GATES, MOST_WIDTH};

// The bits and the limbs of a gate's square.
pub(crate) const BITS: usize = MOST_WIDTH * MOST_WIDTH;

const LIMBS: usize = BITS / 64;

// The limbs of all: 64,000 bytes.
pub(crate) const ROOM: usize = MOST_GATES * LIMBS;

// Where the product of a wire of a and one of b has its bit.
fn place(width: usize, left: usize, right: usize) -> usize
    requires { (width ≤ most_width) × InForm width 0 left right }
    ensures { (result ≡ place_of width left right) × (result < set_bits) }
{
    if left < width {
        return MOST_WIDTH * left + (right - width);
    }
    MOST_WIDTH * right + (left - width)
}

// The square of gate k, which was clear, with one product.
fn put_product(sets: &mut [u64; ROOM], k: usize, at: usize)
    requires { (k < most_gates) × (at < set_bits) }
    ensures { sets.new ≡ set sets.old (set_limbs * k + at / 64) (1 * 2 ^ (at % 64) % 2 ^ 64) }
{
    sets[LIMBS * k + at / 64] = 1u64 << (at % 64);
}

// The square of gate k, those of gates x and y added: a product that is in both falls out.
fn put_sum(sets: &mut [u64; ROOM], k: usize, x: usize, y: usize)
    requires { (k < most_gates) × (x < k) × (y < k) }
    ensures { SumPut set_limbs k x y sets.old sets.new }
{
    for w in 0..LIMBS {
        sets[LIMBS * k + w] = sets[LIMBS * x + w] ^ sets[LIMBS * y + w];
    }
}

impl<'a> Comparison<'a> {
    // The square of gate k, from those before it.
    fn fill_set(&self, k: u32, sets: &mut [u64; ROOM])
        requires { (k < gate_count self.now.list.words.now) × Gathered self.now.list.width self.now.list.words.now k sets.old }
        ensures { Gathered self.now.list.width self.now.list.words.now (k + 1) sets.new }
    {
        let width = self.list.width;
        let left = self.list.left(k);
        let right = self.list.right(k);
        if self.list.kind(k) == 0 {
            put_product(sets, k as usize, place(width, left, right));
        } else {
            put_sum(sets, k as usize, left - 2 * width, right - 2 * width);
        }
    }

    // The squares of all gates.
    pub(crate) fn fill_sets(&self, sets: &mut [u64; ROOM])
        requires { Gathered self.now.list.width self.now.list.words.now 0 sets.old }
        ensures { AllGathered self.now.list.width self.now.list.words.now sets.new }
    {
        for k in 0..self.list.gates() {
            self.fill_set(k, sets);
        }
    }
}
