// The gate that each pair gives by itself: an AND, or where they are mixed an XOR of two of these.
// For any width: nothing is stored where a number of a gate might not be a word.
ghost use Rattle.std.specs.Prelude.{◌≡◌, ◌+◌, ◌*◌, ◌<◌, ◌≤◌};
ghost use Rattle.gf2.specs.Operands.{max_width};
ghost use Rattle.netlist.specs.Gates.{word_limit};
ghost use Rattle.netlist.specs.Lists.{and_wire};
ghost use Rattle.list_pairs.specs.Pairs.{fits, GatesPut, pair_gate, row_gates, pair_gates, pairs_from};

use crate::store;
use crate::store::Kind;

// Half of the words: more than a list has gates, and so few that every wire of a part is a word.
const LIMIT: usize = 2147483648;

// Whether a part is stored: for `count` coordinates, from gate n on.
pub fn fits(width: usize, count: usize, n: usize) -> bool
    ensures { result ≡ fits width count n }
{
    2 <= width && width <= limbs::MAX_WIDTH && count <= width && n < LIMIT
}

fn and_wire(width: usize, i: usize, j: usize) -> u32
    requires { (width ≤ max_width) × (i < width) × (j < width) }
    ensures { result ≡ and_wire width i j }
{
    (2 * width + (i * width + j)) as u32
}

// The gate of a pair as gate n, and the number of the next.
fn put_pair(out: &mut [u32], width: usize, mixed: bool, i: usize, j: usize, n: usize) -> usize
    requires { (width ≤ max_width) × (i < width) × (j < width) × (n + 1 < word_limit) }
    ensures { GatesPut n out.old (pair_gate mixed width i j) result out.new }
{
    if !mixed {
        store::put_gate(out, n, Kind::And.word(), i as u32, (width + j) as u32);
        return n + 1;
    }
    if i < j {
        let left = and_wire(width, i, j);
        store::put_gate(out, n, Kind::Xor.word(), left, and_wire(width, j, i));
        return n + 1;
    }
    n
}

fn put_row(out: &mut [u32], width: usize, mixed: bool, i: usize, n: usize) -> usize
    requires { (width ≤ max_width) × (i < width) × (n + width + 1 < word_limit) }
    ensures { GatesPut n out.old (row_gates mixed width i width) result out.new }
{
    let mut k = n;
    for j in 0..width {
        k = put_pair(out, width, mixed, i, j, k);
    }
    k
}

fn put_rows(out: &mut [u32], width: usize, mixed: bool, n: usize) -> usize
    requires { (width ≤ max_width) × (n + width * width + width + 1 < word_limit) }
    ensures { GatesPut n out.old (pair_gates mixed width width) result out.new }
{
    let mut k = n;
    for i in 0..width {
        k = put_row(out, width, mixed, i, k);
    }
    k
}

// The gate of each pair, by i and then j, from gate n on; the number of the next gate.
pub fn put_pairs(out: &mut [u32], width: usize, mixed: bool, n: usize) -> usize
    ensures { GatesPut n out.old (pairs_from mixed width n) result out.new }
{
    if !fits(width, width, n) {
        return n;
    }
    put_rows(out, width, mixed, n)
}
