// The turn of a carried operand, in limbs and in bytes: its coordinates moved up, and those that leave at the width moved to the front.
#![tactic(auto)]

ghost use Rattle.std.specs.Prelude.{◌≡◌, ◌+◌, ◌%◌, ◌<◌, ◌≤◌};
ghost use Rattle.gf2.specs.Coordinates.{coord, pack};
ghost use Rattle.gf2.specs.Operands.{max_width, carried_bytes, below};
ghost use Rattle.limbs.specs.Limbs.{carried_limbs, limb_coord, pack_limbs};
ghost use Rattle.turns.specs.Moves.{both_moves, rolled};

use moves::moved;

mod moves;

// The ways that coordinates move.
const UP: bool = true;

const DOWN: bool = false;

// The sum of two moves, as far as the width goes.
fn merged(x: [u64; limbs::LIMBS], y: [u64; limbs::LIMBS], m: usize) -> [u64; limbs::LIMBS]
    ensures { result ≡ pack_limbs carried_limbs (below m (λ i. limb_coord x i + limb_coord y i)) }
{
    let mut out = [0u64; limbs::LIMBS];
    for w in 0..limbs::LIMBS {
        if limbs::ends_at(w, m) {
            return out;
        }
        out[w] = limbs::low_limb(x[w] ^ y[w], w, m);
    }
    out
}

// Coordinates 0 to m-k-1 move up by k; the last k come round to the front.
fn both_moves(x: [u64; limbs::LIMBS], m: usize, k: usize) -> [u64; limbs::LIMBS]
    requires { (m ≤ max_width) × (k < m) }
    ensures { result ≡ pack_limbs carried_limbs (both_moves m k (limb_coord x)) }
{
    let back = m - k;
    merged(moved::<UP>(x, k, m), moved::<DOWN>(x, back, m), m)
}

// A count modulo the width. The remainder is made only of a count that is the width or more.
fn within(k: usize, m: usize) -> usize
    requires { 0 < m }
    ensures { result ≡ k % m }
{
    if k < m {
        return k;
    }
    k % m
}

// The turn of an operand of width m, whose bits at m and above are 0, by any count k. Total: what no turn can be made of stays as it is.
pub fn rolled_limbs(x: [u64; limbs::LIMBS], m: usize, k: usize) -> [u64; limbs::LIMBS]
    ensures { result ≡ pack_limbs carried_limbs (rolled m k (limb_coord x)) }
{
    if 0 < m && m <= limbs::MAX_WIDTH {
        return both_moves(x, m, within(k, m));
    }
    x
}

// The same in bytes.
pub fn rolled(x: [u8; limbs::BYTES], m: usize, k: usize) -> [u8; limbs::BYTES]
    ensures { result ≡ pack carried_bytes (rolled m k (coord x)) }
{
    limbs::to_bytes(rolled_limbs(limbs::to_limbs(x), m, k))
}
