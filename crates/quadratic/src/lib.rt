// The trace of a carried operand, and its sums of coordinates from the lowest on, which solve z² + z = c.
#![tactic(auto)]

ghost use Rattle.std.specs.Prelude.{◌≡◌, suc, ◌+◌, ◌*◌, ◌/◌, ◌%◌, ◌^◌, ◌<◌, length};
ghost use Rattle.gf2.specs.Sums.{sum};
ghost use Rattle.gf2.specs.Coordinates.{coord, value};
ghost use Rattle.gf2.specs.Operands.{carried_bytes, below, from_coords};
ghost use Rattle.gf2.specs.Quadratic.{root_coord};
ghost use Rattle.limbs.specs.Limbs.{carried_limbs, limb_coord, pack_limbs};

// The sum of the bits of a limb, modulo 2.
fn parity(x: u64) -> u8
    ensures { result ≡ sum 64 (λ j. x / 2 ^ j % 2) % 2 }
{
    (x.count_ones() % 2) as u8
}

// The sum of the coordinates of a slice, modulo 2: of its whole limbs, and of the one that it ends in.
pub fn trace(s: &[u8]) -> u8
    ensures { result ≡ sum (8 * length s.now) (coord s.now) % 2 }
{
    let whole = s.len() / 8;
    let mut total: u64 = 0;
    for w in 0..whole {
        total ^= limbs::limb_of(s, w);
    }
    parity(total ^ limbs::limb_of(s, whole))
}

// Bit j of the result is the sum of `carry` and the bits 0 to j of x, modulo 2.
fn prefix_sums(x: u64, carry: u64) -> u64
    requires { carry < 2 }
    ensures { result ≡ value 64 (λ j. carry + sum (suc j) (λ t. x / 2 ^ t % 2)) }
{
    let mut sums = x;
    for shift in [1u32, 2, 4, 8, 16, 32] {
        sums ^= sums << shift;
    }
    sums ^ (carry * u64::MAX)
}

// The solution's coordinates below m. It starts from coordinate 0 as the carry, so that its own coordinate 0 is 0.
pub fn root_limbs(c: [u64; limbs::LIMBS], m: usize) -> [u64; limbs::LIMBS]
    ensures { result ≡ pack_limbs carried_limbs (below m (λ i. limb_coord c 0 + sum (suc i) (limb_coord c))) }
{
    let mut out = [0u64; limbs::LIMBS];
    let mut carry = c[0] % 2;
    for w in 0..limbs::LIMBS {
        if limbs::ends_at(w, m) {
            return out;
        }
        let limb = c[w];
        let sums = prefix_sums(limb, carry);
        out[w] = limbs::low_limb(sums, w, m);
        carry = sums >> 63;
    }
    out
}

pub fn root(c: [u8; limbs::BYTES], m: usize) -> [u8; limbs::BYTES]
    ensures { result ≡ from_coords carried_bytes m (root_coord c) }
{
    limbs::to_bytes(root_limbs(limbs::to_limbs(c), m))
}
