// Kernels on limbs of 64 bits: coordinates multiplied, an operand written twice, and the coordinates from one on.
ghost use Rattle.std.specs.Prelude.{◌≡◌, ◌+◌, ◌*◌, ◌/◌, ◌%◌, ◌^◌, ◌<◌, length};
ghost use Rattle.gf2.specs.Coordinates.{value};
ghost use Rattle.gf2.specs.Operands.{choose};
ghost use Rattle.limbs.specs.Limbs.{carried_limbs, limb_coord, pack_limbs, raised};
ghost use Rattle.scatter.specs.Cells.{twice_limbs, seen_from, met_at};

use crate::TWICE;

// The products of the coordinates.
pub fn masked(x: [u64; limbs::LIMBS], y: [u64; limbs::LIMBS]) -> [u64; limbs::LIMBS]
    ensures { result ≡ pack_limbs carried_limbs (λ i. limb_coord x i * limb_coord y i) }
{
    let mut out = [0u64; limbs::LIMBS];
    for w in 0..limbs::LIMBS {
        out[w] = x[w] & y[w];
    }
    out
}

// The operand and the same again m places up: below 2m, coordinate i is that of i modulo m.
pub fn twice(x: &[u64], m: usize) -> [u64; TWICE]
    ensures { result ≡ pack_limbs twice_limbs (λ i. limb_coord x.now i + raised m (limb_coord x.now) i) }
{
    let mut out = [0u64; TWICE];
    for w in 0..TWICE {
        let low = limbs::limb_below(x, w, m / 64 + 1);
        let high = limbs::limb_below(x, w, m / 64);
        out[w] = limbs::limb_at(x, w) ^ limbs::raise_pair(low, high, m);
    }
    out
}

// Limb w of a list and the next, from bit `at` modulo 64 on.
fn seen_limb(x: &[u64], w: usize, at: usize) -> u64
    requires { (w < 2 ^ 60) × (w + 1 < length x.now) }
    ensures { result ≡ value 64 (λ j. limb_coord x.now (w * 64 + at % 64 + j)) }
{
    let low = x[w];
    let high = x[w + 1];
    limbs::lower_pair(low, high, at)
}

// The coordinates from `at` on, where there are limbs enough. A slice: an array handed by value would be copied at each call.
pub fn window(x: &[u64], at: usize, m: usize) -> [u64; limbs::LIMBS]
    ensures { result ≡ pack_limbs carried_limbs (seen_from m x.now at) }
{
    let first = at / 64;
    let mut out = [0u64; limbs::LIMBS];
    if x.len() <= first + limbs::LIMBS {
        return out;
    }
    for w in 0..limbs::LIMBS {
        if limbs::ends_at(w, m) {
            return out;
        }
        out[w] = seen_limb(x, first + w, at);
    }
    out
}

// Limb w of what a row at distance d meets, of which x and y are limbs; those of xx and yy stand from limb w on.
fn met_limb(once: bool, d: usize, x: u64, y: u64, xx: &[u64], yy: &[u64], w: usize) -> u64
    requires { (w < 2 ^ 60) × (w + 1 < length xx.now) × (w + 1 < length yy.now) }
    ensures { result ≡ value 64 (λ j. x / 2 ^ j % 2 * limb_coord yy.now (w * 64 + d % 64 + j)
        + choose once 0 (y / 2 ^ j % 2 * limb_coord xx.now (w * 64 + d % 64 + j))) }
{
    let one = x & seen_limb(yy, w, d);
    if once {
        return one;
    }
    one ^ (y & seen_limb(xx, w, d))
}

// What a row at distance d meets, where xx and yy are x and y written twice: the products of coordinates i of x and i + d of y,
// and unless one way round is all, those of y and x too. Nothing where xx or yy has not limbs enough.
pub fn met(
    once: bool,
    m: usize,
    d: usize,
    x: [u64; limbs::LIMBS],
    y: [u64; limbs::LIMBS],
    xx: &[u64],
    yy: &[u64],
) -> [u64; limbs::LIMBS]
    ensures { result ≡ pack_limbs carried_limbs (met_at once m d x y xx.now yy.now) }
{
    let first = d / 64;
    let mut out = [0u64; limbs::LIMBS];
    if xx.len() <= first + limbs::LIMBS {
        return out;
    }
    if yy.len() <= first + limbs::LIMBS {
        return out;
    }
    for w in 0..limbs::LIMBS {
        if limbs::ends_at(w, m) {
            return out;
        }
        let left = x[w];
        let right = y[w];
        out[w] = met_limb(once, d, left, right, xx, yy, first + w);
    }
    out
}
