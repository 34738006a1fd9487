// A carried operand in limbs of 64 bits: coordinate i is bit i % 64 of limb i / 64.
// Which limbs a width needs; the way from bytes to limbs and back; sums, the coordinates below a width, a limb by its place, and two
// limbs in a row shifted.
ghost use Rattle.std.specs.Prelude.{◌≡◌, [], ◌∷◌, ℕ, ◌+◌, ◌-◌, ◌*◌, ◌/◌, ◌%◌, ◌^◌, ◌<◌, ◌≤◌, leb, length, get_or};
ghost use Rattle.std.specs.Int.Bits.{bit_and};
ghost use Rattle.gf2.specs.Coordinates.{coord, value, pack};
ghost use Rattle.gf2.specs.Operands.{carried_bytes, below};
ghost use Rattle.limbs.specs.Limbs.{carried_limbs, reach, ends_at, limb_coord, pack_limbs, limbs_of, raised, LimbPut, Cleared, Stored};

use crate::slices::eight;
use crate::{BYTES, FEW, FULL, LIMBS};

// Whether a loop over the limbs of a width ends before limb w: where w is the number of the few, and the width needs no more. In a loop of
// constant length this is looked at once.
pub fn ends_at(w: usize, m: usize) -> bool
    ensures { result ≡ ends_at w m }
{
    w == FEW && m < 64 * FEW
}

// Whether limb w stands past those that the width m is worked on in.
pub fn is_past(w: usize, m: usize) -> bool
    ensures { result ≡ leb (reach m) w }
{
    if w < FEW {
        return false;
    }
    if LIMBS <= w {
        return true;
    }
    m < 64 * FEW
}

pub fn to_limbs(x: [u8; BYTES]) -> [u64; LIMBS]
    ensures { result ≡ limbs_of x }
{
    let mut out = [0u64; LIMBS];
    for w in 0..LIMBS {
        out[w] = eight(&x, w * 8);
    }
    out
}

// A limb into eight bytes of a slice, from b on.
fn put_whole(limb: u64, b: usize, out: &mut [u8])
    requires { (b < carried_bytes) × (b + 8 ≤ length out.old) }
    ensures { LimbPut 8 limb b out.old out.new }
{
    out[b..b + 8].copy_from_slice(&limb.to_le_bytes());
}

// A limb into the bytes of a slice of less than eight.
fn put_part(limb: u64, out: &mut [u8])
    requires { length out.old < 8 }
    ensures { LimbPut 8 limb 0 out.old out.new }
{
    let n = out.len();
    out.copy_from_slice(&limb.to_le_bytes()[..n]);
}

// The limbs that have room in the slice.
fn put_limbs(x: [u64; LIMBS], out: &mut [u8])
    ensures { (length out.new ≡ length out.old) × Stored x carried_bytes (length out.old / 8 * 8) out.new }
{
    for w in 0..LIMBS {
        if out.len() < 8 * w + 8 {
            return;
        }
        let limb = x[w];
        put_whole(limb, 8 * w, out);
    }
}

// The limb that the slice ends in: the last eight bytes once more, as one limb. By lower_pair, whose lowest byte is known to
// come from one limb, they would be stored one by one.
fn put_last(x: [u64; LIMBS], out: &mut [u8])
    requires { (8 ≤ length out.old) × Stored x carried_bytes (length out.old / 8 * 8) out.old }
    ensures { Stored x carried_bytes (length out.old) out.new }
{
    let n = out.len();
    let s = 8 * (n % 8);
    let w = n / 8;
    if BYTES <= n {
        return;
    }
    if s != 0 {
        let low = x[w - 1];
        let high = x[w];
        put_whole((low >> s) ^ (high << (64 - s)), n - 8, out);
    }
}

// 0 in the bytes past those of a carried operand.
fn clear_rest(out: &mut [u8])
    ensures { Cleared carried_bytes (length out.old) out.old out.new }
{
    if BYTES < out.len() {
        out[BYTES..].fill(0);
    }
}

// The coordinates of limbs, in the bytes of a slice; bytes past the limbs become 0.
pub fn store(x: [u64; LIMBS], out: &mut [u8])
    ensures { out.new ≡ pack (length out.old) (limb_coord x) }
{
    if out.len() < 8 {
        let limb = x[0];
        put_part(limb, out);
    } else {
        put_limbs(x, out);
        put_last(x, out);
        clear_rest(out);
    }
}

pub fn to_bytes(x: [u64; LIMBS]) -> [u8; BYTES]
    ensures { result ≡ pack carried_bytes (limb_coord x) }
{
    let mut out = [0u8; BYTES];
    put_limbs(x, &mut out);
    out
}

// The bits of limb w that stand for coordinates below m: a limb and this is the limb's remainder.
fn mask(w: usize, m: usize) -> u64
    ensures { (x : ℕ) → x < 2 ^ 64 → bit_and x result ≡ x % 2 ^ (m - w * 64) }
{
    if m / 64 < w {
        return 0;
    }
    let n = m - w * 64;
    if 64 <= n {
        return FULL;
    }
    (1u64 << n) - 1
}

// Limb w with its coordinates below m, the others cleared.
pub fn low_limb(limb: u64, w: usize, m: usize) -> u64
    ensures { result ≡ limb % 2 ^ (m - w * 64) }
{
    limb & mask(w, m)
}

// The coordinates below m, the others cleared.
pub fn low_limbs(x: [u64; LIMBS], m: usize) -> [u64; LIMBS]
    ensures { result ≡ pack_limbs carried_limbs (below m (limb_coord x)) }
{
    let mut out = [0u64; LIMBS];
    for w in 0..LIMBS {
        if ends_at(w, m) {
            return out;
        }
        let limb = x[w];
        out[w] = low_limb(limb, w, m);
    }
    out
}

// The sum of the coordinates, modulo 2.
pub fn xored_limbs(x: [u64; LIMBS], y: [u64; LIMBS]) -> [u64; LIMBS]
    ensures { result ≡ pack_limbs carried_limbs (λ i. limb_coord x i + limb_coord y i) }
{
    let mut out = [0u64; LIMBS];
    for w in 0..LIMBS {
        out[w] = x[w] ^ y[w];
    }
    out
}

// Limb w, 0 past the last. Of a slice: an array handed by value would be copied at each call.
pub fn limb_at(x: &[u64], w: usize) -> u64
    ensures { result ≡ get_or x.now w 0 }
{
    x.get(w).copied().unwrap_or(0)
}

// Limb w of the limbs moved n up, 0 before the first.
pub fn limb_below(x: &[u64], w: usize, n: usize) -> u64
    ensures { result ≡ raised n (λ v. get_or x.now v 0) w }
{
    if n <= w { limb_at(x, w - n) } else { 0 }
}

// Two limbs in a row, from bit s modulo 64 of the first on. A shift by 64 is made of two. By `^`: with `|` all would be compiled to one
// shift of two limbs, which is slow and can't be made for several at once.
pub fn lower_pair(low: u64, high: u64, s: usize) -> u64
    ensures { result ≡ value 64 (λ j. limb_coord (low ∷ high ∷ []) (s % 64 + j)) }
{
    let skip = s % 64;
    (low >> skip) ^ ((high << 1) << (63 - skip))
}

// Two limbs in a row, moved up by s modulo 64: the upper of the two that come out.
pub fn raise_pair(low: u64, high: u64, s: usize) -> u64
    ensures { result ≡ value 64 (λ j. limb_coord (low ∷ high ∷ []) (64 - s % 64 + j)) }
{
    let skip = s % 64;
    (high << skip) ^ ((low >> 1) >> (63 - skip))
}
