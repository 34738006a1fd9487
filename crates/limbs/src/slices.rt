// Limbs read from slices of bytes: by whole limbs where the bytes reach; what lies past the end is 0.
// One limb of a slice, all that a carried operand has, and what a slice adds to limbs.
ghost use Rattle.std.specs.Prelude.{◌≡◌, ◌&&◌, ◌+◌, ◌*◌, ◌^◌, ◌<◌, ◌≤◌, eqb, leb, length, get_or};
ghost use Rattle.gf2.specs.Coordinates.{coord, value};
ghost use Rattle.gf2.specs.Operands.{carried_bytes, choose, below};
ghost use Rattle.limbs.specs.Limbs.{carried_limbs, few, reach, limb_coord, pack_limbs, limbs_of};

use crate::limbs::ends_at;
use crate::{BYTES, FEW, LIMBS};

// Eight bytes of a slice, from b on, the first lowest.
pub(crate) fn eight(s: &[u8], b: usize) -> u64
    requires { b + 8 ≤ length s.now }
    ensures { result ≡ value 64 (λ j. coord s.now (b * 8 + j)) }
{
    u64::from_le_bytes([
        s[b],
        s[b + 1],
        s[b + 2],
        s[b + 3],
        s[b + 4],
        s[b + 5],
        s[b + 6],
        s[b + 7],
    ])
}

// The first eight bytes of a slice as one limb, 0 past its end: for slices of less than eight.
fn few_bytes(s: &[u8]) -> u64
    ensures { result ≡ value 64 (λ j. coord s.now (0 * 8 + j)) }
{
    let mut limb: u64 = 0;
    for b in (0..s.len()).rev() {
        limb = (limb << 8) | u64::from(s[b]);
    }
    limb
}

// Limb w of a slice, 0 past its end. Where the slice ends in it, its last eight bytes are read and shifted down.
fn slice_limb(s: &[u8], w: usize) -> u64
    requires { w < 2 ^ 60 }
    ensures { result ≡ value 64 (λ j. coord s.now (w * 64 + j)) }
{
    let b = w * 8;
    let n = s.len();
    if w < n / 8 {
        return eight(s, b);
    }
    if n <= b {
        return 0;
    }
    if n < 8 {
        return few_bytes(s);
    }
    eight(s, n - 8) >> (8 * (b + 8 - n))
}

// The same for any w.
pub fn limb_of(s: &[u8], w: usize) -> u64
    ensures { result ≡ value 64 (λ j. coord s.now (w * 64 + j)) }
{
    if s.len() / 8 < w {
        return 0;
    }
    slice_limb(s, w)
}

// Limb w of the carried operand that has the coordinates of a slice, 0 past its last.
pub fn carried_limb(s: &[u8], w: usize) -> u64
    ensures { result ≡ get_or (limbs_of s.now) w 0 }
{
    if LIMBS <= w {
        return 0;
    }
    slice_limb(s, w)
}

// Whether a loop over the limbs of n bytes ends before limb w: where w is the number of the few, and the bytes have room in them.
fn is_after(w: usize, n: usize) -> bool
    ensures { result ≡ (eqb w few && leb n (8 * few)) }
{
    w == FEW && n <= 8 * FEW
}

// The coordinates of a slice, in the limbs of a carried operand.
pub fn slice_limbs(s: &[u8]) -> [u64; LIMBS]
    ensures { result ≡ limbs_of s.now }
{
    let mut out = [0u64; LIMBS];
    for w in 0..LIMBS {
        if is_after(w, s.len()) {
            return out;
        }
        out[w] = slice_limb(s, w);
    }
    out
}

// The sum of the coordinates of two slices, as far as the limbs of a width go. Limb by limb: limbs that were stored one by one are not read
// in pairs then.
pub fn xored_slices(a: &[u8], b: &[u8], m: usize) -> [u64; LIMBS]
    ensures { result ≡ pack_limbs carried_limbs (below (64 * reach m) (λ i. coord a.now i + coord b.now i)) }
{
    let mut out = [0u64; LIMBS];
    for w in 0..LIMBS {
        if ends_at(w, m) {
            return out;
        }
        out[w] = slice_limb(a, w) ^ slice_limb(b, w);
    }
    out
}

// The sum of limbs and the coordinates of as many bytes, as far as the limbs of a width go. Nothing is added where there are fewer bytes:
// those that are there are read with no test of each limb.
pub fn plus_bytes(x: [u64; LIMBS], s: &[u8], m: usize) -> [u64; LIMBS]
    ensures { result ≡ pack_limbs carried_limbs (λ i. limb_coord x i + choose (leb carried_bytes (length s.now)) (below (64 * reach m) (coord s.now) i) 0) }
{
    let mut out = x;
    if s.len() < BYTES {
        return out;
    }
    for w in 0..LIMBS {
        if ends_at(w, m) {
            return out;
        }
        out[w] = x[w] ^ eight(s, 8 * w);
    }
    out
}

// The sum of limbs and the coordinates of a slice, byte by byte: for what stands at the end of a table.
pub fn plus_each(x: [u64; LIMBS], s: &[u8]) -> [u64; LIMBS]
    ensures { result ≡ pack_limbs carried_limbs (λ i. limb_coord x i + coord s.now i) }
{
    let mut out = x;
    for (b, byte) in s.iter().enumerate() {
        if BYTES <= b {
            return out;
        }
        out[b / 8] ^= u64::from(*byte) << (8 * (b % 8));
    }
    out
}
