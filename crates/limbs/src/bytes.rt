// Kernels on the bytes of a carried operand: the sum, the bits below a width, the test of the others,
// and the way from and to W bytes.
ghost use Rattle.std.specs.Prelude.{◌≡◌, ◌+◌, length};
ghost use Rattle.gf2.specs.Coordinates.{coord, pack};
ghost use Rattle.gf2.specs.Operands.{bytes_for, carried_bytes, from_coords, is_clear};

use crate::{BYTES, LIMBS, limbs, slices};

// The number of bytes of an operand: the width over 8, rounded up.
pub fn bytes_for(width: usize) -> usize
    ensures { result ≡ bytes_for width }
{
    width.div_ceil(8)
}

// The sum of the coordinates, modulo 2.
pub fn xored(x: [u8; BYTES], y: [u8; BYTES]) -> [u8; BYTES]
    ensures { result ≡ pack carried_bytes (λ i. coord x i + coord y i) }
{
    limbs::to_bytes(limbs::xored_limbs(limbs::to_limbs(x), limbs::to_limbs(y)))
}

// The coordinates below m, the others cleared.
pub fn cleared(x: [u8; BYTES], m: usize) -> [u8; BYTES]
    ensures { result ≡ from_coords carried_bytes m (coord x) }
{
    limbs::to_bytes(limbs::low_limbs(limbs::to_limbs(x), m))
}

// Whether no coordinate at m or above is set. One byte is looked at where the slice has as many as the width needs.
pub fn is_clear(s: &[u8], m: usize) -> bool
    ensures { result ≡ is_clear m s.now }
{
    let first = m / 8;
    if s.len() <= first {
        return true;
    }
    if s[first] >> (m % 8) != 0 {
        return false;
    }
    s[first + 1..].iter().all(|byte| *byte == 0)
}

// The same of a carried operand. Every limb is looked at, with no way out before the last, so that the loop is unrolled when it is compiled:
// byte by byte the test costs more than a sum.
pub fn is_clear_carried(x: &[u8; BYTES], m: usize) -> bool
    ensures { result ≡ is_clear m x.now }
{
    let all = limbs::to_limbs(*x);
    let mut high: u64 = 0;
    for w in 0..LIMBS {
        let limb = all[w];
        high |= limb - limbs::low_limb(limb, w, m);
    }
    high == 0
}

// The coordinates of a slice, in the bytes of a carried operand.
pub fn carried(s: &[u8]) -> [u8; BYTES]
    ensures { result ≡ pack carried_bytes (coord s.now) }
{
    limbs::to_bytes(slices::slice_limbs(s))
}

// The coordinates of a carried operand, in the bytes of a slice.
pub fn copy_out(x: [u8; BYTES], out: &mut [u8])
    ensures { out.new ≡ pack (length out.old) (coord x) }
{
    limbs::store(limbs::to_limbs(x), out);
}
