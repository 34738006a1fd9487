// Slots of limbs, one for each bit of a limb: what the ones of a row ask for is added up there, and all is summed in the end.
// A one at coordinate s of a row asks for limbs at slot s % 64, from limb s / 64 on.
ghost use Rattle.std.specs.Prelude.{◌≡◌, ◌+◌, ◌*◌, ◌/◌, ◌%◌, ◌^◌, ◌<◌, ◌≤◌, eqb, length, replicate};
ghost use Rattle.gf2.specs.Operands.{choose, below};
ghost use Rattle.limbs.specs.Limbs.{carried_limbs, limb_coord, pack_limbs, raised};
ghost use Rattle.scatter.specs.Cells.{slots, twice_limbs, twice_reach, twice_ends_at, HasSlots, cell, Added, AddedAfter, kept_from, limbs_add, plus_row, spread_sum};

use crate::{ROOM, SLOTS, TWICE};

// 0 in every limb.
pub fn clear(g: &mut [u64])
    ensures { g.new ≡ replicate (length g.old) 0 }
{
    g.fill(0);
}

// e is added at slot r, from limb q on.
fn add_at(g: &mut [u64], m: usize, r: usize, q: usize, e: [u64; limbs::LIMBS])
    requires { HasSlots g.old × (r < slots) × (q < carried_limbs) }
    ensures { Added (λ t i. choose (eqb t r) 1 0 * kept_from m q e i) g.old g.new }
{
    let from = r * TWICE + q;
    for w in 0..limbs::LIMBS {
        if limbs::ends_at(w, m) {
            return;
        }
        g[from + w] ^= e[w];
    }
}

// e is added at the slot of each one of a limb, from limb q on.
// The lowest one is taken off by an and, for which the next step needn't wait.
fn add_limb(g: &mut [u64], m: usize, e: [u64; limbs::LIMBS], limb: u64, q: usize)
    requires { HasSlots g.old × (q < carried_limbs) }
    ensures { Added (λ r i. limb / 2 ^ r % 2 * kept_from m q e i) g.old g.new }
{
    let mut rest = limb;
    while rest != 0 {
        let zeros = rest.trailing_zeros() as usize;
        add_at(g, m, zeros, q, e);
        rest &= rest - 1;
    }
}

// e is added at the slot of each one of limbs FIRST to LAST - 1 of a row of bytes, where the ones below FIRST are added already.
// The few and the others have a loop each, by these parameters: it is short enough to be unrolled when it is compiled, which one loop for
// all is not.
fn add_limbs<const FIRST: usize, const LAST: usize>(
    g: &mut [u64],
    m: usize,
    e: [u64; limbs::LIMBS],
    row: &[u8],
)
    requires { HasSlots g.old × (FIRST ≤ LAST) × (LAST ≤ carried_limbs) }
    ensures { AddedAfter (limbs_add m e row.now FIRST) (limbs_add m e row.now LAST) g.old g.new }
{
    for q in FIRST..LAST {
        let limb = limbs::carried_limb(row, q);
        add_limb(g, m, e, limb, q);
    }
}

// e is added at the slot of each one of a row of bytes, where all slots are there.
pub fn add_row(g: &mut [u64], m: usize, e: [u64; limbs::LIMBS], row: &[u8])
    ensures { g.new ≡ plus_row m g.old e row.now }
{
    if g.len() != ROOM {
        return;
    }
    add_limbs::<0, { limbs::FEW }>(g, m, e, row);
    if m < 64 * limbs::FEW {
        return;
    }
    add_limbs::<{ limbs::FEW }, { limbs::LIMBS }>(g, m, e, row);
}

// Whether a loop over the limbs of a product ends before limb w: where w is twice the number of the few, and the width needs no more.
fn ends_twice(w: usize, m: usize) -> bool
    ensures { result ≡ twice_ends_at w m }
{
    w == 2 * limbs::FEW && m < 64 * limbs::FEW
}

// The coordinates moved up by one place, and those of slot r added.
fn next_sum(x: [u64; TWICE], m: usize, g: &[u64], r: usize) -> [u64; TWICE]
    requires { HasSlots g.now × (r < slots) }
    ensures { result ≡ pack_limbs twice_limbs (below (64 * twice_reach m) (λ i. raised 1 (limb_coord x) i + cell g.now r i)) }
{
    let from = r * TWICE;
    let mut out = [0u64; TWICE];
    let mut previous: u64 = 0;
    for w in 0..TWICE {
        if ends_twice(w, m) {
            return out;
        }
        let limb = x[w];
        out[w] = limbs::raise_pair(previous, limb, 1) ^ g[from + w];
        previous = limb;
    }
    out
}

// The sum of all slots, slot r moved up r, by Horner's rule; 0 where not all slots are there.
pub fn spread(g: &[u64], m: usize) -> [u64; TWICE]
    ensures { result ≡ pack_limbs twice_limbs (spread_sum m g.now) }
{
    let mut acc = [0u64; TWICE];
    if g.len() != ROOM {
        return acc;
    }
    for r in (0..SLOTS).rev() {
        let next = next_sum(acc, m, g, r);
        acc = next;
    }
    acc
}
