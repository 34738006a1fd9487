// Rows of a table as limbs, and their ones: where the next one is, and how many there are. And the highest one of a number.
#![tactic(auto)]

ghost use Rattle.std.specs.Prelude.{◌≡◌, ◌-◌, ◌*◌, ◌/◌, ◌%◌, ◌^◌, ◌<◌, length};
ghost use Rattle.gf2.specs.Sums.{sum};
ghost use Rattle.gf2.specs.Coordinates.{coord};
ghost use Rattle.gf2.specs.Inverse.{log2};
ghost use Rattle.limbs.specs.Limbs.{carried_limbs, limb_coord};
ghost use Rattle.ones.specs.RowLimbs.{first_one, next_one, row_limbs};

// The places of limbs.
const PLACES: usize = 64 * limbs::LIMBS;

// The first one of a limb from bit s on, 64 where there is none.
fn one_from(limb: u64, s: usize) -> usize
    requires { s < 64 }
    ensures { result ≡ first_one (λ j. limb / 2 ^ j % 2) s (64 - s) }
{
    let left = limb >> s;
    if left == 0 {
        return 64;
    }
    s + left.trailing_zeros() as usize
}

// The first place from `from` on that is 1, or none of the limbs'. Limbs of zeros are passed over at once.
pub fn next_one(x: &[u64; limbs::LIMBS], from: usize) -> usize
    ensures { result ≡ next_one x.now from }
{
    let mut i = from;
    while i < PLACES {
        let w = i / 64;
        let j = one_from(x[w], i % 64);
        if j < 64 {
            return w * 64 + j;
        }
        i = w * 64 + 64;
    }
    i
}

// The ones of a limb.
fn limb_ones(limb: u64) -> usize
    ensures { result ≡ sum 64 (λ j. limb / 2 ^ j % 2) }
{
    limb.count_ones() as usize
}

// The ones of limbs.
pub fn ones_in(x: &[u64; limbs::LIMBS]) -> usize
    ensures { result ≡ sum (64 * carried_limbs) (limb_coord x.now) }
{
    let mut total = 0;
    for limb in x {
        total += limb_ones(*limb);
    }
    total
}

// The ones of bytes, limb by limb; modulo 2^64, which no bytes in a memory have.
pub fn ones_of(bytes: &[u8]) -> usize
    ensures { result ≡ sum (8 * length bytes.now) (coord bytes.now) % 2 ^ 64 }
{
    let mut total: usize = 0;
    for w in 0..bytes.len().div_ceil(8) {
        total = total.wrapping_add(limb_ones(limbs::limb_of(bytes, w)));
    }
    total
}

// Row d of a table, as far as the table goes.
pub fn row_limbs(width: usize, table: &[u8], d: usize) -> [u64; limbs::LIMBS]
    ensures { result ≡ row_limbs width table.now d }
{
    if width <= d || limbs::MAX_WIDTH < width {
        return [0; limbs::LIMBS];
    }
    let size = limbs::bytes_for(width);
    let start = (d * size).min(table.len());
    let end = (start + size).min(table.len());
    limbs::slice_limbs(&table[start..end])
}

// The place of the highest one of a number: how many binary digits follow it. 0 for 0.
pub fn highest_one(n: usize) -> usize
    ensures { result ≡ log2 n }
{
    if n == 0 { 0 } else { n.ilog2() as usize }
}
