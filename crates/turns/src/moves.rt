// Coordinates moved up or down: a move is one of whole limbs, by steps that the count's binary digits choose, and one of bits, over two
// limbs at a time. All that a width doesn't need is left out. The way is a const parameter, so that each is compiled for itself.
ghost use Rattle.std.specs.Prelude.{◌≡◌, ◌*◌, ◌<◌, get_or};
ghost use Rattle.gf2.specs.Coordinates.{tabulate};
ghost use Rattle.gf2.specs.Operands.{choose, below};
ghost use Rattle.limbs.specs.Limbs.{carried_limbs, reach, limb_coord, pack_limbs};
ghost use Rattle.turns.specs.Moves.{moved, pair_at};

fn pick(c: bool, yes: u64, no: u64) -> u64
    ensures { result ≡ choose c yes no }
{
    if c { yes } else { no }
}

// The limb that comes to place w where all are moved n up or down. None comes down from past those that a width needs.
fn moved_limb<const UP: bool>(x: &[u64], w: usize, n: usize, m: usize) -> u64
    requires { (w < carried_limbs) × (n < carried_limbs) }
    ensures { result ≡ moved UP (reach m) n (λ v. get_or x.now v 0) w }
{
    if UP {
        return limbs::limb_below(x, w, n);
    }
    if limbs::is_past(w + n, m) {
        return 0;
    }
    limbs::limb_at(x, w + n)
}

// The limbs moved n where c holds.
fn move_if<const UP: bool>(
    c: bool,
    x: [u64; limbs::LIMBS],
    n: usize,
    m: usize,
) -> [u64; limbs::LIMBS]
    requires { n < carried_limbs }
    ensures { result ≡ tabulate carried_limbs (below (reach m) (λ w. choose c (moved UP (reach m) n (λ v. get_or x v 0) w) (get_or x w 0))) }
{
    let mut out = [0u64; limbs::LIMBS];
    for w in 0..limbs::LIMBS {
        if limbs::ends_at(w, m) {
            return out;
        }
        let limb = x[w];
        out[w] = pick(c, moved_limb::<UP>(&x, w, n, m), limb);
    }
    out
}

// The limbs moved n, by 1, 2, 4, .. where n has that binary digit.
fn move_limbs<const UP: bool>(x: [u64; limbs::LIMBS], n: usize, m: usize) -> [u64; limbs::LIMBS]
    requires { n < reach m }
    ensures { result ≡ tabulate carried_limbs (below (reach m) (moved UP (reach m) n (λ v. get_or x v 0))) }
{
    let mut out = x;
    let mut step = 1;
    while step < limbs::LIMBS {
        if limbs::ends_at(step, m) {
            return out;
        }
        let next = move_if::<UP>(n / step % 2 == 1, out, step, m);
        out = next;
        step = 2 * step;
    }
    out
}

// Limb w of limbs whose bits are moved k modulo 64, made of it and of the one that the bits come from.
fn moved_bits<const UP: bool>(x: &[u64], w: usize, k: usize) -> u64
    requires { w < carried_limbs }
    ensures { result ≡ pair_at UP k (λ v. get_or x.now v 0) w }
{
    let limb = limbs::limb_at(x, w);
    if UP {
        return limbs::raise_pair(limbs::limb_below(x, w, 1), limb, k);
    }
    limbs::lower_pair(limb, limbs::limb_at(x, w + 1), k)
}

// The coordinates moved k.
pub(crate) fn moved<const UP: bool>(
    x: [u64; limbs::LIMBS],
    k: usize,
    m: usize,
) -> [u64; limbs::LIMBS]
    requires { k < 64 * reach m }
    ensures { result ≡ pack_limbs carried_limbs (below (64 * reach m) (moved UP (64 * reach m) k (limb_coord x))) }
{
    let whole = move_limbs::<UP>(x, k / 64, m);
    let mut out = [0u64; limbs::LIMBS];
    for w in 0..limbs::LIMBS {
        if limbs::ends_at(w, m) {
            return out;
        }
        out[w] = moved_bits::<UP>(&whole, w, k);
    }
    out
}
