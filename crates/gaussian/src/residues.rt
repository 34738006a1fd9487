// Residues modulo p = T·m+1, a prime, each held in 32 bits: one more, products, powers, and logarithms to the base 2^T.
ghost use Rattle.std.specs.Prelude.{◌≡◌, ◌+◌, ◌*◌, ◌%◌, ◌^◌};
ghost use Rattle.gaussian.specs.Types.{modulus};
ghost use Rattle.gaussian.specs.Table.{in_k};
ghost use Rattle.gaussian.specs.Inner.{Residue, Drawable, Logarithms, LogarithmOf};
ghost use Rattle.gaussian.specs.Drawables.{drawable-prop};

use crate::types;

// No modulus of a listed type reaches this number.
pub(crate) const RESIDUES: usize = types::MAX_TYPE * limbs::MAX_WIDTH + 2;

// A width m, a type t of it, and p, which 32 bits hold.
#[derive(Clone, Copy)]
pub(crate) struct Modulus {
    pub(crate) m: usize,
    pub(crate) t: usize,
    pub(crate) p: u32,
    ghost drawable: { Drawable m t } by { drawable-prop m t },
    ghost made: { p ≡ modulus m t },
}

impl Modulus {
    // Its proof is written out, so that p is narrowed by the law of all moduli (`ModuliFit`).
    #[tactic(none)]
    pub(crate) fn new(m: usize, t: usize) -> Modulus
        requires { Drawable m t }
        ensures { (result.m ≡ m) × (result.t ≡ t) }
    {
        Modulus {
            m,
            t,
            p: (t * m + 1) as u32,
        }
    }

    // x + 1 modulo p. The sum is p at most, so that nothing is divided.
    pub(crate) fn plus_one(self, x: u32) -> u32
        requires { Residue self.p x }
        ensures { result ≡ (x + 1) % self.p }
    {
        let sum = x + 1;
        if sum == self.p { 0 } else { sum }
    }

    // x·y modulo p. Residues are widened here, to multiply them, and nowhere else but to an index.
    pub(crate) fn times(self, x: u32, y: u32) -> u32
        requires { Residue self.p x × Residue self.p y }
        ensures { result ≡ x * y % self.p }
    {
        (u64::from(x) * u64::from(y) % u64::from(self.p)) as u32
    }

    // r, times x where the last binary digit of e is 1.
    fn digit(self, r: u32, x: u32, e: usize) -> u32
        requires { Residue self.p r × Residue self.p x }
        ensures { result ≡ r * x ^ (e % 2) % self.p }
    {
        if e % 2 == 0 { r } else { self.times(r, x) }
    }

    // x^e modulo p, by the binary digits of e from the lowest on.
    pub(crate) fn power(self, x: u32, e: usize) -> u32
        requires { Residue self.p x }
        ensures { result ≡ x ^ e % self.p }
    {
        let mut r: u32 = 1;
        let mut square = x;
        let mut left = e;
        while 0 < left {
            r = self.digit(r, square, left);
            square = self.times(square, square);
            left /= 2;
        }
        r
    }

    // Whether x lies in K: whether x^t is 1 modulo p.
    pub(crate) fn in_k(self, x: u32) -> bool
        requires { Residue self.p x }
        ensures { result ≡ in_k self.p self.t x }
    {
        self.power(x, self.t) == 1
    }
}

// The discrete logarithms to the base 2^t modulo p: entry y is s + 1 where y is (2^t)^s for an s below m, and 0 where there is none.
#[derive(Clone, Copy)]
pub(crate) struct DiscreteLogarithms<'a> {
    pub(crate) modulus: Modulus,
    entries: &'a [u16],
    ghost known: { Logarithms modulus.m modulus.t modulus.m entries.now },
}

impl<'a> DiscreteLogarithms<'a> {
    // The entries are lent, since an array of so many would be copied when it is returned.
    pub(crate) fn new(modulus: Modulus, entries: &'a mut [u16]) -> DiscreteLogarithms<'a>
        requires { Logarithms modulus.m modulus.t 0 entries.old }
        ensures { result.modulus ≡ modulus }
    {
        let base = modulus.power(2, modulus.t);
        let mut y: u32 = 1;
        for s in 0..modulus.m {
            entries[y as usize] = (s + 1) as u16;
            y = modulus.times(y, base);
        }
        DiscreteLogarithms { modulus, entries }
    }

    // The s below m for which (2^t)^s is x^t modulo p, where there is one.
    pub(crate) fn logarithm(&self, x: u32) -> Option<usize>
        requires { Residue self.now.modulus.p x }
        ensures { LogarithmOf self.now.modulus.m self.now.modulus.t x result }
    {
        let y = self.modulus.power(x, self.modulus.t);
        usize::from(self.entries[y as usize]).checked_sub(1)
    }
}
