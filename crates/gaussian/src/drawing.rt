// Drawing the table of a width and its type: a sum over the w of K, each of which adds to every row.
ghost use Rattle.std.specs.Prelude.{◌≡◌, ◌+◌, ◌*◌, ◌%◌, ◌^◌, ◌<◌, eqb};
ghost use Rattle.gf2.specs.Operands.{choose};
ghost use Rattle.gaussian.specs.Table.{gives, term, drawn};
ghost use Rattle.gaussian.specs.Inner.{Residue, Drawable, HasRow, in_row, Adds};

use crate::residues::{DiscreteLogarithms, Modulus, RESIDUES};

// One is added to coordinate s of row d.
fn flip(table: &mut [u8], m: usize, d: usize, s: usize)
    requires { HasRow m d table.old × (s < m) }
    ensures { Adds m (in_row d (λ i. choose (eqb i s) 1 0)) table.old table.new }
{
    let at = d * limbs::bytes_for(m) + s / 8;
    table[at] ^= 1u8 << (s % 8);
}

// All ones are added to row d.
fn flip_row(table: &mut [u8], m: usize, d: usize)
    requires { HasRow m d table.old }
    ensures { Adds m (in_row d (λ i. 1)) table.old table.new }
{
    for s in 0..m {
        flip(table, m, d, s);
    }
}

// What x gives is added to row d: one coordinate where x is not 0, else all of them if T is odd.
fn add_image(table: &mut [u8], logs: &DiscreteLogarithms, d: usize, x: u32)
    requires { HasRow logs.now.modulus.m d table.old × Residue logs.now.modulus.p x }
    ensures { Adds logs.now.modulus.m (in_row d (gives logs.now.modulus.p logs.now.modulus.t x)) table.old table.new }
{
    let Modulus { m, t, .. } = logs.modulus;
    if x == 0 {
        if t % 2 == 1 {
            flip_row(table, m, d);
        }
    } else if let Some(s) = logs.logarithm(x) {
        flip(table, m, d, s);
    }
}

// What one w of K gives is added to all rows.
fn add_images(table: &mut [u8], logs: &DiscreteLogarithms, w: u32)
    requires { HasRow logs.now.modulus.m 0 table.old × Residue logs.now.modulus.p w }
    ensures { Adds logs.now.modulus.m (λ d. gives logs.now.modulus.p logs.now.modulus.t ((1 + 2 ^ d * w) % logs.now.modulus.p)) table.old table.new }
{
    let modulus = logs.modulus;
    let mut y = w;
    for d in 0..modulus.m {
        add_image(table, logs, d, modulus.plus_one(y));
        y = modulus.times(y, 2);
    }
}

// The term of w in the sum over K.
fn add_term(table: &mut [u8], logs: &DiscreteLogarithms, w: u32)
    requires { HasRow logs.now.modulus.m 0 table.old × Residue logs.now.modulus.p w }
    ensures { Adds logs.now.modulus.m (term logs.now.modulus.p logs.now.modulus.t w) table.old table.new }
{
    if logs.modulus.in_k(w) {
        add_images(table, logs, w);
    }
}

// The table of width m and type T: the sum of the terms of all w below p.
pub(crate) fn fill(table: &mut [u8], m: usize, t: usize)
    requires { Drawable m t × HasRow m 0 table.old }
    ensures { table.new ≡ drawn m t }
{
    table.fill(0);
    let modulus = Modulus::new(m, t);
    let mut entries = [0u16; RESIDUES];
    let logs = DiscreteLogarithms::new(modulus, &mut entries);
    for w in 0..modulus.p {
        add_term(table, &logs, w);
    }
}
