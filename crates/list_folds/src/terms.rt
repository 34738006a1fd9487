// The terms of a list's folds, pair after pair, and the folds for the coordinates.
ghost use Rattle.std.specs.Prelude.{◌≡◌, ℕ, ◌+◌, ◌-◌, ◌*◌, ◌/◌, ◌<◌, ◌≤◌, List};
ghost use Rattle.std.proofs.lemmas.List.Edits.{sets};
ghost use Rattle.gf2.specs.Operands.{max_width, minus as minus_of};
ghost use Rattle.netlist.specs.Gates.{word_limit};
ghost use Rattle.netlist.specs.Lists.{gate_wire, folds, ends as ends_of};
ghost use Rattle.list_pairs.specs.Pairs.{GatesPut};
ghost use Rattle.list_folds.specs.TableFolds.{square_term};
ghost use Rattle.list_folds.specs.Folds.{Pushed, fresh};
ghost use Rattle.list_folds.specs.Columns.{is_set};
ghost use Rattle.list_folds.specs.Terms.{Run, row_base, run_terms, row_terms, rows_to, fold_terms};

use crate::columns::Rows;
use crate::fold;
use crate::fold::Fold;
use crate::reading::Columns;

// What is folded for each r: first a square where the pairs are mixed, then the pairs of the kept rows, then the last wire if it is given.
#[derive(Clone, Copy)]
pub struct Terms {
    pub rows: Rows,
    pub mixed: bool,
    pub last: Option<u32>,
}

// i - k modulo the width.
fn minus(width: usize, i: usize, k: usize) -> usize
    requires { (width ≤ max_width) × (i < width) × (k < width) }
    ensures { (result ≡ minus_of width i k) × (result < width) }
{
    if k <= i { i - k } else { i + (width - k) }
}

// The wire of the pair i, j is this and j: for the ANDs, and for the XORs of pairs after them.
fn row_base(width: usize, mixed: bool, i: usize) -> usize
    requires { (2 ≤ width) × (width ≤ max_width) × (i < width) }
    ensures { result ≡ row_base mixed width i }
{
    if mixed {
        2 * width + width * width + i * (2 * width - i - 1) / 2 - i - 1
    } else {
        2 * width + i * width
    }
}

// The ones of a column from bit `from` up to `to`: bit d is wire start + d.
fn push_run(
    out: &mut [u32],
    columns: &Columns,
    at: usize,
    from: usize,
    to: usize,
    start: usize,
    f: Fold,
) -> Fold
    requires { Run columns.now.width columns.now.limbs.now at from to start f.gates }
    ensures { Pushed columns.now.width f out.old (run_terms (is_set columns.now.limbs.now at) start from (to - from)) result out.new }
{
    let mut g = f;
    let mut d = columns.next_one(at, from, to);
    while d < to {
        g = fold::push(out, columns.width, g, (start + d) as u32);
        d = columns.next_one(at, d + 1, to);
    }
    g
}

// The pairs of row i: j below i is bit j - i + m of the column, any other bit j - i.
fn push_row(out: &mut [u32], columns: &Columns, mixed: bool, r: usize, i: usize, f: Fold) -> Fold
    requires { (r < columns.now.width) × (i < columns.now.width) × (3 * columns.now.width + f.gates < word_limit) }
    ensures { Pushed columns.now.width f out.old (row_terms mixed columns.now.width columns.now.limbs.now r i) result out.new }
{
    let width = columns.width;
    let at = minus(width, r, i) * limbs::LIMBS;
    let start = row_base(width, mixed, i) + i;
    let upper = width - i;
    if mixed {
        return push_run(out, columns, at, 1, upper, start, f);
    }
    let g = push_run(out, columns, at, upper, width, start - width, f);
    push_run(out, columns, at, 0, upper, start, g)
}

// All pairs, by i and then j.
fn push_pairs(out: &mut [u32], columns: &Columns, mixed: bool, r: usize, f: Fold) -> Fold
    requires { (r < columns.now.width) × (3 * columns.now.width + columns.now.width * columns.now.width + f.gates < word_limit) }
    ensures { Pushed columns.now.width f out.old (rows_to mixed columns.now.width columns.now.limbs.now r columns.now.width) result out.new }
{
    let mut g = f;
    for i in 0..columns.width {
        g = push_row(out, columns, mixed, r, i, g);
    }
    g
}

// A fold with the square, where it stands before the pairs.
fn first_term(width: usize, square: bool, r: usize, n: usize) -> Fold
    requires { (2 ≤ width) × (width ≤ max_width) × (r < width) }
    ensures { (result.gates ≡ n) × ((out : List ℕ) → Pushed width (fresh n) out (square_term square width r) result out) }
{
    if !square {
        return Fold {
            running: None,
            gates: n,
        };
    }
    let i = minus(width, r, 1);
    let base = row_base(width, false, i);
    Fold {
        running: Some((base + i) as u32),
        gates: n,
    }
}

// The fold for r, its first gate being gate n.
fn fold_terms(out: &mut [u32], columns: &Columns, t: Terms, r: usize, n: usize) -> Fold
    requires { (r < columns.now.width) × (3 * columns.now.width + columns.now.width * columns.now.width + n < word_limit) }
    ensures { Pushed columns.now.width (fresh n) out.old (fold_terms t columns.now.width columns.now.limbs.now r) result out.new }
{
    let first = first_term(columns.width, t.mixed, r, n);
    let all = push_pairs(out, columns, t.mixed, r, first);
    fold::push_last(out, columns.width, all, t.last)
}

// The folds for the first coordinates, `count` of them, from gate n on, and the wires of their sums; the number of the next gate.
pub(crate) fn put_each(
    out: &mut [u32],
    ends: &mut [u32],
    columns: &Columns,
    t: Terms,
    count: usize,
    n: usize,
) -> usize
    requires { (count ≤ columns.now.width) × (n < word_limit / 2) }
    ensures gates_put { GatesPut n out.old (folds count (gate_wire columns.now.width n) (fold_terms t columns.now.width columns.now.limbs.now)) result out.new }
    ensures ends_after { ends.new ≡ sets ends.old 0 (ends_of count (gate_wire columns.now.width n) (fold_terms t columns.now.width columns.now.limbs.now)) }
{
    let mut k = n;
    for r in 0..count {
        let f = fold_terms(out, columns, t, r, k);
        stores::put(ends, r, f.running.unwrap_or(0));
        k = f.gates;
    }
    k
}
