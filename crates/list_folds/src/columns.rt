// The columns of a table: m limb strings, column s having bit d where row d, if it is kept, has coordinate s.
// A fold reads the next term from them and looks at no pair between.
ghost use Rattle.std.specs.Prelude.{◌≡◌, ◌+◌, ◌*◌, ◌<◌, ◌≤◌, length};
ghost use Rattle.gf2.specs.Operands.{max_width};
ghost use Rattle.limbs.specs.Limbs.{carried_limbs};
ghost use Rattle.list_folds.specs.TableFolds.{keeps};
ghost use Rattle.list_folds.specs.Columns.{Columns, FirstFrom, Firsts};

use table::Table;

// The rows whose pairs are folded.
#[derive(Clone, Copy)]
pub enum Rows {
    All,
    Full,
    Others,
}

// Limbs for the columns of a table of the greatest width.
pub(crate) const SCRATCH: usize = limbs::MAX_WIDTH * limbs::LIMBS;

fn is_kept(table: &Table, rows: Rows, d: usize) -> bool
    ensures { result ≡ keeps rows table.now.width table.now.bytes.now d }
{
    match rows {
        Rows::All => true,
        Rows::Full => netlist::full_row(table, d),
        Rows::Others => !netlist::full_row(table, d),
    }
}

// Row d, if it is kept.
fn fill_row(columns: &mut [u64], table: &Table, rows: Rows, d: usize)
    requires { (d < table.now.width) × Columns rows table.now.width table.now.bytes.now d columns.old }
    ensures { Columns rows table.now.width table.now.bytes.now (d + 1) columns.new }
{
    if !is_kept(table, rows, d) {
        return;
    }
    let width = table.width();
    let row = ones::row_limbs(width, table.bytes(), d);
    let mut s = ones::next_one(&row, 0);
    while s < width {
        let k = s * limbs::LIMBS + d / 64;
        columns[k] ^= 1 << (d % 64);
        s = ones::next_one(&row, s + 1);
    }
}

pub(crate) fn fill(columns: &mut [u64], table: &Table, rows: Rows)
    requires { Columns rows table.now.width table.now.bytes.now 0 columns.old }
    ensures { Columns rows table.now.width table.now.bytes.now table.now.width columns.new }
{
    for d in 0..table.width() {
        fill_row(columns, table, rows, d);
    }
}

// The first one from limb k on, in any column, where n is the first one after that limb.
fn first_from(columns: &[u64], k: usize, n: usize) -> usize
    requires { (k < length columns.now) × (length columns.now ≤ max_width * carried_limbs) × FirstFrom columns.now (64 * (k + 1)) n }
    ensures { FirstFrom columns.now (64 * k) result }
{
    let limb = columns[k];
    if limb == 0 {
        return n;
    }
    64 * k + u64::trailing_zeros(limb) as usize
}

// For each limb the first one of those after it, in any column, so that no search passes over limbs of zeros.
pub(crate) fn find_firsts(firsts: &mut [u32], columns: &[u64])
    requires { (length columns.now ≤ max_width * carried_limbs) × (length columns.now ≤ length firsts.old) }
    ensures { Firsts columns.now 0 firsts.new }
{
    let mut n = 64 * columns.len();
    for k in (0..columns.len()).rev() {
        firsts[k] = n as u32;
        n = first_from(columns, k, n);
    }
}
