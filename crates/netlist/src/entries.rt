// The rows of a table that are all ones.
ghost use Rattle.std.specs.Prelude.{◌≡◌, ◌≤◌};
ghost use Rattle.gf2.specs.Tables.{row};
ghost use Rattle.netlist.specs.Lists.{all_ones, full_rows};

use table::Table;

// A row has no bit at the width or above, so it is all ones where it has as many as the width. There are none past the last row.
pub fn full_row(table: &Table, d: usize) -> bool
    ensures { result ≡ all_ones table.now.width (row table.now.width table.now.bytes.now d) }
{
    ones::ones_of(table.row(d)) == table.width()
}

pub(crate) fn full_rows(table: &Table) -> usize
    ensures { (result ≡ full_rows table.now.width table.now.bytes.now) × (result ≤ table.now.width) }
{
    (0..table.width()).filter(|d| full_row(table, *d)).count()
}
