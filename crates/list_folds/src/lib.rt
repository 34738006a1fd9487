// The folds of a gate list, written into a buffer of words. Their terms are read from the columns of the table.
#![tactic(auto)]

ghost use Rattle.std.specs.Prelude.{◌≡◌};
ghost use Rattle.std.proofs.lemmas.List.Edits.{sets};
ghost use Rattle.list_pairs.specs.Pairs.{GatesPut};
ghost use Rattle.list_folds.specs.TableFolds.{fold_gates, fold_wires};

mod columns;
mod fold;
mod reading;
mod terms;

pub use columns::Rows;
use reading::Columns;
use table::Table;
pub use terms::Terms;

// The folds for the first coordinates, `count` of them, from gate n on, and the wires of their sums; the number of the next gate.
// Nothing is stored where a number of a gate might not be a word.
pub fn put_folds(
    out: &mut [u32],
    ends: &mut [u32],
    table: &Table,
    t: Terms,
    count: usize,
    n: usize,
) -> usize
    ensures gates_put { GatesPut n out.old (fold_gates t table.now.width table.now.bytes.now count n) result out.new }
    ensures ends_after { ends.new ≡ sets ends.old 0 (fold_wires t table.now.width table.now.bytes.now count n) }
{
    let width = table.width();
    if !list_pairs::fits(width, count, n) {
        return n;
    }
    let mut scratch = [0u64; columns::SCRATCH];
    columns::fill(&mut scratch, table, t.rows);
    let mut firsts = [0u32; columns::SCRATCH];
    columns::find_firsts(&mut firsts, &scratch);
    let columns = Columns {
        width,
        limbs: &scratch,
        firsts: &firsts,
    };
    terms::put_each(out, ends, &columns, t, count, n)
}
