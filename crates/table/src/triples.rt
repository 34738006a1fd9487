// The check. Rule 6 is judged by sums of rows, on a table that has passed rules 4 and 5: no product is made.
ghost use Rattle.std.specs.Prelude.{◌≡◌, ◌<◌};
ghost use Rattle.table.specs.Inner.{left_product, right_product, associates};
ghost use Rattle.gf2.specs.Operands.{carried_by};
ghost use Rattle.table.specs.Judgements.{triple_verdict, check_verdict};

use crate::sums;
use crate::symmetry::{self, SymmetricTable};
use judging::Fault;

impl<'a> SymmetricTable<'a> {
    // (β0·βi)·βj: the factor β0·βi is row i. Both factors are turned back j places, which makes β0 of βj, and their product j places on;
    // by rule 5 the factors may be exchanged.
    fn left_product(&self, i: usize, j: usize) -> [u8; limbs::BYTES]
        requires { (i < self.now.table.width) × (j < self.now.table.width) }
        ensures { result ≡ carried_by (left_product self.now.table.width self.now.table.bytes.now i j) }
    {
        let table = self.table;
        let factor = table.turned(table.carried_row(i), table.width - j);
        table.turned(table.times_first(factor), j)
    }

    // β0·(βi·βj): the factor βi·βj is row j-i turned i places.
    fn right_product(&self, i: usize, j: usize) -> [u8; limbs::BYTES]
        requires { (i < self.now.table.width) × (j < self.now.table.width) }
        ensures { result ≡ carried_by (right_product self.now.table.width self.now.table.bytes.now i j) }
    {
        let table = self.table;
        let d = sums::wrapped(j + (table.width - i), table.width);
        let factor = table.turned(table.carried_row(d), i);
        table.times_first(factor)
    }

    // Whether the triple of 0, i and j is associative; for i = 0 as before the search.
    fn associative(&self, i: usize, j: usize) -> bool
        requires { (i < self.now.table.width) × (j < self.now.table.width) }
        ensures { result ≡ associates self.now.table.width self.now.table.bytes.now i j }
    {
        if i == 0 {
            return self.acts_twice(j);
        }
        symmetry::same_bytes(self.left_product(i, j), self.right_product(i, j))
    }

    // The search ends at the first pair that differs. Document 01 names this form, a labelled nested loop over i and j. It is made only
    // where some triple with i = 0 differs, so that it is left in the first round of the outer loop.
    fn search_triples(&self) -> Result<(), Fault>
        ensures { result ≡ triple_verdict self.now.table.width self.now.table.bytes.now }
    {
        let mut verdict = Ok(());
        'search: for i in 0..self.table.width {
            for j in 0..self.table.width {
                if !self.associative(i, j) {
                    verdict = Err(Fault::Triple(i, j));
                    break 'search;
                }
            }
        }
        verdict
    }

    // 6. Where no triple with i = 0 differs, none does, and no other is looked at.
    fn judge_triples(&self) -> Result<(), Fault>
        ensures { result ≡ triple_verdict self.now.table.width self.now.table.bytes.now }
    {
        if self.all_act_twice() {
            return Ok(());
        }
        self.search_triples()
    }
}

// No fault exactly where the operands of the width form a field under the table, whose square is the turn by one.
pub fn check(width: usize, table: &[u8]) -> Result<(), Fault>
    ensures { result ≡ check_verdict width table.now }
{
    SymmetricTable::new(width, table)?.judge_triples()
}
