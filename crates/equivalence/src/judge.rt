// What accepting judges, part after part, each only where those before it give no fault: sizes, the table, the limits, the gates, the outputs.
ghost use Rattle.std.specs.Prelude.{◌≡◌, ◌++◌, ◌≤◌, IfOk};
ghost use Rattle.judging.specs.Causes.{judged, verdict_of};
ghost use Rattle.equivalence.specs.Causes.{most_width, size_causes, table_causes, limit_causes, gate_causes, output_causes};
ghost use Rattle.equivalence.specs.Calls.{accept_verdict};

use crate::comparison::Comparison;
use crate::{MOST_GATES, MOST_WIDTH, gates, sets};
use judging::{Fault, ListFault};
use runner::GateList;
use table::{SymmetricTable, Table};

// 1 and 2.
fn judge_sizes(table: &[u8], list: &GateList) -> Result<(), Fault>
    ensures { result ≡ judged (size_causes list.now.width table.now list.now.words.now) }
{
    judging::judge_table_size(list.width, table.len())?;
    list.judge_words()
}

// 1 to 5: the table, where its bytes and the list's words pass.
fn judge_handed<'a>(table: &'a [u8], list: &GateList) -> Result<Table<'a>, Fault>
    ensures verdict { verdict_of result ≡ judged (size_causes list.now.width table.now list.now.words.now ++ table_causes list.now.width table.now) }
    ensures same { IfOk result (λ t. (t.width ≡ list.now.width) × (t.bytes.now ≡ table.now)) }
{
    judge_sizes(table, list)?;
    let symmetric = SymmetricTable::new(list.width, table)?;
    Ok(symmetric.table())
}

// 19.
fn judge_limits(list: &GateList) -> Result<(), Fault>
    ensures { result ≡ judged (limit_causes list.now.width list.now.words.now) }
{
    if MOST_WIDTH < list.width {
        return Err(Fault::List(ListFault::Size));
    }
    if MOST_GATES < list.gates() as usize {
        return Err(Fault::List(ListFault::Size));
    }
    Ok(())
}

// 18, then 20.
fn judge_gates(list: &GateList) -> Result<(), Fault>
    requires { (2 ≤ list.now.width) × (list.now.width ≤ most_width) }
    ensures { result ≡ judged (gate_causes list.now.width list.now.words.now) }
{
    list.judge_gates()?;
    if gates::are_formed(list) {
        Ok(())
    } else {
        Err(Fault::List(ListFault::Form))
    }
}

impl<'a> Comparison<'a> {
    // 21.
    fn judge_sets(&self) -> Result<(), Fault>
        ensures { result ≡ judged (output_causes self.now.list.width self.now.table.bytes.now self.now.list.words.now) }
    {
        let mut squares = [0u64; sets::ROOM];
        self.fill_sets(&mut squares);
        self.judge_outputs(&squares)
    }
}

pub(crate) fn judge_all(table: &[u8], list: &GateList) -> Result<(), Fault>
    ensures { result ≡ accept_verdict list.now.width table.now list.now.words.now }
{
    let shaped = judge_handed(table, list)?;
    judge_limits(list)?;
    judge_gates(list)?;
    let compared = Comparison {
        table: shaped,
        list: *list,
    };
    compared.judge_sets()
}
