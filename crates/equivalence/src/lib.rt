// Accepting a gate list from elsewhere: combinational equivalence of the list and a table's product, by the products that are summed in
// each gate. All is judged in document 02's order, (b), and nothing is written.
#![tactic(auto)]

ghost use Rattle.std.specs.Prelude.{◌≡◌};
ghost use Rattle.equivalence.specs.Calls.{accept_call};

use judging::Fault;
use netlist::{AndCount, GateCounts, XorCount};
use runner::GateList;

mod comparison;
mod gates;
mod judge;
mod outputs;
mod sets;

// The greatest width and the most gates of a list that is compared.
pub(crate) const MOST_WIDTH: usize = 16;

pub(crate) const MOST_GATES: usize = 2000;

pub fn accept(width: usize, table: &[u8], list: &[u32]) -> Result<GateCounts, Fault>
    ensures { result ≡ accept_call width table.now list.now }
{
    let list = GateList { width, words: list };
    judge::judge_all(table, &list)?;
    let n = gates::count_ands(&list);
    Ok(GateCounts {
        ands: AndCount(n),
        xors: XorCount(list.gates() as usize - n),
    })
}
