// The numbers of gates of a table's lists, without the lists: from the width, the ones and the all-ones rows.
// Each kind has its own number; the number of all gates is worked out by itself, not from these two.
ghost use Rattle.std.specs.Prelude.{◌≡◌};
ghost use Rattle.netlist.specs.Counts.{plain_xors, reduced_xors, common_xors, plain_gates, reduced_gates, common_gates};
ghost use Rattle.netlist.specs.Inner.{Countable};
ghost use Rattle.netlist.specs.Calls.{counts_call, all_counts_call};
ghost use Rattle.netlist.specs.Methods.{list_by, shared_by, xors_by, gates_by, tallied, tally_call};

use crate::{AllCounts, AndCount, GateCounts, Tallied, XorCount, entries};
use judging::Fault;
use table::{SymmetricTable, Table};

// What the gates of a list are counted from: the width, the ones of the table, and the all-ones rows whose pairs are shared.
#[derive(Clone, Copy)]
struct Ones {
    width: usize,
    ones: usize,
    full: usize,
    ghost countable: { Countable width ones full },
}

impl Ones {
    fn plain_xors(self) -> usize
        ensures { result ≡ plain_xors self.width self.ones }
    {
        self.width * (self.ones - 1)
    }

    fn reduced_xors(self) -> usize
        ensures { result ≡ reduced_xors self.width self.ones }
    {
        self.width * (self.ones + self.width - 2) / 2
    }

    fn common_xors(self) -> usize
        ensures { result ≡ common_xors self.width self.ones self.full }
    {
        if self.full == 0 {
            return self.plain_xors();
        }
        let shared = self.width * self.full;
        self.width * (self.ones - shared) + shared - 1
    }

    fn plain_gates(self) -> usize
        ensures { result ≡ plain_gates self.width self.ones }
    {
        self.width * (self.width + self.ones - 1)
    }

    fn reduced_gates(self) -> usize
        ensures { result ≡ reduced_gates self.width self.ones }
    {
        self.width * (3 * self.width + self.ones - 2) / 2
    }

    fn common_gates(self) -> usize
        ensures { result ≡ common_gates self.width self.ones self.full }
    {
        if self.full == 0 {
            return self.plain_gates();
        }
        let shared = self.width * self.full;
        self.width * (self.width + self.ones - shared) + shared - 1
    }
}

// The three lists of a table.
#[derive(Clone, Copy, Debug, PartialEq, Eq)]
pub enum Method {
    Plain,
    Reduced,
    Common,
}

impl Method {
    // The all-ones rows, for a list that shares their pairs.
    fn shared(self, table: &Table) -> usize
        ensures { result ≡ shared_by self table.now.width table.now.bytes.now }
    {
        match self {
            Method::Plain => 0,
            Method::Reduced => 0,
            Method::Common => entries::full_rows(table),
        }
    }

    // The XORs.
    fn xors(self, ones: Ones) -> usize
        ensures { result ≡ xors_by self ones.width ones.ones ones.full }
    {
        match self {
            Method::Plain => ones.plain_xors(),
            Method::Reduced => ones.reduced_xors(),
            Method::Common => ones.common_xors(),
        }
    }

    // The number of all gates.
    fn gates(self, ones: Ones) -> usize
        ensures { result ≡ gates_by self ones.width ones.ones ones.full }
    {
        match self {
            Method::Plain => ones.plain_gates(),
            Method::Reduced => ones.reduced_gates(),
            Method::Common => ones.common_gates(),
        }
    }
}

// All numbers of a list of a table that has passed. C is the number of ones of all bytes: no row has a bit at the width or above.
pub fn tally_of(table: &SymmetricTable, method: Method) -> Tallied
    ensures { result ≡ tallied method table.now.table.width table.now.table.bytes.now }
{
    let rows = table.table();
    let width = rows.width();
    let ones = Ones {
        width,
        ones: ones::ones_of(rows.bytes()),
        full: method.shared(&rows),
    };
    Tallied {
        counts: GateCounts {
            ands: AndCount(width * width),
            xors: XorCount(method.xors(ones)),
        },
        gates: method.gates(ones),
        full: ones.full,
    }
}

// 1 to 5 judged once, and all numbers of a list.
pub fn tally(width: usize, table: &[u8], method: Method) -> Result<Tallied, Fault>
    ensures { result ≡ tally_call method width table.now }
{
    let table = SymmetricTable::new(width, table)?;
    Ok(tally_of(&table, method))
}

// 1 to 5 judged once, and the gates of all three lists.
pub fn all_counts(width: usize, table: &[u8]) -> Result<AllCounts, Fault>
    ensures { result ≡ all_counts_call width table.now }
{
    let table = SymmetricTable::new(width, table)?;
    Ok(AllCounts {
        plain: tally_of(&table, Method::Plain).counts,
        reduced: tally_of(&table, Method::Reduced).counts,
        common: tally_of(&table, Method::Common).counts,
    })
}

// The gates of a list by kind.
pub fn gate_counts(width: usize, table: &[u8], method: Method) -> Result<GateCounts, Fault>
    ensures { result ≡ counts_call width table.now (list_by method width table.now) }
{
    let tally = tally(width, table, method)?;
    Ok(tally.counts)
}
