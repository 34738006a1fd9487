// Writing a list: the gates that each pair gives by itself, then the folds for the coordinates, then their output wires.
ghost use Rattle.std.specs.Prelude.{◌≡◌, ◌+◌, ◌*◌, ◌≤◌, length};
ghost use Rattle.netlist.specs.Lists.{plain, reduced, sharing};
ghost use Rattle.netlist.specs.Calls.{list_call, list_buffer};
ghost use Rattle.netlist.specs.Methods.{list_by, shared_by, tallied};
ghost use Rattle.list_writer.specs.Inner.{Written, listed};

use judging::{CallFault, Fault};
use list_folds::{Rows, Terms};
use netlist::{GateCounts, Method, Tallied};
use table::{SymmetricTable, Table};

fn put_plain(out: &mut [u32], ends: &mut [u32], table: &Table)
    ensures { Written (plain table.now.width table.now.bytes.now) out.old ends.old out.new ends.new }
{
    let pairs = Terms {
        rows: Rows::All,
        mixed: false,
        last: None,
    };
    let width = table.width();
    let n = list_pairs::put_pairs(out, width, false, 0);
    list_folds::put_folds(out, ends, table, pairs, width, n);
}

fn put_reduced(out: &mut [u32], ends: &mut [u32], table: &Table)
    ensures { Written (reduced table.now.width table.now.bytes.now) out.old ends.old out.new ends.new }
{
    let pairs = Terms {
        rows: Rows::All,
        mixed: true,
        last: None,
    };
    let width = table.width();
    let ands = list_pairs::put_pairs(out, width, false, 0);
    let n = list_pairs::put_pairs(out, width, true, ands);
    list_folds::put_folds(out, ends, table, pairs, width, n);
}

// The shared pairs are one fold, whose wire is then the last term for every coordinate.
fn put_sharing(out: &mut [u32], ends: &mut [u32], table: &Table)
    requires { 1 ≤ length ends.old }
    ensures { Written (sharing table.now.width table.now.bytes.now) out.old ends.old out.new ends.new }
{
    let shared = Terms {
        rows: Rows::Full,
        mixed: false,
        last: None,
    };
    let width = table.width();
    let ands = list_pairs::put_pairs(out, width, false, 0);
    let n = list_folds::put_folds(out, ends, table, shared, 1, ands);
    let others = Terms {
        rows: Rows::Others,
        mixed: false,
        last: Some(ends[0]),
    };
    list_folds::put_folds(out, ends, table, others, width, n);
}

// The gates, and the output wires aside; `full` is the number of rows whose pairs are shared.
fn put_gates(out: &mut [u32], ends: &mut [u32], table: &Table, method: Method, full: usize)
    requires { (full ≡ shared_by method table.now.width table.now.bytes.now) × (1 ≤ length ends.old) }
    ensures { Written (list_by method table.now.width table.now.bytes.now) out.old ends.old out.new ends.new }
{
    match method {
        Method::Plain => put_plain(out, ends, table),
        Method::Reduced => put_reduced(out, ends, table),
        Method::Common => if full == 0 {
            put_plain(out, ends, table)
        } else {
            put_sharing(out, ends, table)
        },
    }
}

// All words of a list whose gates are counted, in a buffer that has room for them.
fn put_list(out: &mut [u32], table: &SymmetricTable, method: Method, tally: Tallied)
    requires { (tally ≡ tallied method table.now.table.width table.now.table.bytes.now)
        × (2 + 3 * tally.gates + table.now.table.width ≤ length out.old) }
    ensures { out.new ≡ listed table.now.table.width (list_by method table.now.table.width table.now.table.bytes.now) out.old }
{
    let rows = table.table();
    let width = rows.width();
    let mut ends = [0u32; limbs::MAX_WIDTH];
    out[0] = width as u32;
    out[1] = tally.gates as u32;
    put_gates(out, &mut ends, &rows, method, tally.full);
    let q = 2 + 3 * tally.gates;
    out[q..q + width].copy_from_slice(&ends[..width]);
}

// A list by a method, from a table that keeps rules 4 and 5, where the buffer has room for it.
pub fn list(
    width: usize,
    table: &[u8],
    out: &mut [u32],
    method: Method,
) -> Result<GateCounts, Fault>
    ensures { (result ≡ list_call width table.now (list_by method width table.now) out.old)
        × (out.new ≡ list_buffer width table.now (list_by method width table.now) out.old) }
{
    let table = SymmetricTable::new(width, table)?;
    let tally = netlist::tally_of(&table, method);
    let g = tally.gates;
    if out.len() < 2 + 3 * g + width {
        return Err(Fault::Call(CallFault::OutputShort));
    }
    put_list(out, &table, method, tally);
    Ok(tally.counts)
}
