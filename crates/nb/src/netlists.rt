// The calls on gate lists: counting, writing, running, accepting.
ghost use Rattle.std.specs.Prelude.{◌≡◌};
ghost use Rattle.netlist.specs.Lists.{plain, reduced, common};
ghost use Rattle.netlist.specs.Calls.{counts_plain_call, counts_reduced_call, counts_common_call, list_call, list_buffer};
ghost use Rattle.runner.specs.Causes.{run_bytes_causes};
ghost use Rattle.equivalence.specs.Calls.{accept_call};
ghost use Rattle.nb.specs.Calls.{fault_answer, counts_answer, ran_result, ran_wires};

use crate::packing;
use netlist::Method;

pub fn nb_counts_plain(width: u64, table: &[u8]) -> u64
    ensures { result ≡ counts_answer (counts_plain_call width table.now) }
{
    packing::counts(netlist::gate_counts(width as usize, table, Method::Plain))
}

pub fn nb_counts_reduced(width: u64, table: &[u8]) -> u64
    ensures { result ≡ counts_answer (counts_reduced_call width table.now) }
{
    packing::counts(netlist::gate_counts(width as usize, table, Method::Reduced))
}

pub fn nb_counts_common(width: u64, table: &[u8]) -> u64
    ensures { result ≡ counts_answer (counts_common_call width table.now) }
{
    packing::counts(netlist::gate_counts(width as usize, table, Method::Common))
}

pub fn nb_list_plain(width: u64, table: &[u8], out: &mut [u32]) -> u64
    ensures { (result ≡ counts_answer (list_call width table.now (plain width table.now) out.old))
        × (out.new ≡ list_buffer width table.now (plain width table.now) out.old) }
{
    packing::counts(list_writer::list(width as usize, table, out, Method::Plain))
}

pub fn nb_list_reduced(width: u64, table: &[u8], out: &mut [u32]) -> u64
    ensures { (result ≡ counts_answer (list_call width table.now (reduced width table.now) out.old))
        × (out.new ≡ list_buffer width table.now (reduced width table.now) out.old) }
{
    packing::counts(list_writer::list(width as usize, table, out, Method::Reduced))
}

pub fn nb_list_common(width: u64, table: &[u8], out: &mut [u32]) -> u64
    ensures { (result ≡ counts_answer (list_call width table.now (common width table.now) out.old))
        × (out.new ≡ list_buffer width table.now (common width table.now) out.old) }
{
    packing::counts(list_writer::list(width as usize, table, out, Method::Common))
}

pub fn nb_run(width: u64, list: &[u32], a: &[u8], b: &[u8], res: &mut [u8], wires: &mut [u8]) -> u64
    ensures { (result ≡ fault_answer (run_bytes_causes width list.now a.now b.now res.old wires.old))
        × (res.new ≡ ran_result width list.now a.now b.now res.old wires.old)
        × (wires.new ≡ ran_wires width list.now a.now b.now res.old wires.old) }
{
    packing::verdict(runner::run_bytes(width as usize, list, a, b, res, wires))
}

// Not a call of document 01 but of document 02, (b): whether a list from elsewhere forms the table's product.
pub fn nb_accept(width: u64, table: &[u8], list: &[u32]) -> u64
    ensures { result ≡ counts_answer (accept_call width table.now list.now) }
{
    packing::counts(equivalence::accept(width as usize, table, list))
}
