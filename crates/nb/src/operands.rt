// The calls on operands alone.
ghost use Rattle.std.specs.Prelude.{◌≡◌};
ghost use Rattle.operand.specs.Causes.{constant_causes, turn_bytes_causes, sum_bytes_causes, solve_bytes_causes};
ghost use Rattle.operand.specs.Calls.{zero_into, one_into, turn_into, sum_into, solve_into};
ghost use Rattle.nb.specs.Calls.{fault_answer, trace_answer};

use crate::packing;

pub fn nb_zero(width: u64, res: &mut [u8]) -> u64
    ensures { (result ≡ fault_answer (constant_causes width res.old))
        × (res.new ≡ zero_into width res.old) }
{
    packing::verdict(operand::zero_into(width as usize, res))
}

pub fn nb_one(width: u64, res: &mut [u8]) -> u64
    ensures { (result ≡ fault_answer (constant_causes width res.old))
        × (res.new ≡ one_into width res.old) }
{
    packing::verdict(operand::one_into(width as usize, res))
}

pub fn nb_turn(width: u64, a: &[u8], k: u64, res: &mut [u8]) -> u64
    ensures { (result ≡ fault_answer (turn_bytes_causes width a.now res.old))
        × (res.new ≡ turn_into width a.now k res.old) }
{
    packing::verdict(operand::turn_into(width as usize, a, k as usize, res))
}

pub fn nb_sum(width: u64, a: &[u8], b: &[u8], res: &mut [u8]) -> u64
    ensures { (result ≡ fault_answer (sum_bytes_causes width a.now b.now res.old))
        × (res.new ≡ sum_into width a.now b.now res.old) }
{
    packing::verdict(operand::sum_into(width as usize, a, b, res))
}

pub fn nb_trace(width: u64, a: &[u8]) -> u64
    ensures { result ≡ trace_answer width a.now }
{
    packing::value(operand::trace_of(width as usize, a))
}

pub fn nb_solve(width: u64, c: &[u8], res: &mut [u8]) -> u64
    ensures { (result ≡ fault_answer (solve_bytes_causes width c.now res.old))
        × (res.new ≡ solve_into width c.now res.old) }
{
    packing::verdict(operand::solve_into(width as usize, c, res))
}
