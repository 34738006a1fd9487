// The calls on operands of W bytes: lengths are judged, then the bits of the carried bytes; the result is written where there is no fault.
ghost use Rattle.std.specs.Prelude.{◌≡◌};
ghost use Rattle.judging.specs.Causes.{judged};
ghost use Rattle.operand.specs.Causes.{constant_causes, turn_bytes_causes, sum_bytes_causes, solve_bytes_causes};
ghost use Rattle.operand.specs.Calls.{zero_into, one_into, turn_into, sum_into, solve_into, trace_of};

use crate::judge;
use judging::Fault;

pub fn zero_into(width: usize, res: &mut [u8]) -> Result<(), Fault>
    ensures { (result ≡ judged (constant_causes width res.old)) × (res.new ≡ zero_into width res.old) }
{
    judging::judge_sizes(width, &[res.len()])?;
    limbs::store([0u64; limbs::LIMBS], res);
    Ok(())
}

pub fn one_into(width: usize, res: &mut [u8]) -> Result<(), Fault>
    ensures { (result ≡ judged (constant_causes width res.old)) × (res.new ≡ one_into width res.old) }
{
    judging::judge_sizes(width, &[res.len()])?;
    let full = [limbs::FULL; limbs::LIMBS];
    limbs::store(limbs::low_limbs(full, width), res);
    Ok(())
}

// The count is taken modulo the width.
pub fn turn_into(width: usize, a: &[u8], k: usize, res: &mut [u8]) -> Result<(), Fault>
    ensures { (result ≡ judged (turn_bytes_causes width a.now res.old))
        × (res.new ≡ turn_into width a.now k res.old) }
{
    judging::judge_sizes(width, &[a.len(), res.len()])?;
    judging::judge_high(a, width)?;
    limbs::store(turns::rolled_limbs(limbs::slice_limbs(a), width, k), res);
    Ok(())
}

pub fn sum_into(width: usize, a: &[u8], b: &[u8], res: &mut [u8]) -> Result<(), Fault>
    ensures { (result ≡ judged (sum_bytes_causes width a.now b.now res.old))
        × (res.new ≡ sum_into width a.now b.now res.old) }
{
    judging::judge_sizes(width, &[a.len(), b.len(), res.len()])?;
    judging::judge_both_high(a, width, b, width)?;
    limbs::store(limbs::xored_slices(a, b, width), res);
    Ok(())
}

// The solution of z² + z = c, with coordinate 0 equal 0.
pub fn solve_into(width: usize, c: &[u8], res: &mut [u8]) -> Result<(), Fault>
    ensures { (result ≡ judged (solve_bytes_causes width c.now res.old))
        × (res.new ≡ solve_into width c.now res.old) }
{
    judging::judge_sizes(width, &[c.len(), res.len()])?;
    judge::judge_solve(c, width)?;
    limbs::store(quadratic::root_limbs(limbs::slice_limbs(c), width), res);
    Ok(())
}

pub fn trace_of(width: usize, a: &[u8]) -> Result<usize, Fault>
    ensures { result ≡ trace_of width a.now }
{
    judging::judge_sizes(width, &[a.len()])?;
    judging::judge_high(a, width)?;
    Ok(usize::from(quadratic::trace(a)))
}
