// The calls on W bytes: lengths are judged, then the table and the bits of the carried bytes; the result is written where there is no fault.
ghost use Rattle.std.specs.Prelude.{◌≡◌};
ghost use Rattle.judging.specs.Causes.{judged};
ghost use Rattle.product.specs.Calls.{inverse_into, inverse_count, multiply_into};
ghost use Rattle.product.specs.Causes.{method_bytes_causes};

use crate::answers;
use judging::Fault;
use scatter::Method;

// The product by a method: plain under any table of the right shape, reduced under one that keeps rules 4 and 5.
pub fn multiply_into(
    method: Method,
    width: usize,
    table: &[u8],
    a: &[u8],
    b: &[u8],
    res: &mut [u8],
) -> Result<(), Fault>
    ensures { (result ≡ judged (method_bytes_causes method width table.now a.now b.now res.old))
        × (res.new ≡ multiply_into method width table.now a.now b.now res.old) }
{
    judging::judge_sizes(width, &[a.len(), b.len(), res.len()])?;
    let x = limbs::carried(a);
    let y = limbs::carried(b);
    let product = answers::product(method, width, table, x, y)?;
    limbs::copy_out(product.bytes, res);
    Ok(())
}

// The inverse by the chain, under any table of the right shape; the number of products that it took.
pub fn inverse_into(width: usize, table: &[u8], a: &[u8], res: &mut [u8]) -> Result<usize, Fault>
    ensures { (result ≡ inverse_count width table.now a.now res.old)
        × (res.new ≡ inverse_into width table.now a.now res.old) }
{
    judging::judge_sizes(width, &[a.len(), res.len()])?;
    let inverse = answers::inverse(width, table, limbs::carried(a))?;
    limbs::copy_out(inverse.value.bytes, res);
    Ok(inverse.count)
}
