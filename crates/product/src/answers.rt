// The calls where the widths or the lengths have passed: what is left is judged, and the answer made where it has no fault.
ghost use Rattle.std.specs.Prelude.{◌≡◌};
ghost use Rattle.product.specs.Calls.{multiplied};
ghost use Rattle.product.specs.Inner.{operand_of, IsWidth, Sound, Serves, product_answer, inverse_answer};

use crate::{Inverted, chain, judge, times};
use judging::Fault;
use operand::Operand;
use scatter::Method;

// The product of factors that have passed.
fn product_of(
    method: Method,
    width: usize,
    table: &[u8],
    x: [u8; Operand::BYTES],
    y: [u8; Operand::BYTES],
) -> Operand
    requires { Serves method width table.now × Sound width (operand_of width x) × Sound width (operand_of width y) }
    ensures { result ≡ operand_of width (multiplied method width table.now x y) }
{
    let mut g = [0u64; scatter::ROOM];
    let left = Operand {
        bytes: x,
        width: width as u16,
    };
    let right = Operand {
        bytes: y,
        width: width as u16,
    };
    times::times(method, width, table, left, right, &mut g)
}

// The product by a method.
pub(crate) fn product(
    method: Method,
    width: usize,
    table: &[u8],
    x: [u8; Operand::BYTES],
    y: [u8; Operand::BYTES],
) -> Result<Operand, Fault>
    requires { IsWidth width }
    ensures { result ≡ product_answer method width table.now x y }
{
    judge::judge_factors(method, width, table, x, y)?;
    Ok(product_of(method, width, table, x, y))
}

// The inverse by the chain.
pub(crate) fn inverse(
    width: usize,
    table: &[u8],
    x: [u8; Operand::BYTES],
) -> Result<Inverted, Fault>
    requires { IsWidth width }
    ensures { result ≡ inverse_answer width table.now x }
{
    judge::judge_unit(width, table, x)?;
    let a = Operand {
        bytes: x,
        width: width as u16,
    };
    Ok(chain::inverted(width, table, a))
}
