// What the calls judge after the widths and the lengths: the table, the bits of the operands, and what a call has of its own.
// Each part is judged only where those before it give no fault.
ghost use Rattle.std.specs.Prelude.{◌≡◌};
ghost use Rattle.judging.specs.Causes.{judged};
ghost use Rattle.product.specs.Causes.{rules_by};
ghost use Rattle.product.specs.Inner.{IsWidth, factor_causes, unit_causes};

use judging::{CallFault, Fault};
use operand::Operand;
use scatter::Method;
use table::Table;

// For the reduced product the rules 4 and 5.
fn judge_rules(method: Method, table: &Table) -> Result<(), Fault>
    ensures { result ≡ judged (rules_by method table.now.width table.now.bytes.now) }
{
    match method {
        Method::Plain => Ok(()),
        Method::Reduced => table.judge_rules(),
    }
}

// A table and two factors, by a method.
pub(crate) fn judge_factors(
    method: Method,
    width: usize,
    table: &[u8],
    x: [u8; Operand::BYTES],
    y: [u8; Operand::BYTES],
) -> Result<(), Fault>
    requires { IsWidth width }
    ensures { result ≡ judged (factor_causes method width table.now x y) }
{
    let shaped = Table::new(width, table)?;
    judging::judge_both_high_carried(&x, width, &y, width)?;
    judge_rules(method, &shaped)
}

// A table and an operand that isn't zero: zero is the operand with no bit at 0 or above.
pub(crate) fn judge_unit(width: usize, table: &[u8], x: [u8; Operand::BYTES]) -> Result<(), Fault>
    requires { IsWidth width }
    ensures { result ≡ judged (unit_causes width table.now x) }
{
    Table::new(width, table)?;
    judging::judge_high_carried(&x, width)?;
    if limbs::is_clear_carried(&x, 0) {
        return Err(Fault::Call(CallFault::InverseOfZero));
    }
    Ok(())
}
