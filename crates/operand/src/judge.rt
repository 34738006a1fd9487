// What a call on operands judges before its work, each part only where those before it give no fault. Calls on carried operands judge
// the carried bytes, those on W bytes these.
ghost use Rattle.std.specs.Prelude.{◌≡◌, [], ◌∷◌, ◌*◌, length};
ghost use Rattle.judging.specs.Causes.{judged};
ghost use Rattle.judging.specs.FaultTable.{high_bit, trace_is_one};
ghost use Rattle.operand.specs.Causes.{operand_causes, pair_causes};

use crate::Operand;
use judging::{CallFault, Fault};

pub(crate) fn judge_operand(a: Operand) -> Result<(), Fault>
    ensures { result ≡ judged (operand_causes a) }
{
    let m = usize::from(a.width);
    judging::judge_width(m)?;
    judging::judge_high_carried(&a.bytes, m)
}

pub(crate) fn judge_pair(a: Operand, b: Operand) -> Result<(), Fault>
    ensures { result ≡ judged (pair_causes a b) }
{
    let m = usize::from(a.width);
    let n = usize::from(b.width);
    judging::judge_widths(m, n)?;
    judging::judge_both_high_carried(&a.bytes, m, &b.bytes, n)
}

// The bits of an operand, then its trace, over all bits: that is the operand's where none is set at its width or above.
pub(crate) fn judge_solve(c: &[u8], m: usize) -> Result<(), Fault>
    ensures { result ≡ judged (high_bit m c.now ∷ trace_is_one (8 * length c.now) c.now ∷ []) }
{
    judging::judge_high(c, m)?;
    if quadratic::trace(c) == 1 {
        return Err(Fault::Call(CallFault::TraceOne));
    }
    Ok(())
}
