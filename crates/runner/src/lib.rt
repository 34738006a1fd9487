// Running a gate list on two operands: the values of its wires, then the result. All is judged before anything is written.
// One call takes operands that are carried with their width, the other operands of W bytes.
#![tactic(auto)]

ghost use Rattle.std.specs.Prelude.{◌≡◌, ◌≤◌, length};
ghost use Rattle.gf2.specs.Operands.{max_width, bytes_for};
ghost use Rattle.judging.specs.Causes.{judged};
ghost use Rattle.runner.specs.Causes.{run_causes, run_bytes_causes};
ghost use Rattle.runner.specs.Calls.{run_bytes_result, run_bytes_wires, run_result, run_wires};
ghost use Rattle.runner.specs.Inner.{list_causes};

use crate::lists::Runnable;
use judging::Fault;
use operand::Operand;

mod judge;
mod lists;
mod output;
mod wires;

pub use lists::GateList;

// The sizes of operands and result have passed: what is left to judge, and the work.
fn run_sized(
    list: &GateList,
    x: [u8; limbs::BYTES],
    y: [u8; limbs::BYTES],
    res: &mut [u8],
    wires: &mut [u8],
) -> Result<(), Fault>
    requires { (2 ≤ list.now.width) × (list.now.width ≤ max_width) × (length res.old ≡ bytes_for list.now.width) }
    ensures { (result ≡ judged (list_causes list.now.width list.now.words.now x y (length wires.old)))
        × (res.new ≡ run_bytes_result result list.now.width list.now.words.now x y res.old)
        × (wires.new ≡ run_bytes_wires result list.now.width list.now.words.now x y wires.old) }
{
    list.judge_list(x, y, wires.len())?;
    let passed = Runnable { list: *list };
    passed.fill_wires(&x, &y, wires);
    passed.fill_result(wires, res);
    Ok(())
}

pub fn run(
    width: usize,
    list: &[u32],
    a: Operand,
    b: Operand,
    res: &mut [u8],
    wires: &mut [u8],
) -> Result<(), Fault>
    ensures { (result ≡ judged (run_causes width list.now a b (length res.old) (length wires.old)))
        × (res.new ≡ run_result result width list.now a b res.old)
        × (wires.new ≡ run_wires result width list.now a b wires.old) }
{
    judge::judge_carried(width, a, b, res.len())?;
    let x = a.bytes;
    let y = b.bytes;
    run_sized(&GateList { width, words: list }, x, y, res, wires)
}

pub fn run_bytes(
    width: usize,
    list: &[u32],
    a: &[u8],
    b: &[u8],
    res: &mut [u8],
    wires: &mut [u8],
) -> Result<(), Fault>
    ensures { (result ≡ judged (run_bytes_causes width list.now a.now b.now res.old wires.old))
        × (res.new ≡ run_bytes_result result width list.now a.now b.now res.old)
        × (wires.new ≡ run_bytes_wires result width list.now a.now b.now wires.old) }
{
    judging::judge_sizes(width, &[a.len(), b.len(), res.len()])?;
    run_sized(
        &GateList { width, words: list },
        limbs::carried(a),
        limbs::carried(b),
        res,
        wires,
    )
}
