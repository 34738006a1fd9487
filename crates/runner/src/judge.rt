// What running judges before it writes: widths, lengths, the list's words, high bits, every gate and every output wire.
// Each part is judged only where those before it give no fault. Sizes are worked out only for a width that has passed: of any
// other they may be more than a usize holds. What is judged of the list alone is for whoever is handed a list.
ghost use Rattle.std.specs.Prelude.{◌≡◌, [], ◌∷◌, ◌≤◌};
ghost use Rattle.gf2.specs.Sums.{every};
ghost use Rattle.gf2.specs.Operands.{max_width};
ghost use Rattle.judging.specs.Causes.{judged};
ghost use Rattle.netlist.specs.Running.{gate_count};
ghost use Rattle.netlist.specs.Judgements.{is_gate, is_output};
ghost use Rattle.judging.specs.FaultTable.{bad_width};
ghost use Rattle.runner.specs.Causes.{list_word_causes, bad_gates};
ghost use Rattle.runner.specs.Inner.{carried_causes, word_causes, list_causes};

use crate::lists::GateList;
use judging::{CallFault, Fault, judge_length, judge_lengths, judge_width};
use operand::Operand;

pub(crate) fn judge_carried(width: usize, a: Operand, b: Operand, res: usize) -> Result<(), Fault>
    ensures { result ≡ judged (carried_causes width a b res) }
{
    let m = a.width as usize;
    let n = b.width as usize;
    judge_width(width)?;
    judge_width(m)?;
    judge_width(n)?;
    judge_lengths(&[m, n], width)?;
    judge_length(res, limbs::bytes_for(width))
}

impl<'a> GateList<'a> {
    // The words of a list. Its length is worked out where the first word is the width: that is a word, and no sum too great.
    pub fn judge_words(&self) -> Result<(), Fault>
        ensures { result ≡ judged (list_word_causes self.now.width self.now.words.now) }
    {
        if self.words.len() < 2 {
            return Err(Fault::Length);
        }
        judge_length(self.words[0] as usize, self.width)?;
        judge_length(self.words.len(), 2 + 3 * self.gates() as usize + self.width)
    }

    // The same, and the length of the buffer for its wires.
    fn judge_wires(&self, wires: usize) -> Result<(), Fault>
        requires { self.now.width ≤ max_width }
        ensures { result ≡ judged (word_causes self.now.width self.now.words.now wires) }
    {
        self.judge_words()?;
        judge_length(wires, 2 * self.width + self.gates() as usize)
    }

    fn is_gate(&self, k: u32) -> bool
        requires { self.now.width ≤ max_width }
        ensures { result ≡ is_gate self.now.width self.now.words.now k }
    {
        let own = 2 * self.width + k as usize;
        if 1 < self.kind(k) {
            return false;
        }
        if own <= self.left(k) {
            return false;
        }
        self.right(k) < own
    }

    fn are_gates(&self) -> bool
        requires { self.now.width ≤ max_width }
        ensures { result ≡ every (gate_count self.now.words.now) (is_gate self.now.width self.now.words.now) }
    {
        (0..self.gates()).all(|k| self.is_gate(k))
    }

    fn are_outputs(&self) -> bool
        requires { self.now.width ≤ max_width }
        ensures { result ≡ every self.now.width (is_output self.now.width self.now.words.now) }
    {
        let end = 2 * self.width + self.gates() as usize;
        (0..self.width).all(|r| self.output(r) < end)
    }

    // Every gate and every output wire, where the width is one.
    pub fn judge_gates(&self) -> Result<(), Fault>
        ensures { result ≡ judged (bad_width self.now.width ∷ bad_gates self.now.width self.now.words.now ∷ []) }
    {
        judge_width(self.width)?;
        if !self.are_gates() {
            return Err(Fault::Call(CallFault::BadGate));
        }
        if self.are_outputs() {
            Ok(())
        } else {
            Err(Fault::Call(CallFault::BadGate))
        }
    }

    // All that is left where the sizes of operands and result have passed.
    pub(crate) fn judge_list(
        &self,
        x: [u8; limbs::BYTES],
        y: [u8; limbs::BYTES],
        wires: usize,
    ) -> Result<(), Fault>
        requires { (2 ≤ self.now.width) × (self.now.width ≤ max_width) }
        ensures { result ≡ judged (list_causes self.now.width self.now.words.now x y wires) }
    {
        self.judge_wires(wires)?;
        judging::judge_both_high_carried(&x, self.width, &y, self.width)?;
        self.judge_gates()
    }
}
