// Operands of GF(2^m) in a normal basis: the type, and every call of document 01 on operands alone, carried by value and as W bytes.
// Each call judges what it is given, and answers its value or the fault.
#![tactic(auto)]

ghost use Rattle.std.specs.Prelude.{◌≡◌, ◌≤◌, length};
ghost use Rattle.gf2.specs.Operands.{max_width};
ghost use Rattle.judging.specs.Causes.{judged};
ghost use Rattle.operand.specs.Causes.{room_causes};
ghost use Rattle.operand.specs.Calls.{zero_call, one_call, turn_call, square_call, sum_call, trace_call, solve_call, read_call, write_call};

use judging::Fault;

mod bytes;
mod judge;

pub use bytes::{one_into, solve_into, sum_into, trace_of, turn_into, zero_into};

// Coordinate i is bit i % 8 of byte i / 8, and bits at the width and above are 0.
#[derive(Clone, Copy, Debug, PartialEq, Eq)]
pub struct Operand {
    pub bytes: [u8; Operand::BYTES],
    pub width: u16,
}

impl Operand {
    pub const BYTES: usize = limbs::BYTES;

    pub const MAX_WIDTH: usize = limbs::MAX_WIDTH;

    // A width that has passed, which 16 bits hold.
    fn of(width: usize, bytes: [u8; Operand::BYTES]) -> Operand
        requires { width ≤ max_width }
        ensures { result ≡ (record { bytes = bytes; width = width }) }
    {
        Operand {
            bytes,
            width: width as u16,
        }
    }

    pub fn zero(width: usize) -> Result<Operand, Fault>
        ensures { result ≡ zero_call width }
    {
        judging::judge_width(width)?;
        Ok(Operand::of(width, [0u8; Operand::BYTES]))
    }

    pub fn one(width: usize) -> Result<Operand, Fault>
        ensures { result ≡ one_call width }
    {
        judging::judge_width(width)?;
        let full = [255u8; Operand::BYTES];
        Ok(Operand::of(width, limbs::cleared(full, width)))
    }

    // The count is taken modulo the width.
    pub fn turn(self, k: usize) -> Result<Operand, Fault>
        ensures { result ≡ turn_call self k }
    {
        judge::judge_operand(self)?;
        let m = usize::from(self.width);
        Ok(Operand::of(m, turns::rolled(self.bytes, m, k)))
    }

    // The Frobenius map, which is the turn by one.
    pub fn square(self) -> Result<Operand, Fault>
        ensures { result ≡ square_call self }
    {
        self.turn(1)
    }

    pub fn sum(self, other: Operand) -> Result<Operand, Fault>
        ensures { result ≡ sum_call self other }
    {
        judge::judge_pair(self, other)?;
        let m = usize::from(self.width);
        Ok(Operand::of(m, limbs::xored(self.bytes, other.bytes)))
    }

    pub fn trace(self) -> Result<usize, Fault>
        ensures { result ≡ trace_call self }
    {
        judge::judge_operand(self)?;
        Ok(usize::from(quadratic::trace(&self.bytes)))
    }

    // The solution of z² + z = c, with coordinate 0 equal 0.
    pub fn solve(self) -> Result<Operand, Fault>
        ensures { result ≡ solve_call self }
    {
        let m = usize::from(self.width);
        judging::judge_width(m)?;
        judge::judge_solve(&self.bytes, m)?;
        Ok(Operand::of(m, quadratic::root(self.bytes, m)))
    }

    pub fn read(width: usize, s: &[u8]) -> Result<Operand, Fault>
        ensures { result ≡ read_call width s.now }
    {
        judging::judge_sizes(width, &[s.len()])?;
        judging::judge_high(s, width)?;
        Ok(Operand::of(width, limbs::carried(s)))
    }

    pub fn write(self, out: &mut [u8]) -> Result<(), Fault>
        ensures verdict { result ≡ judged (room_causes self (length out.old)) }
        ensures bytes { out.new ≡ write_call self out.old }
    {
        let m = usize::from(self.width);
        judging::judge_sizes(m, &[out.len()])?;
        judging::judge_high_carried(&self.bytes, m)?;
        limbs::copy_out(self.bytes, out);
        Ok(())
    }
}
