// Products of operands under a table, plain and reduced, and the inverse, carried by value and as W bytes.
// Each call judges what it is given, and answers its value or the fault.
#![tactic(auto)]

ghost use Rattle.std.specs.Prelude.{◌≡◌};
ghost use Rattle.product.specs.Calls.{inverse_call, multiply_call};

use judging::Fault;
use operand::Operand;

mod answers;
mod bytes;
mod chain;
mod judge;
mod kernel;
mod slots;
mod times;

pub use bytes::{inverse_into, multiply_into};
pub use scatter::Method;

// An inverse, with the number of products that it took.
#[derive(Clone, Copy, Debug, PartialEq, Eq)]
pub struct Inverted {
    pub value: Operand,
    pub count: usize,
}

// The product by a method: plain under any table of the right shape, reduced under one that keeps rules 4 and 5.
pub fn multiply(
    method: Method,
    width: usize,
    table: &[u8],
    a: Operand,
    b: Operand,
) -> Result<Operand, Fault>
    ensures { result ≡ multiply_call method width table.now a b }
{
    judging::judge_pair_widths(width, usize::from(a.width), usize::from(b.width))?;
    answers::product(method, width, table, a.bytes, b.bytes)
}

// The inverse by the chain, under any table of the right shape.
pub fn inverse(width: usize, table: &[u8], a: Operand) -> Result<Inverted, Fault>
    ensures { result ≡ inverse_call width table.now a }
{
    judging::judge_widths(width, usize::from(a.width))?;
    answers::inverse(width, table, a.bytes)
}
