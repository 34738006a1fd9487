// Answers packed into one number of 64 bits.
ghost use Rattle.std.specs.Prelude.{◌≡◌, true, ◌^◌, ◌<◌};
ghost use Rattle.nb.specs.Packing.{packed, packed_fault, packed_verdict, packed_value, packed_counts, value_limit, is_small, PacksVerdict, PacksValue, PacksCounts};

use judging::Fault;
use netlist::GateCounts;

// What the first value and the second stand for in the packed number: 2^8 and 2^36.
const FIRST: u64 = 256;

const SECOND: u64 = 68719476736;

// A usize has 64 bits.
fn wide(x: usize) -> u64
    ensures { result ≡ x }
{
    x as u64
}

fn pack(number: usize, first: usize, second: usize) -> u64
    requires { (number < 2 ^ 8) × (first < value_limit) × (second < value_limit) }
    ensures { result ≡ packed number first second }
{
    wide(number) + FIRST * wide(first) + SECOND * wide(second)
}

// A fault's number, and what is returned beside it.
fn refused(fault: Fault) -> u64
    requires { is_small fault ≡ true }
    ensures { result ≡ packed_fault fault }
{
    let n = fault.number();
    pack(n.0, n.1, n.2)
}

// The answer of a call that returns nothing beside its verdict.
pub(crate) fn verdict(answer: Result<(), Fault>) -> u64
    requires { PacksVerdict answer }
    ensures { result ≡ packed_verdict answer }
{
    match answer {
        Ok(()) => pack(0, 0, 0),
        Err(fault) => refused(fault),
    }
}

// That of one that returns a number.
pub(crate) fn value(answer: Result<usize, Fault>) -> u64
    requires { PacksValue answer }
    ensures { result ≡ packed_value answer }
{
    match answer {
        Ok(value) => pack(0, value, 0),
        Err(fault) => refused(fault),
    }
}

// That of one that returns a list's gates by kind.
pub(crate) fn counts(answer: Result<GateCounts, Fault>) -> u64
    requires { PacksCounts answer }
    ensures { result ≡ packed_counts answer }
{
    match answer {
        Ok(counts) => pack(0, counts.ands.0, counts.xors.0),
        Err(fault) => refused(fault),
    }
}
