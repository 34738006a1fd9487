// Operands from digits as FIPS 186 publishes them.
ghost use Rattle.std.specs.Prelude.{◌≡◌, ◌+◌, ◌*◌, ◌%◌, ◌<◌};
ghost use Rattle.gf2.specs.Coordinates.{value};
ghost use Rattle.gf2.specs.Operands.{carried_bytes};
ghost use Rattle.curves.specs.Published.{digit_value, digit_bit, published};

use operand::Operand;

// The value of a digit.
fn digit_value(c: u8) -> u8
    ensures { result ≡ digit_value c }
{
    c % 16 + c / 64 * 9
}

// Bit t of the digits, from the left; 0 past the last.
fn bit(digits: &[u8], t: usize) -> u8
    ensures { result ≡ digit_bit digits.now t % 2 }
{
    let digit = digits.get(t / 4).copied().unwrap_or(0);
    (digit_value(digit) >> (3 - t % 4)) % 2
}

// Byte b of the operand whose first coordinate is bit `start` of the digits.
fn byte(digits: &[u8], start: usize, b: usize) -> u8
    requires { (start < 4) × (b < carried_bytes) }
    ensures { result ≡ value 8 (λ j. digit_bit digits.now (start + (b * 8 + j))) }
{
    let mut out = 0;
    for j in 0..8 {
        out += bit(digits, start + (b * 8 + j)) << j;
    }
    out
}

// The operand that the digits stand for.
pub(crate) fn operand(width: u16, digits: &[u8]) -> Operand
    ensures { result ≡ published width digits.now }
{
    let start = (4 - usize::from(width) % 4) % 4;
    let mut bytes = [0u8; Operand::BYTES];
    for b in 0..Operand::BYTES {
        bytes[b] = byte(digits, start, b);
    }
    Operand { bytes, width }
}
