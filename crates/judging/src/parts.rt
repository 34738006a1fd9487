// The parts that calls judge: a width, lengths beside it, and bits at the width and above. Each ends at the first fault.
// A length is worked out only for a width that has passed: of any other it may be more than a usize holds.
ghost use Rattle.std.specs.Prelude.{◌≡◌, [], ◌∷◌, ◌*◌, map};
ghost use Rattle.gf2.specs.Operands.{bytes_for};
ghost use Rattle.judging.specs.Causes.{judged};
ghost use Rattle.judging.specs.FaultTable.{bad_width, bad_length, high_bit};

use crate::fault::Fault;

pub fn judge_width(width: usize) -> Result<(), Fault>
    ensures { result ≡ judged (bad_width width ∷ []) }
{
    if width < 2 {
        return Err(Fault::Width);
    }
    if limbs::MAX_WIDTH < width {
        return Err(Fault::Width);
    }
    Ok(())
}

pub fn judge_length(given: usize, laid_down: usize) -> Result<(), Fault>
    ensures { result ≡ judged (bad_length given laid_down ∷ []) }
{
    if given == laid_down {
        Ok(())
    } else {
        Err(Fault::Length)
    }
}

// Two widths, the second as the first.
pub fn judge_widths(m: usize, n: usize) -> Result<(), Fault>
    ensures { result ≡ judged (bad_width m ∷ bad_width n ∷ bad_length n m ∷ []) }
{
    judge_width(m)?;
    judge_width(n)?;
    judge_length(n, m)
}

// A width, and those of two operands.
pub fn judge_pair_widths(width: usize, m: usize, n: usize) -> Result<(), Fault>
    ensures { result ≡ judged (bad_width width ∷ bad_width m ∷ bad_width n ∷ bad_length n m ∷ bad_length m width ∷ []) }
{
    judge_width(width)?;
    judge_widths(m, n)?;
    judge_length(m, width)
}

// Lengths, each as laid down.
pub fn judge_lengths(given: &[usize], laid_down: usize) -> Result<(), Fault>
    ensures { result ≡ judged (map (λ n. bad_length n laid_down) given.now) }
{
    for n in given {
        judge_length(*n, laid_down)?;
    }
    Ok(())
}

// The lengths of operands and of a result.
pub fn judge_sizes(width: usize, given: &[usize]) -> Result<(), Fault>
    ensures { result ≡ judged (bad_width width ∷ map (λ n. bad_length n (bytes_for width)) given.now) }
{
    judge_width(width)?;
    judge_lengths(given, limbs::bytes_for(width))
}

// A table's length.
pub fn judge_table_size(width: usize, size: usize) -> Result<(), Fault>
    ensures { result ≡ judged (bad_width width ∷ bad_length size (width * bytes_for width) ∷ []) }
{
    judge_width(width)?;
    judge_length(size, width * limbs::bytes_for(width))
}

// The bits of an operand, W bytes or those of a carried one.
pub fn judge_high(s: &[u8], width: usize) -> Result<(), Fault>
    ensures { result ≡ judged (high_bit width s.now ∷ []) }
{
    if limbs::is_clear(s, width) {
        Ok(())
    } else {
        Err(Fault::HighBit)
    }
}

// The bits of two operands.
pub fn judge_both_high(x: &[u8], m: usize, y: &[u8], n: usize) -> Result<(), Fault>
    ensures { result ≡ judged (high_bit m x.now ∷ high_bit n y.now ∷ []) }
{
    judge_high(x, m)?;
    judge_high(y, n)
}

// The same of a carried operand, and of two. Its bytes are tested as limbs.
pub fn judge_high_carried(x: &[u8; limbs::BYTES], width: usize) -> Result<(), Fault>
    ensures { result ≡ judged (high_bit width x.now ∷ []) }
{
    if limbs::is_clear_carried(x, width) {
        Ok(())
    } else {
        Err(Fault::HighBit)
    }
}

pub fn judge_both_high_carried(
    x: &[u8; limbs::BYTES],
    m: usize,
    y: &[u8; limbs::BYTES],
    n: usize,
) -> Result<(), Fault>
    ensures { result ≡ judged (high_bit m x.now ∷ high_bit n y.now ∷ []) }
{
    judge_high_carried(x, m)?;
    judge_high_carried(y, n)
}
