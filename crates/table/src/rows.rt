// The judgement of a table's shape.
ghost use Rattle.std.specs.Prelude.{◌≡◌, [], ◌∷◌, ◌*◌, ◌<◌, ◌≤◌, length};
ghost use Rattle.gf2.specs.Operands.{max_width, bytes_for, carried_bytes, IsOperand, turned};
ghost use Rattle.judging.specs.Causes.{judged};
ghost use Rattle.judging.specs.FaultTable.{high_bit_in_row};
ghost use Rattle.table.specs.Rows.{Shaped};
ghost use Rattle.table.specs.Inner.{carried_row};
ghost use Rattle.table.specs.Judgements.{shape_verdict};

use judging::Fault;

// Bits at the width and above can stand only in the last byte of a row, and in none where the width is a multiple of 8.
// The last bytes of all rows are looked at together.
fn judge_ends(width: usize, table: &[u8]) -> Result<(), Fault>
    requires { (width ≤ max_width) × (length table.now ≡ width * bytes_for width) }
    ensures { result ≡ judged (high_bit_in_row width table.now ∷ []) }
{
    let used = width % 8;
    if used == 0 {
        return Ok(());
    }
    let size = limbs::bytes_for(width);
    let mut all: u8 = 0;
    for d in 0..width {
        all |= table[d * size + width / 8];
    }
    if all >> used != 0 {
        return Err(Fault::HighBit);
    }
    Ok(())
}

// The shape of a table: width, length, and the bits of each row.
pub(crate) fn judge_shape(width: usize, table: &[u8]) -> Result<(), Fault>
    ensures { result ≡ shape_verdict width table.now }
{
    judging::judge_table_size(width, table.len())?;
    judge_ends(width, table)
}
