// A table whose shape has passed, and its rows.
ghost use Rattle.std.specs.Prelude.{◌≡◌, ◌≤◌, IfOk};
ghost use Rattle.gf2.specs.Operands.{carried_bytes, IsOperand, turned};
ghost use Rattle.gf2.specs.Tables.{row};
ghost use Rattle.judging.specs.Causes.{verdict_of};
ghost use Rattle.table.specs.Rows.{Shaped};
ghost use Rattle.table.specs.Inner.{carried_row};
ghost use Rattle.table.specs.Judgements.{shape_verdict};

use crate::rows;
use judging::Fault;

// "A table is m rows, each an operand of W bytes, m·W in all": what the judgement of its shape has let through.
#[derive(Clone, Copy)]
pub struct Table<'a> {
    pub(crate) width: usize,
    pub(crate) bytes: &'a [u8],
    ghost shaped: { Shaped width bytes.now },
}

impl<'a> Table<'a> {
    // 1 to 3 are judged.
    pub fn new(width: usize, bytes: &'a [u8]) -> Result<Table<'a>, Fault>
        ensures verdict { verdict_of result ≡ shape_verdict width bytes.now }
        ensures same { IfOk result (λ t. (t.width ≡ width) × (t.bytes.now ≡ bytes.now)) }
    {
        rows::judge_shape(width, bytes)?;
        Ok(Table { width, bytes })
    }

    pub fn width(&self) -> usize
        ensures { result ≡ self.now.width }
    {
        self.width
    }

    pub fn bytes(&self) -> &'a [u8]
        ensures { result.now ≡ self.now.bytes.now }
    {
        self.bytes
    }

    // Row d, W bytes; none past the last row.
    pub fn row(&self, d: usize) -> &'a [u8]
        ensures { result.now ≡ row self.now.width self.now.bytes.now d }
    {
        if self.width <= d {
            return &[];
        }
        let size = limbs::bytes_for(self.width);
        let from = d * size;
        &self.bytes[from..from + size]
    }

    // Its bytes, in those of a carried operand.
    pub(crate) fn carried_row(&self, d: usize) -> [u8; limbs::BYTES]
        ensures { result ≡ carried_row self.now.width self.now.bytes.now d }
    {
        limbs::carried(self.row(d))
    }

    // An operand of the table's width turned k places, where no judgement can fail.
    pub(crate) fn turned(&self, x: [u8; limbs::BYTES], k: usize) -> [u8; limbs::BYTES]
        requires { IsOperand carried_bytes self.now.width x }
        ensures { result ≡ turned self.now.width k x }
    {
        turns::rolled(x, self.width, k)
    }
}
