// Reading a card, in byte order. A part is read from the front of the bytes that are left, or a fault is found there.
ghost use Rattle.std.specs.Prelude.{◌≡◌, ◌*◌, ◌≤◌, replicate};
ghost use Rattle.gf2.specs.Operands.{max_width, carried_bytes};
ghost use Rattle.card.specs.Numbers.{read_number};
ghost use Rattle.card.specs.Rows.{read_places, read_row};
ghost use Rattle.card.specs.Cards.{lent_verdict, read_width, read_head};
ghost use Rattle.card.specs.Calls.{read_call, read_table};
ghost use Rattle.card.specs.Inner.{told, told_row, read_byte, carried_places, RowsRead};

use crate::store;
use judging::{CallFault, CardFault, Fault};

// 1, and 11 where the lent table has fewer than m·W bytes, which are worked out only for a width that has passed.
fn judge_lent(room: usize, width: usize) -> Result<(), Fault>
    ensures { result ≡ lent_verdict room width }
{
    judging::judge_width(width)?;
    if room < width * limbs::bytes_for(width) {
        return Err(Fault::Call(CallFault::OutputShort));
    }
    Ok(())
}

// The bytes of a card that are left to be read.
#[derive(Clone, Copy)]
struct Reader<'a> {
    left: &'a [u8],
}

impl Reader<'_> {
    fn byte(&mut self) -> Result<u8, Fault>
        ensures { told result self.new.left.now ≡ read_byte self.old.left.now }
    {
        let Some((first, rest)) = self.left.split_first() else {
            return Err(Fault::Card(CardFault::Ends));
        };
        self.left = rest;
        Ok(*first)
    }

    fn number(&mut self) -> Result<usize, Fault>
        ensures { told result self.new.left.now ≡ read_number self.old.left.now }
    {
        let low = usize::from(self.byte()?);
        if low < 128 {
            return Ok(low);
        }
        let high = usize::from(self.byte()?);
        if high == 0 {
            return Err(Fault::Card(CardFault::Number));
        }
        if high < 128 {
            Ok(low - 128 + high * 128)
        } else {
            Err(Fault::Card(CardFault::Number))
        }
    }

    // A row of `count` ones, stored over zeros. Each place is above the ones before, so that its bit is still 0. The row is lent, since
    // one in a Result would be copied at each step out.
    fn places(
        &mut self,
        width: usize,
        count: usize,
        row: &mut [u8; limbs::BYTES],
    ) -> Result<(), Fault>
        requires { (width ≤ max_width) × (row.old ≡ replicate carried_bytes 0) }
        ensures { told_row result row.new self.new.left.now ≡ carried_places width (read_places width 0 count self.old.left.now) }
    {
        let mut free = 0;
        for _ in 0..count {
            let step = self.number()?;
            if width - free <= step {
                return Err(Fault::Card(CardFault::Place));
            }
            let place = free + step;
            row[place / 8] ^= 1u8 << (place % 8);
            free = place + 1;
        }
        Ok(())
    }

    fn row(&mut self, width: usize, row: &mut [u8; limbs::BYTES]) -> Result<(), Fault>
        requires { (width ≤ max_width) × (row.old ≡ replicate carried_bytes 0) }
        ensures { told_row result row.new self.new.left.now ≡ carried_places width (read_row width self.old.left.now) }
    {
        let count = self.number()?;
        if width < count {
            return Err(Fault::Card(CardFault::Place));
        }
        self.places(width, count, row)
    }

    // The rows; their bytes go to the table.
    fn rows(&mut self, width: usize, table: &mut [u8]) -> Result<(), Fault>
        requires { width ≤ max_width }
        ensures { RowsRead width self.old.left.now (told result self.new.left.now) table.old table.new }
    {
        let size = limbs::bytes_for(width);
        for d in 0..width {
            let mut row = [0u8; limbs::BYTES];
            self.row(width, &mut row)?;
            store::put_bytes(table, d * size, row, size);
        }
        Ok(())
    }

    fn width(&mut self, room: usize) -> Result<usize, Fault>
        ensures { told result self.new.left.now ≡ read_width room self.old.left.now }
    {
        let width = self.number()?;
        judge_lent(room, width)?;
        Ok(width)
    }

    // The form and the width.
    fn head(&mut self, room: usize) -> Result<usize, Fault>
        ensures { told result self.new.left.now ≡ read_head room self.old.left.now }
    {
        let form = self.number()?;
        if form != 1 {
            return Err(Fault::Card(CardFault::Form));
        }
        self.width(room)
    }
}

// The lent table is written only in a second pass, once the whole card is known to have no fault.
pub fn read(card: &[u8], table: &mut [u8]) -> Result<usize, Fault>
    ensures answer { result ≡ read_call card.now table.old }
    ensures table { table.new ≡ read_table card.now table.old }
{
    let mut first = Reader { left: card };
    let width = first.head(table.len())?;
    let mut second = first;
    let mut spare = [0u8; 1];
    first.rows(width, &mut spare)?;
    if !first.left.is_empty() {
        return Err(Fault::Card(CardFault::Tail));
    }
    second.rows(width, table)?;
    Ok(width)
}
