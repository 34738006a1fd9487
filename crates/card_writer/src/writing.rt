// Writing a table's card, part after part.
ghost use Rattle.std.specs.Prelude.{◌≡◌, ◌<◌, [], ◌∷◌, length};
ghost use Rattle.std.proofs.lemmas.List.Edits.{sets};
ghost use Rattle.gf2.specs.Tables.{row};
ghost use Rattle.card.specs.Numbers.{number, number_limit};
ghost use Rattle.card.specs.Rows.{steps, row_card, rows_card};
ghost use Rattle.card.specs.Cards.{card};
ghost use Rattle.card_writer.specs.Calls.{write_call, write_card};
ghost use Rattle.card_writer.specs.Inner.{Puts, HasRoom, limb_ones};

use judging::{CallFault, Fault};
use table::Table;

// An output, and the place in it where the next part is put.
#[derive(Drop)]
struct CardWriter<'a> {
    out: &'a mut [u8],
    at: usize,
}

impl CardWriter<'_> {
    fn put(&mut self, byte: u8)
        requires { HasRoom (byte ∷ []) self.old }
        ensures { Puts (byte ∷ []) self.old self.new }
    {
        stores::put(self.out, self.at, byte);
        self.at += 1;
    }

    fn put_number(&mut self, n: usize)
        requires { (n < number_limit) × HasRoom (number n) self.old }
        ensures { Puts (number n) self.old self.new }
    {
        if n < 128 {
            self.put(n as u8);
            return;
        }
        self.put((128 + n % 128) as u8);
        self.put((n / 128) as u8);
    }

    // The steps to the places of a row's ones, of which there are `count`.
    fn put_places(&mut self, row: &[u64; limbs::LIMBS], count: usize)
        requires { (count ≡ length (limb_ones row.now)) × HasRoom (steps 0 (limb_ones row.now)) self.old }
        ensures { Puts (steps 0 (limb_ones row.now)) self.old self.new }
    {
        let mut free = 0;
        for _ in 0..count {
            let i = ones::next_one(row, free);
            self.put_number(i - free);
            free = i + 1;
        }
    }

    // Row d of a table.
    fn put_row(&mut self, table: &Table, d: usize)
        requires { (d < table.now.width) × HasRoom (row_card table.now.width (row table.now.width table.now.bytes.now d)) self.old }
        ensures { Puts (row_card table.now.width (row table.now.width table.now.bytes.now d)) self.old self.new }
    {
        let row = limbs::slice_limbs(table.row(d));
        let n = ones::ones_in(&row);
        self.put_number(n);
        self.put_places(&row, n);
    }

    fn put_rows(&mut self, table: &Table)
        requires { HasRoom (rows_card table.now.width table.now.bytes.now 0 table.now.width) self.old }
        ensures { Puts (rows_card table.now.width table.now.bytes.now 0 table.now.width) self.old self.new }
    {
        for d in 0..table.width() {
            self.put_row(table, d);
        }
    }
}

// A table's card at the front of an output: the form, the width and the rows. Its length.
fn put_card(out: &mut [u8], table: &Table) -> usize
    ensures length { result ≡ length (card table.now.width table.now.bytes.now) }
    ensures out { out.new ≡ sets out.old 0 (card table.now.width table.now.bytes.now) }
{
    let mut writer = CardWriter { out, at: 0 };
    writer.put_number(1);
    writer.put_number(table.width());
    writer.put_rows(table);
    writer.at
}

// The output is written only in a second pass, once the card's length is known.
pub fn write(width: usize, table: &[u8], out: &mut [u8]) -> Result<usize, Fault>
    ensures answer { result ≡ write_call width table.now out.old }
    ensures out { out.new ≡ write_card width table.now out.old }
{
    let table = Table::new(width, table)?;
    let mut spare = [0u8; 1];
    let size = put_card(&mut spare, &table);
    if out.len() < size {
        return Err(Fault::Call(CallFault::OutputShort));
    }
    put_card(out, &table);
    Ok(size)
}
