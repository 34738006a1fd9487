// The calls on cards: a table's card written, and a card read.
ghost use Rattle.std.specs.Prelude.{◌≡◌};
ghost use Rattle.card.specs.Calls.{read_call, read_table};
ghost use Rattle.card_writer.specs.Calls.{write_call, write_card};
ghost use Rattle.nb.specs.Calls.{card_answer};

use crate::packing;

pub fn nb_card_write(width: u64, table: &[u8], out: &mut [u8]) -> u64
    ensures { (result ≡ card_answer (write_call width table.now out.old))
        × (out.new ≡ write_card width table.now out.old) }
{
    packing::value(card_writer::write(width as usize, table, out))
}

pub fn nb_card_read(card: &[u8], table: &mut [u8]) -> u64
    ensures { (result ≡ card_answer (read_call card.now table.old))
        × (table.new ≡ read_table card.now table.old) }
{
    packing::value(card::read(card, table))
}
