// The calls on Gaussian normal bases: the type of a width, and its table.
ghost use Rattle.std.specs.Prelude.{◌≡◌, length};
ghost use Rattle.gaussian.specs.Calls.{type_call, draw_call, drawn_into};
ghost use Rattle.nb.specs.Calls.{type_answer};

use crate::packing;

// Not a call of document 01: the type that nb_draw would return, without the table.
pub fn nb_type(width: u64) -> u64
    ensures { result ≡ type_answer (type_call width) }
{
    packing::value(gaussian::type_of(width as usize))
}

pub fn nb_draw(width: u64, table: &mut [u8]) -> u64
    ensures { (result ≡ type_answer (draw_call width (length table.old)))
        × (table.new ≡ drawn_into width table.old) }
{
    packing::value(gaussian::draw(width as usize, table))
}
