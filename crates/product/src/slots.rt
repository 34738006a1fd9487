// The rows of a table at the slots of limbs, and the slots gathered as an operand.
ghost use Rattle.std.specs.Prelude.{◌≡◌, ◌<◌, ◌≤◌};
ghost use Rattle.gf2.specs.Operands.{max_width};
ghost use Rattle.gf2.specs.Tables.{row};
ghost use Rattle.limbs.specs.Limbs.{reach, limb_coord};
ghost use Rattle.table.specs.Rows.{Shaped};
ghost use Rattle.scatter.specs.Cells.{HasSlots, Added, limbs_add};
ghost use Rattle.product.specs.Inner.{made, IsWidth, gathered_at};

use operand::Operand;

// e is added at the slot of each one of row d of a table.
pub(crate) fn add_line(width: usize, table: &[u8], d: usize, e: [u64; limbs::LIMBS], g: &mut [u64])
    requires { Shaped width table.now × (d < width) × HasSlots g.old }
    ensures { Added (limbs_add width e (row width table.now d) (reach width)) g.old g.new }
{
    let size = limbs::bytes_for(width);
    let from = d * size;
    scatter::add_row(g, width, e, &table[from..from + size]);
}

// The operand of the coordinates below the width.
pub(crate) fn below_width(x: [u64; limbs::LIMBS], width: usize) -> Operand
    requires { width ≤ max_width }
    ensures { result ≡ made width (limb_coord x) }
{
    Operand {
        bytes: limbs::to_bytes(limbs::low_limbs(x, width)),
        width: width as u16,
    }
}

// The sum of all slots, slot r moved up r: what stands below the width and what comes round, added.
pub(crate) fn gathered(width: usize, g: &[u64]) -> Operand
    requires { IsWidth width × HasSlots g.now }
    ensures { result ≡ made width (gathered_at width g.now) }
{
    let all = scatter::spread(g, width);
    let both = limbs::xored_limbs(
        scatter::window(&all, 0, width),
        scatter::window(&all, width, width),
    );
    below_width(both, width)
}
