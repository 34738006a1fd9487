// The product of operands without fault under a table of the right shape, by either method. The reduced product has each pair of
// coordinates once, both ways round, by the rows 1 to m/2, and the diagonal, which is the square of the coordinates' products.
ghost use Rattle.std.specs.Prelude.{◌≡◌, ◌+◌, ◌*◌, replicate};
ghost use Rattle.gf2.specs.Coordinates.{coord};
ghost use Rattle.scatter.specs.Cells.{slots, twice_limbs};
ghost use Rattle.product.specs.Calls.{multiplied};
ghost use Rattle.product.specs.Inner.{Sound, Serves, operand_of, made, diagonal_at};

use crate::{kernel, slots};
use operand::Operand;
use scatter::Method;

// What the rows give, and what a method adds to it.
fn plus_diagonal(
    method: Method,
    width: usize,
    rows: Operand,
    x: [u64; limbs::LIMBS],
    y: [u64; limbs::LIMBS],
) -> Operand
    requires { Sound width rows }
    ensures { result ≡ made width (λ i. coord rows.bytes i + diagonal_at method width x y i) }
{
    match method {
        Method::Plain => rows,
        Method::Reduced => {
            let products = slots::below_width(scatter::masked(x, y), width);
            let diagonal = products.square().unwrap();
            rows.sum(diagonal).unwrap()
        }
    }
}

// g is scratch: slots of limbs, all 0.
pub(crate) fn times(
    method: Method,
    width: usize,
    table: &[u8],
    a: Operand,
    b: Operand,
    g: &mut [u64],
) -> Operand
    requires { Serves method width table.now × Sound width a × Sound width b × (g.old ≡ replicate (slots * twice_limbs) 0) }
    ensures { result ≡ operand_of width (multiplied method width table.now a.bytes b.bytes) }
{
    let x = limbs::to_limbs(a.bytes);
    let y = limbs::to_limbs(b.bytes);
    kernel::add_rows(
        method,
        width,
        table,
        scatter::first_row(method),
        scatter::row_count(method, width),
        x,
        y,
        g,
    );
    plus_diagonal(method, width, slots::gathered(width, g), x, y)
}
