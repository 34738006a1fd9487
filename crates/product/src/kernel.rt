// The one loop of both products: what the rows of a table add at the slots of their ones.
ghost use Rattle.std.specs.Prelude.{◌≡◌, ◌+◌, ◌<◌, ◌≤◌};
ghost use Rattle.gf2.specs.Operands.{max_width};
ghost use Rattle.table.specs.Rows.{Shaped};
ghost use Rattle.scatter.specs.Cells.{HasSlots, Added};
ghost use Rattle.product.specs.Inner.{is_one_way, Clear, rows_to};

use crate::slots;
use scatter::Method;

// Whether one way round is all that row d meets. At distance m/2 the other way gives the same pairs.
fn is_one_way(method: Method, m: usize, d: usize) -> bool
    requires { (m ≤ max_width) × (d < m) }
    ensures { result ≡ is_one_way method m d }
{
    match method {
        Method::Plain => true,
        Method::Reduced => 2 * d == m,
    }
}

// What `count` rows from row `from` on add at the slots of their ones.
pub(crate) fn add_rows(
    method: Method,
    width: usize,
    table: &[u8],
    from: usize,
    count: usize,
    x: [u64; limbs::LIMBS],
    y: [u64; limbs::LIMBS],
    g: &mut [u64],
)
    requires { Shaped width table.now × Clear width x × Clear width y × (from + count ≤ width) × HasSlots g.old }
    ensures { Added (rows_to method width table.now x y from count) g.old g.new }
{
    let xx = scatter::twice(&x, width);
    let yy = scatter::twice(&y, width);
    for d in from..from + count {
        let once = is_one_way(method, width, d);
        let e = scatter::met(once, width, d, x, y, &xx, &yy);
        slots::add_line(width, table, d, e, g);
    }
}
