// Points that FIPS 186 publishes: whether one lies on its curve under a table, by the calls on operands.
#![tactic(auto)]

ghost use Rattle.std.specs.Prelude.{◌≡◌};
ghost use Rattle.curves.specs.Curve.{point_on_curve};

mod curve;
mod published;

use curve::Curve;

// Whether the point with these digits lies on the curve once `change` is added to y.
pub fn lies(
    width: usize,
    table: &[u8],
    a: &[u8],
    b: &[u8],
    x: &[u8],
    y: &[u8],
    change: &[u8],
) -> bool
    ensures { result ≡ point_on_curve width table.now a.now b.now x.now y.now change.now }
{
    if limbs::MAX_WIDTH < width {
        return false;
    }
    let m = width as u16;
    let curve = Curve {
        width,
        table,
        a: published::operand(m, a),
        b: published::operand(m, b),
    };
    match published::operand(m, y).sum(published::operand(m, change)) {
        Ok(changed) => curve.has(published::operand(m, x), changed),
        Err(_) => false,
    }
}
