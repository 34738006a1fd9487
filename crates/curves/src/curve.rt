// Whether a point lies on a curve y² + x·y = x³ + a·x² + b, by the calls on operands.
ghost use Rattle.std.specs.Prelude.{◌≡◌};
ghost use Rattle.curves.specs.Curve.{left_side, cube_and_term, right_side, difference, on_curve};

use judging::Fault;
use operand::Operand;
use product::Method;

// A curve's coefficients, and the width and the table by which their products are taken.
#[derive(Clone, Copy)]
pub(crate) struct Curve<'a> {
    pub(crate) width: usize,
    pub(crate) table: &'a [u8],
    pub(crate) a: Operand,
    pub(crate) b: Operand,
}

impl Curve<'_> {
    // y² + x·y
    fn left_side(&self, x: Operand, y: Operand) -> Result<Operand, Fault>
        ensures { result ≡ left_side self.now.width self.now.table.now x y }
    {
        let square = y.square()?;
        let product = product::multiply(Method::Plain, self.width, self.table, x, y)?;
        square.sum(product)
    }

    // x³ + a·x²
    fn cube_and_term(&self, x: Operand) -> Result<Operand, Fault>
        ensures { result ≡ cube_and_term self.now.width self.now.table.now self.now.a x }
    {
        let square = x.square()?;
        let cube = product::multiply(Method::Plain, self.width, self.table, square, x)?;
        let term = product::multiply(Method::Plain, self.width, self.table, self.a, square)?;
        cube.sum(term)
    }

    // x³ + a·x² + b
    fn right_side(&self, x: Operand) -> Result<Operand, Fault>
        ensures { result ≡ right_side self.now.width self.now.table.now self.now.a self.now.b x }
    {
        self.cube_and_term(x)?.sum(self.b)
    }

    // The sum of both sides.
    fn difference(&self, x: Operand, y: Operand) -> Result<Operand, Fault>
        ensures { result ≡ difference self.now.width self.now.table.now self.now.a self.now.b x y }
    {
        let left = self.left_side(x, y)?;
        let right = self.right_side(x)?;
        left.sum(right)
    }

    // Whether the sum of both sides is zero. Where a call on the way gives a fault it is not.
    pub(crate) fn has(&self, x: Operand, y: Operand) -> bool
        ensures { result ≡ on_curve self.now.width self.now.table.now self.now.a self.now.b x y }
    {
        match self.difference(x, y) {
            Ok(sum) => limbs::is_clear_carried(&sum.bytes, 0),
            Err(_) => false,
        }
    }
}
