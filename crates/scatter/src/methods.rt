// The two ways to a product, and the rows that each looks at.
ghost use Rattle.std.specs.Prelude.{◌≡◌};
ghost use Rattle.scatter.specs.Methods.{first_row, row_count};

// By all rows, or by half of them, each with its pairs both ways round.
#[derive(Clone, Copy)]
pub enum Method {
    Plain,
    Reduced,
}

// The first row that a method looks at. Row 0 has the diagonal, which the reduced product makes by itself.
pub fn first_row(method: Method) -> usize
    ensures { result ≡ first_row method }
{
    match method {
        Method::Plain => 0,
        Method::Reduced => 1,
    }
}

// And how many from there on.
pub fn row_count(method: Method, width: usize) -> usize
    ensures { result ≡ row_count method width }
{
    match method {
        Method::Plain => width,
        Method::Reduced => width / 2,
    }
}
