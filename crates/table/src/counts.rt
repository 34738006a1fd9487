// C, the number of ones in a table: bits at the width and above are 0, so every one of its bytes counts.
ghost use Rattle.std.specs.Prelude.{◌≡◌};
ghost use Rattle.table.specs.Calls.{ones_call};

use crate::shaped::Table;
use judging::Fault;

pub fn ones(width: usize, table: &[u8]) -> Result<usize, Fault>
    ensures { result ≡ ones_call width table.now }
{
    let table = Table::new(width, table)?;
    Ok(ones::ones_of(table.bytes))
}
