// Gaussian normal bases: the type of each width, and the table of a width's type.
#![tactic(auto)]

ghost use Rattle.std.specs.Prelude.{◌≡◌, [], ◌∷◌, ◌≤◌, length};
ghost use Rattle.gf2.specs.Operands.{max_width};
ghost use Rattle.judging.specs.Causes.{judged};
ghost use Rattle.gaussian.specs.Causes.{type_zero};
ghost use Rattle.gaussian.specs.Calls.{answer, type_call, draw_call, drawn_into};

use judging::{CallFault, Fault};

mod drawing;
mod residues;
mod types;

// The type of a width, or 17.
fn listed_type(width: usize) -> Result<usize, Fault>
    requires { (2 ≤ width) × (width ≤ max_width) }
    ensures { result ≡ answer (judged (type_zero width ∷ [])) width }
{
    types::listed(width).ok_or(Fault::Call(CallFault::NoType))
}

pub fn type_of(width: usize) -> Result<usize, Fault>
    ensures { result ≡ type_call width }
{
    judging::judge_width(width)?;
    listed_type(width)
}

// The table of a width's type, and the type.
pub fn draw(width: usize, table: &mut [u8]) -> Result<usize, Fault>
    ensures answer { result ≡ draw_call width (length table.old) }
    ensures bytes { table.new ≡ drawn_into width table.old }
{
    judging::judge_table_size(width, table.len())?;
    let t = listed_type(width)?;
    drawing::fill(table, width, t);
    Ok(t)
}
