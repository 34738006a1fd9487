// A fold that takes one term after another, and stores a gate for each but the first.
ghost use Rattle.std.specs.Prelude.{[], ◌∷◌, option_to_list, ◌+◌, ◌*◌, ◌<◌, ◌≤◌};
ghost use Rattle.gf2.specs.Operands.{max_width};
ghost use Rattle.netlist.specs.Gates.{word_limit};
ghost use Rattle.list_folds.specs.Folds.{Pushed};

use list_pairs::Kind;

// The running wire, where there is a term, and the number of the next gate.
#[derive(Clone, Copy)]
pub(crate) struct Fold {
    pub running: Option<u32>,
    pub gates: usize,
}

pub(crate) fn push(out: &mut [u32], width: usize, f: Fold, wire: u32) -> Fold
    requires { (width ≤ max_width) × (2 * width + f.gates < word_limit) }
    ensures { Pushed width f out.old (wire ∷ []) result out.new }
{
    match f.running {
        Some(running) => {
            list_pairs::put_gate(out, f.gates, Kind::Xor.word(), running, wire);
            Fold {
                running: Some((2 * width + f.gates) as u32),
                gates: f.gates + 1,
            }
        }
        None => Fold {
            running: Some(wire),
            gates: f.gates,
        },
    }
}

// The last wire, where there is one.
pub(crate) fn push_last(out: &mut [u32], width: usize, f: Fold, last: Option<u32>) -> Fold
    requires { (width ≤ max_width) × (2 * width + f.gates < word_limit) }
    ensures { Pushed width f out.old (option_to_list last) result out.new }
{
    match last {
        Some(wire) => push(out, width, f, wire),
        None => f,
    }
}
