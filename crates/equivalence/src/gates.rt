// The gates of a list: whether each is of the form that is compared, and how many are ANDs.
ghost use Rattle.std.specs.Prelude.{◌≡◌, ◌≤◌};
ghost use Rattle.gf2.specs.Sums.{every};
ghost use Rattle.netlist.specs.Gates.{and_gates};
ghost use Rattle.netlist.specs.Running.{gate_count, gates_to};
ghost use Rattle.netlist.specs.Judgements.{is_pair, is_in_form, is_formed};
ghost use Rattle.equivalence.specs.Causes.{most_width};

use runner::GateList;

// One wire of a and one of b.
fn is_pair(width: usize, a: usize, b: usize) -> bool
    requires { width ≤ most_width }
    ensures { result ≡ is_pair width a b }
{
    if width <= a {
        return false;
    }
    if b < width {
        return false;
    }
    b < 2 * width
}

// An AND takes one wire of a and one of b, on either side, an XOR two gates.
fn in_form(width: usize, kind: u32, left: usize, right: usize) -> bool
    requires { width ≤ most_width }
    ensures { result ≡ is_in_form width kind left right }
{
    if kind == 0 {
        if is_pair(width, left, right) {
            return true;
        }
        return is_pair(width, right, left);
    }
    if left < 2 * width {
        return false;
    }
    2 * width <= right
}

fn is_formed(list: &GateList, k: u32) -> bool
    requires { list.now.width ≤ most_width }
    ensures { result ≡ is_formed list.now.width list.now.words.now k }
{
    in_form(list.width, list.kind(k), list.left(k), list.right(k))
}

pub(crate) fn are_formed(list: &GateList) -> bool
    requires { list.now.width ≤ most_width }
    ensures { result ≡ every (gate_count list.now.words.now) (is_formed list.now.width list.now.words.now) }
{
    (0..list.gates()).all(|k| is_formed(list, k))
}

// How many of its gates are ANDs.
pub(crate) fn count_ands(list: &GateList) -> usize
    ensures { (result ≡ and_gates (gates_to list.now.words.now (gate_count list.now.words.now))) × (result ≤ gate_count list.now.words.now) }
{
    (0..list.gates()).filter(|k| list.kind(*k) == 0).count()
}
