// The values of a list's wires: those of the operands' coordinates, then each gate's from two that are there already.
ghost use Rattle.std.specs.Prelude.{◌≡◌, ◌+◌, ◌-◌, ◌*◌, ◌<◌, ◌≤◌, length, get_or, take};
ghost use Rattle.std.proofs.lemmas.List.Edits.{sets};
ghost use Rattle.gf2.specs.Coordinates.{coord, tabulate};
ghost use Rattle.gf2.specs.Operands.{max_width};
ghost use Rattle.netlist.specs.Running.{applied, run as run_gates, wires as wires_of, gates_to, gate_count, read_list};
ghost use Rattle.runner.specs.Inner.{AreBits, BytePerWire, IsNext, gate_at};

use crate::lists::Runnable;

// The coordinates of an operand, on the wires from `at` on.
fn fill_operand(width: usize, bytes: &[u8], at: usize, wires: &mut [u8])
    requires { (width ≤ max_width) × (at + width ≤ length wires.old) }
    ensures { wires.new ≡ sets wires.old at (tabulate width (coord bytes.now)) }
{
    for i in 0..width {
        wires[at + i] = netlist::coordinate(bytes, i);
    }
}

fn gate_value(kind: u32, x: u8, y: u8) -> u8
    requires { (x < 2) × (y < 2) }
    ensures { result ≡ applied kind x y }
{
    if kind == 0 { x & y } else { x ^ y }
}

// The value on a wire below `own`, of which the last one is at hand.
fn on_wire(wires: &[u8], wire: usize, own: usize, last: u8) -> u8
    requires { (wire < own) × (own ≤ length wires.now) × (last ≡ get_or wires.now (own - 1) 0) }
    ensures { result ≡ get_or wires.now wire 0 }
{
    if wire + 1 == own { last } else { wires[wire] }
}

impl<'a> Runnable<'a> {
    // The value of gate k, from two wires before its own.
    fn gate_at(&self, k: u32, wires: &[u8], last: u8) -> u8
        requires { (k < gate_count self.now.list.words.now) × IsNext (2 * self.now.list.width + k) wires.now last }
        ensures { result ≡ gate_at self.now.list.words.now k wires.now }
    {
        let own = 2 * self.list.width + k as usize;
        let x = on_wire(wires, self.list.left(k), own, last);
        let y = on_wire(wires, self.list.right(k), own, last);
        gate_value(self.list.kind(k), x, y)
    }

    // The wires of the gates. The last wire is kept: a sum's next gate reads it at once.
    fn fill_gates(&self, wires: &mut [u8])
        requires { BytePerWire self.now.list.width self.now.list.words.now wires.old × AreBits (2 * self.now.list.width) wires.old }
        ensures { wires.new ≡ run_gates (gates_to self.now.list.words.now (gate_count self.now.list.words.now)) (take (2 * self.now.list.width) wires.old) }
    {
        let first = 2 * self.list.width;
        let mut last = wires[first - 1];
        for k in 0..self.list.gates() {
            let next = self.gate_at(k, wires, last);
            wires[first + k as usize] = next;
            last = next;
        }
    }

    pub(crate) fn fill_wires(&self, a: &[u8], b: &[u8], wires: &mut [u8])
        requires { BytePerWire self.now.list.width self.now.list.words.now wires.old }
        ensures { wires.new ≡ wires_of self.now.list.width (read_list self.now.list.words.now self.now.list.width) a.now b.now }
    {
        let width = self.list.width;
        fill_operand(width, a, 0, wires);
        fill_operand(width, b, width, wires);
        self.fill_gates(wires);
    }
}
