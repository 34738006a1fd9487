// The result: coordinate r is the value of the output wire for r.
ghost use Rattle.std.specs.Prelude.{◌≡◌, ◌+◌, ◌*◌, ◌%◌, ◌≤◌, length};
ghost use Rattle.gf2.specs.Coordinates.{value};
ghost use Rattle.gf2.specs.Operands.{bytes_for, below, from_coords};
ghost use Rattle.runner.specs.Inner.{BytePerWire, on_output};

use crate::lists::Runnable;

impl<'a> Runnable<'a> {
    // The value on the output wire for r, 0 at the width and above.
    fn output_bit(&self, wires: &[u8], r: usize) -> u8
        requires { BytePerWire self.now.list.width self.now.list.words.now wires.now }
        ensures { result ≡ below self.now.list.width (on_output wires.now self.now.list.words.now) r % 2 }
    {
        if self.list.width <= r {
            return 0;
        }
        wires[self.list.output(r)] % 2
    }

    // Byte b of the result.
    fn output_byte(&self, wires: &[u8], b: usize) -> u8
        requires { BytePerWire self.now.list.width self.now.list.words.now wires.now × (b ≤ self.now.list.width) }
        ensures { result ≡ value 8 (λ j. below self.now.list.width (on_output wires.now self.now.list.words.now) (b * 8 + j)) }
    {
        let mut byte: u8 = 0;
        for j in 0..8 {
            byte += self.output_bit(wires, b * 8 + j) << j;
        }
        byte
    }

    pub(crate) fn fill_result(&self, wires: &[u8], res: &mut [u8])
        requires { BytePerWire self.now.list.width self.now.list.words.now wires.now × (length res.old ≡ bytes_for self.now.list.width) }
        ensures { res.new ≡ from_coords (bytes_for self.now.list.width) self.now.list.width (on_output wires.now self.now.list.words.now) }
    {
        for b in 0..res.len() {
            res[b] = self.output_byte(wires, b);
        }
    }
}
