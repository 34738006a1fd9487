// Rows stored into a lent table.
ghost use Rattle.std.specs.Prelude.{◌≡◌, ◌*◌, ◌≤◌, take};
ghost use Rattle.std.proofs.lemmas.List.Edits.{sets};
ghost use Rattle.gf2.specs.Operands.{max_width, carried_bytes};

// The first `size` bytes of a row, at a place of the table.
pub(crate) fn put_bytes(out: &mut [u8], at: usize, row: [u8; limbs::BYTES], size: usize)
    requires { (at ≤ max_width * carried_bytes) × (size ≤ carried_bytes) }
    ensures { out.new ≡ sets out.old at (take size row) }
{
    for b in 0..size {
        stores::put(out, at + b, row[b]);
    }
}
