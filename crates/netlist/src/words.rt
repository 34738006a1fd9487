// Reading single coordinates of bytes; what lies past the end is 0.
ghost use Rattle.std.specs.Prelude.{◌≡◌};
ghost use Rattle.gf2.specs.Coordinates.{coord};

pub fn coordinate(bytes: &[u8], i: usize) -> u8
    ensures { result ≡ coord bytes.now i }
{
    let b = i / 8;
    if b < bytes.len() {
        (bytes[b] >> (i % 8)) % 2
    } else {
        0
    }
}
