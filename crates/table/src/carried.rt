// The four tables that the program carries, those of widths 2 to 5, row after row.
ghost use Rattle.std.specs.Prelude.{◌≡◌};
ghost use Rattle.table.specs.Carried.{carried_width, carried_table};

const CARRIED2: [u8; 2] = [0x02, 0x03];

const CARRIED3: [u8; 3] = [0x02, 0x05, 0x06];

const CARRIED4: [u8; 4] = [0x02, 0x08, 0x0F, 0x04];

const CARRIED5: [u8; 5] = [0x02, 0x09, 0x18, 0x06, 0x14];

// A carried table, by its width.
#[derive(Clone, Copy, Debug, PartialEq, Eq)]
pub enum Carried {
    Two,
    Three,
    Four,
    Five,
}

impl Carried {
    pub const ALL: [Carried; 4] = [Carried::Two, Carried::Three, Carried::Four, Carried::Five];

    pub fn width(self) -> usize
        ensures { result ≡ carried_width self }
    {
        match self {
            Carried::Two => 2,
            Carried::Three => 3,
            Carried::Four => 4,
            Carried::Five => 5,
        }
    }

    pub fn rows(self) -> &'static [u8]
        ensures { result.now ≡ carried_table self }
    {
        match self {
            Carried::Two => &CARRIED2,
            Carried::Three => &CARRIED3,
            Carried::Four => &CARRIED4,
            Carried::Five => &CARRIED5,
        }
    }
}
