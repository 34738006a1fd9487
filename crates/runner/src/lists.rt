// Gate lists: a width and words, what the words say of gates and outputs, and a list whose gates and outputs have passed.
ghost use Rattle.std.specs.Prelude.{◌≡◌, get_or};
ghost use Rattle.netlist.specs.Running.{kind_at, left_at, right_at, gate_count, output_at};
ghost use Rattle.runner.specs.Inner.{IsRunnable};

// A width and the words of a list, of which nothing is judged. What lies past the end of the words is 0.
#[derive(Clone, Copy)]
pub struct GateList<'a> {
    pub width: usize,
    pub words: &'a [u32],
}

impl<'a> GateList<'a> {
    // The word at a place, 0 past the end.
    pub fn word(&self, at: usize) -> u32
        ensures { result ≡ get_or self.now.words.now at 0 }
    {
        if at < self.words.len() {
            self.words[at]
        } else {
            0
        }
    }

    // How many gates it has.
    pub fn gates(&self) -> u32
        ensures { result ≡ gate_count self.now.words.now }
    {
        self.word(1)
    }

    // Gate k: its kind and its two wires.
    pub fn kind(&self, k: u32) -> u32
        ensures { result ≡ kind_at self.now.words.now k }
    {
        self.word(2 + 3 * k as usize)
    }

    pub fn left(&self, k: u32) -> usize
        ensures { result ≡ left_at self.now.words.now k }
    {
        self.word(2 + 3 * k as usize + 1) as usize
    }

    pub fn right(&self, k: u32) -> usize
        ensures { result ≡ right_at self.now.words.now k }
    {
        self.word(2 + 3 * k as usize + 2) as usize
    }

    // The output wire for r. No list reaches the greatest place.
    pub fn output(&self, r: usize) -> usize
        ensures { result ≡ output_at self.now.words.now r }
    {
        let first = 2 + 3 * self.gates() as usize;
        self.word(first.saturating_add(r)) as usize
    }
}

// A list that can be run: its width, gates and output wires have passed.
#[derive(Clone, Copy)]
pub(crate) struct Runnable<'a> {
    pub(crate) list: GateList<'a>,
    ghost passed: { IsRunnable list.width list.words.now },
}
