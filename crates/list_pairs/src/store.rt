// Storing gates, for this part of a list and for the folds.
// A store past the end does nothing, so that nothing here asks for room: the calls judge the buffer before they write.
ghost use Rattle.std.specs.Prelude.{◌≡◌, [], ◌∷◌, ◌+◌, ◌*◌};
ghost use Rattle.std.proofs.lemmas.List.Edits.{sets};
ghost use Rattle.list_pairs.specs.Pairs.{kind_word};

// The kind of a gate, with its number in a list.
#[derive(Clone, Copy, Debug, PartialEq, Eq)]
pub enum Kind {
    And = 0,
    Xor = 1,
}

impl Kind {
    // Its word in a list.
    pub fn word(self) -> u32
        ensures { result ≡ kind_word self }
    {
        self as u32
    }
}

// Far past the end the place might be no usize, so that n is looked at first.
pub fn put_gate(out: &mut [u32], n: usize, kind: u32, left: u32, right: u32)
    ensures { out.new ≡ sets out.old (2 + 3 * n) (kind ∷ left ∷ right ∷ []) }
{
    if out.len() <= n {
        return;
    }
    let at = 2 + 3 * n;
    stores::put(out, at, kind);
    stores::put(out, at + 1, left);
    stores::put(out, at + 2, right);
}
