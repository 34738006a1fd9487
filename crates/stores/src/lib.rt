// A store into a lent buffer.
#![tactic(auto)]

ghost use Rattle.std.specs.Prelude.{◌≡◌, set};

// An item is stored only where there is room for it, so that nothing here asks for room: a call judges its buffer before it writes, and what
// is only to be counted or looked at is stored into a spare of one item.
pub fn put<T: Copy>(out: &mut [T], at: usize, item: T)
    ensures { out.new ≡ set out.old at item }
{
    if at < out.len() {
        out[at] = item;
    }
}
