// The columns of a table as the folds read them.
ghost use Rattle.std.specs.Prelude.{◌+◌, ◌≤◌, length};
ghost use Rattle.limbs.specs.Limbs.{carried_limbs};
ghost use Rattle.list_folds.specs.Columns.{is_set, Successor, Readable};

// The limbs of the columns, and for each limb the first one of those after it.
#[derive(Clone, Copy)]
pub(crate) struct Columns<'a> {
    pub width: usize,
    pub limbs: &'a [u64],
    pub firsts: &'a [u32],
    ghost readable: { Readable width limbs.now firsts.now },
}

impl<'a> Columns<'a> {
    // The first one from bit `from` on of the column that starts at limb `at`, or `to`.
    pub(crate) fn next_one(&self, at: usize, from: usize, to: usize) -> usize
        requires { (from ≤ to) × (to ≤ self.now.width) × (at + carried_limbs ≤ length self.now.limbs.now) }
        ensures { Successor (is_set self.now.limbs.now at) to from result }
    {
        let k = at + from / 64;
        let left = self.limbs[k] >> (from % 64);
        if left != 0 {
            return to.min(from + u64::trailing_zeros(left) as usize);
        }
        to.min(self.firsts[k] as usize - 64 * at)
    }
}
