// A table and a list of its width that have passed all but the comparing of outputs.
ghost use Rattle.std.specs.Prelude.{◌≡◌};
ghost use Rattle.equivalence.specs.Inner.{Ready};

use runner::GateList;
use table::Table;

#[derive(Clone, Copy)]
pub(crate) struct Comparison<'a> {
    pub(crate) table: Table<'a>,
    pub(crate) list: GateList<'a>,
    ghost same: { table.width ≡ list.width },
    ghost ready: { Ready list.width list.words.now },
}
