// Rules 4 and 5 of the check: row 0, and row d against row m-d.
ghost use Rattle.std.specs.Prelude.{◌≡◌, [], ◌∷◌, ◌-◌, ◌<◌, ◌≤◌, eqb, IfOk};
ghost use Rattle.gf2.specs.Sums.{every};
ghost use Rattle.gf2.specs.Coordinates.{coord};
ghost use Rattle.gf2.specs.Operands.{max_width, bytes_for, IsOperand, carried_by, same};
ghost use Rattle.gf2.specs.Tables.{basis};
ghost use Rattle.limbs.specs.Limbs.{limb_coord};
ghost use Rattle.judging.specs.Causes.{judged, verdict_of};
ghost use Rattle.judging.specs.FaultTable.{row_zero_wrong, row_pair_causes, rule_causes};
ghost use Rattle.gf2.specs.Check.{Symmetric};
ghost use Rattle.table.specs.Inner.{ClearLimbs, mirrors};
ghost use Rattle.table.specs.Judgements.{symmetry_verdict};

use crate::shaped::Table;
use judging::Fault;

// Compared as limbs: bytes just stored limb by limb are read the same way.
pub(crate) fn same_bytes(x: [u8; limbs::BYTES], y: [u8; limbs::BYTES]) -> bool
    ensures { result ≡ same x y }
{
    let p = limbs::to_limbs(x);
    let q = limbs::to_limbs(y);
    let mut apart: u64 = 0;
    for w in 0..limbs::LIMBS {
        apart |= p[w] ^ q[w];
    }
    apart == 0
}

// The bytes of the basis operand whose only coordinate is k, in the first byte.
fn basis_bytes(width: usize, k: usize) -> [u8; limbs::BYTES]
    requires { (k < 8) × (k < width) × (width ≤ max_width) }
    ensures { result ≡ carried_by (basis width k) }
{
    let mut out = [0u8; limbs::BYTES];
    out[0] = 1u8 << k;
    out
}

// Whether limbs have the coordinates of an operand of W bytes. Each limb is read by itself, as it was stored.
fn agrees(x: &[u64; limbs::LIMBS], s: &[u8], m: usize) -> bool
    requires { (m ≤ max_width) × (IsOperand (bytes_for m) m s.now) × ClearLimbs m x.now }
    ensures { result ≡ every m (λ i. eqb (limb_coord x.now i) (coord s.now i)) }
{
    for w in 0..limbs::LIMBS {
        if limbs::ends_at(w, m) {
            return true;
        }
        if x[w] != limbs::carried_limb(s, w) {
            return false;
        }
    }
    true
}

impl<'a> Table<'a> {
    fn judge_row_zero(&self) -> Result<(), Fault>
        ensures { result ≡ judged (row_zero_wrong self.now.width self.now.bytes.now ∷ []) }
    {
        if same_bytes(self.carried_row(0), basis_bytes(self.width, 1)) {
            Ok(())
        } else {
            Err(Fault::RowZero)
        }
    }

    // Whether row d is row m-d turned d places.
    fn mirrored(&self, d: usize) -> bool
        requires { (1 ≤ d) × (d < self.now.width) }
        ensures { result ≡ mirrors self.now.width self.now.bytes.now d }
    {
        let other = limbs::slice_limbs(self.row(self.width - d));
        let turned = turns::rolled_limbs(other, self.width, d);
        agrees(&turned, self.row(d), self.width)
    }

    // Rows d and m-d are looked at once: if one is the other turned, so is the other.
    fn judge_row_pairs(&self) -> Result<(), Fault>
        ensures { result ≡ judged (row_pair_causes self.now.width self.now.bytes.now) }
    {
        for d in 1..=self.width / 2 {
            if !self.mirrored(d) {
                return Err(Fault::RowPair(d));
            }
        }
        Ok(())
    }

    // 4 and 5, which the check, the reduced product and the gate lists have in common.
    pub fn judge_rules(&self) -> Result<(), Fault>
        ensures { result ≡ judged (rule_causes self.now.width self.now.bytes.now) }
    {
        self.judge_row_zero()?;
        self.judge_row_pairs()
    }
}

// A table that keeps rules 4 and 5.
#[derive(Clone, Copy)]
pub struct SymmetricTable<'a> {
    pub(crate) table: Table<'a>,
    ghost symmetric: { Symmetric table.width table.bytes.now },
}

impl<'a> SymmetricTable<'a> {
    // 1 to 5 are judged.
    pub fn new(width: usize, bytes: &'a [u8]) -> Result<SymmetricTable<'a>, Fault>
        ensures verdict { verdict_of result ≡ symmetry_verdict width bytes.now }
        ensures same { IfOk result (λ s. (s.table.width ≡ width) × (s.table.bytes.now ≡ bytes.now)) }
    {
        let table = Table::new(width, bytes)?;
        table.judge_rules()?;
        Ok(SymmetricTable { table })
    }

    pub fn table(&self) -> Table<'a>
        ensures { result ≡ self.now.table }
    {
        self.table
    }
}
