// Equality of two formulas, by their bytes.
ghost use Rattle.std.specs.Prelude.{◌≡◌};
ghost use Rattle.formula.specs.Equal.{same_bytes};
ghost use Rattle.formula.specs.Mirror.Ranges.{same_range};

// Whether x[a..e] is y[b..f]; where either is no range, it is not. The clause promises this of any numbers, so they are no
// slices.
#[tactic(auto, using(crate::proofs::RangeLaws::ranges_compared), unfolding(crate::specs::Mirror::Ranges::same_range))]
pub fn same_range(x: &[u8], a: usize, e: usize, y: &[u8], b: usize, f: usize) -> bool
    ensures { result ≡ same_range x.now a e y.now b f }
{
    match (x.get(a..e), y.get(b..f)) {
        (Some(p), Some(q)) => p == q,
        _ => false,
    }
}

// How many bytes are looked at one by one.
const FIRST: usize = 8;

// Whether two formulas are the same. Small ones that differ do so in their first bytes: to look there first is faster, by a
// fifth where a sequent has many, than `==` alone, which compares by groups.
#[inline]
#[tactic(auto, using(crate::proofs::RangeLaws::same_tests))]
pub fn same(x: &[u8], y: &[u8]) -> bool
    ensures { result ≡ same_bytes x.now y.now }
{
    if x.len() != y.len() {
        return false;
    }
    for i in 0..x.len().min(FIRST) {
        if x[i] != y[i] {
            return false;
        }
    }
    x == y
}
