// Stripping ¬.
ghost use Rattle.std.specs.Prelude.{◌≡◌};
ghost use Rattle.keys.specs.Mirror.Stripping.{strip_at};

use formula::LEVELS;

const NOT: u8 = 0x03;

// Where a predicate without its ¬ starts, and whether it is true.
#[derive(Clone, Copy, PartialEq, Eq)]
pub struct Bare {
    pub at: usize,
    pub value: bool,
}

// Strips all ¬, flipping each time: 32 levels have at most 31.
#[tactic(auto, using(crate::proofs::Laws::strips), unfolding(crate::specs::Mirror::Stripping::strip_at))]
pub fn strip_at(s: &[u8], at: usize, starts: bool) -> Bare
    ensures { result ≡ strip_at s.now at starts }
{
    let mut p = at;
    let mut value = starts;
    for _ in 0..LEVELS {
        let Some(&NOT) = s.get(p) else {
            return Bare { at: p, value };
        };
        p += 1;
        value = !value;
    }
    Bare { at: p, value }
}
