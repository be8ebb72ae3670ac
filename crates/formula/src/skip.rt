// Skipping a formula, and the type of a node by its code.
ghost use Rattle.std.specs.Prelude.{◌≡◌, ℕ};
ghost use Rattle.formula.specs.Mirror.Bytes.{type_at, skip_end};

use super::LONGEST;
use super::bytes::small_at;
use super::table::Row;

// The type of the node at i, by its code.
#[tactic(auto, unfolding(crate::specs::Mirror::Bytes::type_at, crate::specs::Mirror::Bytes::byte_at))]
pub fn type_at(s: &[u8], types: &[u8], i: usize) -> usize
    ensures { result ≡ type_at s.now types.now i }
{
    let Some(&code) = s.get(i) else {
        return 0;
    };
    let row = Row::of(code);
    row.type_by(types, row.own_byte(s, i + 1))
}

// The end of the formula that starts at `at`.
#[tactic(auto, using(crate::proofs::SkipLaws::skips))]
pub fn skip(s: &[u8], at: usize) -> usize
    ensures { result ≡ skip_end s.now at }
{
    let mut p = at;
    let mut left = 1usize;
    for _ in 0..LONGEST {
        if left == 0 || s.len() <= p {
            return p;
        }
        let row = Row::of(small_at(s, p));
        let own = row.own_bytes();
        if s.len() - p <= own {
            return p;
        }
        left = left - 1 + row.count_of(row.own_byte(s, p + 1));
        p += own + 1;
    }
    p
}
