// Document 01's keys: stripping ¬, the lists as one table, and whether a row's key is the predicate asked.
#![tactic(auto)]

pub mod facts;
pub mod row;
pub mod rows;
pub mod strip;
pub mod table;

use formula::equal::same_range;

// Some bytes of a buffer. No slice: what the public functions of crate `variations` promise holds of any part, also of one that
// is out of the buffer's bounds or ends before it starts.
#[derive(Clone, Copy, PartialEq, Eq)]
pub struct Part {
    pub at: usize,
    pub end: usize,
}

impl Part {
    ghost use Rattle.std.specs.Prelude.{◌≡◌, ℕ, ◌-◌};
    ghost use Rattle.formula.specs.Mirror.Ranges.{same_range};

    // How many bytes it has.
    pub(crate) fn length(self) -> usize
        ensures { result ≡ self.end - self.at }
    {
        self.end.saturating_sub(self.at)
    }

    // Whether these bytes of s are those of another part of t; `==` of parts compares their places.
    pub(crate) fn is(self, s: &[u8], t: &[u8], other: Part) -> bool
        ensures { result ≡ same_range s.now self.at self.end t.now other.at other.end }
    {
        same_range(s, self.at, self.end, t, other.at, other.end)
    }
}
