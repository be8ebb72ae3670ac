// Hypotheses as they stand in some bytes, an opened file's or the desk's.
use super::View;
use formula::equal::same;

#[derive(Clone, Copy)]
pub struct Hypotheses<'a> {
    pub bytes: &'a [u8],
    // Where the flag byte of each hypothesis stands, and where the last one ends.
    pub places: &'a [usize; 65],
    pub view: View,
}

impl<'a> Hypotheses<'a> {
    ghost use Rattle.std.specs.Prelude.{◌≡◌, ◌+◌, ◌<◌, get_or};
    ghost use Rattle.desk.specs.Mirror.Bytes.{has_formula, find_in};

    // Whether hypothesis i has this formula, after its flag byte.
    #[tactic(auto, unfolding(crate::specs::Mirror::Bytes::has_formula))]
    fn has_formula(self, i: usize, formula: &[u8]) -> bool
        requires { i < 64 }
        ensures { result ≡ has_formula self.entry.bytes.now (get_or self.entry.places.now i 0) (get_or self.entry.places.now (i + 1) 0) formula.now }
    {
        match self.bytes.get(self.places[i]..self.places[i + 1]) {
            Some([_, found @ ..]) => same(found, formula),
            _ => false,
        }
    }

    // The first hypothesis that is this formula.
    #[tactic(auto, using(crate::proofs::DeskLaws::finds))]
    pub fn find(self, formula: &[u8]) -> Option<usize>
        ensures { result ≡ find_in self.entry formula.now }
    {
        if 64 < self.view.hypotheses {
            return None;
        }
        for i in 0..self.view.hypotheses {
            if self.has_formula(i, formula) {
                return Some(i);
            }
        }
        None
    }
}
