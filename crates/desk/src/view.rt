// What a sequent's bytes do not show at once: how many identifiers and hypotheses there are, where the hypotheses end, and the
// flags as masks over the 64 hypotheses. It has no ghost field: what takes a view answers for any, as its clause says.
use super::mask::{first_bits, has_bit, put_bit};

#[derive(Clone, Copy)]
pub struct View {
    pub identifiers: usize,
    pub hypotheses: usize,
    pub end: usize,
    pub hidden: u64,
    pub selected: u64,
}

impl View {
    ghost use Rattle.std.specs.Prelude.{◌≡◌, ◌+◌, ◌<◌, ◌≤◌};
    ghost use Rattle.desk.specs.Mirror.Masks.{bit_of, with_flag, flag_byte_of, visible_mask};
    ghost use Rattle.desk.specs.Mirror.Bytes.{grown};

    // Whether hypothesis i is hidden.
    #[tactic(auto, using(crate::proofs::MaskLaws::bit_past))]
    pub fn is_hidden(self, i: usize) -> bool
        ensures { result ≡ bit_of self.hidden i }
    {
        i < 64 && has_bit(self.hidden, i)
    }

    // Whether hypothesis i is selected.
    #[tactic(auto, using(crate::proofs::MaskLaws::bit_past))]
    pub fn is_selected(self, i: usize) -> bool
        ensures { result ≡ bit_of self.selected i }
    {
        i < 64 && has_bit(self.selected, i)
    }

    // The view with a new flag for hypothesis i; a hidden one is not selected. Two tests and no enum of three flags: the clause
    // says what comes of all four.
    #[tactic(auto, unfolding(crate::specs::Mirror::Masks::with_flag))]
    pub fn with_flag(self, i: usize, hidden: bool, selected: bool) -> View
        requires { i < 64 }
        ensures { result ≡ with_flag self i hidden selected }
    {
        View {
            hidden: put_bit(self.hidden, i, hidden),
            selected: put_bit(self.selected, i, !hidden && selected),
            ..self
        }
    }

    // The view with one more hypothesis, of n bytes, for which there is room; a file that is read asks for no room.
    #[tactic(auto, unfolding(crate::specs::Mirror::Bytes::grown, crate::specs::Mirror::Masks::with_flag))]
    pub(crate) fn grown(self, n: usize, hidden: bool, selected: bool) -> View
        requires hypotheses_bound { self.hypotheses < 64 }
        requires n_bound { self.end + 1 + n ≤ 60000 }
        ensures { result ≡ grown self n hidden selected }
    {
        View {
            hypotheses: self.hypotheses + 1,
            end: self.end + 1 + n,
            ..self.with_flag(self.hypotheses, hidden, selected)
        }
    }

    // The flag byte of hypothesis i: 0 plain, 1 hidden, 2 selected.
    #[tactic(auto, using(crate::proofs::MaskLaws::bit_past), unfolding(crate::specs::Mirror::Masks::flag_byte_of))]
    pub fn flag_byte(self, i: usize) -> u8
        ensures { result ≡ flag_byte_of self i }
    {
        match (self.is_hidden(i), self.is_selected(i)) {
            (true, _) => 1,
            (false, true) => 2,
            (false, false) => 0,
        }
    }

    // The mask of the hypotheses that are not hidden.
    #[tactic(auto, unfolding(crate::specs::Mirror::Masks::visible_mask))]
    pub fn visible(self) -> u64
        ensures { result ≡ visible_mask self.hypotheses self.hidden }
    {
        if 64 < self.hypotheses {
            return 0;
        }
        first_bits(self.hypotheses).saturating_sub(self.hidden)
    }
}
