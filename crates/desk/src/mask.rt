// Masks over the 64 hypotheses: bit i for hypothesis i. That i is below 64 is asked of the caller and is no type of its own:
// positions are counted by loops and found by `find`, and a type would wrap and unwrap each of them.
ghost use Rattle.std.specs.Prelude.{◌≡◌, ◌-◌, ◌^◌, ◌<◌, ◌≤◌};
ghost use Rattle.desk.specs.Mirror.Masks.{bit_of, with_bit, without_bit, put_bit};

// Whether hypothesis i is in the mask.
#[tactic(auto, unfolding(crate::specs::Mirror::Masks::bit_of))]
pub fn has_bit(m: u64, i: usize) -> bool
    requires { i < 64 }
    ensures { result ≡ bit_of m i }
{
    (m >> i) & 1 == 1
}

// The mask with hypothesis i.
#[tactic(auto, using(crate::proofs::MaskLaws::masks))]
pub fn with_bit(m: u64, i: usize) -> u64
    requires { i < 64 }
    ensures { result ≡ with_bit m i }
{
    m | (1u64 << i)
}

// The mask without hypothesis i.
#[tactic(auto, using(crate::proofs::MaskLaws::masks))]
pub fn without_bit(m: u64, i: usize) -> u64
    requires { i < 64 }
    ensures { result ≡ without_bit m i }
{
    m & !(1u64 << i)
}

// The mask with hypothesis i if `on`, else without it.
#[tactic(auto, unfolding(crate::specs::Mirror::Masks::put_bit))]
pub(crate) fn put_bit(m: u64, i: usize, on: bool) -> u64
    requires { i < 64 }
    ensures { result ≡ put_bit m i on }
{
    if on {
        with_bit(m, i)
    } else {
        without_bit(m, i)
    }
}

// The mask of the first n hypotheses.
pub(crate) fn first_bits(n: usize) -> u64
    requires { n ≤ 64 }
    ensures { result ≡ 2 ^ n - 1 }
{
    if 63 < n {
        return u64::MAX;
    }
    (1u64 << n) - 1
}
