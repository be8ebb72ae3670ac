// A byte of a formula, 0 past its end: the clauses promise this 0, so it is no Option; and bytes copied.
ghost use Rattle.std.specs.Prelude.{◌≡◌, ℕ, ◌<◌, length};
ghost use Rattle.formula.specs.Mirror.Bytes.{byte_at};

// The byte at i as a number, or 0 past the end.
pub fn byte_at(s: &[u8], i: usize) -> usize
    ensures value { result ≡ byte_at s.now i }
    ensures upper_bound { result < 256 }
{
    usize::from(small_at(s, i))
}

// The same, as a byte.
#[tactic(auto, unfolding(crate::specs::Mirror::Bytes::byte_at))]
pub fn small_at(s: &[u8], i: usize) -> u8
    ensures { result ≡ byte_at s.now i }
{
    s.get(i).copied().unwrap_or(0)
}

// Copies bytes, as `copy_from_slice` does: with that the archive for C would need memmove from its caller.
pub fn copy(from: &[u8], to: &mut [u8])
    requires { length to.old ≡ length from.now }
    ensures len { length to.new ≡ length to.old }
    ensures after { to.new ≡ from.now }
{
    for i in 0..to.len() {
        to[i] = from[i];
    }
}
