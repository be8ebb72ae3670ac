// Formulas one after another in a lent buffer.
ghost use Rattle.std.specs.Prelude.{ℕ, ◌+◌, ◌<◌, ◌≤◌, length, slice_index};

#[derive(Clone, Copy)]
pub struct List<'a> {
    pub bytes: &'a [u8],
    // Where each formula starts, and where the last one ends; an array and a count, since there is no heap.
    pub starts: [usize; 65],
    pub count: usize,
    ghost few: { count ≤ 64 },
    ghost in_order: { (k : ℕ) → k < count → slice_index starts k ≤ slice_index starts (k + 1) },
    ghost inside: { (k : ℕ) → k < count → slice_index starts (k + 1) ≤ length bytes.now },
}

impl<'a> List<'a> {
    ghost use Rattle.std.specs.Prelude.{◌≡◌};
    ghost use Rattle.desk.specs.Mirror.Moves.{formula_at};

    pub fn formula(&self, i: usize) -> &'a [u8]
        requires { i < self.now.count }
        ensures { result.now ≡ formula_at self.now i }
    {
        &self.bytes[self.starts[i]..self.starts[i + 1]]
    }
}
