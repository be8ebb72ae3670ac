// Whether a row's key is the predicate asked.
ghost use Rattle.std.specs.Prelude.{◌≡◌};
ghost use Rattle.formula.specs.Mirror.Ranges.{same_range};
ghost use Rattle.keys.specs.Mirror.Constants.{constants, zero_part};

use super::Part;
use super::facts::Facts;
use super::row::{Row, Side};

// The bytes of the literal 0, of ℕ and of ℕ1.
static CONSTANTS: [u8; 11] = [0x22, 0, 0, 0, 0, 0, 0, 0, 0, 0x24, 0x25];

// The sides of a relation, ≥ and > turned round.
#[derive(Clone, Copy, PartialEq, Eq)]
pub struct Sides {
    pub left: Part,
    pub right: Part,
}

// A source: its rows in the table, where it stands without its ¬, its sides, and what its conditions ask. The buffer is not in it:
// so each promise of a source is one equation, while two borrowed buffers of equal bytes are not equal.
#[derive(Clone, Copy, PartialEq, Eq)]
pub struct Source {
    pub first: usize,
    pub count: usize,
    pub whole: Part,
    pub sides: Sides,
    pub facts: Facts,
}

// A predicate to be looked for, and its code.
#[derive(Clone, Copy, PartialEq, Eq)]
pub struct Asked {
    pub code: usize,
    pub whole: Part,
}

impl Source {
    ghost use Rattle.std.specs.Prelude.{◌≡◌};
    ghost use Rattle.formula.specs.Mirror.PackedTable.{field};
    ghost use Rattle.keys.specs.Mirror.PackedKeys.{left_column, right_column};
    ghost use Rattle.keys.specs.Mirror.RowTests.{side_by, side_bytes, side_part, sides_are, row_is};

    // Where a side of a key stands: in the source's buffer, or among the constants.
    #[tactic(auto, unfolding(crate::specs::Mirror::RowTests::side_bytes, crate::specs::Mirror::RowTests::side_part, crate::specs::Mirror::Constants::constants))]
    fn side<'a>(self, s: &'a [u8], side: Side) -> (&'a [u8], Part)
        ensures bytes { result.0.now ≡ side_bytes s.now side }
        ensures part { result.1 ≡ side_part self side }
    {
        match side {
            Side::Left => (s, self.sides.left),
            Side::Right => (s, self.sides.right),
            Side::Zero => (&CONSTANTS, Part { at: 0, end: 9 }),
            Side::Nat => (&CONSTANTS, Part { at: 9, end: 10 }),
            Side::Nat1 => (&CONSTANTS, Part { at: 10, end: 11 }),
        }
    }

    // Whether the operands of the predicate at y are the row's left side and then its right one.
    #[tactic(auto, unfolding(crate::specs::Mirror::RowTests::sides_are))]
    fn has_sides(self, s: &[u8], row: Row, t: &[u8], y: Part) -> bool
        ensures { result ≡ sides_are s.now self (side_by (field row.0 left_column)) (side_by (field row.0 right_column)) t.now y }
    {
        let (left, a) = self.side(s, row.left());
        let (right, b) = self.side(s, row.right());
        // first, since the places below may be none in a shorter predicate
        if y.length() <= a.length() {
            return false;
        }
        let from = y.at + 1;
        let mid = from + a.length();
        a.is(left, t, Part { at: from, end: mid }) && b.is(right, t, Part { at: mid, ..y })
    }

    // Whether the row has the predicate asked for its key; a row without a relation has the source itself.
    #[tactic(auto, unfolding(crate::specs::Mirror::RowTests::row_is))]
    pub fn has_key(self, s: &[u8], row: Row, t: &[u8], y: Asked) -> bool
        ensures { result ≡ row_is s.now self row.0 t.now y }
    {
        let relation = row.relation();
        if relation == 0 {
            return self.whole.is(s, t, y.whole);
        }
        relation == y.code
            && self.facts.meets(row.condition())
            && self.has_sides(s, row, t, y.whole)
    }
}

// Whether the part a of s is the literal 0.
#[tactic(auto, unfolding(crate::specs::Mirror::Constants::constants))]
pub fn is_zero(s: &[u8], a: Part) -> bool
    ensures { result ≡ same_range constants zero_part.at zero_part.end s.now a.at a.end }
{
    Part { at: 0, end: 9 }.is(&CONSTANTS, s, a)
}
