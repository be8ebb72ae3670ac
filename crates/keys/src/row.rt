// A row of the table: one number with a byte for each of its columns, as in the node table, so that a line of the one fixed
// table reads like an entry of document 01's lists.
ghost use Rattle.std.specs.Prelude.{◌≡◌};
ghost use Rattle.keys.specs.Mirror.RowTests.{side_by, condition_by};

use formula::table::field_of;

// The bit where each column starts.
pub const RELATION: u64 = 0;

pub const LEFT: u64 = 8;

pub const RIGHT: u64 = 16;

pub const CONDITION: u64 = 24;

pub const VALUE: u64 = 32;

// Those of a group: where its rows start, and how many they are.
pub const FIRST: u64 = 0;

pub const COUNT: u64 = 8;

// The sides of keys: those of the source, the literal 0, ℕ and ℕ1.
#[derive(Clone, Copy, PartialEq, Eq)]
pub enum Side {
    Left,
    Right,
    Zero,
    Nat,
    Nat1,
}

// When a row is meant: always, where = is of integers, or of sets, where 0 is left, or right, where a positive literal is left, or a negative one.
#[derive(Clone, Copy, PartialEq, Eq)]
pub enum Condition {
    Always,
    Integers,
    Sets,
    ZeroLeft,
    ZeroRight,
    PositiveLeft,
    NegativeLeft,
}

// The side with this number. No From: it is a column of this table alone, and any other number is the last side.
#[tactic(auto, unfolding(crate::specs::Mirror::RowTests::side_by))]
fn side_by(n: usize) -> Side
    ensures { result ≡ side_by n }
{
    match n {
        0 => Side::Left,
        1 => Side::Right,
        2 => Side::Zero,
        3 => Side::Nat,
        _ => Side::Nat1,
    }
}

// The condition with this number, likewise.
#[tactic(auto, unfolding(crate::specs::Mirror::RowTests::condition_by))]
fn condition_by(n: usize) -> Condition
    ensures { result ≡ condition_by n }
{
    match n {
        0 => Condition::Always,
        1 => Condition::Integers,
        2 => Condition::Sets,
        3 => Condition::ZeroLeft,
        4 => Condition::ZeroRight,
        5 => Condition::PositiveLeft,
        _ => Condition::NegativeLeft,
    }
}

#[derive(Clone, Copy, PartialEq, Eq)]
pub struct Row(pub u64);

impl Row {
    ghost use Rattle.std.specs.Prelude.{eqb};
    ghost use Rattle.formula.specs.Mirror.PackedTable.{field};
    ghost use Rattle.keys.specs.Mirror.PackedKeys.{relation_column, left_column, right_column, condition_column, value_column, first_column, count_column};

    // The code of the key's relation; 0 where the source itself is the key.
    pub(crate) fn relation(self) -> usize
        ensures { result ≡ field self.0 relation_column }
    {
        field_of(self.0, RELATION)
    }

    pub(crate) fn left(self) -> Side
        ensures { result ≡ side_by (field self.0 left_column) }
    {
        side_by(field_of(self.0, LEFT))
    }

    pub(crate) fn right(self) -> Side
        ensures { result ≡ side_by (field self.0 right_column) }
    {
        side_by(field_of(self.0, RIGHT))
    }

    pub(crate) fn condition(self) -> Condition
        ensures { result ≡ condition_by (field self.0 condition_column) }
    {
        condition_by(field_of(self.0, CONDITION))
    }

    // The truth value that stands for the key.
    pub fn value(self) -> bool
        ensures { result ≡ eqb (field self.0 value_column) 1 }
    {
        field_of(self.0, VALUE) == 1
    }

    // Where the group's rows start.
    pub fn first(self) -> usize
        ensures { result ≡ field self.0 first_column }
    {
        field_of(self.0, FIRST)
    }

    // How many rows the group has.
    pub fn count(self) -> usize
        ensures { result ≡ field self.0 count_column }
    {
        field_of(self.0, COUNT)
    }
}
