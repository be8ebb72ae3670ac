// What the conditions of rows ask of a source's sides.
use super::row::Condition;
use formula::table::{INTEGER, SET};

// Which literal a side is.
#[derive(Clone, Copy, PartialEq, Eq)]
pub enum Literal {
    Zero,
    Positive,
    Negative,
}

// The kind of the right side, as a bit of the node table, and which literals the sides are, if they are.
#[derive(Clone, Copy, PartialEq, Eq)]
pub struct Facts {
    pub kind: usize,
    pub left: Option<Literal>,
    pub right: Option<Literal>,
}

impl Facts {
    ghost use Rattle.std.specs.Prelude.{◌≡◌};
    ghost use Rattle.keys.specs.Mirror.RowTests.{meets_by};

    // Whether the condition of a row is met.
    #[tactic(auto, unfolding(crate::specs::Mirror::RowTests::meets_by))]
    pub(crate) fn meets(self, condition: Condition) -> bool
        ensures { result ≡ meets_by self condition }
    {
        match condition {
            Condition::Always => true,
            Condition::Integers => self.kind == INTEGER,
            Condition::Sets => self.kind == SET,
            Condition::ZeroLeft => matches!(self.left, Some(Literal::Zero)),
            Condition::ZeroRight => matches!(self.right, Some(Literal::Zero)),
            Condition::PositiveLeft => matches!(self.left, Some(Literal::Positive)),
            Condition::NegativeLeft => matches!(self.left, Some(Literal::Negative)),
        }
    }
}
