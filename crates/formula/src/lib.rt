// Formulas: the node table, bytes, equality and skipping. Crate `reader` reads them.
#![tactic(auto)]

pub mod bytes;
pub mod equal;
pub mod skip;
pub mod table;

// The most bytes that a formula has, and so the most nodes.
pub const LONGEST: usize = 1024;

// The most levels that a formula has.
pub const LEVELS: usize = 32;

// What a formula is.
#[derive(Clone, Copy, PartialEq, Eq)]
pub enum Sort {
    Predicate,
    Expression,
}
