// What is lent with an act: formulas and lists that are read, and the buffer into which a sequent is written.
#![tactic(auto)]

pub mod buffer;
pub mod write;

// An act done: whether it answers "changed", and how many bytes it wrote.
#[derive(Clone, Copy, Debug, PartialEq, Eq)]
pub struct Done {
    pub changed: bool,
    pub len: usize,
}
