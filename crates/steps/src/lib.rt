// Steps that acts are made of: flags changed, and formulas added, one or those of a list.
#![tactic(auto)]

pub mod add;
pub mod flags;

pub use flags::Act;
