// The step of forward inference: sources weighed, and formulas inferred from them.
#![tactic(auto)]

pub mod infer;

pub use infer::Sources;
