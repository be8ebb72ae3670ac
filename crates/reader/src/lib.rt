// The formula reader: of any bytes a formula's end, or 1, 7, 8 or 9 with its place.
#![tactic(auto)]

pub mod node;
pub mod reader;
pub mod shape;
pub mod walk;

ghost use Rattle.std.specs.Prelude.{◌≡◌};
ghost use Rattle.formula.specs.Formula.{said};

pub use node::Seen;
pub use reader::Got;
use refusal::{Refusal, Said};
pub use shape::Ends;
pub use walk::Walk;

// A formula's end, or what is said of its refusal.
#[tactic(auto, unfolding(formula::specs::Formula::said))]
pub fn outcome_of(len: usize, r: Result<usize, Refusal>) -> Result<usize, Said>
    ensures { result ≡ said len r }
{
    r.map_err(|x| x.said_in(len))
}
