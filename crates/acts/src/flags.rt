// Select, deselect, hide and show: one flag found and set.
ghost use Rattle.std.specs.Prelude.{◌≡◌, length};
ghost use Rattle.buffers.specs.Outcome.{answer_of, written};
ghost use Rattle.steps.specs.Mirror.Steps.{flag_by};
ghost use Rattle.acts.specs.Outcomes.{flag_outcome};

use buffers::Done;
use buffers::buffer::lent_predicate;
use buffers::write::finish;
use desk::Hypotheses;
use refusal::Said;
use sequent::file::open;
use steps::Act;
use steps::flags::{change, differs};

// The sequent is read before the formula. Only flags change, so nothing is laid out anew.
pub fn flag(s: &[u8], b: &[u8], k: Act, out: &mut [u8]) -> Result<Done, Said>
    ensures value { result ≡ answer_of (flag_outcome (flag_by k) s.now b.now (length out.old)) }
    ensures out_after { out.new ≡ written (flag_outcome (flag_by k) s.now b.now (length out.old)) out.old }
{
    let sequent = open(s)?;
    lent_predicate(b, sequent.types())?;
    let before = sequent.hypotheses();
    let view = change(before, k, b);
    let after = Hypotheses { view, ..before };
    let changed = differs(before.view, view, false);
    finish(after, sequent.goal(), changed, out)
}
