// Rewrite, of lists that are read: forward inference on the desk, then hide.
ghost use Rattle.std.specs.Prelude.{true, ◌≡◌};
ghost use Rattle.acts.specs.Mirror.Answering.{RewriteAnswers, InferAnswers, HideAnswers};

use buffers::Done;
use buffers::write::finish;
use desk::{Desk, Hypotheses, List};
use inference::Sources;
use inference::infer::{infer_all, weigh_all};
use refusal::Said;
use sequent::Opened;
use steps::Act;
use steps::flags::{change_all, differs};

// Hides what is to be hidden after the inference; "changed" if it reselected, or the sequent differs.
fn rewrite_hide(
    sequent: &Opened,
    desk: &Desk,
    again: bool,
    hide: &List,
    out: &mut [u8],
) -> Result<Done, Said>
    ensures { HideAnswers sequent.now desk.now again hide.now out.old out.new result }
{
    let inferred = desk.hypotheses();
    let view = change_all(inferred, Act::Hide, hide);
    let after = Hypotheses { view, ..inferred };
    let changed = again || differs(sequent.view, view, false);
    finish(after, sequent.goal(), changed, out)
}

// The sources are there; nothing is refused after 14.
fn rewrite_there(
    sequent: &Opened,
    j: Sources,
    inferred: &List,
    hide: &List,
    out: &mut [u8],
) -> Result<Done, Said>
    ensures { InferAnswers sequent.now j inferred.now hide.now out.old out.new result }
{
    let mut desk = Desk {
        bytes: [0; 60000],
        places: [0; 65],
        view: sequent.view,
    };
    desk.lay(sequent.hypotheses());
    let again = infer_all(&mut desk, j, inferred)?;
    rewrite_hide(sequent, &desk, again, hide, out)
}

// "if a source is absent, nothing changes"
pub fn rewrite_read(
    sequent: &Opened,
    sources: &List,
    inferred: &List,
    hide: &List,
    out: &mut [u8],
) -> Result<Done, Said>
    ensures { RewriteAnswers sequent.now sources.now inferred.now hide.now out.old out.new result }
{
    let before = sequent.hypotheses();
    let j = weigh_all(before, sources);
    if j.there {
        return rewrite_there(sequent, j, inferred, hide, out);
    }
    finish(before, sequent.goal(), false, out)
}
