// The acts on hypotheses of document 01 (sequent.rs): open the sequent, read what is lent with it, act, finish. modify and
// rewrite read their lists line by line: one function for both would hand three lists on as a tuple, and be no plainer. The
// buffers stay loose parameters, as C lends them, and the four acts on a flag have names of their own, as in document 01 and in C.
#![tactic(auto)]

pub mod flags;
pub mod modifying;
pub mod rewriting;

ghost use Rattle.std.specs.Prelude.{◌≡◌, length};
ghost use Rattle.buffers.specs.Outcome.{answer_of, written};
ghost use Rattle.acts.specs.Acts as Acts;
ghost use Rattle.acts.specs.Outcomes.{flag_outcome, modify_outcome, forward_outcome, rewrite_outcome};

use buffers::Done;
use buffers::buffer::lent_list;
use flags::flag;
use modifying::modify_read;
use refusal::Said;
use rewriting::rewrite_read;
use sequent::file::open;
use steps::Act;

// "Select sets selected and clears hidden."
pub fn select(s: &[u8], b: &[u8], out: &mut [u8]) -> Result<Done, Said>
    ensures value { result ≡ answer_of (flag_outcome Acts.select s.now b.now (length out.old)) }
    ensures out_after { out.new ≡ written (flag_outcome Acts.select s.now b.now (length out.old)) out.old }
{
    flag(s, b, Act::Select, out)
}

// "Deselect clears selected."
pub fn deselect(s: &[u8], b: &[u8], out: &mut [u8]) -> Result<Done, Said>
    ensures value { result ≡ answer_of (flag_outcome Acts.deselect s.now b.now (length out.old)) }
    ensures out_after { out.new ≡ written (flag_outcome Acts.deselect s.now b.now (length out.old)) out.old }
{
    flag(s, b, Act::Deselect, out)
}

// "Hide sets hidden and clears selected."
pub fn hide(s: &[u8], b: &[u8], out: &mut [u8]) -> Result<Done, Said>
    ensures value { result ≡ answer_of (flag_outcome Acts.hide s.now b.now (length out.old)) }
    ensures out_after { out.new ≡ written (flag_outcome Acts.hide s.now b.now (length out.old)) out.old }
{
    flag(s, b, Act::Hide, out)
}

// "Show clears hidden."
pub fn show(s: &[u8], b: &[u8], out: &mut [u8]) -> Result<Done, Said>
    ensures value { result ≡ answer_of (flag_outcome Acts.show s.now b.now (length out.old)) }
    ensures out_after { out.new ≡ written (flag_outcome Acts.show s.now b.now (length out.old)) out.old }
{
    flag(s, b, Act::Show, out)
}

// "Modify takes formulas to add, those of them left unselected, and an optional goal."
pub fn modify(
    s: &[u8],
    added: &[u8],
    unselected: &[u8],
    goal: &[u8],
    out: &mut [u8],
) -> Result<Done, Said>
    ensures value { result ≡ answer_of (modify_outcome s.now added.now unselected.now goal.now (length out.old)) }
    ensures out_after { out.new ≡ written (modify_outcome s.now added.now unselected.now goal.now (length out.old)) out.old }
{
    let sequent = open(s)?;
    let types = sequent.types();
    let added = lent_list(added, types, 64)?;
    let unselected = lent_list(unselected, types, 64)?;
    let goal = lent_list(goal, types, 1)?;
    modify_read(&sequent, &added, &unselected, &goal, out)
}

// "Forward inference takes sources and inferred formulas." It is a rewrite with a list of none to hide.
pub fn forward(s: &[u8], sources: &[u8], inferred: &[u8], out: &mut [u8]) -> Result<Done, Said>
    ensures value { result ≡ answer_of (forward_outcome s.now sources.now inferred.now (length out.old)) }
    ensures out_after { out.new ≡ written (forward_outcome s.now sources.now inferred.now (length out.old)) out.old }
{
    rewrite(s, sources, inferred, &[0], out)
}

// "Rewrite is forward inference, then hide, unless a source was absent."
pub fn rewrite(
    s: &[u8],
    sources: &[u8],
    inferred: &[u8],
    hide: &[u8],
    out: &mut [u8],
) -> Result<Done, Said>
    ensures value { result ≡ answer_of (rewrite_outcome s.now sources.now inferred.now hide.now (length out.old)) }
    ensures out_after { out.new ≡ written (rewrite_outcome s.now sources.now inferred.now hide.now (length out.old)) out.old }
{
    let sequent = open(s)?;
    let types = sequent.types();
    let sources = lent_list(sources, types, 64)?;
    let inferred = lent_list(inferred, types, 64)?;
    let hide = lent_list(hide, types, 64)?;
    rewrite_read(&sequent, &sources, &inferred, &hide, out)
}
