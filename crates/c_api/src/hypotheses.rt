// The acts on a sequent, for C: each writes the resulting sequent into `out`. C calls each by its name and takes numbers through
// variables that it lends, so the seven are alike and have loose parameters.
ghost use Rattle.std.specs.Prelude.{◌≡◌, length};
ghost use Rattle.acts.specs.Acts as Acts;
ghost use Rattle.acts.specs.Outcomes.{flag_outcome, modify_outcome, forward_outcome, rewrite_outcome};
ghost use Rattle.c_api.specs.Sequent.{bit, act, act_told, Tells};

use super::Act;
use buffers::Done;
use refusal::Said;

// What is told of an act done; what does not apply keeps its value.
fn told_of(r: Result<Done, Said>, old: Act) -> Act
    ensures { result ≡ act_told r old }
{
    match r {
        Ok(d) => Act {
            answer: 0,
            changed: usize::from(d.changed),
            size: d.len,
            ..old
        },
        Err(z) => Act {
            answer: z.number,
            place: z.place,
            ..old
        },
    }
}

// The same, told.
fn tell(r: Result<Done, Said>, changed: &mut usize, size: &mut usize, place: &mut usize) -> usize
    ensures { act result changed.new size.new place.new ≡ act_told r (act 0 changed.old size.old place.old) }
{
    let t = told_of(
        r,
        Act {
            answer: 0,
            changed: *changed,
            size: *size,
            place: *place,
        },
    );
    *changed = t.changed;
    *size = t.size;
    *place = t.place;
    t.answer
}

// Selects the hypothesis equal to the lent formula.
#[unsafe(no_mangle)]
pub extern "C" fn cofferdrift_select(
    s: &[u8],
    predicate: &[u8],
    out: &mut [u8],
    changed: &mut usize,
    size: &mut usize,
    place: &mut usize,
) -> usize
    ensures { Tells (flag_outcome Acts.select s.now predicate.now (length out.old)) out.old out.new (act 0 changed.old size.old place.old) (act result changed.new size.new place.new) }
{
    tell(acts::select(s, predicate, out), changed, size, place)
}

// Deselects it.
#[unsafe(no_mangle)]
pub extern "C" fn cofferdrift_deselect(
    s: &[u8],
    predicate: &[u8],
    out: &mut [u8],
    changed: &mut usize,
    size: &mut usize,
    place: &mut usize,
) -> usize
    ensures { Tells (flag_outcome Acts.deselect s.now predicate.now (length out.old)) out.old out.new (act 0 changed.old size.old place.old) (act result changed.new size.new place.new) }
{
    tell(acts::deselect(s, predicate, out), changed, size, place)
}

// Hides it.
#[unsafe(no_mangle)]
pub extern "C" fn cofferdrift_hide(
    s: &[u8],
    predicate: &[u8],
    out: &mut [u8],
    changed: &mut usize,
    size: &mut usize,
    place: &mut usize,
) -> usize
    ensures { Tells (flag_outcome Acts.hide s.now predicate.now (length out.old)) out.old out.new (act 0 changed.old size.old place.old) (act result changed.new size.new place.new) }
{
    tell(acts::hide(s, predicate, out), changed, size, place)
}

// Shows it.
#[unsafe(no_mangle)]
pub extern "C" fn cofferdrift_show(
    s: &[u8],
    predicate: &[u8],
    out: &mut [u8],
    changed: &mut usize,
    size: &mut usize,
    place: &mut usize,
) -> usize
    ensures { Tells (flag_outcome Acts.show s.now predicate.now (length out.old)) out.old out.new (act 0 changed.old size.old place.old) (act result changed.new size.new place.new) }
{
    tell(acts::show(s, predicate, out), changed, size, place)
}

// Adds formulas, leaves some of them unselected, and may replace the goal.
#[unsafe(no_mangle)]
pub extern "C" fn cofferdrift_modify(
    s: &[u8],
    added: &[u8],
    unselected: &[u8],
    goal: &[u8],
    out: &mut [u8],
    changed: &mut usize,
    size: &mut usize,
    place: &mut usize,
) -> usize
    ensures { Tells (modify_outcome s.now added.now unselected.now goal.now (length out.old)) out.old out.new (act 0 changed.old size.old place.old) (act result changed.new size.new place.new) }
{
    tell(
        acts::modify(s, added, unselected, goal, out),
        changed,
        size,
        place,
    )
}

// Forward inference.
#[unsafe(no_mangle)]
pub extern "C" fn cofferdrift_forward(
    s: &[u8],
    sources: &[u8],
    inferred: &[u8],
    out: &mut [u8],
    changed: &mut usize,
    size: &mut usize,
    place: &mut usize,
) -> usize
    ensures { Tells (forward_outcome s.now sources.now inferred.now (length out.old)) out.old out.new (act 0 changed.old size.old place.old) (act result changed.new size.new place.new) }
{
    tell(
        acts::forward(s, sources, inferred, out),
        changed,
        size,
        place,
    )
}

// Forward inference, then hide.
#[unsafe(no_mangle)]
pub extern "C" fn cofferdrift_rewrite(
    s: &[u8],
    sources: &[u8],
    inferred: &[u8],
    hides: &[u8],
    out: &mut [u8],
    changed: &mut usize,
    size: &mut usize,
    place: &mut usize,
) -> usize
    ensures { Tells (rewrite_outcome s.now sources.now inferred.now hides.now (length out.old)) out.old out.new (act 0 changed.old size.old place.old) (act result changed.new size.new place.new) }
{
    tell(
        acts::rewrite(s, sources, inferred, hides, out),
        changed,
        size,
        place,
    )
}
