// Reading a sequent, for C.
ghost use Rattle.std.specs.Prelude.{◌≡◌};
ghost use Rattle.sequent.specs.Counts.{read_outcome};
ghost use Rattle.c_api.specs.Sequent.{counts, counts_told};

use super::Tally;
use refusal::Said;
use sequent::Counts;

// What is told of a sequent read; what does not apply keeps its value.
fn tell(r: Result<Counts, Said>, old: Tally) -> Tally
    ensures { result ≡ counts_told r old }
{
    match r {
        Ok(n) => Tally {
            answer: 0,
            hidden: n.hidden,
            selected: n.selected,
            visible: n.visible,
            ..old
        },
        Err(z) => Tally {
            answer: z.number,
            place: z.place,
            ..old
        },
    }
}

// Reads a sequent file: how many hypotheses are hidden, selected and visible.
#[unsafe(no_mangle)]
pub extern "C" fn cofferdrift_read(
    s: &[u8],
    hidden: &mut usize,
    selected: &mut usize,
    visible: &mut usize,
    place: &mut usize,
) -> usize
    ensures { counts result hidden.new selected.new visible.new place.new ≡ counts_told (read_outcome s.now) (counts 0 hidden.old selected.old visible.old place.old) }
{
    let t = tell(
        sequent::read(s),
        Tally {
            answer: 0,
            hidden: *hidden,
            selected: *selected,
            visible: *visible,
            place: *place,
        },
    );
    *hidden = t.hidden;
    *selected = t.selected;
    *visible = t.visible;
    *place = t.place;
    t.answer
}
