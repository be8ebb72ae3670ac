// The interface for C: numbers and byte slices alone. A slice is passed as a pointer and a length.
#![tactic(auto)]

mod counts;
mod hypotheses;

ghost use Rattle.std.specs.Prelude.{◌≡◌};
ghost use Rattle.c_api.specs.Formula.{sort_asked, read_here, said, told};

use formula::Sort;
use reader::outcome_of;
use reader::reader::read_formula;
use refusal::Said;

// What reading a sequent answers, and what it leaves in the variables lent with it.
#[derive(Clone, Copy)]
pub struct Tally {
    pub answer: usize,
    pub hidden: usize,
    pub selected: usize,
    pub visible: usize,
    pub place: usize,
}

// The same of an act.
#[derive(Clone, Copy)]
pub struct Act {
    pub answer: usize,
    pub changed: usize,
    pub size: usize,
    pub place: usize,
}

// The sort that a number of C asks for: any number is an answer there, so it is no enum.
fn sort_asked(expression: usize) -> Sort
    ensures { result ≡ sort_asked expression }
{
    if expression == 0 {
        Sort::Predicate
    } else {
        Sort::Expression
    }
}

// 0 and the end of a formula read, else the number of the refusal and its place.
fn told_of(r: Result<usize, Said>) -> Said
    ensures { result ≡ told r }
{
    match r {
        Ok(end) => Said {
            number: 0,
            place: end,
        },
        Err(z) => z,
    }
}

// Reads the formula of s that starts at `start`: a predicate if `expression` is 0, else an expression.
// `types` has a byte for each identifier.
#[unsafe(no_mangle)]
#[tactic(auto, unfolding(crate::specs::Formula::read_here))]
pub extern "C" fn cofferdrift_read_formula(
    s: &[u8],
    types: &[u8],
    expression: usize,
    start: usize,
    place: &mut usize,
) -> usize
    ensures { said result place.new ≡ told (read_here s.now types.now expression start) }
{
    let r = read_formula(s, types, sort_asked(expression), start);
    let t = told_of(outcome_of(s.len(), r));
    *place = t.place;
    t.number
}
