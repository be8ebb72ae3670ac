// The sequent file, read: its hypotheses and goal, its flags counted, and every refusal with its place.
#![tactic(auto)]

pub mod file;

ghost use Rattle.std.specs.Prelude.{◌≡◌, take, drop};
ghost use Rattle.sequent.specs.Counts.{read_outcome};
ghost use Rattle.sequent.specs.Mirror.Opened.{Open};

use desk::{Hypotheses, View};
use file::open;
use refusal::Said;

// How many hypotheses are hidden, selected and visible.
#[derive(Clone, Copy, Debug, PartialEq, Eq)]
pub struct Counts {
    pub hidden: usize,
    pub selected: usize,
    pub visible: usize,
}

// A sequent opened in place: its file, where each hypothesis starts there, and where the last one ends. Its 65 places are lent
// and not copied by chance, so it is not Copy.
#[derive(Drop)]
pub struct Opened<'a> {
    pub bytes: &'a [u8],
    pub places: [usize; 65],
    pub view: View,
    pub ghost is_open: { ∥ Open bytes.now places view ∥₁ },
}

impl<'a> Opened<'a> {
    // The type bytes of the identifiers.
    pub fn types(&self) -> &'a [u8]
        ensures { result.now ≡ take self.now.view.identifiers (drop 8 self.now.bytes.now) }
    {
        &self.bytes[8..8 + self.view.identifiers]
    }

    // The goal: what follows the hypotheses.
    pub fn goal(&self) -> &'a [u8]
        ensures { result.now ≡ drop self.now.view.end self.now.bytes.now }
    {
        &self.bytes[self.view.end..]
    }

    // What stands in it, as on a desk.
    pub fn hypotheses(&self) -> Hypotheses<'_>
        ensures bytes { result.bytes.now ≡ self.now.bytes.now }
        ensures places { result.places.now ≡ self.now.places }
        ensures view { result.view ≡ self.now.view }
    {
        Hypotheses {
            bytes: self.bytes,
            places: &self.places,
            view: self.view,
        }
    }
}

// Reads a sequent file, and answers how many hypotheses are hidden, selected and visible.
#[tactic(auto, using(crate::proofs::CountLaws::counts))]
pub fn read(s: &[u8]) -> Result<Counts, Said>
    ensures { result ≡ read_outcome s.now }
{
    let v = open(s)?.view;
    Ok(Counts {
        hidden: v.hidden.count_ones() as usize,
        selected: v.selected.count_ones() as usize,
        visible: v.visible().count_ones() as usize,
    })
}
