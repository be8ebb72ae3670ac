// The desk: a sequent at work. Its bytes, where its hypotheses stand, its flags as masks; a formula is found there, or appended.
// Crates `steps` and `inference` are what acts are made of. There is no heap: an array of 65 numbers stands beside its count.
#![tactic(auto)]

pub mod hypotheses;
pub mod list;
pub mod mask;
pub mod view;

ghost use Rattle.std.specs.Prelude.{◌≡◌, OnErr};
ghost use Rattle.refusal.specs.Refusal.{act_said};
ghost use Rattle.refusal.specs.declared.Cause.TheVariants.{Room};
ghost use Rattle.desk.specs.Mirror.Bytes.{LaidIs, AppendIs};

use formula::bytes::copy;
pub use hypotheses::Hypotheses;
pub use list::List;
use refusal::{Cause, Said};
pub use view::View;

// A sequent at work: all of it but its goal. It is not Copy, so that its 60,000 bytes are moved and not copied by chance.
#[derive(Drop)]
pub struct Desk {
    pub bytes: [u8; 60000],
    pub places: [usize; 65],
    pub view: View,
}

// No room for one more hypothesis: there are 64, or the 60,000 bytes are full.
#[derive(Clone, Copy, PartialEq, Eq)]
pub struct NoRoom;

impl From<NoRoom> for Said {
    ghost from_gives = { λ _ z. z ≡ act_said Room };

    fn from(_no_room: NoRoom) -> Said {
        Cause::Room.said()
    }
}

impl Desk {
    // Lays the hypotheses of an opened sequent on the desk; what ends past its bytes or past the desk is not copied. The desk is
    // lent and not answered: 60,000 bytes moved out of a function cost more than the act.
    #[tactic(auto, using(crate::proofs::Laid::none_laid))]
    pub fn lay(&mut self, h: Hypotheses)
        ensures { LaidIs h.entry self.new }
    {
        let end = h.view.end;
        self.places = *h.places;
        self.view = h.view;
        if end <= h.bytes.len() && end <= 60000 {
            copy(&h.bytes[..end], &mut self.bytes[..end]);
        }
    }

    // What stands on it. An opened file has the like: three fields each, and a trait over them would be no plainer.
    pub fn hypotheses(&self) -> Hypotheses<'_>
        ensures bytes { result.bytes.now ≡ self.now.bytes }
        ensures places { result.places.now ≡ self.now.places }
        ensures view { result.view ≡ self.now.view }
    {
        Hypotheses {
            bytes: &self.bytes,
            places: &self.places,
            view: self.view,
        }
    }

    // Appends a formula; the byte before it is left for its flag, which the masks have.
    pub fn append(&mut self, formula: &[u8], hidden: bool, selected: bool) -> Result<(), NoRoom>
        ensures append_is { AppendIs self.old formula.now hidden selected self.new result }
        ensures unchanged { OnErr result (self.new ≡ self.old) }
    {
        let h = self.view.hypotheses;
        let end = self.view.end;
        if 63 < h || 59999 < end || 59999 - end < formula.len() {
            return Err(NoRoom);
        }
        let next = end + 1 + formula.len();
        copy(formula, &mut self.bytes[end + 1..next]);
        self.places[h + 1] = next;
        self.view = self.view.grown(formula.len(), hidden, selected);
        Ok(())
    }
}
