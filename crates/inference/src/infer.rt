// Sources weighed, and formulas inferred from them.
ghost use Rattle.std.specs.Prelude.{◌≡◌};
ghost use Rattle.inference.specs.Mirror.Inference.{WeighIs, WeighAllIs, hides_inferred, ReselectIs, InferOneIs, InferAllIs};

use desk::{Desk, Hypotheses, List, NoRoom, View};
use steps::Act;
use steps::flags::change_at;

// What the sources of an inference say: each is there, some is selected, all are hidden.
#[derive(Clone, Copy)]
pub struct Sources {
    pub there: bool,
    pub selected: bool,
    pub hidden: bool,
}

impl Sources {
    // One more source, found at a position or nowhere.
    #[tactic(auto, using(crate::proofs::SourceLaws::sources))]
    pub fn weigh(self, view: View, at: Option<usize>) -> Sources
        ensures { WeighIs view at self result }
    {
        match at {
            Some(i) => Sources {
                selected: self.selected || view.is_selected(i),
                hidden: self.hidden && view.is_hidden(i),
                ..self
            },
            None => Sources {
                there: false,
                hidden: false,
                ..self
            },
        }
    }

    // "D: S fails and all sources are hidden"
    #[tactic(auto, unfolding(crate::specs::Mirror::Inference::hides_inferred))]
    pub fn hides_inferred(self) -> bool
        ensures { result ≡ hides_inferred self }
    {
        !self.selected && self.hidden
    }
}

// The sources of a list.
#[tactic(auto, using(crate::proofs::SourceLaws::sources))]
pub fn weigh_all(hypotheses: Hypotheses, list: &List) -> Sources
    ensures { WeighAllIs hypotheses.entry list.now result }
{
    let mut sources = Sources {
        there: true,
        selected: false,
        hidden: true,
    };
    for i in 0..list.count {
        let at = hypotheses.find(list.formula(i));
        sources = sources.weigh(hypotheses.view, at);
    }
    sources
}

// Under S, a hypothesis that was visible before the act is reselected; one at a later position was appended by the act.
#[tactic(auto, using(crate::proofs::InferLaws::reselecting))]
fn reselects(before: View, i: usize, selected: bool) -> bool
    ensures { ReselectIs before i selected result }
{
    i < before.hypotheses && !before.is_hidden(i) && selected
}

// Infers a formula from sources that are there, and says whether it is reselected; `before` is the view before the act.
#[tactic(auto, using(crate::proofs::InferLaws::infers))]
pub fn infer_one(
    desk: &mut Desk,
    before: View,
    sources: Sources,
    formula: &[u8],
) -> Result<bool, NoRoom>
    ensures { InferOneIs before sources desk.old formula.now desk.new result }
{
    match desk.hypotheses().find(formula) {
        Some(i) => {
            let again = reselects(before, i, sources.selected);
            if again {
                desk.view = change_at(desk.view, i, Act::Select);
            }
            Ok(again)
        }
        None => {
            desk.append(formula, sources.hides_inferred(), sources.selected)?;
            Ok(false)
        }
    }
}

// Infers the formulas of a list, and says whether one of them is reselected.
#[tactic(auto, using(crate::proofs::InferLaws::inferring))]
pub fn infer_all(desk: &mut Desk, sources: Sources, list: &List) -> Result<bool, NoRoom>
    ensures { InferAllIs sources desk.old list.now desk.new result }
{
    let before = desk.view;
    let mut again = false;
    for i in 0..list.count {
        again |= infer_one(desk, before, sources, list.formula(i))?;
    }
    Ok(again)
}
