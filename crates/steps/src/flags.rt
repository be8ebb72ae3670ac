// A flag of the desk changed: select, deselect, hide and show.
ghost use Rattle.std.specs.Prelude.{◌≡◌};
ghost use Rattle.steps.specs.Mirror.Steps.{hidden_by, selected_by, ChangeAtIs, ChangeIs, ChangeAllIs, views_differ};

use desk::{Hypotheses, List, View};

// The acts on one flag. `hides` and `selects` say of each, in a line, what document 01 says of it.
#[derive(Clone, Copy, PartialEq, Eq)]
pub enum Act {
    Select,
    Deselect,
    Hide,
    Show,
}

impl Act {
    // Whether a flag is hidden after the act.
    fn hides(self, hidden: bool) -> bool
        ensures { result ≡ hidden_by self hidden }
    {
        match self {
            Act::Select => false,
            Act::Deselect => hidden,
            Act::Hide => true,
            Act::Show => false,
        }
    }

    // Whether a flag is selected after the act.
    fn selects(self, selected: bool) -> bool
        ensures { result ≡ selected_by self selected }
    {
        match self {
            Act::Select => true,
            Act::Deselect => false,
            Act::Hide => false,
            Act::Show => selected,
        }
    }
}

// The act done on the hypothesis at i; there are at most 64.
#[tactic(auto, using(crate::proofs::FlagLaws::flags))]
pub fn change_at(view: View, i: usize, act: Act) -> View
    ensures { ChangeAtIs view i act result }
{
    if 63 < i {
        return view;
    }
    let hidden = act.hides(view.is_hidden(i));
    let selected = act.selects(view.is_selected(i));
    view.with_flag(i, hidden, selected)
}

// The act done on the hypothesis that is this formula; nothing changes if it is none.
#[tactic(auto, using(crate::proofs::FlagLaws::flags))]
pub fn change(hypotheses: Hypotheses, act: Act, formula: &[u8]) -> View
    ensures { ChangeIs hypotheses.entry act formula.now result }
{
    match hypotheses.find(formula) {
        Some(i) => change_at(hypotheses.view, i, act),
        None => hypotheses.view,
    }
}

// The act done on each formula of a list.
#[tactic(auto, using(crate::proofs::FlagLaws::changing))]
pub fn change_all(hypotheses: Hypotheses, act: Act, list: &List) -> View
    ensures { ChangeAllIs hypotheses.entry act list.now result }
{
    let mut changed = hypotheses;
    for i in 0..list.count {
        changed.view = change(changed, act, list.formula(i));
    }
    changed.view
}

// Whether the sequent differs: in number, in a flag, or in its goal.
#[tactic(auto, unfolding(crate::specs::Mirror::Steps::views_differ))]
pub fn differs(before: View, after: View, goal: bool) -> bool
    ensures { result ≡ views_differ before after goal }
{
    before.hypotheses != after.hypotheses
        || before.hidden != after.hidden
        || before.selected != after.selected
        || goal
}
