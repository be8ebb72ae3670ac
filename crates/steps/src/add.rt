// Formulas added to the desk. The two searches are loops: with `any` and `all`, tried, their answers stay open.
ghost use Rattle.std.specs.Prelude.{◌≡◌};
ghost use Rattle.steps.specs.Mirror.Steps.{AmongIs, AllAmongIs, AddOneIs, AddAllIs};

use super::Act;
use super::flags::change_at;
use desk::{Desk, List, NoRoom};
use formula::equal::same;

// Whether a formula is among the formulas of a list.
#[tactic(auto, using(crate::proofs::AddLaws::amongs))]
pub fn among(list: &List, formula: &[u8]) -> bool
    ensures { AmongIs list.now formula.now result }
{
    for i in 0..list.count {
        if same(list.formula(i), formula) {
            return true;
        }
    }
    false
}

// Whether each of the unselected formulas is among the added ones.
#[tactic(auto, using(crate::proofs::AddLaws::all_amongs))]
pub fn all_among(unselected: &List, added: &List) -> bool
    ensures { AllAmongIs unselected.now added.now result }
{
    for i in 0..unselected.count {
        if !among(added, unselected.formula(i)) {
            return false;
        }
    }
    true
}

// Adds a formula: it is shown, and selected unless named unselected, to keep the selection it had.
#[tactic(auto, using(crate::proofs::AddLaws::adds))]
pub fn add_one(desk: &mut Desk, formula: &[u8], keep: bool) -> Result<(), NoRoom>
    ensures { AddOneIs desk.old formula.now keep desk.new result }
{
    match desk.hypotheses().find(formula) {
        Some(i) => {
            let act = if keep { Act::Show } else { Act::Select };
            desk.view = change_at(desk.view, i, act);
            Ok(())
        }
        None => desk.append(formula, false, !keep),
    }
}

// Adds the formulas of a list; some of them may be named unselected.
#[tactic(auto, using(crate::proofs::AddLaws::adding))]
pub fn add_all(desk: &mut Desk, added: &List, unselected: &List) -> Result<(), NoRoom>
    ensures { AddAllIs desk.old added.now unselected.now desk.new result }
{
    for i in 0..added.count {
        let formula = added.formula(i);
        add_one(desk, formula, among(unselected, formula))?;
    }
    Ok(())
}
