// Modify, of lists that are read: formulas added, shown or selected, and the goal.
ghost use Rattle.acts.specs.Mirror.Answering.{ModifyAnswers, GoalAnswers};

use buffers::Done;
use buffers::write::finish;
use desk::{Desk, List};
use refusal::{Cause, Said};
use sequent::Opened;
use steps::add::{add_all, all_among};
use steps::flags::differs;

// The sequent's own goal, or the one of a list of at most one.
fn modify_goal(sequent: &Opened, desk: &Desk, goals: &List, out: &mut [u8]) -> Result<Done, Said>
    ensures { GoalAnswers sequent.now desk.now goals.now out.old out.new result }
{
    let own = sequent.goal();
    let goal = if goals.count == 0 {
        own
    } else {
        goals.formula(0)
    };
    let other = own != goal;
    let changed = differs(sequent.view, desk.view, other);
    finish(desk.hypotheses(), goal, changed, out)
}

// 18 is asked after all lists are read; nothing is refused after 14.
pub fn modify_read(
    sequent: &Opened,
    added: &List,
    unselected: &List,
    goals: &List,
    out: &mut [u8],
) -> Result<Done, Said>
    ensures { ModifyAnswers sequent.now added.now unselected.now goals.now out.old out.new result }
{
    if !all_among(unselected, added) {
        return Err(Cause::NotAdded.said());
    }
    let mut desk = Desk {
        bytes: [0; 60000],
        places: [0; 65],
        view: sequent.view,
    };
    desk.lay(sequent.hypotheses());
    add_all(&mut desk, added, unselected)?;
    modify_goal(sequent, &desk, goals, out)
}
