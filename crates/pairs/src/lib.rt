// Two stores together (document 01, "Which comes first"): "For two stores: the start, the goal, 8, 9".
#![tactic(auto)]

ghost use Rattle.std.specs.Prelude.{◌≡◌};
ghost use Rattle.stacks.specs.Deciding.{Decides};
ghost use Rattle.store.specs.Slots.{SameFrame};
ghost use Rattle.pairs.specs.Promises.{CompareIs};

use blanks::blanks_of;
use marks::{Words, count, same};
use store::{Fault, Store};

// Why two stores can't be compared: the start's own fault, the goal's, 8, 9.
#[derive(Clone, Copy)]
pub enum PairFault {
    StartRefused(Fault),
    GoalRefused(Fault),
    Frames,
    Cassettes,
}

// Whether two stores have the same shafts and depths.
fn same_frame(s: Store, t: Store) -> bool
    ensures { Decides result (SameFrame s t) }
{
    s.m == t.m && s.depths == t.depths
}

// Whether two stores hold the same cassettes, by the marks and the blanks of each.
fn same_cassettes(a: Words, b: Words, j: usize, k: usize) -> bool
    ensures { Decides result ((a ≡ b) × (j ≡ k)) }
{
    j == k && same(a, b)
}

// The count of cassettes of two stores that can be compared, or why they can't be.
pub fn compare(start: Store, goal: Store) -> Result<usize, PairFault>
    ensures { CompareIs start goal result }
{
    let marks = start.check().map_err(PairFault::StartRefused)?;
    let goal_marks = goal.check().map_err(PairFault::GoalRefused)?;
    if !same_frame(start, goal) {
        return Err(PairFault::Frames);
    }
    let blanks = blanks_of(start);
    let goal_blanks = blanks_of(goal);
    if !same_cassettes(marks, goal_marks, blanks, goal_blanks) {
        return Err(PairFault::Cassettes);
    }
    let n = count(marks) + blanks;
    Ok(n)
}
