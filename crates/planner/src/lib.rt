// The list maker (document 01, "Which goals can be reached", "Which comes first", and request 6/13): a list of lifts that leads from start
// to goal.
#![tactic(auto)]

ghost use Rattle.plans.specs.Promises.{PlanIs};

use pairs::compare;
use plans::{PlanFault, plan_pair};
use store::Store;

// Writes a list of lifts that leads from start to goal into the lent bytes, and gives the count of lifts; or refuses and writes nothing.
pub fn make_list(start: Store, goal: Store, out: &mut [u8]) -> Result<usize, PlanFault>
    ensures { PlanIs start goal out.old out.new result }
{
    let n = compare(start, goal)?;
    plan_pair(start, goal, n, out)
}
