// The yes or no (document 01, "Which goals can be reached", "Which comes first").
#![tactic(auto)]

ghost use Rattle.reachable.specs.Promises.{ReachSays};

use pairs::{PairFault, compare};
use rules::rule_holds;
use store::Store;

// Whether some list of legal lifts leads from start to goal, or why the two can't be compared.
pub fn reachable(start: Store, goal: Store) -> Result<bool, PairFault>
    ensures { ReachSays start goal result }
{
    let n = compare(start, goal)?;
    Ok(rule_holds(start, goal, n))
}
