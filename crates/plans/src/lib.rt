// A plan: how the list maker answers (document 01, "Which comes first", and request 6/13), and what is planned for two stores that can be
// compared.
#![tactic(auto)]

ghost use Rattle.std.specs.Prelude.{◌≡◌, ◌<◌};
ghost use Rattle.stacks.specs.Deciding.{Decides};
ghost use Rattle.store.specs.Accept.{Accepted};
ghost use Rattle.store.specs.Slots.{cassette_count, list_space};
ghost use Rattle.reach.specs.Pairs.{Comparable};
ghost use Rattle.plans.specs.declared.PlanFault.{PlanFault};
ghost use Rattle.plans.specs.Promises.{PlanIs};

use depths::list_space;
use making::make;
use pairs::PairFault;
use rules::rule_holds;
use store::Store;

// Why no list was made: the fault of the pair, 15 or 10.
#[derive(Clone, Copy)]
pub enum PlanFault {
    Refused(PairFault),
    Unreachable,
    LittleSpace,
}

impl From<PairFault> for PlanFault {
    ghost from_gives = { λ f r. r ≡ PlanFault.Refused f };

    fn from(f: PairFault) -> PlanFault {
        PlanFault::Refused(f)
    }
}

// Whether less than the list space is lent for a plan from a store that holds n cassettes.
fn too_little(lent: usize, start: Store, n: usize) -> bool
    requires accepted { Accepted start }
    requires n_value { n ≡ cassette_count start }
    ensures { Decides result (lent < list_space start) }
{
    let depths = start.depths;
    lent < list_space(start.m, depths, n)
}

// For two stores that can be compared, and hold n cassettes: the count of lifts of the list, or 15, or 10.
pub fn plan_pair(start: Store, goal: Store, n: usize, out: &mut [u8]) -> Result<usize, PlanFault>
    requires comparable { Comparable start goal }
    requires n_value { n ≡ cassette_count start }
    ensures { PlanIs start goal out.old out.new result }
{
    let reachable = rule_holds(start, goal, n);
    let little = too_little(out.len(), start, n);
    if !reachable {
        return Err(PlanFault::Unreachable);
    }
    if little {
        return Err(PlanFault::LittleSpace);
    }
    let count = make(start, goal, out);
    Ok(count)
}
