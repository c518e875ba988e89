// The C calls on two images: the yes or no, and the plan.
#![tactic(auto)]

ghost use Rattle.pair_calls.specs.PairCalls.{ReachCallIs, PlanCallIs};

use calls::{answer, read_both, refused};
use numbers::Numbered;
use pair_numbers::{plan_number, reach_number};
use planner::make_list;
use reachable::reachable;

// Whether some list of legal lifts leads from start to goal.
pub fn call_reachable(start: &[u8], goal: &[u8]) -> u64
    ensures { ReachCallIs start.now goal.now result }
{
    let both = read_both(start, goal);
    if let Err(f) = both.answer {
        return f.number() as u64;
    }
    reach_number(reachable(both.start, both.goal)) as u64
}

// Writes a list of lifts that leads from start to goal, or nothing.
pub fn call_plan(start: &[u8], goal: &[u8], list: &mut [u8]) -> u64
    ensures { PlanCallIs start.now goal.now list.old result list.new }
{
    let both = read_both(start, goal);
    if let Err(f) = both.answer {
        return refused(f.number(), list);
    }
    let planned = make_list(both.start, both.goal, list);
    answer(planned.unwrap_or(0), plan_number(planned))
}
