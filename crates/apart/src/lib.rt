// Whether a goal can be reached without a lift between the sets of a row (document 02, 10/13), for two stores that can be compared: every shaft of no set is
// the same, and each set can be reached within itself.
#![tactic(auto)]

ghost use Rattle.std.specs.Prelude.{◌≡◌, ℕ, ◌<◌, length, get_or};
ghost use Rattle.stacks.specs.Deciding.{Decides};
ghost use Rattle.lifts.specs.Lifting.{most_shafts};
ghost use Rattle.store.specs.Lists.{Reachable};
ghost use Rattle.store.specs.Slots.{stack};
ghost use Rattle.store.specs.Sound.{Shaped};
ghost use Rattle.reach.specs.Pairs.{Comparable};
ghost use Rattle.sets.specs.Sets.{times_in, Disjoint};
ghost use Rattle.parts.specs.Parts.{part};
ghost use Rattle.within.specs.Within.{ReachableApart};
ghost use Rattle.within.specs.Rules.{SameElsewhere, AllReachable};

use pairs::compare;
use parts::part_of;
use rules::{rule_holds, same_rows};
use sets::times_in;
use store::Store;

// Whether a shaft is the same in two stores.
fn same_shaft(s: Store, t: Store, x: usize) -> bool
    requires shaped { Shaped s }
    requires x_lt_most_shafts { x < most_shafts }
    ensures { Decides result (stack s x ≡ stack t x) }
{
    let height = s.heights[x];
    if height != t.heights[x] {
        return false;
    }
    let a = s.slots;
    let b = t.slots;
    same_rows(&a, &b, x, height as usize)
}

// Whether a shaft is in some set of a row, or else is the same in two stores.
fn in_or_same(s: Store, t: Store, row: &[u16], x: usize) -> bool
    requires shaped { Shaped s }
    requires x_lt_most_shafts { x < most_shafts }
    ensures { Decides result (times_in row.now x ≡ 0 → stack s x ≡ stack t x) }
{
    if times_in(row, x) != 0 {
        return true;
    }
    same_shaft(s, t, x)
}

// Whether every shaft that is in no set of a row is the same.
fn same_elsewhere(start: Store, goal: Store, row: &[u16]) -> bool
    requires { Shaped start }
    ensures { Decides result (SameElsewhere row.now start goal) }
{
    let shafts = start.m as usize;
    for x in 0..shafts {
        if !in_or_same(start, goal, row, x) {
            return false;
        }
    }
    true
}

// Whether the shafts of a set can be brought to the goal within the set.
fn part_reachable(start: Store, goal: Store, some: u16) -> bool
    requires { Comparable start goal }
    ensures { Decides result (Reachable (part some start) (part some goal)) }
{
    let a = part_of(start, some);
    if a.m == 0 {
        return true;
    }
    let b = part_of(goal, some);
    match compare(a, b) {
        Ok(n) => rule_holds(a, b, n),
        Err(_) => false,
    }
}

// Whether those of each set of a row can.
fn all_reachable(start: Store, goal: Store, row: &[u16]) -> bool
    requires { Comparable start goal }
    ensures { Decides result (AllReachable row.now start goal) }
{
    row.iter().all(|some| part_reachable(start, goal, *some))
}

// Whether some list without a lift between the sets of a row leads from start to goal.
pub fn reachable_apart(start: Store, goal: Store, row: &[u16]) -> bool
    requires comparable { Comparable start goal }
    requires disjoint { Disjoint start.m row.now }
    ensures { Decides result (ReachableApart row.now start goal) }
{
    if !same_elsewhere(start, goal, row) {
        return false;
    }
    all_reachable(start, goal, row)
}
