// The list made, for two stores that can be compared and a goal that can be reached.
#![tactic(auto)]

ghost use Rattle.std.specs.Prelude.{◌≤◌, ◌<◌, length};
ghost use Rattle.store.specs.Slots.{list_space};
ghost use Rattle.reach.specs.Pairs.{Comparable};
ghost use Rattle.reach.specs.Rules.{Rule};
ghost use Rattle.making.specs.Made.{MadeIs};

use agreeing::agreeing;
use empties::empty_slots;
use lifts::{Shaft, Slots};
use moves::{Hints, Work, put_shift};
use rooms::Frame;
use rounds::play_all;
use store::Store;

// With one shaft or two the difference of heights is shifted.
fn make_two(start: Store, goal: Store, out: &mut [u8]) -> usize
    requires comparable { Comparable start goal }
    requires m_bound { (start.m ≤ 2) × Rule start goal }
    requires start_in_bounds { list_space start ≤ length out.old }
    ensures { MadeIs start goal out.old result out.new }
{
    let a = start.heights[0] as usize;
    let b = goal.heights[0] as usize;
    if b <= a {
        return put_shift(out, 0, Shaft(0), Shaft(1), a - b);
    }
    put_shift(out, 0, Shaft(1), Shaft(0), b - a)
}

// Where each number stands: 16 places for each of m shafts. No promise rests on it.
fn hints_of(m: u8, slots: &Slots) -> Hints
    requires { m ≤ 16 }
{
    let mut hints: Hints = [0; 4096];
    for p in 0..16 * (m as usize) {
        hints[slots[p] as usize % 4096] = p as u8;
    }
    hints
}

// With three shafts or more: rounds of direct placement, from the rows that agree already.
fn make_three(start: Store, goal: Store, out: &mut [u8]) -> usize
    requires comparable { Comparable start goal }
    requires lt_m { (2 < start.m) × Rule start goal }
    requires start_in_bounds { list_space start ≤ length out.old }
    ensures { MadeIs start goal out.old result out.new }
{
    let m = start.m;
    let depths = start.depths;
    let e = empty_slots(start) as usize;
    let f = Frame { m, depths, e };
    let heights = start.heights;
    let slots = start.slots;
    let hints = hints_of(m, &slots);
    let mut work = Work {
        heights,
        slots,
        hints,
    };
    let mut done = agreeing(f, &start, &goal);
    play_all(f, &goal, &mut done, &mut work, out)
}

// The list, by the number of shafts.
pub fn make(start: Store, goal: Store, out: &mut [u8]) -> usize
    requires comparable { Comparable start goal }
    requires rule { Rule start goal }
    requires start_in_bounds { list_space start ≤ length out.old }
    ensures { MadeIs start goal out.old result out.new }
{
    if start.m <= 2 {
        return make_two(start, goal, out);
    }
    make_three(start, goal, out)
}
