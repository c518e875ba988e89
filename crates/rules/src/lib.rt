// The rules of document 01, "Which goals can be reached", as tests of two stores that can be compared.
#![tactic(auto)]

ghost use Rattle.std.specs.Prelude.{◌≡◌, ℕ, ◌+◌, ◌-◌, ◌≤◌, ◌<◌, get_or};
ghost use Rattle.stacks.specs.Deciding.{Decides};
ghost use Rattle.lifts.specs.Lifting.{most_shafts, most_rows};
ghost use Rattle.store.specs.Slots.{height, cassette_count};
ghost use Rattle.rows.specs.Rows.{rows_up};
ghost use Rattle.depths.specs.Depths.{depth_by, DepthsFit};
ghost use Rattle.store.specs.Sound.{Shaped};
ghost use Rattle.reach.specs.Pairs.{Comparable};
ghost use Rattle.reach.specs.Rules.{two_shaft_reading, Rule};

use depths::{Depths, depth_of};
use empties::empty_slots;
use lifts::Slots;
use marks::Cassette;
use store::Store;

// The cassette at a place of the two-shaft reading of n cassettes: shaft 0 upward, then shaft 1 downward.
fn read_at(s: Store, n: usize, p: usize) -> Cassette
    requires shaped { Shaped s }
    requires n_value { (n ≡ height s 0 + height s 1) × (p < n) }
    ensures { result ≡ get_or (two_shaft_reading s) p 0 }
{
    let low = s.heights[0] as usize;
    if p < low {
        return s.slots[p];
    }
    let place = 16 + (n - 1 - p);
    s.slots[place]
}

fn same_reading(s: Store, t: Store, n: usize) -> bool
    requires shaped { Shaped s }
    requires shaped_2 { Shaped t }
    requires n_value { (n ≡ height s 0 + height s 1) × (n ≡ height t 0 + height t 1) }
    ensures { Decides result (two_shaft_reading s ≡ two_shaft_reading t) }
{
    for p in 0..n {
        if read_at(s, n, p) != read_at(t, n, p) {
            return false;
        }
    }
    true
}

// Whether rows 1 to k of a shaft agree.
pub fn same_rows(a: &Slots, b: &Slots, x: usize, k: usize) -> bool
    requires { (x < most_shafts) × (k ≤ most_rows) }
    ensures { Decides result (rows_up a.now x k ≡ rows_up b.now x k) }
{
    let bottom = 16 * x;
    a[bottom..bottom + k] == b[bottom..bottom + k]
}

// How many rows the floor of a shaft has, which never changes: its depth less e, or none.
pub fn floor_rows(depths: Depths, x: usize, e: usize) -> usize
    ensures { result ≡ depth_by depths x - e }
{
    let rows = depth_of(depths, x) as usize;
    rows.saturating_sub(e)
}

// Whether the floors of the first m shafts agree.
fn same_floors(m: u8, depths: Depths, e: usize, a: &Slots, b: &Slots) -> bool
    requires { (m ≤ most_shafts) × DepthsFit depths }
    ensures { Decides result ((x : ℕ) → x < m → rows_up a.now x (depth_by depths x - e) ≡ rows_up b.now x (depth_by depths x - e)) }
{
    let shafts = m as usize;
    for x in 0..shafts {
        if !same_rows(a, b, x, floor_rows(depths, x, e)) {
            return false;
        }
    }
    true
}

// Whether the goal obeys the rule for its number of shafts.
pub fn rule_holds(start: Store, goal: Store, n: usize) -> bool
    requires comparable { Comparable start goal }
    requires n_value { n ≡ cassette_count start }
    ensures { Decides result (Rule start goal) }
{
    if start.m <= 2 {
        return same_reading(start, goal, n);
    }
    let e = empty_slots(start) as usize;
    let depths = start.depths;
    let a = start.slots;
    let b = goal.slots;
    same_floors(start.m, depths, e, &a, &b)
}
