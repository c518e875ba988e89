// A slot made outside two shafts, where none is left: the top of a third shaft goes to the second of them.
#![tactic(auto)]

ghost use Rattle.std.specs.Prelude.{◌+◌, ◌≤◌, ◌<◌, length};
ghost use Rattle.lifts.specs.Lifting.{height_in};
ghost use Rattle.turns.specs.Turning.{OtherIs, ThirdIs, LentIs, Ready, TurnedIs};

use ahead::look_ahead;
use lifts::{Heights, Shaft};
use moves::Work;
use rooms::{Frame, Spot};
use store::Store;

// The shaft, if any, whose top row was passed and lent, and is to be filled again; and the end of the list.
#[derive(Clone, Copy)]
pub struct Turned {
    pub owed: Option<Shaft>,
    pub count: usize,
}

// One of the first three shafts, other than a and b.
fn other(a: Shaft, b: Shaft) -> Shaft
    ensures { OtherIs a.0 b.0 result.0 }
{
    if a.0 != 0 && b.0 != 0 {
        return Shaft(0);
    }
    if a.0 != 1 && b.0 != 1 {
        return Shaft(1);
    }
    Shaft(2)
}

// A shaft other than a and b. It looks for one whose top is not passed; no promise rests on that.
fn third(f: Frame, done: &Heights, heights: &Heights, a: Shaft, b: Shaft) -> Shaft
    requires { (3 ≤ f.m) × (f.m ≤ 16) }
    ensures { ThirdIs f a.0 b.0 result.0 }
{
    for x in 0..f.m {
        let i = x as usize;
        if done[i] < heights[i] && x != a.0 && x != b.0 {
            return Shaft(x);
        }
    }
    other(a, b)
}

// The top row of a shaft given up, if it is passed.
fn lend(done: &mut Heights, heights: &Heights, c: Shaft) -> Option<Shaft>
    requires c_bound { (c.0 < 16) × (0 < height_in heights.now c.0) }
    requires c_bound_2 { height_in done.old c.0 ≤ height_in heights.now c.0 }
    ensures { LentIs done.old heights.now c.0 done.new result }
{
    let i = c.0 as usize;
    if done[i] < heights[i] {
        return None;
    }
    done[i] -= 1;
    Some(c)
}

// A slot outside the two shafts, if anything is in the way and there is none.
pub fn make_room(
    f: Frame,
    goal: &Store,
    done: &mut Heights,
    work: &mut Work,
    at: Spot,
    to: Spot,
    count: usize,
    out: &mut [u8],
) -> Turned
    requires ready { Ready f goal.now.heights goal.now.slots done.old work.old.heights work.old.slots at to }
    requires count_in_bounds { count < length out.old }
    ensures { TurnedIs f goal.now.heights goal.now.slots done.old work.old.heights work.old.slots at to count out.old done.new work.new.heights work.new.slots result out.new }
{
    let view = look_ahead(f, &work.heights, at, to);
    if 0 < view.outside || view.cover + view.load == 0 {
        return Turned { owed: None, count };
    }
    let c = third(f, done, &work.heights, at.shaft, to.shaft);
    let owed = lend(done, &work.heights, c);
    let end = work.put_lift(c, to.shaft, count, out);
    Turned { owed, count: end }
}
