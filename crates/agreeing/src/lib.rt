// The rows of a store that agree with the goal from the bottom, the cassette wanted above the rows that are passed, and whether all of the goal is passed.
#![tactic(auto)]

ghost use Rattle.std.specs.Prelude.{◌≡◌, ◌≤◌, ◌<◌};
ghost use Rattle.stacks.specs.Deciding.{Decides};
ghost use Rattle.lifts.specs.Lifting.{height_in};
ghost use Rattle.rooms.specs.Frames.{Fits};
ghost use Rattle.agreeing.specs.Agreeing.{AgreeIs, AgreeingIs, Finished, wanted_in};

use lifts::{Heights, Shaft, Slots};
use marks::Cassette;
use rooms::Frame;
use store::Store;

// How many rows of shaft x agree from the bottom, of those up to `most`.
fn agreeing_rows(slots: &Slots, goal: &Slots, x: Shaft, most: u8) -> u8
    requires { (x.0 < 16) × (most ≤ 16) }
    ensures { AgreeIs slots.now goal.now x.0 most result }
{
    let i = x.0 as usize;
    for k in 0..most {
        let p = 16 * i + k as usize;
        if slots[p] != goal[p] {
            return k;
        }
    }
    most
}

// How many rows of each shaft agree, of those that both stores have.
pub fn agreeing(f: Frame, start: &Store, goal: &Store) -> Heights
    requires fits { Fits f start.now.heights }
    requires fits_2 { Fits f goal.now.heights }
    ensures { AgreeingIs f start.now.heights start.now.slots goal.now.heights goal.now.slots result }
{
    let mut done: Heights = [0; 16];
    for x in 0..f.m {
        let i = x as usize;
        let most = start.heights[i].min(goal.heights[i]);
        done[i] = agreeing_rows(&start.slots, &goal.slots, Shaft(x), most);
    }
    done
}

// Whether every row of the goal is passed.
pub fn finished(f: Frame, goal: &Store, done: &Heights) -> bool
    requires { f.m ≤ 16 }
    ensures { Decides result (Finished f goal.now.heights done.now) }
{
    (0..f.m as usize).all(|x| goal.heights[x] <= done[x])
}

// The cassette that the goal has above the rows of a shaft that are passed.
pub fn next(goal: &Store, done: &Heights, x: Shaft) -> Cassette
    requires { (x.0 < 16) × (height_in done.now x.0 < 16) }
    ensures { result ≡ wanted_in goal.now.slots done.now x.0 }
{
    let i = x.0 as usize;
    goal.slots[16 * i + done[i] as usize]
}
