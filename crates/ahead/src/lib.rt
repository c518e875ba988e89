// What is ahead of a placement, and the next lift of it.
#![tactic(auto)]

ghost use Rattle.std.specs.Prelude.{◌+◌, ◌<◌};
ghost use Rattle.stacks.specs.Placing.{Next};
ghost use Rattle.lifts.specs.Lifting.{height_in};
ghost use Rattle.rooms.specs.Frames.{depth_in, Fits};
ghost use Rattle.rooms.specs.Rooms.{SomeOutside};
ghost use Rattle.ahead.specs.Ahead.{CanSee, AheadIs, TightIs, FollowIs};

use lifts::{Heights, Row, Shaft};
use rooms::{Frame, Lift, Spot, aside, room};

// What stands on the cassette, what stands in its way on the new place, and the room outside the two shafts.
#[derive(Clone, Copy)]
pub struct Ahead {
    pub cover: usize,
    pub load: usize,
    pub outside: usize,
}

pub fn look_ahead(f: Frame, heights: &Heights, from: Spot, to: Spot) -> Ahead
    requires fits { Fits f heights.now }
    requires can_see { CanSee f heights.now from.shaft.0 from.row.0 to.shaft.0 to.row.0 }
    ensures { AheadIs f heights.now from.shaft.0 from.row.0 to.shaft.0 to.row.0 result }
{
    let a = room(f, heights, from.shaft);
    let b = room(f, heights, to.shaft);
    let i = from.shaft.0 as usize;
    let j = to.shaft.0 as usize;
    Ahead {
        cover: (heights[i] - from.row.0) as usize,
        load: (heights[j] + 1 - to.row.0) as usize,
        outside: f.e - (a + b),
    }
}

// Whether the one slot left outside must be kept for the cassette itself.
fn tight(n: Ahead) -> bool
    requires outside_nonzero { 0 < n.outside }
    requires cover_bound { (n.cover < 256) × (n.load < 256) }
    ensures { TightIs n result }
{
    n.outside <= 1 && 1 < n.cover + n.load
}

// The next lift. Where `start` lets the search for a shaft outside begin is free.
pub fn next_lift(f: Frame, heights: &Heights, a: Shaft, b: Shaft, n: Ahead, start: Shaft) -> Lift
    requires fits { Fits f heights.now }
    requires outside_nonzero { (0 < n.outside) × (0 < n.cover + n.load) }
    requires cover_bound { (n.cover < 256) × (n.load < 256) }
    requires some_outside { SomeOutside f heights.now a.0 b.0 }
    ensures { Next f.m (depth_in f) a.0 b.0 n.cover n.load n.outside (height_in heights.now) result.from.0 result.to.0 }
{
    let c = aside(f, heights, a, b, start);
    if 0 < n.cover {
        if tight(n) {
            return Lift { from: a, to: b };
        }
        return Lift { from: a, to: c };
    }
    if tight(n) {
        return Lift { from: a, to: c };
    }
    Lift { from: b, to: c }
}

// Where the cassette stands after a lift: where it stood, or, if it was lifted, on top of the shaft entered, which was `high` before.
pub fn follow(at: Spot, cover: usize, t: Lift, high: u8) -> Spot
    requires { high < 16 }
    ensures { FollowIs at cover t high result }
{
    if cover == 0 && t.from.0 == at.shaft.0 {
        return Spot {
            shaft: t.to,
            row: Row(high + 1),
        };
    }
    at
}
