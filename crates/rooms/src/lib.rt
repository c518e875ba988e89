// A store that is lent as its arrays with its frame apart: the shafts that lifts may use, and where there is room.
#![tactic(auto)]

ghost use Rattle.std.specs.Prelude.{◌≡◌, ◌+◌, ltb};
ghost use Rattle.stacks.specs.Run.{Usable};
ghost use Rattle.stacks.specs.Placing.{Outside};
ghost use Rattle.stacks.specs.Deciding.{Decides};
ghost use Rattle.lifts.specs.Lifting.{height_in};
ghost use Rattle.rooms.specs.Frames.{depth_in, Fits};
ghost use Rattle.rooms.specs.Rooms.{OutsideIs, SomeOutside};

use depths::{Depths, depth_of};
use lifts::{Heights, Row, Shaft};

// The shafts that may be used are those below m, each with its depth; e slots are empty.
#[derive(Clone, Copy)]
pub struct Frame {
    pub m: u8,
    pub depths: Depths,
    pub e: usize,
}

// A row of a shaft.
#[derive(Clone, Copy)]
pub struct Spot {
    pub shaft: Shaft,
    pub row: Row,
}

// The shaft left and the shaft entered.
#[derive(Clone, Copy)]
pub struct Lift {
    pub from: Shaft,
    pub to: Shaft,
}

// The depth of a shaft.
pub fn depth(f: Frame, x: Shaft) -> u8
    ensures { result ≡ depth_in f x.0 }
{
    depth_of(f.depths, x.0 as usize)
}

// Whether lifts may use a shaft.
pub fn usable(f: Frame, x: Shaft) -> bool
    ensures { result ≡ ltb x.0 f.m }
{
    x.0 < f.m
}

// The room of a shaft.
pub fn room(f: Frame, heights: &Heights, x: Shaft) -> usize
    requires fits { Fits f heights.now }
    requires usable { Usable f.m x.0 }
    ensures { result + height_in heights.now x.0 ≡ depth_in f x.0 }
{
    (depth(f, x) - heights[x.0 as usize]) as usize
}

// Whether c has room and is another than a and b.
pub fn is_outside(f: Frame, heights: &Heights, a: Shaft, b: Shaft, c: Shaft) -> bool
    requires { Fits f heights.now }
    ensures { Decides result (Outside f.m (depth_in f) a.0 b.0 (height_in heights.now) c.0) }
{
    usable(f, c) && c.0 != a.0 && c.0 != b.0 && heights[c.0 as usize] < depth(f, c)
}

// A shaft that has room and is another than a and b, or that none from `start` on is one. Which one is free.
pub fn outside_from(f: Frame, heights: &Heights, a: Shaft, b: Shaft, start: Shaft) -> Option<Shaft>
    requires { Fits f heights.now }
    ensures { OutsideIs f heights.now a.0 b.0 start.0 result }
{
    (start.0..f.m)
        .map(Shaft)
        .find(|x| is_outside(f, heights, a, b, *x))
}

// A shaft that has room and is another than a and b, where there is one. Which one is free, and any start will do.
pub fn aside(f: Frame, heights: &Heights, a: Shaft, b: Shaft, start: Shaft) -> Shaft
    requires fits { Fits f heights.now }
    requires some_outside { SomeOutside f heights.now a.0 b.0 }
    ensures { Outside f.m (depth_in f) a.0 b.0 (height_in heights.now) result.0 }
{
    if let Some(c) = outside_from(f, heights, a, b, start) {
        return c;
    }
    if let Some(c) = outside_from(f, heights, a, b, Shaft(0)) {
        return c;
    }
    a
}
