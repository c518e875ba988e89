// A cassette taken out of its own shaft.
ghost use Rattle.std.specs.Prelude.{◌+◌, ◌-◌, ◌≤◌, length};
ghost use Rattle.lifts.specs.Lifting.{height_in};
ghost use Rattle.rooms.specs.Frames.{Held};
ghost use Rattle.placing.specs.Left.{CanLeave, LeftIs};

use lifts::{Row, Shaft};
use moves::Work;
use rooms::{Frame, Spot, aside};

// Where the cassette stands now, and the end of the list.
#[derive(Clone, Copy)]
pub struct Off {
    pub at: Spot,
    pub count: usize,
}

// Lifts what covers the cassette at `from`, and then the cassette, to other shafts.
pub fn leave(f: Frame, work: &mut Work, from: Spot, count: usize, out: &mut [u8]) -> Off
    requires held { Held f work.old.heights work.old.slots }
    requires can_leave { CanLeave f work.old.heights from.shaft.0 from.row.0 }
    requires row_in_bounds { count + (height_in work.old.heights from.shaft.0 + 1 - from.row.0) ≤ length out.old }
    ensures { LeftIs f work.old.heights work.old.slots from.shaft.0 from.row.0 count out.old work.new.heights work.new.slots result out.new }
{
    let b = from.shaft;
    let i = b.0 as usize;
    let mut n = count;
    let mut start = Shaft(0);
    while from.row.0 < work.heights[i] {
        let c = aside(f, &work.heights, b, b, start);
        n = work.put_lift(b, c, n, out);
        start = c;
    }
    let shaft = aside(f, &work.heights, b, b, start);
    let high = work.heights[shaft.0 as usize];
    let end = work.put_lift(b, shaft, n, out);
    Off {
        at: Spot {
            shaft,
            row: Row(high + 1),
        },
        count: end,
    }
}
