// A cassette brought to a row of another shaft.
ghost use Rattle.std.specs.Prelude.{◌+◌, ◌≤◌, length};
ghost use Rattle.rooms.specs.Frames.{Held};
ghost use Rattle.placing.specs.Placed.{CanPlace, lifts_ahead, PlacedIs};

use ahead::{follow, look_ahead, next_lift};
use lifts::Shaft;
use moves::Work;
use rooms::{Frame, Spot};

// Brings the cassette at `from` to the row `to` of another shaft, lift by lift.
pub fn place(f: Frame, work: &mut Work, from: Spot, to: Spot, count: usize, out: &mut [u8]) -> usize
    requires held { Held f work.old.heights work.old.slots }
    requires can_place { CanPlace f work.old.heights from.shaft.0 from.row.0 to.shaft.0 to.row.0 }
    requires row_in_bounds { count + lifts_ahead f work.old.heights from.shaft.0 from.row.0 to.shaft.0 to.row.0 ≤ length out.old }
    ensures { PlacedIs f work.old.heights work.old.slots from.shaft.0 from.row.0 to.shaft.0 to.row.0 count out.old work.new.heights work.new.slots result out.new }
{
    let mut at = from;
    let mut n = count;
    let mut start = Shaft(0);
    let mut view = look_ahead(f, &work.heights, at, to);
    while 0 < view.cover + view.load {
        let t = next_lift(f, &work.heights, at.shaft, to.shaft, view, start);
        let high = work.heights[t.to.0 as usize];
        n = work.put_lift(t.from, t.to, n, out);
        at = follow(at, view.cover, t, high);
        start = t.to;
        view = look_ahead(f, &work.heights, at, to);
    }
    work.put_lift(at.shaft, to.shaft, n, out)
}
