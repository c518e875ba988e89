// A shaft served: the next cassette of it brought into place, out of its own shaft first if it stands there.
#![tactic(auto)]

ghost use Rattle.std.specs.Prelude.{◌+◌, ◌*◌, ◌≤◌, length};
ghost use Rattle.choices.specs.Choices.{RoundFor};
ghost use Rattle.turns.specs.Turning.{OnTheWay, Ready};
ghost use Rattle.serving.specs.Serving.{deepest, most_lifts, ServedIs};

use choices::Round;
use lifts::{Heights, Row};
use moves::Work;
use placing::leave::leave;
use placing::place::place;
use rooms::{Frame, Spot};
use store::Store;
use turns::{Turned, make_room};

// Brings a cassette that stands in another shaft to its row.
fn bring(
    f: Frame,
    goal: &Store,
    done: &mut Heights,
    work: &mut Work,
    at: Spot,
    to: Spot,
    count: usize,
    out: &mut [u8],
) -> Turned
    requires ready { Ready f goal.now.heights goal.now.slots done.old work.old.heights work.old.slots at to }
    requires to_in_bounds { count + most_lifts work.old.heights at to ≤ length out.old }
    ensures { ServedIs f goal.now.heights goal.now.slots done.old work.old.heights work.old.slots to.shaft.0 (most_lifts work.old.heights at to) count out.old done.new work.new.heights work.new.slots result out.new }
{
    let room = make_room(f, goal, done, work, at, to, count, out);
    let end = place(f, work, at, to, room.count, out);
    let i = to.shaft.0 as usize;
    done[i] = to.row.0;
    Turned {
        owed: room.owed,
        count: end,
    }
}

// Brings the cassette of a round to its row, out of its own shaft first if it stands in it.
pub fn serve(
    f: Frame,
    goal: &Store,
    done: &mut Heights,
    work: &mut Work,
    r: Round,
    count: usize,
    out: &mut [u8],
) -> Turned
    requires on_the_way { OnTheWay f goal.now.heights goal.now.slots done.old work.old.heights work.old.slots }
    requires round_for { RoundFor f goal.now.heights goal.now.slots done.old work.old.heights work.old.slots r }
    requires f_in_bounds { count + (3 * deepest f + 4) ≤ length out.old }
    ensures { ServedIs f goal.now.heights goal.now.slots done.old work.old.heights work.old.slots r.to.0 (3 * deepest f + 4) count out.old done.new work.new.heights work.new.slots result out.new }
{
    let shaft = r.to;
    let from = r.from;
    let i = shaft.0 as usize;
    let row = done[i] + 1;
    let to = Spot {
        shaft,
        row: Row(row),
    };
    if from.shaft.0 == shaft.0 {
        if from.row.0 == row {
            done[i] = row;
            return Turned { owed: None, count };
        }
        let off = leave(f, work, from, count, out);
        return bring(f, goal, done, work, off.at, to, off.count, out);
    }
    bring(f, goal, done, work, from, to, count, out)
}
