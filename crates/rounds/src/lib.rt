// Rounds of direct placement: each brings the next row of one shaft of the goal into place, fills the row that was lent for it again, and keeps every row that
// is in place already; round after round, until the store is the goal.
#![tactic(auto)]

ghost use Rattle.std.specs.Prelude.{◌+◌, ◌*◌, ◌≤◌, length};
ghost use Rattle.choices.specs.Choices.{RoundFor};
ghost use Rattle.turns.specs.Turning.{OnTheWay};
ghost use Rattle.serving.specs.Serving.{deepest};
ghost use Rattle.rounds.specs.Rounds.{CanRestore, GrownIs, rows_left, ArrivedIs};

use agreeing::{finished, next};
use choices::{Round, choose};
use finding::seek;
use lifts::{Heights, Row, Shaft};
use moves::Work;
use placing::place::place;
use rooms::{Frame, Spot};
use serving::serve;
use store::Store;

// Fills the top row of a shaft again.
fn restore(
    f: Frame,
    goal: &Store,
    done: &mut Heights,
    work: &mut Work,
    shaft: Shaft,
    count: usize,
    out: &mut [u8],
) -> usize
    requires on_the_way { OnTheWay f goal.now.heights goal.now.slots done.old work.old.heights work.old.slots }
    requires can_restore { CanRestore f goal.now.heights done.old shaft.0 }
    requires f_in_bounds { count + (deepest f + 1) ≤ length out.old }
    ensures { GrownIs f goal.now.heights goal.now.slots done.old work.old.heights work.old.slots shaft.0 (deepest f + 1) count out.old done.new work.new.heights work.new.slots result out.new }
{
    let v = next(goal, done, shaft);
    let at = seek(f, work, done, v);
    let i = shaft.0 as usize;
    let row = done[i] + 1;
    done[i] = row;
    if at.shaft.0 == shaft.0 {
        return count;
    }
    let to = Spot {
        shaft,
        row: Row(row),
    };
    place(f, work, at, to, count, out)
}

// Plays a round: one row more of its shaft is in place, and every row that was passed still is.
pub fn play(
    f: Frame,
    goal: &Store,
    done: &mut Heights,
    work: &mut Work,
    r: Round,
    count: usize,
    out: &mut [u8],
) -> usize
    requires on_the_way { OnTheWay f goal.now.heights goal.now.slots done.old work.old.heights work.old.slots }
    requires round_for { RoundFor f goal.now.heights goal.now.slots done.old work.old.heights work.old.slots r }
    requires f_in_bounds { count + (4 * deepest f + 8) ≤ length out.old }
    ensures { GrownIs f goal.now.heights goal.now.slots done.old work.old.heights work.old.slots r.to.0 (4 * deepest f + 8) count out.old done.new work.new.heights work.new.slots result out.new }
{
    let t = serve(f, goal, done, work, r, count, out);
    match t.owed {
        Some(c) => restore(f, goal, done, work, c, t.count, out),
        None => t.count,
    }
}

// Plays rounds until every row of the goal is passed, and gives the end of the list. `done` says how many rows of each shaft are passed already.
pub fn play_all(
    f: Frame,
    goal: &Store,
    done: &mut Heights,
    work: &mut Work,
    out: &mut [u8],
) -> usize
    requires on_the_way { OnTheWay f goal.now.heights goal.now.slots done.old work.old.heights work.old.slots }
    requires f_in_bounds { rows_left f goal.now.heights done.old * (4 * deepest f + 8) ≤ length out.old }
    ensures { ArrivedIs f goal.now.heights goal.now.slots done.old work.old.heights work.old.slots out.old done.new work.new.heights work.new.slots result out.new }
{
    let mut count: usize = 0;
    while !finished(f, goal, done) {
        let r = choose(f, goal, done, work);
        count = play(f, goal, done, work, r, count, out);
    }
    count
}
