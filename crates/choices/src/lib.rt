// The choice of a round: which shaft gets its next row, and where its cassette is taken from. `propose` is free to say anything: what it says is tested, and
// `first_round` is what is proved to be there.
#![tactic(auto)]

ghost use Rattle.std.specs.Prelude.{ℕ, ◌≤◌, ◌<◌};
ghost use Rattle.stacks.specs.Run.{Usable};
ghost use Rattle.stacks.specs.Deciding.{Decides};
ghost use Rattle.lifts.specs.Lifting.{height_in};
ghost use Rattle.rooms.specs.Frames.{Fits};
ghost use Rattle.agreeing.specs.Agreeing.{Finished};
ghost use Rattle.choices.specs.Choices.{RoundFor, SomeRound};

use agreeing::next;
use finding::{find, spot_at, stands};
use lifts::{Heights, Shaft};
use moves::Work;
use rooms::{Frame, Spot, usable};
use store::Store;

// A round: the shaft that gets its next row, and where the cassette for it stands.
#[derive(Clone, Copy)]
pub struct Round {
    pub to: Shaft,
    pub from: Spot,
}

// What a place costs: 16, and the cassettes from it up; less where its shaft does not reach it.
fn cover(heights: &Heights, p: u8) -> u8
    requires { (x : ℕ) → height_in heights.now x ≤ 16 }
    ensures { result ≤ 32 }
{
    let i = (p / 16) as usize;
    16 + heights[i] - p % 16
}

// The round that looks cheapest: of the shafts that are not finished, the one where what stands there and what covers its next cassette are fewest. The hints of
// `work` are where each number was set down last. Nothing is promised, and nothing is asked of the hints.
fn propose(f: Frame, goal: &Store, done: &Heights, work: &Work) -> Round
    requires fits { Fits f goal.now.heights }
    requires fits_2 { Fits f work.now.heights }
{
    let mut least: u8 = 255;
    let mut cheapest = Round {
        to: Shaft(0),
        from: spot_at(0),
    };
    for x in 0..f.m {
        let i = x as usize;
        if done[i] < goal.heights[i] {
            let v = next(goal, done, Shaft(x)) as usize;
            let p = work.hints[v % 4096];
            let cost = work.heights[i] + cover(&work.heights, p);
            if cost < least {
                least = cost;
                cheapest = Round {
                    to: Shaft(x),
                    from: spot_at(p),
                };
            }
        }
    }
    cheapest
}

// Whether a round can be played.
fn playable(f: Frame, goal: &Store, done: &Heights, work: &Work, r: Round) -> bool
    requires fits { Fits f goal.now.heights }
    requires fits_2 { Fits f work.now.heights }
    ensures { Decides result (RoundFor f goal.now.heights goal.now.slots done.now work.now.heights work.now.slots r) }
{
    let i = r.to.0 as usize;
    usable(f, r.to)
        && done[i] < goal.heights[i]
        && stands(f, work, done, next(goal, done, r.to), r.from)
}

// A shaft that is not finished.
fn first_left(f: Frame, goal: &Store, done: &Heights) -> Shaft
    requires m_bound { f.m ≤ 16 }
    requires fact { Finished f goal.now.heights done.now → ⊥ }
    ensures { Usable f.m result.0 × (height_in done.now result.0 < height_in goal.now.heights result.0) }
{
    for x in 0..f.m {
        let i = x as usize;
        if done[i] < goal.heights[i] {
            return Shaft(x);
        }
    }
    Shaft(0)
}

// A shaft that is not finished, and a place of its next cassette.
fn first_round(f: Frame, goal: &Store, done: &Heights, work: &Work) -> Round
    requires fits { Fits f goal.now.heights }
    requires fits_2 { Fits f work.now.heights }
    requires some_round { SomeRound f goal.now.heights goal.now.slots done.now work.now.heights work.now.slots }
    ensures { RoundFor f goal.now.heights goal.now.slots done.now work.now.heights work.now.slots result }
{
    let to = first_left(f, goal, done);
    let v = next(goal, done, to);
    let from = find(f, work, done, v).unwrap_or(spot_at(0));
    Round { to, from }
}

// A round that can be played.
pub fn choose(f: Frame, goal: &Store, done: &Heights, work: &Work) -> Round
    requires fits { Fits f goal.now.heights }
    requires fits_2 { Fits f work.now.heights }
    requires some_round { SomeRound f goal.now.heights goal.now.slots done.now work.now.heights work.now.slots }
    ensures { RoundFor f goal.now.heights goal.now.slots done.now work.now.heights work.now.slots result }
{
    let r = propose(f, goal, done, work);
    if playable(f, goal, done, work, r) {
        return r;
    }
    first_round(f, goal, done, work)
}
