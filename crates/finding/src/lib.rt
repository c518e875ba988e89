// The plain search for a cassette that is not passed.
#![tactic(auto)]

ghost use Rattle.std.specs.Prelude.{◌≡◌, ◌+◌, ◌/◌, ◌%◌};
ghost use Rattle.stacks.specs.Deciding.{Decides};
ghost use Rattle.rooms.specs.Frames.{Fits};
ghost use Rattle.finding.specs.Finding.{Stands, FoundIs, Somewhere};

use lifts::{Heights, Row, Shaft};
use marks::Cassette;
use moves::Work;
use rooms::{Frame, Spot, usable};

// The place of a slot, of 16 to a shaft.
pub fn spot_at(p: u8) -> Spot
    ensures { (result.shaft.0 ≡ p / 16) × (result.row.0 ≡ p % 16 + 1) }
{
    Spot {
        shaft: Shaft(p / 16),
        row: Row(p % 16 + 1),
    }
}

// Whether v stands in a row of a shaft, and is not passed there.
pub fn stands(f: Frame, work: &Work, done: &Heights, v: Cassette, at: Spot) -> bool
    requires { Fits f work.now.heights }
    ensures { Decides result (Stands f work.now.heights work.now.slots done.now v at.shaft.0 at.row.0) }
{
    let i = at.shaft.0 as usize;
    let y = at.row.0;
    usable(f, at.shaft)
        && done[i] < y
        && y <= work.heights[i]
        && work.slots[16 * i + (y as usize - 1)] == v
}

// A place where v stands and is not passed, or that there is none.
pub fn find(f: Frame, work: &Work, done: &Heights, v: Cassette) -> Option<Spot>
    requires { Fits f work.now.heights }
    ensures { FoundIs f work.now.heights work.now.slots done.now v result }
{
    for p in 0..=255 {
        let at = spot_at(p);
        if stands(f, work, done, v, at) {
            return Some(at);
        }
    }
    None
}

// A place where v stands and is not passed, where there is one: the one hinted at, if it is right, or else one that is looked for.
pub fn seek(f: Frame, work: &Work, done: &Heights, v: Cassette) -> Spot
    requires fits { Fits f work.now.heights }
    requires somewhere { Somewhere f work.now.heights work.now.slots done.now v }
    ensures { Stands f work.now.heights work.now.slots done.now v result.shaft.0 result.row.0 }
{
    let at = spot_at(work.hints[v as usize % 4096]);
    if stands(f, work, done, v, at) {
        return at;
    }
    find(f, work, done, v).unwrap_or(at)
}
