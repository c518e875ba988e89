// The replay of a list of lifts (document 01, "Which comes first"): run through, or stopped at the first lift that is refused;
// and how often each cassette was carried (document 02, 2/13).
#![tactic(auto)]

ghost use Rattle.std.specs.Prelude.{◌≡◌, ◌+◌, ◌-◌, ◌*◌, ◌%◌, ◌^◌};
ghost use Rattle.lifts.specs.Lifting.{height_in};
ghost use Rattle.store.specs.Accept.{Accepted};
ghost use Rattle.replay.specs.Counting.{NoneCounted, CanCount, CountIs};
ghost use Rattle.replay.specs.Promises.{carries_of, PlayIs, ReplayIs};
ghost use Rattle.replay.specs.Replaying.{replay_from, replay};

use lift_bytes::{entered_of, left_of};
use lifts::{Heights, Refusal, Row, Shaft, height_at};
use marks::Cassette;
use store::lift::try_lift;
use store::{Fault, Store};

// How a run ends: after its last step; at a step that is refused, with why; or before its first, as the store is refused.
#[derive(Clone, Copy)]
pub enum End<R> {
    RunThrough,
    Stopped(R),
    StoreRefused(Fault),
}

// A count beside each slot of a store: how often the cassette that stands there was carried, if it is no blank, and 0 beside an empty slot. The carries
// of blanks are counted together (request 5/13): the counts beside the slots that show one add up to them, and how they are spread is left free.
pub type Carries = [usize; 256];

// The store reached, how often each of its cassettes was carried, the count of lifts done, and how the replay ended.
#[derive(Clone, Copy)]
pub struct Replayed {
    pub store: Store,
    pub carries: Carries,
    pub count: usize,
    pub end: End<Refusal>,
}

impl Replayed {
    // How often a cassette was carried: the counts beside the slots that show it, added up, of which the low 64 bits.
    pub fn carries_of(self, c: Cassette) -> usize
        ensures { result ≡ carries_of c self.store.slots self.carries % 2 ^ 64 }
    {
        let mut times: usize = 0;
        for i in 0..256 {
            if self.store.slots[i] == c {
                times = times.wrapping_add(self.carries[i]);
            }
        }
        times
    }
}

// The count of steps done, and how the run ended.
#[derive(Clone, Copy)]
pub struct Played<R> {
    pub count: usize,
    pub end: End<R>,
}

// After a lift that landed in a row: the count of its cassette goes with it, one more. Where there isn't a count for each slot, none
// changes.
fn count_carry(carries: &mut [usize], heights: &Heights, from: Shaft, to: Shaft, row: Row)
    requires { CanCount carries.old heights.now from.0 to.0 row.0 }
    ensures { CountIs carries.old (16 * from.0 + height_in heights.now from.0) (16 * to.0 + (row.0 - 1)) carries.new }
{
    if carries.len() != 256 {
        return;
    }
    let left = 16 * (from.0 as usize) + (height_at(heights, from.0 as usize) as usize);
    let times = carries[left];
    carries[left] = 0;
    carries[16 * (to.0 as usize) + (row.0 as usize - 1)] = times + 1;
}

// The lifts of a list, one after the other, made in an accepted store. A count of 0 is lent for each slot, or none at all where nobody asks how often
// a cassette was carried.
pub fn play(s: &mut Store, carries: &mut [usize], list: &[u8]) -> Played<Refusal>
    requires accepted { Accepted s.old }
    requires none_counted { NoneCounted carries.old }
    ensures { PlayIs (replay_from s.old list.now) s.new carries.new result }
{
    for (count, b) in list.iter().enumerate() {
        let from = left_of(*b);
        let to = entered_of(*b);
        match try_lift(s, from, to) {
            Ok(carried) => count_carry(carries, &s.heights, from, to, carried.row),
            Err(r) => {
                return Played {
                    count,
                    end: End::Stopped(r),
                };
            }
        }
    }
    Played {
        count: list.len(),
        end: End::RunThrough,
    }
}

// The replay of a list on a store, or the store as it came where it is refused.
pub fn replay(s: Store, list: &[u8]) -> Replayed
    ensures { ReplayIs (replay s list.now) result }
{
    let mut carries = [0; 256];
    if let Err(f) = s.check() {
        return Replayed {
            store: s,
            carries,
            count: 0,
            end: End::StoreRefused(f),
        };
    }
    let mut store = s;
    let played = play(&mut store, &mut carries, list);
    Replayed {
        store,
        carries,
        count: played.count,
        end: played.end,
    }
}
