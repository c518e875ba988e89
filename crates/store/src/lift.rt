// The store by its shafts and rows, and the single lift (document 000, Definition 3.2): "takes the top cassette of one shaft and sets
// it on top of another".
ghost use Rattle.std.specs.Prelude.{◌≡◌};
ghost use Rattle.store.specs.Slots.{height, has_slot, content_of};
ghost use Rattle.store.specs.Promises.{TriedIs, LiftIs};
ghost use Rattle.store.specs.Sound.{Shaped};

use crate::{LiftFault, Lifted, Store};
use depths::{depth_of, slot_there};
use lifts::{Carried, Refusal, Row, Shaft, carry, height_of, judge};
use marks::Cassette;

// What is told of a lift that is refused: cassette 0, row 0.
fn nothing() -> Carried
    ensures { (result.cassette ≡ 0) × (result.row.0 ≡ 0) }
{
    Carried {
        cassette: 0,
        row: Row(0),
    }
}

// A lift tried in a store, in place: made, or refused and nothing changed.
pub fn try_lift(s: &mut Store, from: Shaft, to: Shaft) -> Result<Carried, Refusal>
    requires { Shaped s.old }
    ensures { TriedIs s.old from.0 to.0 s.new result }
{
    let left = height_of(&s.heights, from);
    let entered = height_of(&s.heights, to);
    let depth = depth_of(s.depths, to.0 as usize);
    judge(s.m, depth, from, to, left, entered)?;
    Ok(carry(&mut s.heights, &mut s.slots, from, to))
}

impl Store {
    // The height of a shaft; 0 for a shaft above 15.
    pub fn height(self, x: Shaft) -> u8
        ensures { result ≡ height self x.0 }
    {
        height_of(&self.heights, x)
    }

    // Whether the store has a row of a shaft.
    pub fn has_slot(self, x: Shaft, y: Row) -> bool
        ensures { result ≡ has_slot self x.0 y.0 }
    {
        slot_there(self.m, self.depths, x, y)
    }

    // The content of a slot, 0 for an empty one and where the store has no such slot.
    pub fn content(self, x: Shaft, y: Row) -> Cassette
        ensures { result ≡ content_of self x.0 y.0 }
    {
        if !self.has_slot(x, y) {
            return 0;
        }
        let i = x.0 as usize;
        let row = y.0 as usize;
        self.slots[16 * i + (row - 1)]
    }

    // One lift: the changed store, with the cassette carried and its row, or the store as it came with the number that refuses it.
    pub fn lift(self, from: Shaft, to: Shaft) -> Lifted
        ensures { LiftIs self from.0 to.0 result }
    {
        if let Err(f) = self.check() {
            return Lifted {
                store: self,
                carried: nothing(),
                answer: Err(LiftFault::StoreRefused(f)),
            };
        }
        let mut store = self;
        match try_lift(&mut store, from, to) {
            Ok(carried) => Lifted {
                store,
                carried,
                answer: Ok(()),
            },
            Err(r) => Lifted {
                store,
                carried: nothing(),
                answer: Err(LiftFault::LiftRefused(r)),
            },
        }
    }
}
