// Acceptance of a store given as a value (document 01, "Which comes first"): the first fault in order, for every value whatever.
ghost use Rattle.std.specs.Prelude.{◌≤◌};
ghost use Rattle.lifts.specs.Lifting.{most_shafts};
ghost use Rattle.store.specs.Slots.{cassettes};
ghost use Rattle.depths.specs.Depths.{DepthsFit};
ghost use Rattle.store.specs.Accept.{store_fault};
ghost use Rattle.store.specs.Checking.{ShaftsAre};
ghost use Rattle.store.specs.Promises.{CheckIs};

use crate::{Fault, Store};
use depths::depth_of;
use in_place::arrays_in_place;
use lifts::height_at;
use marks::{Words, none};
use rows::take_rows;

// The shafts in the order of an image, each with its height and then its rows: the first fault, or the marks of the cassettes but blanks.
fn check_shafts(s: &Store) -> Result<Words, Fault>
    requires { (s.now.m ≤ most_shafts) × DepthsFit s.now.depths }
    ensures { ShaftsAre s.now result }
{
    let mut marks = none();
    for x in 0..s.m as usize {
        let rows = height_at(&s.heights, x);
        if depth_of(s.depths, x) < rows {
            return Err(Fault::TooHigh);
        }
        take_rows(&s.slots, x, rows as usize, &mut marks)?;
    }
    Ok(marks)
}

impl Store {
    // The first fault of a store given as a value, or else, it being accepted, the marks of its cassettes but blanks.
    pub fn check(self) -> Result<Words, Fault>
        ensures { CheckIs (store_fault self) (cassettes self) result }
    {
        if !arrays_in_place(self.m, self.depths, &self.heights, &self.slots) {
            return Err(Fault::OutOfPlace);
        }
        check_shafts(&self)
    }
}
