// How many blanks stand in a store (document 02, 5/13: "n is the marks of the others plus the count of blanks").
#![tactic(auto)]

ghost use Rattle.std.specs.Prelude.{◌≡◌, ◌≤◌, ◌<◌};
ghost use Rattle.stacks.specs.Count.{count};
ghost use Rattle.marks.specs.Cassettes.{blank};
ghost use Rattle.lifts.specs.Lifting.{most_shafts, most_rows};
ghost use Rattle.rows.specs.Rows.{rows_up};
ghost use Rattle.store.specs.Accept.{Accepted};
ghost use Rattle.store.specs.Slots.{cassettes};

use lifts::{Slots, height_at, slot_at};
use marks::is_blank;
use store::Store;

// How many of rows 1 to `rows` of a shaft show a blank.
fn blanks_in(slots: &Slots, x: usize, rows: usize) -> usize
    requires { (x < most_shafts) × (rows ≤ most_rows) }
    ensures blanks { result ≡ count blank (rows_up slots.now x rows) }
    ensures most { result ≤ rows }
{
    let mut n: usize = 0;
    for k in 0..rows {
        n += is_blank(slot_at(slots, 16 * x + k)) as usize;
    }
    n
}

// The count of blanks of an accepted store.
pub fn blanks_of(s: Store) -> usize
    requires { Accepted s }
    ensures { result ≡ count blank (cassettes s) }
{
    let heights = s.heights;
    let slots = s.slots;
    let mut n: usize = 0;
    for x in 0..s.m as usize {
        n += blanks_in(&slots, x, height_at(&heights, x) as usize);
    }
    n
}
