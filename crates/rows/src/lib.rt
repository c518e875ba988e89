// The cassettes of a shaft, taken from row 1 upward.
#![tactic(auto)]

ghost use Rattle.std.specs.Prelude.{◌≤◌, ◌<◌};
ghost use Rattle.lifts.specs.Lifting.{most_shafts, most_rows};
ghost use Rattle.rows.specs.Rows.{RowsAre};

use lifts::{Slots, slot_at};
use marks::{CassetteFault, Words, take};

// Takes rows 1 to `rows` of a shaft, up to the first that is refused.
pub fn take_rows(
    slots: &Slots,
    x: usize,
    rows: usize,
    marks: &mut Words,
) -> Result<(), CassetteFault>
    requires { (x < most_shafts) × (rows ≤ most_rows) }
    ensures { RowsAre marks.old slots.now x rows marks.new result }
{
    for k in 0..rows {
        take(marks, slot_at(slots, 16 * x + k))?;
    }
    Ok(())
}
