// Whether number 12 applies (document 01; document 02, 7/13) to the frame and the arrays of a store: m and the depths in range, and nothing recorded where
// no cassette may stand.
#![tactic(auto)]

ghost use Rattle.std.specs.Prelude.{◌≡◌, ◌<◌};
ghost use Rattle.lifts.specs.Lifting.{most_shafts};
ghost use Rattle.in_place.specs.InPlace.{all_below, fillable, rows_in_place, in_range, depth_in_place, shaft_in_place, arrays_in_place};

use depths::{Depths, depth_of};
use lifts::{Heights, Slots, height_at, slot_at};

// How many slots of a shaft may hold something.
fn fillable_rows(m: u8, heights: &Heights, x: usize) -> usize
    requires { x < most_shafts }
    ensures { result ≡ fillable m heights.now x }
{
    if x < m as usize {
        height_at(heights, x) as usize
    } else {
        0
    }
}

// Whether nothing is recorded above a shaft's height, nor for a shaft not below m.
fn rows_in_place(m: u8, heights: &Heights, slots: &Slots, x: usize) -> bool
    requires { x < most_shafts }
    ensures { result ≡ rows_in_place m heights.now slots.now x }
{
    let rows = fillable_rows(m, heights, x);
    if rows < height_at(heights, x) as usize {
        return false;
    }
    for k in rows..16 {
        if slot_at(slots, 16 * x + k) != 0 {
            return false;
        }
    }
    true
}

// 1 to 16.
fn in_range(k: u8) -> bool
    ensures { result ≡ in_range k }
{
    0 < k && k <= 16
}

// Whether the depth of a shaft is in range, or none is recorded where the shaft is not below m.
fn depth_in_place(m: u8, depths: Depths, x: usize) -> bool
    ensures { result ≡ depth_in_place m depths x }
{
    let d = depth_of(depths, x);
    if x < m as usize { in_range(d) } else { d == 0 }
}

fn shaft_in_place(m: u8, depths: Depths, heights: &Heights, slots: &Slots, x: usize) -> bool
    requires { x < most_shafts }
    ensures { result ≡ shaft_in_place m depths heights.now slots.now x }
{
    depth_in_place(m, depths, x) && rows_in_place(m, heights, slots, x)
}

fn shafts_in_place(m: u8, depths: Depths, heights: &Heights, slots: &Slots) -> bool
    ensures { result ≡ all_below most_shafts (shaft_in_place m depths heights.now slots.now) }
{
    for x in 0..16 {
        if !shaft_in_place(m, depths, heights, slots, x) {
            return false;
        }
    }
    true
}

// Whether number 12 does not apply.
pub fn arrays_in_place(m: u8, depths: Depths, heights: &Heights, slots: &Slots) -> bool
    ensures { result ≡ arrays_in_place m depths heights.now slots.now }
{
    in_range(m) && shafts_in_place(m, depths, heights, slots)
}
