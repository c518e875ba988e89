// One lift (document 000, Definition 3.2): "takes the top cassette of one shaft and sets it on top of another". Whether it is allowed,
// and the lift made in place.
#![tactic(auto)]

ghost use Rattle.std.specs.Prelude.{◌≡◌, ◌<◌, get_or};
ghost use Rattle.lifts.specs.Carried.{CanCarry, CarriedIs};
ghost use Rattle.lifts.specs.Lifting.{most_shafts, slot_count, height_in, refusal_by};
ghost use Rattle.lifts.specs.Numbers.{Only, judged_number};

use marks::Cassette;

// "A shaft is counted from 0 and a row from 1, so neither is accepted where the other is due."
#[derive(Clone, Copy)]
pub struct Shaft(pub u8);

#[derive(Clone, Copy)]
pub struct Row(pub u8);

// The height of each shaft.
pub type Heights = [u8; 16];

// 16 slots for a shaft, from row 1 upward, 0 for an empty one.
pub type Slots = [Cassette; 256];

// Why a lift is refused: 11, 13, 14.
#[derive(Clone, Copy)]
pub enum Refusal {
    Shafts,
    Empty,
    Full,
}

// Whether a lift between two shafts of m, with these heights, the second of depth d, is allowed, or else why not.
pub fn judge(m: u8, d: u8, from: Shaft, to: Shaft, left: u8, entered: u8) -> Result<(), Refusal>
    ensures { Only judged_number (refusal_by m d from.0 to.0 left entered) result }
{
    if m <= from.0 || m <= to.0 || from.0 == to.0 {
        return Err(Refusal::Shafts);
    }
    if left == 0 {
        return Err(Refusal::Empty);
    }
    if d <= entered {
        return Err(Refusal::Full);
    }
    Ok(())
}

// The height of a shaft.
pub fn height_at(heights: &Heights, x: usize) -> u8
    requires { x < most_shafts }
    ensures { result ≡ height_in heights.now x }
{
    heights[x]
}

// The height of a shaft; 0 for a shaft above 15.
pub fn height_of(heights: &Heights, x: Shaft) -> u8
    ensures { result ≡ height_in heights.now x.0 }
{
    heights.get(x.0 as usize).copied().unwrap_or(0)
}

// The slot at a place.
pub fn slot_at(slots: &Slots, i: usize) -> Cassette
    requires { i < slot_count }
    ensures { result ≡ get_or slots.now i 0 }
{
    slots[i]
}

// The cassette that a lift carried, and the row it landed in.
#[derive(Clone, Copy)]
pub struct Carried {
    pub cassette: Cassette,
    pub row: Row,
}

// One allowed lift, made in the heights and the slots of a store.
pub fn carry(heights: &mut Heights, slots: &mut Slots, from: Shaft, to: Shaft) -> Carried
    requires { CanCarry heights.old from.0 to.0 }
    ensures { CarriedIs heights.old slots.old from.0 to.0 heights.new slots.new result }
{
    let a = from.0 as usize;
    let b = to.0 as usize;
    let top = heights[a];
    let low = heights[b];
    let left = 16 * a + (top as usize - 1);
    let cassette = slot_at(slots, left);
    slots[left] = 0;
    slots[16 * b + low as usize] = cassette;
    heights[a] = top - 1;
    heights[b] = low + 1;
    Carried {
        cassette,
        row: Row(low + 1),
    }
}
