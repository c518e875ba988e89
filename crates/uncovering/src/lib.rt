// How deep a cassette is buried (document 02, 1/13): "the fewest lifts after which nothing stands on a named cassette". The store is lent, so that
// no order costs a copy of it.
#![tactic(auto)]

ghost use Rattle.std.specs.Prelude.{◌≡◌, ◌+◌, ◌≤◌, ◌<◌};
ghost use Rattle.lifts.specs.Lifting.{most_shafts, most_rows};
ghost use Rattle.uncovering.specs.Nearest.{NearestIs, nearer_of};
ghost use Rattle.uncovering.specs.Numbers.{uncovering_number, uncovering_lifts};
ghost use Rattle.uncovering.specs.Promises.{Ready, UncoveringIs, TopRowIs};

use lifts::{Slots, height_at, slot_at};
use rules::floor_rows;
use store::Store;

// Why an order fails: the cassette isn't in the store, 16; no list of legal lifts uncovers it, 17. An order that is answered has the fewest lifts.
#[derive(Clone, Copy)]
pub enum Hidden {
    Absent,
    Buried,
}

// The number of an answer, 0 where the cassette can be uncovered.
pub fn uncovering_number(a: Result<u8, Hidden>) -> u8
    ensures { result ≡ uncovering_number a }
{
    match a {
        Ok(_) => 0,
        Err(Hidden::Absent) => 16,
        Err(Hidden::Buried) => 17,
    }
}

// The lifts of an answer, 0 where the order fails.
pub fn uncovering_lifts(a: Result<u8, Hidden>) -> u8
    ensures { result ≡ uncovering_lifts a }
{
    a.unwrap_or(0)
}

// The highest of rows 1 to `rows` of a shaft that shows a number, 0 for none. All rows are looked at: that is faster than to stop at the one found.
fn top_row(slots: &Slots, x: usize, rows: u8, number: u16) -> u8
    requires { (x < most_shafts) × (rows ≤ most_rows) }
    ensures { TopRowIs slots.now x rows number result }
{
    let mut top: u8 = 0;
    for k in 0..rows {
        if slot_at(slots, 16 * x + k as usize) == number {
            top = k + 1;
        }
    }
    top
}

// The answer by what one shaft shows: from the highest row that shows the number, under which every other is deeper.
fn in_shaft(s: &Store, e: usize, x: usize, number: u16) -> Result<u8, Hidden>
    requires ready { Ready s.now e }
    requires x_lt_m { x < s.now.m }
    ensures { NearestIs x (x + 1) s.now number result }
{
    let rows = height_at(&s.heights, x);
    let row = top_row(&s.slots, x, rows, number);
    if row == 0 {
        return Err(Hidden::Absent);
    }
    if (row as usize) < floor_rows(s.depths, x, e) {
        return Err(Hidden::Buried);
    }
    Ok(rows - row)
}

// The nearer of two answers.
fn nearer(a: Result<u8, Hidden>, b: Result<u8, Hidden>) -> Result<u8, Hidden>
    ensures { result ≡ nearer_of a b }
{
    match (a, b) {
        (Ok(j), Ok(k)) => Ok(j.min(k)),
        (Ok(j), Err(_)) => Ok(j),
        (Err(_), Ok(k)) => Ok(k),
        (Err(Hidden::Absent), Err(h)) => Err(h),
        (Err(Hidden::Buried), Err(_)) => Err(Hidden::Buried),
    }
}

// The fewest lifts that uncover a cassette, by its number: the nearest answer of all shafts.
pub fn fewest_lifts(s: &Store, e: usize, number: u16) -> Result<u8, Hidden>
    requires { Ready s.now e }
    ensures { UncoveringIs s.now number result }
{
    let mut best = Err(Hidden::Absent);
    for x in 0..s.m as usize {
        best = nearer(best, in_shaft(s, e, x, number));
    }
    best
}
