// The store of some of the shafts alone, numbered from 0 in their order (document 02, 10/13).
#![tactic(auto)]

ghost use Rattle.std.specs.Prelude.{◌≡◌, suc, ◌/◌, ◌%◌, ◌≤◌, ◌<◌, length, get_or};
ghost use Rattle.lifts.specs.Lifting.{most_shafts, most_rows, slot_count, shown};
ghost use Rattle.parts.specs.Parts.{tabulated, part};

use lifts::Slots;
use marks::Cassette;
use sets::numbering_of;
use store::Store;

// What is recorded for a shaft; 0 for a shaft above 15.
fn value_at(values: [u8; 16], x: u8) -> u8
    ensures { result ≡ get_or values x 0 }
{
    values.get(x as usize).copied().unwrap_or(0)
}

// What is recorded for each shaft, by the new numbers.
fn renumbered(values: [u8; 16], names: [u8; 16]) -> [u8; 16]
    ensures { result ≡ tabulated most_shafts (λ i. get_or values (get_or names i 0) 0) }
{
    let mut out = [0u8; 16];
    for i in 0..16 {
        out[i] = value_at(values, names[i]);
    }
    out
}

// Row k + 1 of a shaft; 0 for a shaft above 15.
fn row_at(slots: &Slots, x: u8, k: usize) -> Cassette
    requires { (length slots.now ≡ slot_count) × (k < most_rows) }
    ensures { result ≡ shown slots.now x (suc k) }
{
    slots.get(16 * x as usize + k).copied().unwrap_or(0)
}

// The slots, by the new numbers of the shafts.
fn renumbered_slots(slots: &Slots, names: [u8; 16]) -> Slots
    requires { length slots.now ≡ slot_count }
    ensures { result ≡ tabulated slot_count (λ p. shown slots.now (get_or names (p / 16) 0) (suc (p % 16))) }
{
    let mut out: Slots = [0; 256];
    for p in 0..256 {
        out[p] = row_at(slots, names[p / 16], p % 16);
    }
    out
}

// The store of the shafts of a set.
pub fn part_of(s: Store, set: u16) -> Store
    requires { s.m ≤ most_shafts }
    ensures { result ≡ part set s }
{
    let numbering = numbering_of(set, s.m);
    let names = numbering.names;
    let depths = s.depths;
    let heights = s.heights;
    let slots = s.slots;
    Store {
        m: numbering.count,
        depths: renumbered(depths, names),
        heights: renumbered(heights, names),
        slots: renumbered_slots(&slots, names),
    }
}
