// One entry of the changer's log (document 02, 9/13): taken from the bits of the log, compared with a store, and where it is a lift made in place.
#![tactic(auto)]

ghost use Rattle.std.specs.Prelude.{false, ◌≡◌, ◌+◌, ◌*◌, ◌≤◌, ◌<◌, eqb, length, drop};
ghost use Rattle.bits.specs.Fields.{field, bits_of};
ghost use Rattle.lifts.specs.Lifting.{most_shafts, most_rows};
ghost use Rattle.lifts.specs.Numbers.{Only, refusal_number};
ghost use Rattle.store.specs.Slots.{height, top_of};
ghost use Rattle.store.specs.Sound.{Shaped};
ghost use Rattle.entries.specs.Entries.{entry_bytes, entry_in, malformed, entry_fault};
ghost use Rattle.entries.specs.Numbers.{untrue_number, truth_number};
ghost use Rattle.entries.specs.Promises.{lift_fault, EntryIs};

use bits::read_field;
use depths::depth_of;
use lifts::{Refusal, Shaft, carry, height_at, height_of, judge, slot_at};
use marks::Cassette;
use store::Store;

// "kind (4 bits), shaft (4), second shaft (4), number (12)"
#[derive(Clone, Copy)]
pub struct Entry {
    pub kind: u8,
    pub shaft: Shaft,
    pub second: Shaft,
    pub number: Cassette,
}

// Why an entry can't be true: 19, 13, 14, 20.
#[derive(Clone, Copy)]
pub enum Untrue {
    Malformed,
    ShaftEmpty,
    ShaftFull,
    WrongNumber,
}

impl From<Refusal> for Untrue {
    ghost from_gives = { λ r u. (refusal_number r ≡ 11 → ⊥) → untrue_number u ≡ refusal_number r };

    // A lift refused by 13 or 14; 11 is ruled out where 19 is.
    fn from(r: Refusal) -> Untrue {
        match r {
            Refusal::Shafts => Untrue::Malformed,
            Refusal::Empty => Untrue::ShaftEmpty,
            Refusal::Full => Untrue::ShaftFull,
        }
    }
}

// A field of w bits that is there.
fn field_there(log: &[u8], at: usize, w: usize) -> u16
    requires { (0 < w) × (w ≤ 16) × (at + w ≤ length log.now * 8) }
    ensures { result ≡ field (drop at (bits_of log.now)) w }
{
    read_field(log, at, w).unwrap()
}

// The first entry of a log that has one.
pub fn first_entry(log: &[u8]) -> Entry
    requires { entry_bytes ≤ length log.now }
    ensures { result ≡ entry_in (bits_of log.now) }
{
    Entry {
        kind: field_there(log, 0, 4) as u8,
        shaft: Shaft(field_there(log, 4, 4) as u8),
        second: Shaft(field_there(log, 8, 4) as u8),
        number: field_there(log, 12, 12),
    }
}

// Whether 19 applies to an entry, in a store of m shafts.
fn is_malformed(m: u8, e: Entry) -> bool
    ensures { result ≡ malformed m e }
{
    let shaft = e.shaft;
    let second = e.second;
    if e.kind > 1 {
        return true;
    }
    if m <= shaft.0 {
        return true;
    }
    if m <= second.0 {
        return true;
    }
    if e.kind == 1 {
        return second.0 != 0;
    }
    shaft.0 == second.0
}

// Whether 13 or 14 applies to an entry that is well formed.
fn judge_entry(s: &Store, e: Entry) -> Result<(), Untrue>
    requires { malformed s.now.m e ≡ false }
    ensures { truth_number result ≡ lift_fault s.now e }
{
    if e.kind != 0 {
        return Ok(());
    }
    let from = e.shaft;
    let to = e.second;
    let depth = depth_of(s.depths, to.0 as usize);
    let left = height_of(&s.heights, from);
    let entered = height_of(&s.heights, to);
    judge(s.m, depth, from, to, left, entered)?;
    Ok(())
}

// Whether a number is what the store shows on top of a shaft: 0 for an empty one.
fn shows(s: &Store, x: Shaft, number: Cassette) -> bool
    requires { (x.0 < most_shafts) × (height s.now x.0 ≤ most_rows) }
    ensures { result ≡ eqb number (top_of s.now x.0) }
{
    let i = x.0 as usize;
    let rows = height_at(&s.heights, i) as usize;
    if rows == 0 {
        return number == 0;
    }
    number == slot_at(&s.slots, 16 * i + (rows - 1))
}

// Whether an entry can be true of a store, or else why not.
fn compare(s: &Store, e: Entry) -> Result<(), Untrue>
    requires { Shaped s.now }
    ensures { Only truth_number (entry_fault s.now e) result }
{
    if is_malformed(s.m, e) {
        return Err(Untrue::Malformed);
    }
    judge_entry(s, e)?;
    if !shows(s, e.shaft, e.number) {
        return Err(Untrue::WrongNumber);
    }
    Ok(())
}

// An entry followed in a store: a lift that can be true is made in place.
pub fn follow_entry(s: &mut Store, e: Entry) -> Result<(), Untrue>
    requires { Shaped s.old }
    ensures { EntryIs s.old e s.new result }
{
    compare(s, e)?;
    if e.kind == 0 {
        carry(&mut s.heights, &mut s.slots, e.shaft, e.second);
    }
    Ok(())
}
