// Lists of lifts written as bytes: one lift made in place and written, and a lift many times over.
#![tactic(auto)]

ghost use Rattle.std.specs.Prelude.{◌≡◌, ◌+◌, ◌≤◌, ◌<◌, length, replicate};
ghost use Rattle.lifts.specs.Bytes.{lift_byte};
ghost use Rattle.lifts.specs.Carried.{CanCarry};
ghost use Rattle.moves.specs.Put.{PutIs};
ghost use Rattle.moves.specs.Written.{written};

use lift_bytes::pack;
use lifts::{Heights, Shaft, Slots, carry};

// For each number a place: 16 for a shaft, from row 1 upward. No promise rests on it, and numbers that leave the same remainder by 4,096 share one.
pub type Hints = [u8; 4096];

// What lifts change: the heights and the slots of a store, and where each number was set down last.
#[derive(Drop)]
pub struct Work {
    pub heights: Heights,
    pub slots: Slots,
    pub hints: Hints,
}

impl Work {
    // One lift: made in the heights and the slots, and its byte written at the end of the list. It gives the new end.
    pub fn put_lift(&mut self, from: Shaft, to: Shaft, count: usize, out: &mut [u8]) -> usize
        requires can_carry { CanCarry self.old.heights from.0 to.0 }
        requires count_in_bounds { count < length out.old }
        ensures { PutIs self.old.heights self.old.slots from.0 to.0 count out.old self.new.heights self.new.slots result out.new }
    {
        let carried = carry(&mut self.heights, &mut self.slots, from, to);
        self.hints[carried.cassette as usize % 4096] = 16 * to.0 + (carried.row.0 - 1);
        out[count] = pack(from, to);
        count + 1
    }
}

// Writes a byte k times from a place on, and gives the place after them.
pub fn put_many(out: &mut [u8], at: usize, b: u8, k: usize) -> usize
    requires { at + k ≤ length out.old }
    ensures { (result ≡ at + k) × (out.new ≡ written out.old at (replicate k b)) }
{
    out[at..at + k].fill(b);
    at + k
}

// The shift of k cassettes from one shaft to another.
pub fn put_shift(out: &mut [u8], at: usize, from: Shaft, to: Shaft, k: usize) -> usize
    requires k_in_bounds { at + k ≤ length out.old }
    requires from_bound { (from.0 < 16) × (to.0 < 16) }
    ensures { (result ≡ at + k) × (out.new ≡ written out.old at (replicate k (lift_byte from.0 to.0))) }
{
    put_many(out, at, pack(from, to), k)
}
