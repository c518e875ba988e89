// e, the count of empty slots of a store (document 02, 7/13), worked out in 16 bits (4/13), for every store value whatever.
#![tactic(auto)]

ghost use Rattle.std.specs.Prelude.{◌≡◌};
ghost use Rattle.store.specs.Slots.{empty_count};

use depths::{slots_of, sum_of};
use store::Store;

// "e is now the sum of the depths less n"; 0 where a value that is refused has more cassettes than slots.
pub fn empty_slots(s: Store) -> u16
    ensures { result ≡ empty_count s }
{
    let depths = s.depths;
    let heights = s.heights;
    let all = slots_of(s.m, depths);
    let n = sum_of(s.m, heights);
    if n < all { all - n } else { 0 }
}
