// The cassette store: what stands where, whether a store given as a value is accepted, and single lifts (document 01, "The store";
// document 000, Definitions 3.1 and 3.2). The definitions that the contracts cite are in specs/.
#![tactic(auto)]

pub mod accept;
pub mod lift;

ghost use Rattle.std.specs.Prelude.{◌≡◌};
ghost use Rattle.store.specs.Numbers.{fault_of};
ghost use Rattle.store.specs.Slots.{empty_store};

use depths::Depths;
use lifts::{Carried, Heights, Refusal, Slots};
use marks::CassetteFault;

// m shafts; the depth and the height of each shaft; and the slots, 16 for a shaft from row 1 upward, 0 for an empty one.
#[derive(Clone, Copy, PartialEq, Eq)]
pub struct Store {
    pub m: u8,
    pub depths: Depths,
    pub heights: Heights,
    pub slots: Slots,
}

impl Store {
    // m shafts of these depths with no cassette.
    pub fn empty(m: u8, depths: Depths) -> Store
        ensures { result ≡ empty_store m depths }
    {
        Store {
            m,
            depths,
            heights: [0; 16],
            slots: [0; 256],
        }
    }
}

// Why a store given as a value is refused: 12, 3, 4, 5.
#[derive(Clone, Copy)]
pub enum Fault {
    OutOfPlace,
    TooHigh,
    NoCassette,
    Twice,
}

impl From<CassetteFault> for Fault {
    ghost from_gives = { λ f r. r ≡ fault_of f };

    fn from(f: CassetteFault) -> Fault {
        match f {
            CassetteFault::NoCassette => Fault::NoCassette,
            CassetteFault::Twice => Fault::Twice,
        }
    }
}

// Why a single lift is refused: the store's own fault, or 11, 13, 14.
#[derive(Clone, Copy)]
pub enum LiftFault {
    StoreRefused(Fault),
    LiftRefused(Refusal),
}

// The store after a single lift and the cassette that it carried with the row it landed in; where the lift is refused, the store as it came,
// cassette 0 and row 0.
#[derive(Clone, Copy)]
pub struct Lifted {
    pub store: Store,
    pub carried: Carried,
    pub answer: Result<(), LiftFault>,
}
