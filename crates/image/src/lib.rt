// Images of stores (document 01, "The image"; document 02, 7/13 and 8/13): the answers of reading and of writing one. The definitions that the contracts of `reading`
// and `writing` cite are in specs/; proofs/RoundTrip.antt shows how the two undo each other.
#![tactic(auto)]

ghost use Rattle.std.specs.Prelude.{◌≡◌};
ghost use Rattle.image.specs.Numbers.{read_fault_of};
ghost use Rattle.image.specs.declared.WriteFault.TheVariants.{StoreRefused};

use marks::CassetteFault;
use store::{Fault, Store};

// Why an image is refused: 1 to 5, 7.
#[derive(Clone, Copy)]
pub enum ReadFault {
    WrongForm,
    Short,
    TooHigh,
    NumberZero,
    Twice,
    Padding,
}

impl From<CassetteFault> for ReadFault {
    ghost from_gives = { λ f r. r ≡ read_fault_of f };

    fn from(f: CassetteFault) -> ReadFault {
        match f {
            CassetteFault::NoCassette => ReadFault::NumberZero,
            CassetteFault::Twice => ReadFault::Twice,
        }
    }
}

// The store that an image stands for, or the empty store of one shaft of depth 1 where it is refused.
#[derive(Clone, Copy)]
pub struct Read {
    pub store: Store,
    pub answer: Result<(), ReadFault>,
}

// Why an image is not written in the form named: the store's number, 1, 18, 10.
#[derive(Clone, Copy)]
pub enum WriteFault {
    StoreRefused(Fault),
    WrongForm,
    CannotHold,
    NoRoom,
}

impl From<Fault> for WriteFault {
    ghost from_gives = { λ f r. r ≡ StoreRefused f };

    fn from(f: Fault) -> WriteFault {
        WriteFault::StoreRefused(f)
    }
}
