// The number of document 01, or of document 02, for each refusal and for each answer, 0 where nothing is refused. The definitions are in specs/Numbers.antt
// of the crate of each; that of a result is `result_number` in marks/specs/Taking.antt, that of an end `run_number` in replay/specs/Numbers.antt.
#![tactic(auto)]

ghost use Rattle.std.specs.Prelude.{◌≡◌, ℕ};
ghost use Rattle.marks.specs.Taking.{result_number};
ghost use Rattle.lifts.specs.Numbers.{refusal_number};
ghost use Rattle.store.specs.Numbers.{fault_number, lift_fault_number};
ghost use Rattle.replay.specs.Numbers.{run_number};
ghost use Rattle.entries.specs.Numbers.{untrue_number};
ghost use Rattle.image.specs.Numbers.{read_fault_number, write_fault_number};

use entries::Untrue;
use image::{ReadFault, WriteFault};
use lifts::Refusal;
use replay::End;
use store::{Fault, LiftFault};

// What has a number: a refusal, or an answer that may be one.
pub trait Numbered {
    ghost number: { Self → ℕ };

    fn number(self) -> u8
        ensures { result ≡ number self };
}

impl Numbered for Refusal {
    ghost number = { refusal_number };

    fn number(self) -> u8 {
        match self {
            Refusal::Shafts => 11,
            Refusal::Empty => 13,
            Refusal::Full => 14,
        }
    }
}

impl Numbered for Fault {
    ghost number = { fault_number };

    fn number(self) -> u8 {
        match self {
            Fault::OutOfPlace => 12,
            Fault::TooHigh => 3,
            Fault::NoCassette => 4,
            Fault::Twice => 5,
        }
    }
}

impl Numbered for LiftFault {
    ghost number = { lift_fault_number };

    fn number(self) -> u8 {
        match self {
            LiftFault::StoreRefused(f) => f.number(),
            LiftFault::LiftRefused(r) => r.number(),
        }
    }
}

impl Numbered for Untrue {
    ghost number = { untrue_number };

    fn number(self) -> u8 {
        match self {
            Untrue::Malformed => 19,
            Untrue::ShaftEmpty => 13,
            Untrue::ShaftFull => 14,
            Untrue::WrongNumber => 20,
        }
    }
}

impl Numbered for ReadFault {
    ghost number = { read_fault_number };

    fn number(self) -> u8 {
        match self {
            ReadFault::WrongForm => 1,
            ReadFault::Short => 2,
            ReadFault::TooHigh => 3,
            ReadFault::NumberZero => 4,
            ReadFault::Twice => 5,
            ReadFault::Padding => 7,
        }
    }
}

impl Numbered for WriteFault {
    ghost number = { write_fault_number };

    fn number(self) -> u8 {
        match self {
            WriteFault::StoreRefused(f) => f.number(),
            WriteFault::WrongForm => 1,
            WriteFault::CannotHold => 18,
            WriteFault::NoRoom => 10,
        }
    }
}

// The end of a replay, or of a log that is followed.
impl<R: Numbered> Numbered for End<R> {
    ghost number = { run_number R.number };

    fn number(self) -> u8 {
        match self {
            End::RunThrough => 0,
            End::Stopped(r) => r.number(),
            End::StoreRefused(f) => f.number(),
        }
    }
}

// An answer, whatever comes with it, or a refusal.
impl<A: Copy, E: Numbered> Numbered for Result<A, E> {
    ghost number = { result_number E.number };

    fn number(self) -> u8 {
        match self {
            Ok(_) => 0,
            Err(e) => e.number(),
        }
    }
}
