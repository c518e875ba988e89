// What the C calls share: an answer put together, a refusal that writes nothing, and images read.
#![tactic(auto)]

ghost use Rattle.std.specs.Prelude.{◌≡◌};
ghost use Rattle.marks.specs.Taking.{result_number};
ghost use Rattle.calls.specs.HandedBack.{lent_number, LentIs};
ghost use Rattle.calls.specs.Shared.{answer_of, count_in, RefusedCall, OneIs, BothAre};

use image::{Read, ReadFault};
use numbers::Numbered;
use reading::read;
use store::Store;

// The two parts of an answer put together.
pub fn answer(count: usize, number: u8) -> u64
    ensures { result ≡ answer_of count number }
{
    (count as u64) % 72057594037927936 * 256 + (number as u64)
}

// The answer of a call that gives a count, or is refused.
pub fn answered<E: Numbered>(r: Result<usize, E>) -> u64
    ensures { result ≡ answer_of (count_in r) (result_number E.number r) }
{
    match r {
        Ok(count) => answer(count, 0),
        Err(f) => answer(0, f.number()),
    }
}

// A refused call on lent bytes: the number alone, and the bytes as they came.
pub fn refused(number: u8, out: &mut [u8]) -> u64
    ensures { RefusedCall number out.old out.new result }
{
    number as u64
}

// An image read for a call.
pub fn read_one(image: &[u8]) -> Read
    ensures { OneIs image.now result }
{
    read(image)
}

// Why an image is not read for a call that hands a store back: a fault of reading, or 10.
#[derive(Clone, Copy)]
pub enum LentFault {
    Unread(ReadFault),
    NoRoom,
}

impl Numbered for LentFault {
    ghost number = { lent_number };

    fn number(self) -> u8 {
        match self {
            LentFault::Unread(f) => f.number(),
            LentFault::NoRoom => 10,
        }
    }
}

// An image read for a call that hands a store back in its form: whether it is, or else why not, and its store, the empty one of one shaft of depth 1 where
// the image is refused.
#[derive(Clone, Copy)]
pub struct Lent {
    pub answer: Result<(), LentFault>,
    pub store: Store,
}

// An image read, and 10 besides, where fewer bytes are lent than it has.
pub fn read_lent(image: &[u8], lent: usize) -> Lent
    ensures { LentIs image.now lent result }
{
    let one = read_one(image);
    let store = one.store;
    if let Err(f) = one.answer {
        return Lent {
            answer: Err(LentFault::Unread(f)),
            store,
        };
    }
    if lent < image.len() {
        return Lent {
            answer: Err(LentFault::NoRoom),
            store,
        };
    }
    Lent {
        answer: Ok(()),
        store,
    }
}

// Two images that were read: whether both are accepted, or else the fault of the first that is refused; and their stores where none is.
#[derive(Clone, Copy)]
pub struct Both {
    pub answer: Result<(), ReadFault>,
    pub start: Store,
    pub goal: Store,
}

// "read start first"
pub fn read_both(start: &[u8], goal: &[u8]) -> Both
    ensures { BothAre start.now goal.now result }
{
    let one = read_one(start);
    if let Err(f) = one.answer {
        return Both {
            answer: Err(f),
            start: one.store,
            goal: one.store,
        };
    }
    let two = read_one(goal);
    Both {
        answer: two.answer,
        start: one.store,
        goal: two.store,
    }
}
