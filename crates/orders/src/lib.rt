// Orders (document 02, 1/13): "a lent row of records that each name a cassette and receive its answer". `answered` does the work for one of them.
#![tactic(auto)]

ghost use Rattle.uncovering.specs.Promises.{Ready};
ghost use Rattle.orders.specs.Orders.{OrderIs, RowIs, UncoverIs};

use empties::empty_slots;
use store::{Fault, Store};
use uncovering::{fewest_lifts, uncovering_lifts, uncovering_number};

// An order: the cassette it names, and its answer.
#[repr(C)]
#[derive(Clone, Copy)]
pub struct Order {
    pub cassette: u16,
    pub number: u8,
    pub lifts: u8,
}

// One order answered.
fn answered(s: &Store, e: usize, order: Order) -> Order
    requires { Ready s.now e }
    ensures { OrderIs s.now order result }
{
    let answer = fewest_lifts(s, e, order.cassette);
    Order {
        cassette: order.cassette,
        number: uncovering_number(answer),
        lifts: uncovering_lifts(answer),
    }
}

// Every order of a row answered, on an accepted store with e empty slots.
fn answer_row(s: &Store, e: usize, orders: &mut [Order])
    requires { Ready s.now e }
    ensures { RowIs s.now orders.old orders.new }
{
    for order in orders.iter_mut() {
        *order = answered(s, e, *order);
    }
}

// A row of orders answered on a store given as a value, or left as it came where the store is refused.
pub fn uncover(s: Store, orders: &mut [Order]) -> Result<(), Fault>
    ensures { UncoverIs s orders.old result orders.new }
{
    s.check()?;
    answer_row(&s, empty_slots(s) as usize, orders);
    Ok(())
}
