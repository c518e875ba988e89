// The calls for the controller's C program, on byte slices (document 01, "calls for the controller's C program on numbers and byte
// slices") and on a row of orders (document 02, 1/13); the header is include/halyardgage.h. Each returns count × 256 + number.
#![tactic(auto)]

ghost use Rattle.std.specs.Prelude.{◌≡◌};
ghost use Rattle.calls.specs.Shared.{read_fault};
ghost use Rattle.convert_call.specs.ConvertCall.{ConvertCallIs};
ghost use Rattle.follow_call.specs.FollowCall.{FollowCallIs};
ghost use Rattle.halyardgage.specs.UncoverCall.{UncoverCallIs};
ghost use Rattle.pair_calls.specs.PairCalls.{ReachCallIs, PlanCallIs};
ghost use Rattle.replay_call.specs.ReplayCall.{ReplayCallIs};

use calls::read_one;
use convert_call::call_convert;
use follow_call::call_follow;
use numbers::Numbered;
use orders::{Order, uncover};
use pair_calls::{call_plan, call_reachable};
use replay_call::call_replay;

// Whether an image is accepted.
#[unsafe(no_mangle)]
pub extern "C" fn halyard_check(image: &[u8]) -> u64
    ensures { result ≡ read_fault image.now }
{
    read_one(image).answer.number() as u64
}

// Whether some list of legal lifts leads from start to goal.
#[unsafe(no_mangle)]
pub extern "C" fn halyard_reachable(start: &[u8], goal: &[u8]) -> u64
    ensures { ReachCallIs start.now goal.now result }
{
    call_reachable(start, goal)
}

// Writes a list of lifts that leads from start to goal, or nothing.
#[unsafe(no_mangle)]
pub extern "C" fn halyard_plan(start: &[u8], goal: &[u8], list: &mut [u8]) -> u64
    ensures { PlanCallIs start.now goal.now list.old result list.new }
{
    call_plan(start, goal, list)
}

// Writes the store of an image in the form named, or nothing.
#[unsafe(no_mangle)]
pub extern "C" fn halyard_convert(image: &[u8], form: u8, out: &mut [u8]) -> u64
    ensures { ConvertCallIs image.now form out.old result out.new }
{
    call_convert(image, form, out)
}

// Plays a list on a store and writes the store reached, in the form of the image given, or nothing.
#[unsafe(no_mangle)]
pub extern "C" fn halyard_replay(image: &[u8], list: &[u8], out: &mut [u8]) -> u64
    ensures { ReplayCallIs image.now list.now out.old result out.new }
{
    call_replay(image, list, out)
}

// Follows a log on a store and writes the store before the first entry that can't be true, or after the whole log, in the form of the image given; or writes nothing.
#[unsafe(no_mangle)]
pub extern "C" fn halyard_follow(image: &[u8], log: &[u8], out: &mut [u8]) -> u64
    ensures { FollowCallIs image.now log.now out.old result out.new }
{
    call_follow(image, log, out)
}

// Answers a row of orders on the store of an image, or leaves the row as it came.
#[unsafe(no_mangle)]
pub extern "C" fn halyard_uncover(image: &[u8], orders: &mut [Order]) -> u64
    ensures { UncoverCallIs image.now orders.old result orders.new }
{
    let one = read_one(image);
    if one.answer.is_ok() {
        // Nothing refuses it: the store of an accepted image is accepted.
        let _ = uncover(one.store, orders);
    }
    one.answer.number() as u64
}
