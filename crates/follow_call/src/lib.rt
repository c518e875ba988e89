// The C call that follows a log on the store of an image (document 02, 9/13).
#![tactic(auto)]

ghost use Rattle.follow_call.specs.FollowCall.{FollowCallIs};

use calls::{answer, read_lent, refused};
use fields::form_in;
use logs::trace;
use numbers::Numbered;
use writing::write;

// Follows a log on a store and writes the store before the first entry that can't be true, or after the whole log, in the form of the image given; or writes nothing.
pub fn call_follow(image: &[u8], log: &[u8], out: &mut [u8]) -> u64
    ensures { FollowCallIs image.now log.now out.old result out.new }
{
    let lent = read_lent(image, out.len());
    if let Err(f) = lent.answer {
        return refused(f.number(), out);
    }
    let mut reached = lent.store;
    let traced = trace(&mut reached, log);
    // Nothing refuses it: the image's form holds what lifts lead to, in as many bytes.
    let _ = write(form_in(image), reached, out);
    answer(traced.count, traced.end.number())
}
