// The C call that plays a list on the store of an image.
#![tactic(auto)]

ghost use Rattle.replay_call.specs.ReplayCall.{ReplayCallIs};

use calls::{answer, read_lent, refused};
use fields::form_in;
use numbers::Numbered;
use replay::play;
use writing::write;

// Plays a list on a store and writes the store reached, in the form of the image given, or nothing.
pub fn call_replay(image: &[u8], list: &[u8], out: &mut [u8]) -> u64
    ensures { ReplayCallIs image.now list.now out.old result out.new }
{
    let lent = read_lent(image, out.len());
    if let Err(f) = lent.answer {
        return refused(f.number(), out);
    }
    let mut reached = lent.store;
    let played = play(&mut reached, &mut [], list);
    // Nothing refuses it: the image's form holds what lifts lead to, in as many bytes.
    let _ = write(form_in(image), reached, out);
    answer(played.count, played.end.number())
}
