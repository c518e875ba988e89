// The C call that writes the store of an image in the form named (document 02, 8/13).
#![tactic(auto)]

ghost use Rattle.convert_call.specs.ConvertCall.{ConvertCallIs};

use calls::{answered, read_one, refused};
use numbers::Numbered;
use writing::write;

// Writes the store of an image in a form, or nothing.
pub fn call_convert(image: &[u8], form: u8, out: &mut [u8]) -> u64
    ensures { ConvertCallIs image.now form out.old result out.new }
{
    let one = read_one(image);
    if let Err(f) = one.answer {
        return refused(f.number(), out);
    }
    answered(write(form, one.store, out))
}
