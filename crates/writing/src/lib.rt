// Writing an image in the form that the caller names (document 02, 8/13): the store's faults, then 1, 18, 10, and then the fields one after the other.
#![tactic(auto)]

ghost use Rattle.image.specs.Writing.{WriteIs};

use forms::{can_hold, length_in};
use image::WriteFault;
use image_parts::{write_head, write_shafts};
use store::Store;

// The image of a store in a form, in the first of the lent bytes: how many they are. A refusal writes none.
pub fn write(form: u8, s: Store, out: &mut [u8]) -> Result<usize, WriteFault>
    ensures { WriteIs form s out.old out.new result }
{
    s.check()?;
    if form > 2 {
        return Err(WriteFault::WrongForm);
    }
    if !can_hold(form, s) {
        return Err(WriteFault::CannotHold);
    }
    if out.len() < length_in(form, s) {
        return Err(WriteFault::NoRoom);
    }
    let head = write_head(form, s, out);
    let all = write_shafts(form, &s, out, head);
    let end = all.pad(out);
    Ok(end.at)
}
