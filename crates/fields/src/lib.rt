// The fields of an image (document 01, "Which comes first"): the next one, the head and the end. "Reading goes field by field, and the first fault met is given".
#![tactic(auto)]

ghost use Rattle.std.specs.Prelude.{◌≡◌, ◌^◌, ◌≤◌, ◌<◌, drop};
ghost use Rattle.bits.specs.Fields.{bits_of};
ghost use Rattle.image.specs.Image.{form_in};
ghost use Rattle.image.specs.Reading.{padding};
ghost use Rattle.fields.specs.Steps.{FieldIs, FieldIfIs, HeadIs, EndIs};

use bits::read_field;
use forms::own_depths;
use image::ReadFault;

// The next field of w bits from a position on, which moves past it: "2 for a missing field".
pub fn next_field(image: &[u8], at: &mut usize, w: usize) -> Result<u16, ReadFault>
    requires { (0 < w) × (w ≤ 16) × (at.old ≤ 9000) }
    ensures { FieldIs image.now w at.old at.new result }
{
    let value = read_field(image, *at, w).ok_or(ReadFault::Short)?;
    *at += w;
    Ok(value)
}

// The next field of w bits where it is there, else the value v.
pub fn field_if(
    image: &[u8],
    at: &mut usize,
    there: bool,
    w: usize,
    v: u16,
) -> Result<u16, ReadFault>
    requires w_nonzero { (0 < w) × (w ≤ 16) × (at.old ≤ 9000) }
    requires v_bound { v < 2 ^ w }
    ensures { FieldIfIs image.now there w v at.old at.new result }
{
    if there {
        return next_field(image, at, w);
    }
    Ok(v)
}

// Whether the bits from a position on are zero bits to the end of a byte.
fn padded(image: &[u8], at: usize) -> bool
    ensures { result ≡ padding (drop at (bits_of image.now)) }
{
    if image.len() <= at / 8 {
        return true;
    }
    if at % 8 == 0 {
        return false;
    }
    if at / 8 + 1 < image.len() {
        return false;
    }
    read_field(image, at, 8 - at % 8) == Some(0)
}

// After the last shaft: 7 unless zero bits to the end of the byte are all that is left.
pub fn finished(image: &[u8], at: usize) -> Result<(), ReadFault>
    ensures { EndIs image.now at result }
{
    if !padded(image, at) {
        return Err(ReadFault::Padding);
    }
    Ok(())
}

// The form that an image names: its first field.
pub fn form_in(image: &[u8]) -> u8
    ensures { result ≡ form_in image.now }
{
    read_field(image, 0, 4).unwrap_or(0) as u8
}

// The form, m, and in form 0 the depth − 1 of all shafts; and where the first shaft begins.
#[derive(Clone, Copy)]
pub struct Head {
    pub form: u8,
    pub m: u8,
    pub depth: u16,
    pub at: usize,
}

// The form, 1 for one above 2; m − 1; and where no shaft has its own the depth − 1.
pub fn read_head(image: &[u8]) -> Result<Head, ReadFault>
    ensures { HeadIs image.now result }
{
    let mut at = 0;
    let form = next_field(image, &mut at, 4)? as u8;
    if form > 2 {
        return Err(ReadFault::WrongForm);
    }
    let size = next_field(image, &mut at, 4)? as u8;
    let depth = field_if(image, &mut at, !own_depths(form), 4, 0)?;
    Ok(Head {
        form,
        m: size + 1,
        depth,
        at,
    })
}
