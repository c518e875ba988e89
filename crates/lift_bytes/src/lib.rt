// A lift as one byte (document 01, "The list"): "the shaft left in the high four bits, the shaft entered in the low four".
#![tactic(auto)]

ghost use Rattle.std.specs.Prelude.{◌≡◌, ◌%◌};
ghost use Rattle.lifts.specs.Bytes.{left, entered, lift_byte};

use lifts::Shaft;

// The byte of a lift. Of a shaft above 15 only the low four bits count.
pub fn pack(from: Shaft, to: Shaft) -> u8
    ensures { result ≡ lift_byte (from.0 % 16) (to.0 % 16) }
{
    let x = from.0 & 15;
    let y = to.0 & 15;
    (x << 4) | y
}

pub fn left_of(b: u8) -> Shaft
    ensures { result.0 ≡ left b }
{
    Shaft(b >> 4)
}

pub fn entered_of(b: u8) -> Shaft
    ensures { result.0 ≡ entered b }
{
    Shaft(b & 15)
}
