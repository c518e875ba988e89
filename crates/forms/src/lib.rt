// The forms of images (document 02, 7/13 and 8/13): which of them has a depth for each shaft, how wide a cassette is and which value stands for it, which
// stores each can hold, and how long an image is.
#![tactic(auto)]

ghost use Rattle.std.specs.Prelude.{◌≡◌, true, false, ℕ, ◌≤◌, ◌<◌, get_or};
ghost use Rattle.stacks.specs.Deciding.{Decides};
ghost use Rattle.lifts.specs.Lifting.{slot_count};
ghost use Rattle.depths.specs.Depths.{depth_by};
ghost use Rattle.image.specs.Coding.{blank_value, meant, coded, codable};
ghost use Rattle.image.specs.Image.{own_depths, wide_width, cassette_width, depth_fields, length_in, holds};

use depths::{Depths, depth_of, sum_of};
use lifts::Slots;
use marks::{Cassette, is_blank};
use store::Store;

// Whether each shaft has its own depth in a form.
pub fn own_depths(form: u8) -> bool
    ensures { result ≡ own_depths form }
{
    0 < form
}

// How many bits a cassette has in a form.
pub fn cassette_width(form: u8) -> usize
    ensures { result ≡ cassette_width form }
{
    if 1 < form { 12 } else { 8 }
}

// The value of w bits that stands for the blank.
fn blank_value(w: usize) -> u16
    requires { w < 16 }
    ensures { result ≡ blank_value w }
{
    (1u16 << w) - 1
}

// The number that a value of w bits stands for. With no branch, as in `coded`: where blanks stand can't be foretold. From the value that stands for the blank to the
// blank it is 2^12 less 2^w.
pub fn meant(w: usize, v: u16) -> Cassette
    requires { w ≤ wide_width }
    ensures { result ≡ meant w v }
{
    let one = (v == blank_value(w)) as u16;
    v + (one << 12) - (one << w)
}

// The value of w bits that stands for a number.
pub fn coded(w: usize, c: Cassette) -> u16
    requires { w ≤ wide_width }
    ensures { result ≡ coded w c }
{
    let one = is_blank(c) as u16;
    c + (one << w) - (one << 12)
}

// Whether there is a value of w bits that stands for a number.
fn codable(w: usize, c: Cassette) -> bool
    requires { w < 16 }
    ensures { result ≡ codable w c }
{
    is_blank(c) || c < blank_value(w)
}

// Whether there is one for every number of the slots.
fn all_codable(w: usize, slots: &Slots) -> bool
    requires { w < 16 }
    ensures { Decides result ((i : ℕ) → i < slot_count → codable w (get_or slots.now i 0) ≡ true) }
{
    slots.iter().all(|c| codable(w, *c))
}

fn equal_depths(m: u8, depths: Depths) -> bool
    ensures { Decides result ((x : ℕ) → x < m → depth_by depths x ≡ depth_by depths 0) }
{
    let first = depth_of(depths, 0);
    for x in 0..m {
        if depth_of(depths, x as usize) != first {
            return false;
        }
    }
    true
}

// Whether the depths are equal, where a form has one for all shafts.
fn depths_held(form: u8, m: u8, depths: Depths) -> bool
    ensures { Decides result (own_depths form ≡ false → (x : ℕ) → x < m → depth_by depths x ≡ depth_by depths 0) }
{
    own_depths(form) || equal_depths(m, depths)
}

// Whether a form can hold a store: else 18.
pub fn can_hold(form: u8, s: Store) -> bool
    ensures { result ≡ holds form s }
{
    depths_held(form, s.m, s.depths) && all_codable(cassette_width(form), &s.slots)
}

// How many depths an image of m shafts names.
fn depth_fields(form: u8, m: u8) -> usize
    ensures { result ≡ depth_fields form m }
{
    if own_depths(form) { m as usize } else { 1 }
}

// How many bytes the image of a store in a form has.
pub fn length_in(form: u8, s: Store) -> usize
    ensures { result ≡ length_in form s }
{
    let m = s.m as usize;
    let n = sum_of(s.m, s.heights) as usize;
    let bits = 8 + 4 * depth_fields(form, s.m) + 5 * m + n * cassette_width(form);
    (bits + 7) / 8
}
