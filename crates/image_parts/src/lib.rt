// The parts of an image written with a pen (document 01, "The image"; document 02, 7/13 and 8/13): its head, and its shafts in order.
#![tactic(auto)]

ghost use Rattle.std.specs.Prelude.{◌+◌, ◌-◌, ◌*◌, ◌≤◌, ◌<◌, length};
ghost use Rattle.pens.specs.Pens.{no_bits, Pushes};
ghost use Rattle.lifts.specs.Lifting.{most_shafts, most_rows};
ghost use Rattle.depths.specs.Depths.{depth_by};
ghost use Rattle.store.specs.Slots.{depth};
ghost use Rattle.rows.specs.Rows.{rows_up};
ghost use Rattle.image.specs.Coding.{cassette_bits};
ghost use Rattle.image.specs.Image.{frame_width, wide_width, field_if, head_bits, shaft_bits, shafts_bits};
ghost use Rattle.image_parts.specs.Promises.{CanWrite, CanWriteBelow};

use depths::{Depths, depth_of};
use forms::{cassette_width, coded, own_depths};
use lifts::{Slots, height_at, slot_at};
use pens::Pen;
use store::Store;

// The depth − 1 of shaft x, where it is there.
fn push_depth(there: bool, p: Pen, out: &mut [u8], depths: Depths, x: usize) -> Pen
    requires x_nonzero { (0 < depth_by depths x) × (depth_by depths x ≤ most_rows) × (p.full < 8) }
    requires x_bound { 8 * p.at + p.full + length (field_if there frame_width (depth_by depths x - 1)) ≤ 8 * length out.old }
    ensures { Pushes (field_if there frame_width (depth_by depths x - 1)) out.old out.new p result }
{
    if there {
        return p.push(out, (depth_of(depths, x) - 1) as u16, 4);
    }
    p
}

// The head: form, m − 1, and where no shaft has its own the depth − 1.
pub fn write_head(form: u8, s: Store, out: &mut [u8]) -> Pen
    requires m_nonzero { (0 < s.m) × (0 < depth s 0) × (depth s 0 ≤ most_rows) }
    requires s_len_bound { length (head_bits form s) ≤ 8 * length out.old }
    ensures { Pushes (head_bits form s) out.old out.new no_bits result }
{
    let named = Pen::start().push(out, form as u16, 4);
    let size = named.push(out, (s.m - 1) as u16, 4);
    push_depth(!own_depths(form), size, out, s.depths, 0)
}

// The first cassettes of shaft x, from row 1 upward, each as a field of w bits.
fn write_rows(slots: &Slots, out: &mut [u8], p: Pen, w: usize, x: usize, rows: usize) -> Pen
    requires x_lt_most_shafts { (x < most_shafts) × (rows ≤ most_rows) × (p.full < 8) }
    requires w_le_wide_width { (w ≤ wide_width) × (8 * p.at + p.full + rows * w ≤ 8 * length out.old) }
    ensures { Pushes (cassette_bits w (rows_up slots.now x rows)) out.old out.new p result }
{
    let mut q = p;
    for k in 0..rows {
        q = q.push(out, coded(w, slot_at(slots, 16 * x + k)), w);
    }
    q
}

// Shaft x: its depth, where it has its own, its height, and its rows.
fn write_shaft(form: u8, s: &Store, out: &mut [u8], p: Pen, x: usize) -> Pen
    requires can_write { CanWrite s.now.depths s.now.heights x }
    requires full_bound { (p.full < 8) × (8 * p.at + p.full + length (shaft_bits form s.now x) ≤ 8 * length out.old) }
    ensures { Pushes (shaft_bits form s.now x) out.old out.new p result }
{
    let deep = push_depth(own_depths(form), p, out, s.depths, x);
    let rows = height_at(&s.heights, x);
    let q = deep.push(out, rows as u16, 5);
    write_rows(&s.slots, out, q, cassette_width(form), x, rows as usize)
}

// The shafts of a store.
pub fn write_shafts(form: u8, s: &Store, out: &mut [u8], p: Pen) -> Pen
    requires can_write_below { CanWriteBelow s.now.depths s.now.heights s.now.m }
    requires full_bound { (p.full < 8) × (8 * p.at + p.full + length (shafts_bits form s.now s.now.m) ≤ 8 * length out.old) }
    ensures { Pushes (shafts_bits form s.now s.now.m) out.old out.new p result }
{
    let mut q = p;
    for x in 0..s.m as usize {
        q = write_shaft(form, s, out, q, x);
    }
    q
}
