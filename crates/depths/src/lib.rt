// The depths of the shafts (document 02, 7/13), and what follows from them: how many slots there are and which, and the list space.
#![tactic(auto)]

ghost use Rattle.std.specs.Prelude.{◌≡◌, ◌≤◌, min};
ghost use Rattle.stacks.specs.Count.{sum, greatest};
ghost use Rattle.lifts.specs.Lifting.{most_shafts, slot_count, height_in};
ghost use Rattle.depths.specs.Depths.{depth_by, Equal, DepthsFit, space_for, slot_there};

use lifts::{Heights, Row, Shaft, height_of};

// The depth of each shaft, 0 for a shaft that is not there.
pub type Depths = [u8; 16];

// The depth of a shaft; 0 for a shaft above 15.
pub fn depth_of(depths: Depths, x: usize) -> u8
    ensures { result ≡ depth_by depths x }
{
    depths.get(x).copied().unwrap_or(0)
}

// Of m shafts those that the arrays have.
fn shafts_of(m: u8) -> usize
    ensures { result ≡ min m most_shafts }
{
    (m as usize).min(16)
}

// The depths of m shafts that are all h deep.
pub fn equal(m: u8, h: u8) -> Depths
    ensures { Equal m h result }
{
    let mut depths = [0u8; 16];
    depths[..shafts_of(m)].fill(h);
    depths
}

// The depth of the deepest of m shafts.
pub fn deepest_of(m: u8, depths: Depths) -> u8
    ensures { result ≡ greatest m (depth_by depths) }
{
    let mut most: u8 = 0;
    for x in 0..m as usize {
        most = most.max(depth_of(depths, x));
    }
    most
}

// The heights of m shafts added up. In 16 bits for every m: 255 × 255 is less than 65,536.
pub fn sum_of(m: u8, heights: Heights) -> u16
    ensures { result ≡ sum m (height_in heights) }
{
    let mut all: u16 = 0;
    for x in 0..m {
        all += height_of(&heights, Shaft(x)) as u16;
    }
    all
}

// How many slots m shafts have: their depths added up.
pub fn slots_of(m: u8, depths: Depths) -> u16
    ensures { result ≡ sum m (depth_by depths) }
{
    sum_of(m, depths)
}

// "The list space needed is 4hn + 8n bytes": "h is the deepest shaft" (document 02, 7/13).
pub fn list_space(m: u8, depths: Depths, n: usize) -> usize
    requires depths_fit { DepthsFit depths }
    requires n_le_slot_count { n ≤ slot_count }
    ensures { result ≡ space_for (greatest m (depth_by depths)) n }
{
    let most = deepest_of(m, depths) as usize;
    4 * most * n + 8 * n
}

// Whether there is a row of a shaft.
pub fn slot_there(m: u8, depths: Depths, x: Shaft, y: Row) -> bool
    ensures { result ≡ slot_there m depths x.0 y.0 }
{
    let depth = depth_of(depths, x.0 as usize);
    x.0 < m && x.0 < 16 && 0 < y.0 && y.0 <= depth && y.0 <= 16
}
