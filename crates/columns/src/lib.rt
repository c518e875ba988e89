// The shafts of an image (document 01, "The image"; document 02, 7/13: "for each shaft its depth − 1 (4 bits), height (5) and cassettes", and 8/13), read into a
// store.
#![tactic(auto)]

ghost use Rattle.std.specs.Prelude.{◌≤◌, ◌<◌};
ghost use Rattle.lifts.specs.Lifting.{most_shafts, most_rows};
ghost use Rattle.image.specs.Image.{wide_width};
ghost use Rattle.columns.specs.Columns.{CassetteRead, RowsRead, ShaftRead, ShaftsRead};

use fields::{Head, field_if, next_field};
use forms::{cassette_width, meant, own_depths};
use image::ReadFault;
use marks::{Words, take};
use store::Store;

// The store read so far, the marks of its cassettes, and the bit position.
#[derive(Clone, Copy)]
pub struct Work {
    pub store: Store,
    pub words: Words,
    pub at: usize,
}

impl Work {
    // A value of w bits is a cassette, at row k + 1 of shaft x.
    fn take_cassette(&mut self, w: usize, x: usize, k: usize, value: u16) -> Result<(), ReadFault>
        requires { (x < most_shafts) × (k < most_rows) × (w ≤ wide_width) }
        ensures { CassetteRead w x k value self.old self.new result }
    {
        let v = meant(w, value);
        take(&mut self.words, v)?;
        self.store.slots[16 * x + k] = v;
        Ok(())
    }

    // The first rows of shaft x, each a field of w bits.
    fn read_rows(&mut self, image: &[u8], w: usize, x: usize, rows: usize) -> Result<(), ReadFault>
        requires x_lt_most_shafts { (x < most_shafts) × (rows ≤ most_rows) × (self.old.at ≤ 8000) }
        requires w_nonzero { (0 < w) × (w ≤ wide_width) }
        ensures { RowsRead image.now w x rows self.old self.new result }
    {
        for k in 0..rows {
            let value = next_field(image, &mut self.at, w)?;
            self.take_cassette(w, x, k, value)?;
        }
        Ok(())
    }

    // Shaft x: its depth, where it has its own, its height, and its rows.
    fn read_shaft(&mut self, image: &[u8], head: Head, x: usize) -> Result<(), ReadFault>
        requires { (x < most_shafts) × (head.depth < most_rows) × (self.old.at ≤ 7000) }
        ensures { ShaftRead image.now head x self.old self.new result }
    {
        let depth = field_if(image, &mut self.at, own_depths(head.form), 4, head.depth)?;
        let d = depth as u8 + 1;
        self.store.depths[x] = d;
        let rows = next_field(image, &mut self.at, 5)? as u8;
        if d < rows {
            return Err(ReadFault::TooHigh);
        }
        self.store.heights[x] = rows;
        self.read_rows(image, cassette_width(head.form), x, rows as usize)
    }

    // The shafts of the store, from the head on.
    pub fn read_shafts(&mut self, image: &[u8], head: Head) -> Result<(), ReadFault>
        requires { (self.old.store.m ≤ most_shafts) × (head.depth < most_rows) × (self.old.at ≤ 100) }
        ensures { ShaftsRead image.now head self.old.store.m self.old self.new result }
    {
        for x in 0..self.store.m as usize {
            self.read_shaft(image, head, x)?;
        }
        Ok(())
    }
}
