// The pen: fields pushed one after the other, and stored as whole bytes in a lent slice.
#![tactic(auto)]

ghost use Rattle.std.specs.Prelude.{◌≡◌, ◌+◌, ◌*◌, ◌/◌, ◌%◌, ◌^◌, ◌≤◌, ◌<◌, length};
ghost use Rattle.bits.specs.Fields.{bits};
ghost use Rattle.pens.specs.Pens.{no_bits, Pushes, Pads};

// How many bytes are stored, the bits of the next one so far (the low ones of part), and how many these are.
#[derive(Clone, Copy)]
pub struct Pen {
    pub at: usize,
    pub part: u8,
    pub full: usize,
}

// The w low bits of v after those of part, as one number.
fn append(part: u8, v: u16, w: usize) -> u32
    requires { w ≤ 16 }
    ensures { result ≡ part * 2 ^ w + v % 2 ^ w }
{
    ((part as u32) << w) | (v as u32 & ((1 << w) - 1))
}

// The byte that ends k bits before the end of x.
fn byte_of(x: u32, k: usize) -> u8
    requires { k < 32 }
    ensures { result ≡ x / 2 ^ k % 256 }
{
    ((x >> k) % 256) as u8
}

impl Pen {
    pub fn start() -> Pen
        ensures { result ≡ no_bits }
    {
        Pen {
            at: 0,
            part: 0,
            full: 0,
        }
    }

    // The w low bits of v, the most significant first. With the pen's own they are 23 at most: two whole bytes to store, and a rest.
    pub fn push(self, out: &mut [u8], v: u16, w: usize) -> Pen
        requires w_bound { (w ≤ 16) × (self.full < 8) }
        requires w_bound_2 { 8 * self.at + self.full + w ≤ 8 * length out.old }
        ensures { Pushes (bits w v) out.old out.new self result }
    {
        let all = append(self.part, v, w);
        let mut at = self.at;
        let mut full = self.full + w;
        if 16 <= full {
            full -= 8;
            out[at] = byte_of(all, full);
            at += 1;
        }
        if 8 <= full {
            full -= 8;
            out[at] = byte_of(all, full);
            at += 1;
        }
        Pen {
            at,
            part: byte_of(all, 0),
            full,
        }
    }

    // Zero bits to the end of the byte.
    pub fn pad(self, out: &mut [u8]) -> Pen
        requires { (self.full < 8) × (8 * self.at + self.full ≤ 8 * length out.old) }
        ensures { Pads out.old out.new self result }
    {
        if self.full == 0 {
            return self;
        }
        self.push(out, 0, 8 - self.full)
    }
}
