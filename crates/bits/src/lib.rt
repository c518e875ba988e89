// Packed fields of bits (document 01, "The image": "Fields are packed most significant bit first, with no gaps"): the reader of the
// caller's bytes.
#![tactic(auto)]

ghost use Rattle.std.specs.Prelude.{◌≡◌, ◌+◌, ◌-◌, ◌*◌, ◌/◌, ◌%◌, ◌^◌, ◌≤◌, ◌<◌, get_or, drop};
ghost use Rattle.bits.specs.Fields.{bits_of, next_field};

// "a thin struct over the caller's image bytes with a bit position"
#[derive(Clone, Copy)]
pub struct Reader<'a> {
    pub src: &'a [u8],
    pub at: usize,
}

// A byte of s; past the end it counts as 0.
fn byte_at(s: &[u8], i: usize) -> u8
    ensures { result ≡ get_or s.now i 0 }
{
    s.get(i).copied().unwrap_or(0)
}

// Three bytes as one number.
fn join(a: u8, b: u8, c: u8) -> u32
    ensures { result ≡ (a * 256 + b) * 256 + c }
{
    (a as u32 * 256 + b as u32) * 256 + c as u32
}

// The three bytes from i on, as one number.
fn three_bytes(s: &[u8], i: usize) -> u32
    requires { i < 2 ^ 61 }
    ensures { result ≡ (get_or s.now i 0 * 256 + get_or s.now (i + 1) 0) * 256 + get_or s.now (i + 2) 0 }
{
    if i + 2 < s.len() {
        return join(s[i], s[i + 1], s[i + 2]);
    }
    join(byte_at(s, i), byte_at(s, i + 1), byte_at(s, i + 2))
}

// Of the 24 bits of v, w from bit start on: those before them are shifted out, and then those after.
fn cut(v: u32, start: usize, w: usize) -> u32
    requires { (start < 8) × (0 < w) × (w ≤ 16) }
    ensures { result ≡ v * 2 ^ (8 + start) % 2 ^ 32 / 2 ^ (32 - w) }
{
    (v << (8 + start)) >> (32 - w)
}

// The field of w bits at bit position at, or none where the bytes end before it does.
pub fn field_at(s: &[u8], at: usize, w: usize) -> Option<u16>
    requires { (0 < w) × (w ≤ 16) }
    ensures { result ≡ next_field (drop at (bits_of s.now)) w }
{
    let byte = at / 8;
    let start = at % 8;
    if s.len() < byte + (start + w + 7) / 8 {
        return None;
    }
    Some(cut(three_bytes(s, byte), start, w) as u16)
}

impl<'a> Reader<'a> {
    pub fn new(src: &'a [u8], at: usize) -> Reader<'a>
        ensures { (result.src ≡ src.entry) × (result.at ≡ at) }
    {
        Reader { src, at }
    }

    // "The reader takes the next field of 4, 5 or 8 bits", or of 12 (request 8/13)
    pub fn next(self, w: usize) -> Option<u16>
        requires { (0 < w) × (w ≤ 16) }
        ensures { result ≡ next_field (drop self.entry.at (bits_of self.entry.src.now)) w }
    {
        field_at(self.src, self.at, w)
    }
}

// The next field of bytes and a bit position: what everyone else calls.
pub fn read_field(s: &[u8], at: usize, w: usize) -> Option<u16>
    requires { (0 < w) × (w ≤ 16) }
    ensures { result ≡ next_field (drop at (bits_of s.now)) w }
{
    Reader::new(s, at).next(w)
}
