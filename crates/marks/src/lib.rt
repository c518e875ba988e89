// Cassette numbers, which of them is the blank (request 8/13), and the set of marks of the others (document 01, "The store": "kept as a set of
// marks"), changed in place.
#![tactic(auto)]

ghost use Rattle.std.specs.Prelude.{◌≡◌, ◌≤◌, ◌<◌, eqb, get_or};
ghost use Rattle.std.specs.Int.Count.{ones};
ghost use Rattle.stacks.specs.Deciding.{Decides};
ghost use Rattle.marks.specs.Cassettes.{numbers, blank, is_blank, is_cassette};
ghost use Rattle.marks.specs.Marking.{mark_words, no_marks, marked, with_cassette, mark_count};
ghost use Rattle.marks.specs.Taking.{TakenIs};

// A cassette, by its number. "0 marks an empty slot and nothing else."
pub type Cassette = u16;

// Words of marks: bit c % 64 of word c / 64 stands for cassette c.
pub type Words = [u64; 64];

pub fn none() -> Words
    ensures { result ≡ no_marks }
{
    [0u64; 64]
}

// "Cassettes run to 4,094 and 4,095 is the blank" (request 8/13)
pub fn blank() -> Cassette
    ensures { result ≡ blank }
{
    4095
}

pub fn is_blank(c: Cassette) -> bool
    ensures { result ≡ is_blank c }
{
    c == blank()
}

// Whether a number is a cassette's, a blank's included.
fn is_cassette(c: Cassette) -> bool
    ensures { result ≡ is_cassette c }
{
    0 < c && c < 4096
}

// A word of marks.
fn word(words: &Words, i: usize) -> u64
    requires { i < mark_words }
    ensures { result ≡ get_or words.now i 0 }
{
    words[i]
}

// Whether a cassette is marked.
fn has(words: &Words, c: Cassette) -> bool
    requires { c < numbers }
    ensures { result ≡ eqb (marked words.now c) 1 }
{
    let i = (c >> 6) as usize;
    let k = (c & 63) as u64;
    (words[i] >> k) & 1 == 1
}

// Marks a cassette, unless it is a blank, which has no mark. With no branch: where blanks stand can't be foretold.
fn mark(words: &mut Words, c: Cassette)
    requires { c < numbers }
    ensures { words.new ≡ with_cassette words.old c }
{
    let i = (c >> 6) as usize;
    let k = (c & 63) as u64;
    let one = !is_blank(c) as u64;
    words[i] = word(words, i) | (one << k);
}

// Why one cassette more is not added to others: 4, 5.
#[derive(Clone, Copy)]
pub enum CassetteFault {
    NoCassette,
    Twice,
}

// Takes one cassette more: its fault, or the marks with it.
pub fn take(words: &mut Words, c: Cassette) -> Result<(), CassetteFault>
    ensures { TakenIs words.old c words.new result }
{
    if !is_cassette(c) {
        return Err(CassetteFault::NoCassette);
    }
    if has(words, c) {
        return Err(CassetteFault::Twice);
    }
    mark(words, c);
    Ok(())
}

// How many bits of a word are set.
fn ones_of(w: u64) -> usize
    ensures ones { result ≡ ones w }
    ensures most { result ≤ 64 }
{
    u64::count_ones(w) as usize
}

// How many cassettes are marked: the sum of the words' ones.
pub fn count(words: Words) -> usize
    ensures { result ≡ mark_count words }
{
    let mut n = 0;
    for w in &words {
        n += ones_of(*w);
    }
    n
}

// Whether two sets of marks are the same.
pub fn same(a: Words, b: Words) -> bool
    ensures { Decides result (a ≡ b) }
{
    a == b
}
