// Sets of shafts as 16 bits, bit 0 for shaft 0, and rows of them (document 02, 10/13).
#![tactic(auto)]

ghost use Rattle.std.specs.Prelude.{cond, ◌≡◌, ◌+◌, ◌≤◌, ◌<◌, set};
ghost use Rattle.stacks.specs.Count.{one};
ghost use Rattle.stacks.specs.Deciding.{Decides};
ghost use Rattle.lifts.specs.Lifting.{most_shafts};
ghost use Rattle.sets.specs.Sets.{has, shafts_in, NumberingIs, AllOf, Fits, times_in, Division};

// Whether a shaft is in a set.
pub fn has(shafts: u16, x: usize) -> bool
    requires { x < most_shafts }
    ensures { result ≡ has shafts x }
{
    let k = x as u16;
    (shafts >> k) & 1 == 1
}

// The set of all of m shafts, or of 16 where m is more.
pub fn all_shafts(m: u8) -> u16
    ensures { (m ≤ most_shafts → AllOf m result) × (most_shafts ≤ m → AllOf most_shafts result) }
{
    let bits: u32 = 65535;
    if 16 <= m {
        return 65535;
    }
    (bits >> (16 - m as u32)) as u16
}

// New numbers for some shafts: how many there are, and which shaft has which number, 16 for none.
#[derive(Clone, Copy)]
pub struct Numbering {
    pub count: u8,
    pub names: [u8; 16],
}

// Gives the next number, `count`, to a shaft that is in the set, and gives the number after it.
fn number_next(names: &mut [u8; 16], count: usize, some: u16, x: usize) -> usize
    requires { (x < most_shafts) × (count < most_shafts) }
    ensures { (result ≡ count + one (has some x)) × (names.new ≡ cond (has some x) (set names.old count x) names.old) }
{
    if has(some, x) {
        names[count] = x as u8;
        return count + 1;
    }
    count
}

// The shafts of a set, of m, numbered from 0 in their order.
pub fn numbering_of(set: u16, m: u8) -> Numbering
    requires { m ≤ most_shafts }
    ensures { NumberingIs (shafts_in set m) result }
{
    let shafts = m as usize;
    let mut names = [16u8; 16];
    let mut count: usize = 0;
    for x in 0..shafts {
        count = number_next(&mut names, count, set, x);
    }
    Numbering {
        count: count as u8,
        names,
    }
}

// Whether every shaft of a set is below m.
pub fn fits(set: u16, m: u8) -> bool
    ensures { Decides result (Fits m set) }
{
    for x in m as usize..16 {
        if has(set, x) {
            return false;
        }
    }
    true
}

// Of how many sets of a row a shaft is.
pub fn times_in(row: &[u16], x: usize) -> usize
    requires { x < most_shafts }
    ensures { result ≡ times_in row.now x }
{
    row.iter().filter(|set| has(**set, x)).count()
}

// Whether a row of sets divides m shafts into groups.
pub fn is_division(groups: &[u16], m: u8) -> bool
    requires { m ≤ most_shafts }
    ensures { Decides result (Division m groups.now) }
{
    let shafts = m as usize;
    for x in 0..16 {
        let times = times_in(groups, x);
        let due = (x < shafts) as usize;
        if times != due {
            return false;
        }
    }
    true
}
