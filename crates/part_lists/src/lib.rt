// The list made set by set (document 02, 10/13): for the shafts of each set as a store of their own, and written with the store's own shafts.
#![tactic(auto)]

ghost use Rattle.std.specs.Prelude.{map, ◌≡◌, ◌≤◌, length};
ghost use Rattle.store.specs.Lists.{Reachable};
ghost use Rattle.store.specs.Slots.{list_space};
ghost use Rattle.reach.specs.Pairs.{Comparable};
ghost use Rattle.sets.specs.Sets.{Disjoint};
ghost use Rattle.parts.specs.Parts.{part};
ghost use Rattle.within.specs.Rules.{EachReachable};
ghost use Rattle.part_lists.specs.PartLists.{renamed, PartMade, RowMade};

use lift_bytes::{entered_of, left_of, pack};
use lifts::Shaft;
use making::make;
use parts::part_of;
use sets::numbering_of;
use store::Store;

// The byte of a lift with the names of its shafts.
fn renamed_byte(names: [u8; 16], b: u8) -> u8
    ensures { result ≡ renamed names b }
{
    let from = left_of(b);
    let to = entered_of(b);
    let x = names[from.0 as usize];
    let y = names[to.0 as usize];
    pack(Shaft(x), Shaft(y))
}

// Gives the shafts of the lifts of a list their names.
fn rename(names: [u8; 16], list: &mut [u8])
    ensures { list.new ≡ map (renamed names) list.old }
{
    for b in list.iter_mut() {
        *b = renamed_byte(names, *b);
    }
}

// The list for the shafts of a set.
fn make_part(start: Store, goal: Store, some: u16, out: &mut [u8]) -> usize
    requires comparable { Comparable start goal }
    requires reachable { Reachable (part some start) (part some goal) }
    requires start_in_bounds { list_space (part some start) ≤ length out.old }
    ensures { PartMade some start goal out.old result out.new }
{
    let a = part_of(start, some);
    if a.m == 0 {
        return 0;
    }
    let b = part_of(goal, some);
    let numbering = numbering_of(some, start.m);
    let names = numbering.names;
    let count = make(a, b, out);
    rename(names, &mut out[..count]);
    count
}

// The list for the sets of a row, one after the other.
pub fn make_row(start: Store, goal: Store, row: &[u16], out: &mut [u8]) -> usize
    requires comparable { Comparable start goal }
    requires disjoint { Disjoint start.m row.now }
    requires each_reachable { EachReachable row.now start goal }
    requires start_in_bounds { list_space start ≤ length out.old }
    ensures { RowMade row.now start goal out.old result out.new }
{
    let mut count: usize = 0;
    for some in row {
        count += make_part(start, goal, *some, &mut out[count..]);
    }
    count
}
