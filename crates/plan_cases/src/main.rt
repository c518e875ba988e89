// Plans cases of document 01, "Filled stores to try", that are not among the proved ones, some with blanks, some with unequal depths and some with numbers past 255, and prints for
// each the number, the count of lifts and whether a replay of the list ends at the goal. Held to the file stdout.
#![tactic(auto)]

use depths::equal;
use marks::{Cassette, blank};
use numbers::Numbered;
use pair_numbers::{plan_number, reach_number};
use planner::make_list;
use reachable::reachable;
use replay::replay;
use std::io;
use store::Store;

// m shafts of depth h with no cassette.
fn empty(m: u8, h: u8) -> Store {
    Store::empty(m, equal(m, h))
}

// One cassette more on top of a shaft, where there is room in the arrays.
fn with(s: Store, x: usize, c: Cassette) -> Store {
    if 16 <= x {
        return s;
    }
    let top = s.heights[x];
    if 16 <= top {
        return s;
    }
    let mut t = s;
    t.slots[16 * x + (top as usize)] = c;
    t.heights[x] = top + 1;
    t
}

// Six orders of the cassettes 1 to 8.
const ORDERS: [Cassette; 48] = [
    1, 2, 3, 4, 5, 6, 7, 8, 2, 4, 6, 8, 1, 3, 5, 7, 4, 8, 3, 7, 2, 6, 1, 5, 5, 1, 6, 2, 7, 3, 8, 4,
    7, 5, 3, 1, 8, 6, 4, 2, 8, 7, 6, 5, 4, 3, 2, 1,
];

// m 3, h 4, n 8: the cassettes dealt out to the shafts in turn, in the order that k chooses.
fn dealt(k: usize) -> Store {
    let first = 8 * (k % 6);
    let mut s = empty(3, 4);
    for i in 0..8 {
        s = with(s, (i + k % 6) % 3, ORDERS[first + i]);
    }
    s
}

// Whether a replay of a list leads from start to goal.
fn led(start: Store, goal: Store, list: &[u8]) -> bool {
    let replayed = replay(start, list);
    replayed.end.number() == 0 && replayed.store == goal
}

// What was answered: the number of the yes or no, that of the plan, the count of lifts, and whether they lead to the goal.
fn tell(rt: &impl Print, reach: u8, plan: u8, count: usize, arrived: bool) -> io::Result<()> {
    print!(rt; ": yes or no {reach}, plan {plan}, lifts {count}")?;
    if arrived {
        print!(rt; ", replay ends at the goal")?;
    }
    println!(rt)
}

fn show(rt: &impl Print, what: &str, start: Store, goal: Store, list: &mut [u8]) -> io::Result<()> {
    print!(rt; "{what}")?;
    let planned = make_list(start, goal, list);
    let count = planned.unwrap_or(0);
    let reach = reach_number(reachable(start, goal));
    tell(
        rt,
        reach,
        plan_number(planned),
        count,
        list.get(..count).is_some_and(|made| led(start, goal, made)),
    )
}

// m 16, h 16 with 255 cassettes, each number from 1 to 255 once: shaft by shaft, counted from a number on.
fn nearly_full(from: usize) -> Store {
    let mut s = empty(16, 16);
    for i in 0..255 {
        s = with(s, i / 16, ((i + from % 255) % 255 + 1) as u16);
    }
    s
}

// Cassette 1, or a blank.
fn one_or_blank(one: bool) -> Cassette {
    if one { 1 } else { blank() }
}

// m 16, h 16 with n cassettes, shaft by shaft: cassette 1 at place `at` of them, and blanks.
fn blanks_but_one(n: usize, at: usize) -> Store {
    let mut s = empty(16, 16);
    for i in 0..n {
        s = with(s, i / 16, one_or_blank(i == at));
    }
    s
}

fn dealt_cases(rt: &impl Print, list: &mut [u8]) -> io::Result<()> {
    for k in 0..6 {
        show(
            rt,
            "m 3, h 4, n 8, dealt another way",
            dealt(k),
            dealt(k + 1),
            list,
        )?;
    }
    Ok(())
}

fn space_cases(rt: &impl Print, enough: &mut [u8], less: &mut [u8]) -> io::Result<()> {
    show(
        rt,
        "list space of 4hn + 8n bytes",
        dealt(0),
        dealt(1),
        enough,
    )?;
    show(rt, "one byte less", dealt(0), dealt(1), less)?;
    show(rt, "start equal to goal", dealt(0), dealt(0), enough)
}

// Too little is lent, as `so_much` says: 15 and 9 come before 10 (request 6/13).
fn short_cases(rt: &impl Print, so_much: &str, less: &mut [u8]) -> io::Result<()> {
    let start = nearly_full(0);
    let goal = nearly_full(1);
    print!(rt; "{so_much}")?;
    show(rt, ", all numbers one place on", start, goal, less)?;
    print!(rt; "{so_much}")?;
    show(rt, ", one blank more", start, with(goal, 15, blank()), less)?;
    print!(rt; "{so_much}")?;
    show(rt, ", dealt another way", dealt(0), dealt(1), less)
}

fn refused_cases(rt: &impl Print, list: &mut [u8]) -> io::Result<()> {
    show(
        rt,
        "other cassettes",
        with(empty(3, 3), 0, 1),
        with(empty(3, 3), 0, 2),
        list,
    )?;
    show(rt, "another m", empty(3, 3), empty(4, 3), list)?;
    show(rt, "a store of m 0", empty(0, 3), empty(3, 3), list)
}

// Two cassettes, in the first two of m shafts of depth h.
fn apart(m: u8, h: u8, c: Cassette, d: Cassette) -> Store {
    with(with(empty(m, h), 0, c), 1, d)
}

// Numbers past 255, and such as share their low bits (request 8/13).
fn number_cases(rt: &impl Print, list: &mut [u8]) -> io::Result<()> {
    show(
        rt,
        "64 for 4032",
        with(empty(3, 3), 0, 4032),
        with(empty(3, 3), 0, 64),
        list,
    )?;
    show(
        rt,
        "255 for a blank",
        with(empty(3, 3), 0, blank()),
        with(empty(3, 3), 0, 255),
        list,
    )
}

fn exchanged_cases(rt: &impl Print, list: &mut [u8]) -> io::Result<()> {
    show(
        rt,
        "64 and 4032 exchanged",
        apart(3, 1, 64, 4032),
        apart(3, 1, 4032, 64),
        list,
    )?;
    show(
        rt,
        "two shafts, 255 and a blank exchanged",
        apart(2, 2, 255, blank()),
        apart(2, 2, blank(), 255),
        list,
    )
}

// m 3, depths 4, 3 and 2, n 6: cassettes 1 to 6, turned by k among the places [. . .] [. .] [.].
fn uneven(k: usize) -> Store {
    let mut s = empty(3, 4);
    s.depths[1] = 3;
    s.depths[2] = 2;
    s = with(s, 0, (k % 6 + 1) as u16);
    s = with(s, 0, ((k % 6 + 1) % 6 + 1) as u16);
    s = with(s, 0, ((k % 6 + 2) % 6 + 1) as u16);
    s = with(s, 1, ((k % 6 + 3) % 6 + 1) as u16);
    s = with(s, 1, ((k % 6 + 4) % 6 + 1) as u16);
    with(s, 2, ((k % 6 + 5) % 6 + 1) as u16)
}

// The same, with the last shaft one deeper.
fn deeper(k: usize) -> Store {
    let mut s = uneven(k);
    s.depths[2] = 3;
    s
}

// Row 1 of shaft 0 never changes: e is 3, and the depths are 4, 3 and 2.
fn uneven_cases(rt: &impl Print, list: &mut [u8]) -> io::Result<()> {
    show(
        rt,
        "depths 4 3 2, bottom changed",
        uneven(0),
        uneven(1),
        list,
    )?;
    show(rt, "depths 4 3 2, to itself", uneven(0), uneven(0), list)
}

// With one empty slot more no row is kept, and the frames differ.
fn deeper_cases(rt: &impl Print, list: &mut [u8]) -> io::Result<()> {
    show(rt, "depths 4 3 3, e 4", deeper(0), deeper(1), list)?;
    show(rt, "depths 4 3 2 and 4 3 3", uneven(0), deeper(0), list)
}

fn full_cases(rt: &impl Print, list: &mut [u8]) -> io::Result<()> {
    show(
        rt,
        "m 16, h 16, n 255, to itself",
        nearly_full(0),
        nearly_full(0),
        list,
    )?;
    show(
        rt,
        "m 16, h 16, n 255, all numbers one place on",
        nearly_full(0),
        nearly_full(1),
        list,
    )
}

// Cassette 1 among blanks: to one place and to another.
fn blank_case(
    rt: &impl Print,
    what: &str,
    n: usize,
    one: usize,
    other: usize,
    list: &mut [u8],
) -> io::Result<()> {
    show(
        rt,
        what,
        blanks_but_one(n, one),
        blanks_but_one(n, other),
        list,
    )
}

fn full_of_blanks(rt: &impl Print, list: &mut [u8]) -> io::Result<()> {
    blank_case(rt, "m 16, h 16, 256 blanks", 256, 256, 256, list)?;
    blank_case(rt, "full, another blank's place", 256, 0, 16, list)?;
    show(
        rt,
        "one blank more",
        blanks_but_one(240, 0),
        blanks_but_one(241, 0),
        list,
    )
}

fn room_among_blanks(rt: &impl Print, list: &mut [u8]) -> io::Result<()> {
    blank_case(rt, "e 1, above the rows that stay", 255, 15, 31, list)?;
    blank_case(rt, "e 1, among the rows that stay", 255, 0, 16, list)?;
    blank_case(rt, "e 16, from below to the top", 240, 0, 239, list)
}

fn main(rt: HostRuntime) -> io::Result<()> {
    let mut enough = [0u8; 192];
    dealt_cases(&rt, &mut enough)?;
    let mut less = [0u8; 191];
    space_cases(&rt, &mut enough, &mut less)?;
    short_cases(&rt, "191 bytes", &mut less)?;
    short_cases(&rt, "no byte", &mut less[..0])?;
    refused_cases(&rt, &mut enough)?;
    number_cases(&rt, &mut enough)?;
    exchanged_cases(&rt, &mut enough)?;
    uneven_cases(&rt, &mut enough)?;
    deeper_cases(&rt, &mut enough)?;
    let mut list = [0u8; 18432];
    full_cases(&rt, &mut list)?;
    full_of_blanks(&rt, &mut list)?;
    room_among_blanks(&rt, &mut list)
}
