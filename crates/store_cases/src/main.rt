// Runs stores, lifts and replays beyond the proved cases and prints the number that each gets (0: nothing refused), what lifts tell and how
// often cassettes were carried. Held to the file stdout.
#![tactic(auto)]

use depths::equal;
use lifts::{Row, Shaft};
use marks::Cassette;
use numbers::Numbered;
use replay::replay;
use std::io;
use store::Store;

// m shafts of depth h with no cassette.
fn empty(m: u8, h: u8) -> Store {
    Store::empty(m, equal(m, h))
}

// m 3, h 2: [1 2] [] [3]
fn example() -> Store {
    let mut s = empty(3, 2);
    s.heights[0] = 2;
    s.heights[2] = 1;
    s.slots[0] = 1;
    s.slots[1] = 2;
    s.slots[32] = 3;
    s
}

// m 3, h 1: [1] [2] []
fn singles() -> Store {
    let mut s = empty(3, 1);
    s.heights[0] = 1;
    s.heights[1] = 1;
    s.slots[0] = 1;
    s.slots[16] = 2;
    s
}

// The example, changed.
fn changed<F: FnOnce(&mut Store)>(change: F) -> Store
    requires { F.IsAlwaysCallable change }
{
    let mut s = example();
    change(&mut s);
    s
}

fn check(rt: &impl Print, what: &str, s: Store) -> io::Result<()> {
    println!(rt; "{what}: {}", s.check().number())
}

fn frame_cases(rt: &impl Print) -> io::Result<()> {
    check(rt, "empty store of m 1, h 1", empty(1, 1))?;
    check(rt, "m 0", empty(0, 1))?;
    check(rt, "m 200", empty(200, 1))?;
    check(rt, "h 0", empty(1, 0))?;
    check(rt, "h 17", empty(1, 17))
}

// The depths of the example are 2, 2 and 2, its heights 2, 0 and 1.
fn depth_cases(rt: &impl Print) -> io::Result<()> {
    check(rt, "shaft 1 of depth 1", changed(|s| s.depths[1] = 1))?;
    check(rt, "shaft 1 of depth 16", changed(|s| s.depths[1] = 16))?;
    check(rt, "shaft 1 of depth 17", changed(|s| s.depths[1] = 17))?;
    check(rt, "shaft 1 of depth 0", changed(|s| s.depths[1] = 0))?;
    check(rt, "a depth past m", changed(|s| s.depths[3] = 1))?;
    check(rt, "shaft 0 of depth 1", changed(|s| s.depths[0] = 1))
}

fn slot_cases(rt: &impl Print) -> io::Result<()> {
    check(rt, "the example", example())?;
    check(rt, "a slot above the height", changed(|s| s.slots[2] = 9))?;
    check(rt, "a slot past m", changed(|s| s.slots[48] = 9))?;
    check(rt, "a height past m", changed(|s| s.heights[3] = 1))?;
    check(rt, "a height of 20", changed(|s| s.heights[1] = 20))?;
    check(rt, "a cassette 0", changed(|s| s.slots[0] = 0))?;
    check(rt, "cassette 1 twice", changed(|s| s.slots[32] = 1))
}

// The example with two numbers in place of its first cassettes.
fn with_two(c: Cassette, d: Cassette) -> Store {
    changed(|s| {
        s.slots[0] = c;
        s.slots[1] = d;
    })
}

fn number_cases(rt: &impl Print) -> io::Result<()> {
    check(rt, "cassettes 254 and 255", with_two(254, 255))?;
    check(rt, "cassette 255 twice", with_two(255, 255))?;
    check(rt, "cassettes 64 and 4032", with_two(64, 4032))?;
    check(rt, "cassettes 4094 and 4030", with_two(4094, 4030))?;
    check(rt, "cassette 4094 twice", with_two(4094, 4094))?;
    check(rt, "two blanks", with_two(4095, 4095))?;
    check(rt, "a cassette 4096", with_two(4096, 1))?;
    check(rt, "a cassette 65535", with_two(1, 65535))?;
    check(rt, "a cassette 4351", with_two(254, 4351))
}

// Every slot that the value records holds 7.
fn crowded(m: u8, h: u8) -> Store {
    Store {
        slots: [7; 256],
        ..empty(m, h)
    }
}

fn content(rt: &impl Print, what: &str, s: Store, x: u8, y: u8) -> io::Result<()> {
    println!(rt; "{what}: {}", s.content(Shaft(x), Row(y)))
}

fn content_cases(rt: &impl Print) -> io::Result<()> {
    let s = crowded(3, 2);
    content(rt, "m 3, h 2, every slot 7: shaft 2 row 2", s, 2, 2)?;
    content(rt, "shaft 2 row 3", s, 2, 3)?;
    content(rt, "shaft 3 row 1", s, 3, 1)?;
    let s = crowded(200, 200);
    content(rt, "m 200, h 200, every slot 7: shaft 15 row 16", s, 15, 16)?;
    content(rt, "shaft 15 row 17", s, 15, 17)?;
    content(rt, "shaft 16 row 1", s, 16, 1)?;
    let s = crowded(0, 0);
    content(rt, "m 0, h 0, every slot 7: shaft 0 row 1", s, 0, 1)
}

fn lift(rt: &impl Print, what: &str, s: Store, from: u8, to: u8) -> io::Result<()> {
    let lifted = s.lift(Shaft(from), Shaft(to));
    let Row(row) = lifted.carried.row;
    println!(rt; "{what}: {}", lifted.answer.number())?;
    println!(rt; "  cassette: {}", lifted.carried.cassette)?;
    println!(rt; "  row: {row}")?;
    println!(rt;
        "  there now: {}",
        lifted.store.content(Shaft(to), Row(row))
    )
}

fn lift_cases(rt: &impl Print) -> io::Result<()> {
    let s = example();
    lift(rt, "lift 0>1", s, 0, 1)?;
    lift(rt, "lift 0>2, onto a cassette", s, 0, 2)?;
    lift(rt, "lift 0>0", s, 0, 0)?;
    lift(rt, "lift 0>3", s, 0, 3)?;
    lift(rt, "lift 200>1", s, 200, 1)?;
    lift(rt, "lift 1>0, empty to full", s, 1, 0)?;
    lift(rt, "lift 2>0, to a full shaft", s, 2, 0)?;
    let s = changed(|s| s.depths[1] = 1);
    lift(rt, "lift 0>1, to one of depth 1", s, 0, 1)?;
    let s = changed(|s| s.depths[2] = 1);
    lift(rt, "lift 0>2, to a full one of depth 1", s, 0, 2)?;
    let s = changed(|s| s.depths[0] = 3);
    lift(rt, "lift 2>0, to one of depth 3", s, 2, 0)?;
    lift(rt, "lift in a store of m 0", empty(0, 1), 0, 1)
}

// How often the cassettes 1 and 2 were carried, and number 0; and what three slots show, of which the last is not there.
fn show_replay(rt: &impl Print, what: &str, s: Store, list: &[u8]) -> io::Result<()> {
    let replayed = replay(s, list);
    println!(rt; "{what}: {}", replayed.end.number())?;
    println!(rt; "  lifts done: {}", replayed.count)?;
    println!(rt;
        "  carries of 1, 2 and 0: {} {} {}",
        replayed.carries_of(1),
        replayed.carries_of(2),
        replayed.carries_of(0)
    )?;
    for (x, y) in [(0, 1), (1, 1), (0, 0)] {
        println!(rt;
            "  shaft {x} row {y}: {}",
            replayed.store.content(Shaft(x), Row(y))
        )?;
    }
    Ok(())
}

fn replay_cases(rt: &impl Print) -> io::Result<()> {
    show_replay(rt, "02 10 21 on [1] [2] []", singles(), b"\x02\x10\x21")?;
    show_replay(rt, "02 21 00 on [1] [2] []", singles(), b"\x02\x21\x00")?;
    show_replay(rt, "02 20 00 on [1] [2] []", singles(), b"\x02\x20\x00")?;
    show_replay(rt, "02 01 on [1] [2] []", singles(), b"\x02\x01")?;
    show_replay(rt, "an empty list on [1] [2] []", singles(), b"")?;
    show_replay(rt, "02 on a store of m 200", empty(200, 1), b"\x02")
}

fn main(rt: HostRuntime) -> io::Result<()> {
    frame_cases(&rt)?;
    depth_cases(&rt)?;
    slot_cases(&rt)?;
    number_cases(&rt)?;
    content_cases(&rt)?;
    lift_cases(&rt)?;
    replay_cases(&rt)
}
