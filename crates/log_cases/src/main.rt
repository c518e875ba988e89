// Follows logs on stores given as values (document 02, 9/13), refused ones among them, and prints the entry, the number (0: all true), and m and what each shaft shows of the store handed back. Held to
// the file stdout.
#![tactic(auto)]

use depths::equal;
use lifts::{Row, Shaft};
use logs::follow;
use numbers::Numbered;
use std::io;
use store::Store;

// Three shafts of depth 2: [1 2] [] [3]
fn example() -> Store {
    let mut s = Store::empty(3, equal(3, 2));
    s.heights[0] = 2;
    s.heights[2] = 1;
    s.slots[0] = 1;
    s.slots[1] = 2;
    s.slots[32] = 3;
    s
}

// The example with 4,095 for 2, with 0 for it, and with m 0.
fn with_blank() -> Store {
    let mut s = example();
    s.slots[1] = 4095;
    s
}

fn with_zero() -> Store {
    let mut s = example();
    s.slots[1] = 0;
    s
}

fn with_no_shaft() -> Store {
    Store { m: 0, ..example() }
}

// What came of a log, and what the three shafts show, each from row 1.
fn show(rt: &impl Print, what: &str, s: Store, log: &[u8]) -> io::Result<()> {
    let followed = follow(s, log);
    let reached = followed.store;
    print!(rt;
        "{what}: entry {}, number {}, m {}:",
        followed.entry,
        followed.end.number(),
        reached.m
    )?;
    for x in 0..3 {
        let low = reached.content(Shaft(x), Row(1));
        let high = reached.content(Shaft(x), Row(2));
        print!(rt; " [{low} {high}]")?;
    }
    println!(rt)
}

fn true_cases(rt: &impl Print) -> io::Result<()> {
    show(rt, "no entry", example(), b"")?;
    show(rt, "0>1 2", example(), b"\x00\x10\x02")?;
    show(
        rt,
        "0>1 2, 0 top 1, 1 top 2, 2 top 3",
        example(),
        b"\x00\x10\x02\x10\x00\x01\x11\x00\x02\x12\x00\x03",
    )?;
    show(rt, "1 top 0", example(), b"\x11\x00\x00")?;
    show(
        rt,
        "0>1 4095, 1 top 4095",
        with_blank(),
        b"\x00\x1F\xFF\x11\x0F\xFF",
    )
}

fn untrue_cases(rt: &impl Print) -> io::Result<()> {
    show(rt, "0>1 2, 0>1 2", example(), b"\x00\x10\x02\x00\x10\x02")?;
    show(rt, "1 top 2", example(), b"\x11\x00\x02")?;
    show(rt, "0 top 0", example(), b"\x10\x00\x00")?;
    show(rt, "0>1 255", with_blank(), b"\x00\x10\xFF")?;
    show(rt, "1>0 2", example(), b"\x01\x00\x02")?;
    show(rt, "2>0 2", example(), b"\x02\x00\x02")
}

fn malformed_cases(rt: &impl Print) -> io::Result<()> {
    show(rt, "kind 2", example(), b"\x20\x10\x02")?;
    show(rt, "kind 15", example(), b"\xF0\x10\x02")?;
    show(rt, "3>0", example(), b"\x03\x00\x00")?;
    show(rt, "0>3", example(), b"\x00\x30\x02")?;
    show(rt, "3 top 0", example(), b"\x13\x00\x00")?;
    show(rt, "1>1 0", example(), b"\x01\x10\x00")?;
    show(rt, "1 top 0, second shaft 1", example(), b"\x11\x10\x00")?;
    show(rt, "two bytes", example(), b"\x11\x00")?;
    show(rt, "1 top 2, and a byte", example(), b"\x11\x00\x02\x00")
}

fn refused_cases(rt: &impl Print) -> io::Result<()> {
    show(
        rt,
        "a store with a cassette 0",
        with_zero(),
        b"\x11\x00\x00",
    )?;
    show(rt, "the same, one byte", with_zero(), b"\x11")?;
    show(rt, "a store of m 0", with_no_shaft(), b"\x11\x00\x00")
}

fn main(rt: HostRuntime) -> io::Result<()> {
    true_cases(&rt)?;
    untrue_cases(&rt)?;
    malformed_cases(&rt)?;
    refused_cases(&rt)
}
