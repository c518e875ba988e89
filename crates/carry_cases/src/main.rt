// Replays the list in the file list on the store in store.img, both in the current directory, and prints how often each cassette of the store
// reached was carried, by the count beside its slot and by its number, and what the same lifts tell one by one. Held to the file stdout; tests/outside
// compares it with lifts of its own.
#![tactic(auto)]

ghost use Rattle.std.specs.Prelude.{◌≡◌, ◌≤◌, length, take};

use lift_bytes::{entered_of, left_of};
use lifts::Row;
use numbers::Numbered;
use reading::read;
use replay::{Replayed, replay};
use std::rt::Files;
use std::{fs, io};
use store::Store;

// Fills the buffer from a file, and tells how many bytes came: none where it can't be read.
fn fill(rt: &impl Files, path: &str, buffer: &mut [u8]) -> usize
    ensures bound { result ≤ length buffer.new }
    ensures prefix { result ≡ length (take result buffer.new) }
{
    match fs::open(rt, path) {
        Ok(mut file) => read_full(&mut file, buffer),
        Err(_) => 0,
    }
}

// Reads until the buffer is full, the file ends or a read fails, and tells how many bytes came.
fn read_full(file: &mut impl io::Read, buffer: &mut [u8]) -> usize
    ensures bound { result ≤ length buffer.new }
    ensures prefix { result ≡ length (take result buffer.new) }
{
    let mut done: usize = 0;
    while done < buffer.len() {
        match file.read(&mut buffer[done..]) {
            Ok(0) => return done,
            Ok(n) => done += n,
            Err(_) => return done,
        }
    }
    done
}

// The cassettes of the store reached, shaft by shaft from row 1 upward, each with how often it was carried by the count beside its slot, and by its
// number; nothing of an empty slot.
fn say_counts(rt: &impl Print, replayed: Replayed) -> io::Result<()> {
    for (c, times) in replayed.store.slots.iter().zip(&replayed.carries) {
        if *c != 0 {
            println!(rt; "{c} {times} {}", replayed.carries_of(*c))?;
        }
    }
    Ok(())
}

// The lifts of a list, each as a single lift, also behind one that is refused: all cassettes told, added up, and all rows.
fn say_lifts(rt: &impl Print, s: Store, list: &[u8]) -> io::Result<()> {
    let mut now = s;
    let mut cassettes: u64 = 0;
    let mut rows: u64 = 0;
    for b in list {
        let lifted = now.lift(left_of(*b), entered_of(*b));
        let Row(row) = lifted.carried.row;
        cassettes = cassettes.wrapping_add(lifted.carried.cassette as u64);
        rows = rows.wrapping_add(row as u64);
        now = lifted.store;
    }
    println!(rt; "told {cassettes} {rows}")
}

fn say_replay(rt: &impl Print, s: Store, list: &[u8]) -> io::Result<()> {
    let replayed = replay(s, list);
    println!(rt; "number {}", replayed.end.number())?;
    println!(rt; "lifts {}", replayed.count)?;
    say_counts(rt, replayed)
}

fn main(rt: HostRuntime) -> io::Result<()> {
    let mut image = [0; 500];
    let n = fill(&rt, "store.img", &mut image);
    let got = read(&image[..n]);
    if let Err(f) = got.answer {
        return println!(rt; "number {}", f.number());
    }
    let mut list = [0; 20000];
    let k = fill(&rt, "list", &mut list);
    say_replay(&rt, got.store, &list[..k])?;
    say_lifts(&rt, got.store, &list[..k])
}
