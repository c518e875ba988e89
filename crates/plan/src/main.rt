// The program of document 01, "The program": reads start.img and goal.img in the current directory and prints the list of lifts, or why
// there is none.
#![tactic(auto)]

ghost use Rattle.std.specs.Prelude.{◌≡◌, ◌≤◌, length, take, Err};

use image::Read;
use lift_bytes::{entered_of, left_of};
use numbers::Numbered;
use pair_numbers::plan_fault_number;
use planner::make_list;
use plans::PlanFault;
use reading::read;
use std::rt::Files;
use std::{fs, io};
use store::Store;

// Fills the buffer from a file and tells how many of its bytes count: up to the end of the file or of the buffer, and none where a read
// fails, also midway.
fn fill(file: &mut impl io::Read, buffer: &mut [u8]) -> usize
    ensures bound { result ≤ length buffer.new }
    ensures prefix { result ≡ length (take result buffer.new) }
{
    let mut done: usize = 0;
    while done < buffer.len() {
        match file.read(&mut buffer[done..]) {
            Ok(0) => return done,
            Ok(n) => done += n,
            Err(_) => return 0,
        }
    }
    done
}

// Reads a file as an image: its first 500 bytes (request 8/13), none where it can't be read.
fn read_file(rt: &impl Files, path: &str) -> Read {
    let mut buffer = [0u8; 500];
    let n = match fs::open(rt, path) {
        Ok(mut file) => fill(&mut file, &mut buffer),
        Err(_) => 0,
    };
    read(&buffer[..n])
}

fn refused(rt: &impl Print, number: u8, word: &str) -> io::Result<()> {
    println!(rt; "refused {number} {word}")
}

fn print_lift(rt: &impl Print, b: u8) -> io::Result<()> {
    let left = left_of(b).0;
    let entered = entered_of(b).0;
    println!(rt; "{left}>{entered}")
}

fn print_list(rt: &impl Print, list: &[u8], count: usize) -> io::Result<()> {
    println!(rt; "lifts {count}")?;
    for b in list.iter().take(count) {
        print_lift(rt, *b)?;
    }
    Ok(())
}

// The list maker, lent as many bytes as any accepted store needs (`list_space_most`, crates/store/proofs/Space.antt), so that 10 is
// never given.
fn planned(start: Store, goal: Store, list: &mut [u8]) -> Result<usize, PlanFault>
    requires { 18432 ≤ length list.old }
    ensures { result ≡ Err PlanFault.LittleSpace → ⊥ }
{
    make_list(start, goal, list)
}

fn print_plan(rt: &impl Print, start: Store, goal: Store) -> io::Result<()> {
    let mut list = [0u8; 18432];
    match planned(start, goal, &mut list) {
        Ok(count) => print_list(rt, &list, count),
        Err(f) => refused(rt, plan_fault_number(f), "both"),
    }
}

fn main(rt: HostRuntime) -> io::Result<()> {
    let start = read_file(&rt, "start.img");
    if let Err(f) = start.answer {
        return refused(&rt, f.number(), "start");
    }
    let goal = read_file(&rt, "goal.img");
    if let Err(f) = goal.answer {
        return refused(&rt, f.number(), "goal");
    }
    print_plan(&rt, start.store, goal.store)
}
