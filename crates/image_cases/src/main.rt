// Reads and writes images beyond the proved cases, and prints what each comes to. Held to the file stdout.
#![tactic(auto)]

use depths::equal;
use fields::form_in;
use lifts::Slots;
use marks::{Cassette, blank};
use numbers::Numbered;
use reading::read;
use std::io;
use store::Store;
use writing::write;

// The first n bytes, or all where there are fewer, and the end of the line.
fn say_bytes(rt: &impl Print, bytes: &[u8], n: usize) -> io::Result<()> {
    for b in bytes.iter().take(n) {
        print!(rt; " {b}")?;
    }
    println!(rt)
}

// The slots as far as row 1 of shaft 2.
fn say_slots(rt: &impl Print, slots: &Slots) -> io::Result<()> {
    print!(rt; "  slots")?;
    for c in slots.iter().take(33) {
        print!(rt; " {c}")?;
    }
    println!(rt)
}

// m shafts of depth h with no cassette.
fn empty(m: u8, h: u8) -> Store {
    Store::empty(m, equal(m, h))
}

// The frame of a store as far as shaft 3, its first heights, and its slots as far as row 1 of shaft 2.
fn say_store(rt: &impl Print, s: Store) -> io::Result<()> {
    let m = s.m;
    print!(rt; "  m {m}  depths")?;
    say_bytes(rt, &s.depths, 4)?;
    print!(rt; "  heights")?;
    say_bytes(rt, &s.heights, 3)?;
    say_slots(rt, &s.slots)
}

// Reads an image, and prints its number, the store handed back, and the bytes that this store is written as in the form that the image names: where the image is
// accepted its own; else those of the empty store of one shaft of depth 1, or none where there is no such form.
fn shown(rt: &impl Print, what: &str, image: &[u8]) -> io::Result<()> {
    let got = read(image);
    let number = got.answer.number();
    print!(rt; "{what}{number}")?;
    say_store(rt, got.store)?;
    let mut out = [255u8; 500];
    let count = write(form_in(image), got.store, &mut out).unwrap_or(0);
    print!(rt; "  written as")?;
    say_bytes(rt, &out, count)
}

// Reads the first n bytes, where there are as many.
fn read_back(rt: &impl Print, out: &[u8], n: usize) -> io::Result<()> {
    if out.len() < n {
        return Ok(());
    }
    shown(rt, "read back: ", &out[..n])
}

// Writes a store in a form, and prints the number, the count, and the lent bytes: the image and two more, which are as they came.
fn written(rt: &impl Print, what: &str, form: u8, s: Store, out: &mut [u8]) -> io::Result<()> {
    let answer = write(form, s, out);
    let number = answer.number();
    let n = answer.unwrap_or(0);
    print!(rt; "{what}{number}  count {n}  lent bytes")?;
    if n < 500 {
        say_bytes(rt, out, n + 2)?;
    }
    Ok(())
}

// Cassettes 1 to 254, and then blanks.
fn numbered(i: usize) -> Cassette {
    if i < 254 { i as u16 + 1 } else { blank() }
}

// m 16, h 16, full: cassettes 1 to 254 from shaft 0 upward, and two blanks.
fn fullest() -> Store {
    let mut s = empty(16, 16);
    s.heights = [16; 16];
    for i in 0..256 {
        s.slots[i] = numbered(i);
    }
    s
}

// The same with another cassette in the last slot.
fn last_is(c: Cassette) -> Store {
    let mut s = fullest();
    s.slots[255] = c;
    s
}

fn images_read(rt: &impl Print) -> io::Result<()> {
    shown(rt, "the example: ", b"\x02\x11\x00\x81\x00\x20\x60")?;
    shown(rt, "m 1, h 1, empty: ", b"\x00\x00\x00")?;
    shown(rt, "two blanks: ", b"\x00\x11\x7F\xFF\x80")
}

fn images_cut(rt: &impl Print) -> io::Result<()> {
    shown(rt, "no bytes: ", b"")?;
    shown(rt, "form 3: ", b"\x30\x00\x00")?;
    shown(rt, "01 11: ", b"\x01\x11")?;
    shown(rt, "without its last byte: ", b"\x02\x11\x00\x81\x00\x20")
}

// [1 2 3] [4] [5] of depths 3, 2 and 2; the example in form 1; one shaft of depth 2, [1 2], in form 1.
fn images_of_form_1(rt: &impl Print) -> io::Result<()> {
    shown(
        rt,
        "depths 3 2 2: ",
        b"\x12\x21\x80\x81\x01\x88\x41\x04\x20\xA0",
    )?;
    shown(
        rt,
        "form 1, equal depths: ",
        b"\x12\x11\x00\x81\x08\x04\x20\x60",
    )?;
    shown(rt, "form 1, one shaft: ", b"\x10\x11\x00\x81\x00")
}

// Form 1 without a height, with a height above its shaft's own depth, and with a padding bit.
fn faults_of_form_1(rt: &impl Print) -> io::Result<()> {
    shown(rt, "form 1, no height: ", b"\x10\x10")?;
    shown(rt, "height 2 of 1: ", b"\x11\x20\x00\x80\x40\x80")?;
    shown(
        rt,
        "form 1, a padding bit: ",
        b"\x12\x21\x80\x81\x01\x88\x41\x04\x20\xA1",
    )
}

fn images_faulty(rt: &impl Print) -> io::Result<()> {
    shown(rt, "height 3 of 2: ", b"\x02\x11\x80\x81\x00\x20\x60")?;
    shown(rt, "cassette 0: ", b"\x02\x11\x00\x01\x00\x20\x60")?;
    shown(rt, "cassette 1 twice: ", b"\x02\x11\x00\x80\x80\x20\x60")?;
    shown(rt, "cassette 254 twice: ", b"\x00\x11\x7F\x7F\x00")
}

// The same stores as the example and as two blanks, in form 2; 255, which is a cassette there; and numbers that share their low bits.
fn images_of_form_2(rt: &impl Print) -> io::Result<()> {
    shown(
        rt,
        "form 2, the example: ",
        b"\x22\x11\x00\x08\x01\x08\x04\x20\x06",
    )?;
    shown(rt, "form 2, two blanks: ", b"\x20\x11\x7F\xFF\xFF\x80")?;
    shown(rt, "form 2, 255 and a blank: ", b"\x20\x11\x07\xFF\xFF\x80")?;
    shown(rt, "form 2, 64 and 4032: ", b"\x20\x11\x02\x07\xE0\x00")?;
    shown(
        rt,
        "form 2, depths 3 2 2: ",
        b"\x22\x21\x87\xF0\x7F\x88\x00\x87\xFF\x84\x3F\xFE",
    )
}

// Form 2 with 255 twice, 4,094 twice, a cassette 0, and half a cassette.
fn faults_of_form_2(rt: &impl Print) -> io::Result<()> {
    shown(rt, "form 2, 255 twice: ", b"\x20\x11\x07\xF8\x7F\x80")?;
    shown(rt, "form 2, 4094 twice: ", b"\x20\x11\x7F\xF7\xFF\x00")?;
    shown(rt, "form 2, cassette 0: ", b"\x20\x11\x08\x00\x00\x00")?;
    shown(rt, "form 2, cut: ", b"\x20\x11\x07\xFF")
}

fn images_padded(rt: &impl Print) -> io::Result<()> {
    shown(rt, "a padding bit: ", b"\x02\x11\x00\x81\x00\x20\x61")?;
    shown(
        rt,
        "a byte after the padding: ",
        b"\x02\x11\x00\x81\x00\x20\x60\x00",
    )
}

// The same with a last shaft of depth and height 15: 255 cassettes.
fn uneven() -> Store {
    let mut s = last_is(0);
    s.depths[15] = 15;
    s.heights[15] = 15;
    s
}

fn stores_written(rt: &impl Print) -> io::Result<()> {
    let mut out = [255u8; 500];
    written(rt, "m 1, h 1, empty: ", 0, empty(1, 1), &mut out)?;
    written(rt, "m 16, h 16, 256 cassettes: ", 0, fullest(), &mut out)?;
    read_back(rt, &out, 268)?;
    written(rt, "the same in form 1: ", 1, fullest(), &mut out)?;
    read_back(rt, &out, 275)?;
    written(rt, "the same in form 2: ", 2, fullest(), &mut out)?;
    read_back(rt, &out, 403)?;
    written(rt, "depths 16 and one 15: ", 1, uneven(), &mut out)?;
    read_back(rt, &out, 274)?;
    written(rt, "the last is 4094: ", 2, last_is(4094), &mut out)?;
    read_back(rt, &out, 403)
}

fn stores_refused(rt: &impl Print) -> io::Result<()> {
    let mut kept = [255u8; 2];
    written(rt, "m 0: ", 3, empty(0, 1), &mut kept)?;
    written(rt, "two bytes lent for three: ", 0, empty(1, 1), &mut kept)?;
    written(rt, "a 256th cassette, 0: ", 0, last_is(0), &mut kept)?;
    written(
        rt,
        "a 256th cassette, 254 again: ",
        0,
        last_is(254),
        &mut kept,
    )?;
    written(rt, "a 256th cassette, 4096: ", 2, last_is(4096), &mut kept)
}

// 1, then 18, then 10.
fn forms_refused(rt: &impl Print) -> io::Result<()> {
    let mut kept = [255u8; 2];
    written(rt, "form 3: ", 3, last_is(300), &mut kept)?;
    written(rt, "form 255: ", 255, empty(1, 1), &mut kept)?;
    written(rt, "cassette 255 in form 0: ", 0, last_is(255), &mut kept)?;
    written(rt, "cassette 300 in form 1: ", 1, last_is(300), &mut kept)?;
    written(rt, "cassette 4094 in form 1: ", 1, last_is(4094), &mut kept)?;
    written(rt, "cassette 300 in form 2: ", 2, last_is(300), &mut kept)?;
    written(rt, "unequal depths in form 0: ", 0, uneven(), &mut kept)?;
    written(rt, "unequal depths in form 1: ", 1, uneven(), &mut kept)
}

fn main(rt: HostRuntime) -> io::Result<()> {
    images_read(&rt)?;
    images_cut(&rt)?;
    images_faulty(&rt)?;
    images_of_form_1(&rt)?;
    faults_of_form_1(&rt)?;
    images_of_form_2(&rt)?;
    faults_of_form_2(&rt)?;
    images_padded(&rt)?;
    stores_written(&rt)?;
    stores_refused(&rt)?;
    forms_refused(&rt)
}
