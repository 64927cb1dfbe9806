// The file's bytes: numbers, runs and lists at an index, and the index after them. oracle/README.md has the format. What would lie past the
// end is 0 or empty, and the index after it is LOST.
use records::span::Span;
use wire::string;

// The index that no file has.
pub const LOST: usize = 18446744073709551615;

// How many numbers a list has at most.
const LIST: usize = 8;

pub fn after(f: &[u8], at: usize, n: usize) -> usize {
    if f.len() < at {
        return LOST;
    }
    if f.len() - at < n {
        return LOST;
    }
    at + n
}

// The byte at the index; past the end, the one that is given.
pub fn byte(s: &[u8], at: usize, past: u8) -> u8 {
    s.get(at).copied().unwrap_or(past)
}

// The number that n bytes make, or the last eight of them.
pub fn number(f: &[u8], at: usize, n: u8) -> u64 {
    let mut value: u64 = 0;
    let mut next = at;
    for _ in 0..n {
        value = value % 72057594037927936 * 256 + byte(f, next, 0) as u64;
        next = after(f, next, 1);
    }
    value
}

fn after_run(f: &[u8], at: usize) -> usize {
    after(f, after(f, at, 4), number(f, at, 4) as usize)
}

// A list; one that is too long for the program is lost.
fn after_list(f: &[u8], at: usize) -> usize {
    let n = number(f, at, 2) as usize;
    if LIST < n {
        return LOST;
    }
    after(f, after(f, at, 2), n * 4)
}

// The refusal's number, and pairs of an index and a number.
fn after_answer(f: &[u8], at: usize) -> usize {
    let pairs = after(f, at, 1);
    let n = byte(f, pairs, 0) as usize;
    after(f, after(f, pairs, 1), n * 5)
}

// After a field: R a run, L a list, A an answer, X no field at all; else a number of so many bytes.
fn after_field(f: &[u8], at: usize, letter: u8) -> usize {
    match letter {
        82 => after_run(f, at),
        76 => after_list(f, at),
        65 => after_answer(f, at),
        88 => LOST,
        _ => after(f, at, letter as usize),
    }
}

// What is kept of a field: the number, or the index where it stands.
fn kept(f: &[u8], at: usize, letter: u8) -> usize {
    if 8 < letter {
        return at;
    }
    number(f, at, letter) as usize
}

// Keeps each field, and gives the index after the last.
pub fn walk(f: &[u8], at: usize, fields: &[u8], v: &mut [usize]) -> usize {
    let mut next = at;
    for (letter, place) in fields.iter().zip(v) {
        *place = kept(f, next, *letter);
        next = after_field(f, next, *letter);
    }
    next
}

// ---- what was kept

pub fn value(v: &[usize], k: usize) -> usize {
    v.get(k).copied().unwrap_or(LOST)
}

// A number of one byte, of two, of four.
pub fn small(v: &[usize], k: usize) -> u8 {
    (value(v, k) % 256) as u8
}

pub fn medium(v: &[usize], k: usize) -> u16 {
    (value(v, k) % 65536) as u16
}

pub fn large(v: &[usize], k: usize) -> u32 {
    (value(v, k) % 4294967296) as u32
}

// The bytes of a run.
pub fn run<'a>(f: &'a [u8], v: &[usize], k: usize) -> &'a [u8] {
    let at = value(v, k);
    let start = after(f, at, 4);
    let len = number(f, at, 4) as usize;
    string::part(f, Span { start, len })
}

// The numbers of a list, and behind them how many they are.
pub fn lengths(f: &[u8], v: &[usize], at: usize) -> [usize; 9] {
    let mut list = [0; 9];
    let place = value(v, at);
    list[8] = number(f, place, 2) as usize;
    let mut next = after(f, place, 2);
    for n in &mut list[..LIST] {
        *n = number(f, next, 4) as usize;
        next = after(f, next, 4);
    }
    list
}

// The number of four bytes.
fn four(f: &[u8], at: usize) -> u32 {
    (number(f, at, 4) % 4294967296) as u32
}

pub fn identifiers(f: &[u8], v: &[usize], at: usize) -> [u32; 9] {
    let mut list = [0; 9];
    let place = value(v, at);
    list[8] = (number(f, place, 2) % 65536) as u32;
    let mut next = after(f, place, 2);
    for n in &mut list[..LIST] {
        *n = four(f, next);
        next = after(f, next, 4);
    }
    list
}

// The list alone.
pub fn of_lengths(list: &[usize]) -> &[usize] {
    list.get(..value(list, LIST)).unwrap_or(&[])
}

pub fn of_identifiers(list: &[u32]) -> &[u32] {
    let n = list.get(LIST).copied().unwrap_or(0) as usize;
    list.get(..n).unwrap_or(&[])
}
