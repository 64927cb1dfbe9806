// Counts of the rows that are as stored, and the lines that tell them. A group of 67 counts has one for each number up to 64, at 0 for none, and
// at 66 for all: of refusals in a group for the writes of each kind, from Publish (3) on, then for their sizes, then for the reads and each
// list; in the last group of entries of docs/DIFFERENCES.md, with the rows that are not as stored at 65. What would stand past it is not
// counted: the sizes of reads.
use crate::expect::number;
use crate::{file, row};
use std::io::{Print, Stdout};

// How many counts a group has.
const GROUP: usize = 67;

// How many kinds are written: so far behind a write's group is that of its size.
const KINDS: usize = 11;

const READ: usize = 22;

// How many groups there are of refusals; behind them is that of the entries.
const GROUPS: usize = 28;

pub const ENTRIES: usize = 1876;

pub const OTHERWISE: usize = 65;

const ALL: usize = 66;

// So many more.
pub fn add(tally: &mut [u64], group: usize, k: usize, n: u64) {
    let at = std::num::wrapping_add_usize(group, k);
    if let Some(count) = tally.get_mut(at) {
        *count = count.wrapping_add(n);
    }
}

// The group of a list's items, behind that of the reads.
fn list_group(list: u8) -> usize {
    match list {
        38 => 23,
        11 => 24,
        0 => 25,
        9 => 26,
        _ => 27,
    }
}

// The group of a row: of a read, of an item's list, or of the kind that is written.
fn group(v: &[usize]) -> usize {
    let kind = file::small(v, row::TYPE);
    match kind {
        1 => READ,
        2 => list_group(file::small(v, 2)),
        _ => std::num::wrapping_sub_usize(kind as usize, 3),
    }
}

// Where a group starts.
fn start(group: usize) -> usize {
    group % 64 * GROUP
}

// One more of a group, with the refusal of the answer at k.
fn add_answer(tally: &mut [u64], group: usize, f: &[u8], v: &[usize], k: usize) {
    let refusal = file::byte(f, file::value(v, k), 0);
    add(&mut *tally, group, refusal as usize, 1);
    add(&mut *tally, group, ALL, 1);
}

// Each entry of the class.
fn add_entries(tally: &mut [u64], class: usize) {
    let mut left = class;
    let mut k: usize = 1;
    if class == 0 {
        left = 1;
        k = 0;
    }
    while 0 < left {
        add(&mut *tally, ENTRIES, k, (left % 2) as u64);
        left = left / 2;
        k = std::num::wrapping_add_usize(k, 1);
    }
}

pub fn as_stored(tally: &mut [u64], f: &[u8], v: &[usize]) {
    let g = group(v);
    add_answer(&mut *tally, start(g), f, v, row::ANSWER);
    add_answer(
        &mut *tally,
        start(std::num::wrapping_add_usize(g, KINDS)),
        f,
        v,
        row::SIZE,
    );
    add_entries(&mut *tally, file::value(v, row::CLASS));
    add(&mut *tally, ENTRIES, ALL, 1);
}

// ---- the lines

// Words. What standard output does not take is lost.
pub fn put(to: Stdout, w: &[u8]) {
    let _ = Print::write_all(&to, w);
}

// Words and a number.
pub fn say(to: Stdout, words: &[u8], n: u64) {
    put(to, words);
    let _ = to.print(n);
}

// If there is one.
fn count(to: Stdout, tally: &[u64], words: &[u8], group: usize, k: usize) {
    let n = number(tally, group, k);
    if n == 0 {
        return;
    }
    say(to, words, k as u64);
    say(to, b": ", n);
}

// The rest of a line: the first count of the group, then each with its number.
fn counts(to: Stdout, tally: &[u64], first: &[u8], words: &[u8], group: usize) {
    say(to, first, number(tally, group, 0));
    for k in 1..OTHERWISE {
        count(to, tally, words, group, k);
    }
    put(to, b"\n");
}

fn line(to: Stdout, tally: &[u64], words: &[u8], name: &[u8], group: usize) {
    put(to, words);
    put(to, name);
    say(to, b": ", number(tally, group, ALL));
    counts(to, tally, b"; accepted: ", b"; refused ", group);
}

// A line for each group up to an end, by words and a name; a comma stands between two names.
fn groups(to: Stdout, tally: &[u64], words: &[u8], names: &[u8], first: usize, end: usize) {
    for (k, name) in (first..end).zip(names.split(|b| *b == b',')) {
        line(to, tally, words, name, start(k));
    }
}

// The writes, or the sizes, of each kind.
fn kinds(to: Stdout, tally: &[u64], words: &[u8], first: usize, end: usize) {
    groups(
        to,
        tally,
        words,
        b"Publish,PubAck,PubRec,PubRel,PubComp,Subscribe,SubAck,Unsubscribe,UnsubAck,PingReq,PingResp",
        first,
        end,
    );
}

pub fn lines(to: Stdout, tally: &[u64]) {
    groups(
        to,
        tally,
        b"",
        b"reads,user properties,subscription identifiers,filters,reasons,topics",
        READ,
        GROUPS,
    );
    kinds(to, tally, b"writes of ", 0, KINDS);
    kinds(to, tally, b"sizes of ", KINDS, READ);
    counts(to, tally, b"no difference: ", b"\ndifference ", ENTRIES);
}

// The last line, of a file that was read to its end.
pub fn total(to: Stdout, tally: &[u64]) {
    say(to, b"rows as stored: ", number(tally, ENTRIES, ALL));
    say(to, b"; otherwise: ", number(tally, ENTRIES, OTHERWISE));
    put(to, b"\n");
}
