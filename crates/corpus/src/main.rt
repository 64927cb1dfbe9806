// Replays the answers that the crate's own text and 01's rules gave (oracle/README.md) through the port's exported functions: every number
// and every byte of output. The file stdout was counted over the answers by oracle/count-answers.
#![tactic(auto)]

mod expect;
mod file;
mod put_ack;
mod put_ping;
mod put_publish;
mod put_reply;
mod put_subscribe;
mod put_unsubscribe;
mod reads;
mod row;
mod tally;
mod writes;

use file::LOST;
use std::fs::File;
use std::io::Stdout;

// 2 MiB
fn buffer() -> [u8; 2097152] {
    [0; 2097152]
}

// What is not as stored.
fn replay(f: &[u8], v: &[usize]) -> usize {
    match file::small(v, row::TYPE) {
        1 => reads::read(f, v),
        2 => reads::item(f, v),
        _ => writes::write(f, v),
    }
}

// A row that is not as stored, and the first field of it that is not.
fn otherwise(to: Stdout, v: &[usize], k: u64, field: usize) {
    tally::say(to, b"row ", k);
    tally::say(to, b", type ", file::value(v, row::TYPE) as u64);
    tally::say(to, b": not as stored: field ", field as u64);
    tally::put(to, b"\n");
}

// The first is row 1.
fn tell(to: Stdout, tally: &mut [u64], f: &[u8], v: &[usize], k: u64) {
    let field = replay(f, v);
    if field == row::AS_STORED {
        tally::as_stored(&mut *tally, f, v);
        return;
    }
    otherwise(to, v, k, field);
    tally::add(&mut *tally, tally::ENTRIES, tally::OTHERWISE, 1);
}

// The row that is not whole.
fn damaged(to: Stdout, k: u64) {
    tally::say(to, b"DAMAGED: row ", k);
    tally::put(to, b" cannot be read\n");
}

// Every row; the place after the last, or LOST.
fn every_row(to: Stdout, f: &[u8], tally: &mut [u64]) -> usize {
    let n = file::number(f, 0, 4);
    let mut at = file::after(f, 0, 4);
    for k in 1..=n {
        let mut v = [LOST; 31];
        at = row::fields_at(f, at, &mut v);
        if at == LOST {
            damaged(to, k);
            return LOST;
        }
        tell(to, &mut *tally, f, &v, k);
    }
    at
}

// Does the file end where its last row does, before the buffer's end? Its lines tell what was counted in any case.
fn whole(to: Stdout, f: &[u8]) {
    let mut tally = [0; 1943];
    let end = every_row(to, f, &mut tally);
    tally::lines(to, &tally);
    if end == f.len() && end < 2097152 {
        tally::total(to, &tally);
        return;
    }
    tally::put(to, b"DAMAGED: the file does not end with its last row\n");
}

fn read(to: Stdout, file: File) {
    let mut from = file;
    let mut buf = buffer();
    let n = outside::read_full(&mut from, &mut buf);
    whole(to, &buf[..n]);
}

fn main(rt: HostRuntime) {
    let to = rt.stdout();
    match outside::open(&rt, b"answers.bin") {
        Err(e) => {
            tally::put(to, b"DAMAGED: the file cannot be opened\n");
            outside::fail(rt.stderr(), b"answers.bin", outside::number_of(e));
        }
        Ok(file) => read(to, file),
    }
}
