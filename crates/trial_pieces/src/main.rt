// Streams cut into pieces of 1 to 16 bytes, with a piece of no bytes behind each: the answer to every frame, and in which slice it lies. The file
// stdout was written by the model of oracle/ (`pieces rows`).
#![tactic(auto)]

use pieces;
use pieces::{State, Stop};
use pieces_read;
use pieces_read::Answer;
use records::answer::Read;
use refusal_numbers;

// The refusal's number, or 0 for a record, and the bytes taken.
fn frame(words: &[u8], r: Read) {
    io::write_all(1, words);
    match r {
        Ok((_, _, taken)) => said(0, taken),
        Err((e, taken)) => said(refusal_numbers::number(e), taken),
    }
}

fn said(number: u8, taken: usize) {
    io::print_decimal(1, number as u64);
    io::write_all(1, b"/");
    io::print_decimal(1, taken as u64);
}

// An answer; whether the piece may hold another.
fn answered(answer: Result<Answer, Stop>) -> bool {
    match answer {
        Ok(Answer::More) => return false,
        Ok(Answer::InPiece(r)) => {
            frame(b" ", r);
            return true;
        }
        Ok(Answer::InBuffer(r)) => {
            frame(b" buffer:", r);
            return true;
        }
        Err(why) => {
            io::write_all(1, b" ");
            said(pieces::number(why), 0);
            return false;
        }
    }
}

// The calls for a piece: one more than it has bytes is enough.
fn push(state: State, limit: Option<usize>, buffer: &mut [u8], piece: &[u8]) -> State {
    let mut st = state;
    let mut rest = piece;
    for _ in 0..=piece.len() {
        let reply = pieces_read::next(st, limit, &mut *buffer, rest);
        let answer = reply.answer;
        st = reply.state;
        rest = rest.get(reply.used..).unwrap_or(b"");
        if !answered(answer) {
            return st;
        }
    }
    st
}

// A piece, and one of no bytes.
fn push_two(state: State, limit: Option<usize>, buffer: &mut [u8], piece: &[u8]) -> State {
    let st = push(state, limit, &mut *buffer, piece);
    push(st, limit, &mut *buffer, b"")
}

// The stream in pieces of so many bytes and one.
fn cut(buffer: &mut [u8], limit: Option<usize>, s: &[u8], more: u8) {
    let mut st = pieces::start();
    for piece in s.chunks(more as usize + 1) {
        st = push_two(st, limit, &mut *buffer, piece);
    }
    io::write_all(1, b"\n");
}

// One stream, with each buffer, and under a limit.
fn stream(rows: u64, s: &[u8], more: u8) -> u64 {
    let mut five = [0; 5];
    let mut ten = [0; 10];
    io::write_all(1, b"pieces of ");
    io::print_decimal(1, more as u64 + 1);
    io::write_all(1, b", buffer of 5:");
    cut(&mut five, None, s, more);
    io::write_all(1, b"  buffer of 10:");
    cut(&mut ten, None, s, more);
    io::write_all(1, b"  buffer of 10, limit 9:");
    cut(&mut ten, Some(9), s, more);
    std::num::wrapping_add_u64(rows, 3)
}

fn sizes(rows: u64, s: &[u8]) -> u64 {
    let mut n = rows;
    for more in [0, 1, 2, 6, 15] {
        n = stream(n, s, more);
    }
    n
}

// The streams of a table, each behind a byte with its length.
fn streams(table: &[u8]) -> u64 {
    let mut n: u64 = 0;
    let mut rest = table;
    while let Some((len, behind)) = rest.split_first() {
        let (stream, next) = behind.split_at(behind.len().min(*len as usize));
        n = sizes(n, stream);
        rest = next;
    }
    n
}

fn main() {
    let rows = streams(
        b"\x00\
        \x0A\x30\x08\x00\x03\x61\x2F\x62\x00\x68\x69\
        \x13\xC0\x00\xF0\x00\x30\x08\x00\x03\x61\x2F\x62\x00\x68\x69\x30\x80\x80\x80\x80\
        \x11\xC0\x00\x40\x02\x00\x0A\x30\x09\x00\x03\x61\x2F\x62\x00\x68\x69\x21\
        \x0B\xD0\x00\x30\x80\x00\x30\x08\x00\x03\x61\x2F\
        \x0E\x30\x03\x00\x00\x00\x82\x05\x00\x01\x00\x00\x00\xC0\x00\
        \x09\x50\x02\x00\x01\x30\x81\x01\x00\x01",
    );
    io::print_decimal(1, rows);
    io::write_all(1, b" rows\n");
}
