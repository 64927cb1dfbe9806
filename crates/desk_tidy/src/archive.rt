// The stream, frame by frame: what is held of it in the buffer is tidied into the output behind what waits there, and more is read where a
// frame is unfinished. A full output is written to standard output.
use crate::tell;
use outside::Source;
use records::error::Error;
use records::span::Span;
use std::io::{Print, Stderr};
use tidying::{Tidied, tidy};
use wire::string;
use write_bytes::put_bytes;

// How far the stream is read.
#[derive(Clone, Copy)]
enum State {
    // there is more to read
    Going,
    // the input has ended; what is held is still to be tidied
    Ended,
    // all was read
    Done,
    // a refusal took nothing, or the next frame is longer than the buffer
    Stopped,
    // the input could not be read, and the system's number of why
    Unreadable(i32),
    // the output could not be written, and the system's number of why
    Lost(i32),
}

// What is lacking, for the next frame.
#[derive(Clone, Copy)]
enum Wants {
    Nothing,
    // room in the output
    Room,
    // so many bytes of the stream at least
    Bytes(usize),
}

#[derive(Clone, Copy)]
struct Archive {
    // what is held of the stream, in the buffer
    start: usize,
    len: usize,
    // so many bytes of the output wait to be written
    waits: usize,
    wants: Wants,
    // where the next frame starts in the stream
    offset: u64,
    // frames that were refused
    refused: u64,
    state: State,
}

// 1 MiB
fn buffer() -> [u8; 1048576] {
    [0; 1048576]
}

fn add(a: u64, b: usize) -> u64 {
    std::num::wrapping_add_u64(a, b as u64)
}

// ---- a frame

// A frame of so many bytes is behind.
fn passed(mut d: Archive, taken: usize) -> Archive {
    d.start = std::num::wrapping_add_usize(d.start, taken);
    d.len = std::num::wrapping_sub_usize(d.len, taken);
    d.offset = add(d.offset, taken);
    d
}

fn tidied(mut d: Archive, size: usize, taken: usize) -> Archive {
    d.waits = std::num::wrapping_add_usize(d.waits, size);
    passed(d, taken)
}

// A refusal; that of no byte at all is the end of the stream.
fn refused(rt: HostRuntime, mut d: Archive, e: Error, taken: usize) -> Archive {
    if d.len == 0 {
        d.state = State::Done;
        return d;
    }
    tell::refused(rt.stderr(), d.offset, e, taken);
    d.refused = add(d.refused, 1);
    if taken == 0 {
        d.state = State::Stopped;
    }
    passed(d, taken)
}

// Room, where the output is full of what waits; or the bytes that refusal 1 says are lacking, while there is more to read.
fn wanted(d: Archive, e: Error) -> Wants {
    match (d.state, e) {
        (_, Error::NoRoom(_)) if d.waits != 0 => Wants::Room,
        (State::Going, Error::InsufficientBytes(n)) if n != 0 => Wants::Bytes(n),
        _ => Wants::Nothing,
    }
}

fn not_put(rt: HostRuntime, mut d: Archive, e: Error, taken: usize) -> Archive {
    d.wants = wanted(d, e);
    if let Wants::Nothing = d.wants {
        return refused(rt, d, e, taken);
    }
    d
}

fn judged(rt: HostRuntime, d: Archive, t: Tidied) -> Archive {
    match t {
        Ok((size, taken)) => tidied(d, size, taken),
        Err((e, taken)) => not_put(rt, d, e, taken),
    }
}

// Into the output from index `at` on.
fn tidy_at(s: &[u8], out: &mut [u8], at: usize) -> Tidied {
    if out.len() < at {
        return Err((Error::NoRoom(0), 0));
    }
    tidy(s, &mut out[at..])
}

fn frame(rt: HostRuntime, buf: &[u8], out: &mut [u8], d: Archive) -> Archive {
    let held = Span {
        start: d.start,
        len: d.len,
    };
    let t = tidy_at(string::part(buf, held), &mut *out, d.waits);
    judged(rt, d, t)
}

// ---- input and output

// What waited could not be written.
fn lost(mut d: Archive, number: i32) -> Archive {
    d.state = State::Lost(number);
    d.wants = Wants::Nothing;
    d
}

// Writes what waits.
fn written(rt: HostRuntime, out: &[u8], mut d: Archive) -> Archive {
    let waits = Span {
        start: 0,
        len: d.waits,
    };
    d.waits = 0;
    if let Wants::Room = d.wants {
        d.wants = Wants::Nothing;
    }
    match Print::write_all(&rt.stdout(), string::part(out, waits)) {
        Ok(()) => d,
        Err(e) => lost(d, outside::number_of(e)),
    }
}

// The same where something is wanted: an archive does not wait for input.
fn ready(rt: HostRuntime, out: &[u8], d: Archive) -> Archive {
    if let Wants::Nothing = d.wants {
        return d;
    }
    written(rt, out, d)
}

// The part at a place to the front of another slice.
fn copy(to: &mut [u8], from: &[u8], start: usize, len: usize) {
    put_bytes(&mut *to, 0, string::part(from, Span { start, len }));
}

// What is held to the front of the buffer, by way of the output, in which nothing waits.
fn to_front(buf: &mut [u8], out: &mut [u8], mut d: Archive) -> Archive {
    copy(&mut *out, &*buf, d.start, d.len);
    copy(&mut *buf, &*out, 0, d.len);
    d.start = 0;
    d
}

// A read gave n bytes more; none where the input has ended.
fn filled(mut d: Archive, n: usize) -> Archive {
    d.len = std::num::wrapping_add_usize(d.len, n);
    d.wants = Wants::Nothing;
    if n == 0 {
        d.state = State::Ended;
    }
    d
}

// The input could not be read.
fn unreadable(mut d: Archive, number: i32) -> Archive {
    d.wants = Wants::Nothing;
    d.state = State::Unreadable(number);
    d
}

// The next frame lacks bytes for which the buffer has no room.
fn too_long(rt: HostRuntime, mut d: Archive, lacks: usize) -> Archive {
    tell::too_long(rt.stderr(), d.offset, add(d.len as u64, lacks), 1048576);
    d.state = State::Stopped;
    d
}

// Reads once behind what is held, which stands at the front, for a frame that lacks bytes.
fn fill(rt: HostRuntime, buf: &mut [u8], d: Archive, lacks: usize) -> Archive {
    let from = d.len;
    if buf.len() <= from {
        return too_long(rt, d, lacks);
    }
    let mut input = Source::Standard(rt.stdin());
    match outside::read(&mut input, &mut buf[from..]) {
        Ok(n) => filled(d, n),
        Err(e) => unreadable(d, outside::number_of(e)),
    }
}

// More of the stream, if more is wanted; then nothing waits in the output.
fn more(rt: HostRuntime, buf: &mut [u8], out: &mut [u8], d: Archive) -> Archive {
    let Wants::Bytes(lacks) = d.wants else {
        return d;
    };
    let front = to_front(&mut *buf, &mut *out, d);
    fill(rt, &mut *buf, front, lacks)
}

// ---- the stream

// One frame, or one write, or one read with a write before it.
fn turn(rt: HostRuntime, buf: &mut [u8], out: &mut [u8], d: Archive) -> Archive {
    let next = frame(rt, &*buf, &mut *out, d);
    let w = ready(rt, &*out, next);
    more(rt, &mut *buf, &mut *out, w)
}

// A proved loop has to end, and nothing says that a stream does. So the loop counts its turns, up to a number that no run reaches.
fn read_all(rt: HostRuntime, buf: &mut [u8], out: &mut [u8]) -> Archive {
    let mut d = Archive {
        start: 0,
        len: 0,
        waits: 0,
        wants: Wants::Nothing,
        offset: 0,
        refused: 0,
        state: State::Going,
    };
    for _ in 0..u64::MAX {
        d = turn(rt, &mut *buf, &mut *out, d);
        if !matches!(d.state, State::Going | State::Ended) {
            return d;
        }
    }
    d
}

// Why it was not read or written to its end, where that is so.
fn explain(to: Stderr, state: State) {
    match state {
        State::Lost(number) => tell::fail(to, b"standard output", number),
        State::Unreadable(number) => tell::fail(to, b"standard input", number),
        _ => {}
    }
}

// What came of the stream; gives the exit status.
fn told(to: Stderr, d: Archive) -> u8 {
    explain(to, d.state);
    tell::summary(to, d.refused, d.offset);
    let is_done = matches!(d.state, State::Done);
    if !is_done || 0 < d.refused {
        tell::not_whole(to);
    }
    u8::from(!is_done)
}

// Reads the stream to its end, or to where it stops; gives the exit status.
pub fn read(rt: HostRuntime) -> u8 {
    let mut buf = buffer();
    let mut out = buffer();
    let d = read_all(rt, &mut buf, &mut out);
    told(rt.stderr(), written(rt, &out, d))
}
