// The stream, frame by frame: what is held of it in the buffer is read, an object is put for each frame, and more is read where a frame is
// unfinished. An unfinished frame moves to the front of the buffer, once at most. A frame that the buffer does not hold is passed over.
use crate::output::At;
use crate::{line, output};
use outside::Source;
use records::error::Error;
use records::packet_record::Packet;
use records::span::Span;
use std::io::{Stderr, Stdout};
use wire::string;
use write_bytes::put_bytes;

// How far the stream is read.
#[derive(Clone, Copy)]
enum State {
    // there is more to read
    Going,
    // the input has ended; what is held is still to be read
    Ended,
    // all was read
    Done,
    // a refusal took nothing
    Stopped,
    // the input could not be read, and the system's number of why
    Unreadable(i32),
}

#[derive(Clone, Copy)]
struct Desk {
    // what is held of the stream, in the buffer
    start: usize,
    len: usize,
    // where the output goes on
    put: At,
    // so many bytes of the stream are lacking at least, for the next frame
    wants: usize,
    // so many bytes of a frame that is passed over are still to come, how many it has in all, and its first byte
    skip: u64,
    size: u64,
    first: u8,
    // where the next frame starts in the stream, and how many were before it
    offset: u64,
    index: u64,
    state: State,
    // no filter is given: refusals have their lines too
    all: bool,
}

// 1 MiB
fn buffer() -> [u8; 1048576] {
    [0; 1048576]
}

// The topics by alias, none set.
fn fresh() -> [u8; 2064] {
    [0; 2064]
}

fn add(a: u64, b: u64) -> u64 {
    std::num::wrapping_add_u64(a, b)
}

// ---- a frame

// After a frame of so many bytes of the stream.
fn counted(mut d: Desk, taken: u64) -> Desk {
    d.offset = add(d.offset, taken);
    d.index = add(d.index, 1);
    d
}

// n bytes that are held are behind.
fn dropped(mut d: Desk, n: usize) -> Desk {
    d.start = std::num::wrapping_add_usize(d.start, n);
    d.len = std::num::wrapping_sub_usize(d.len, n);
    d
}

// After a frame of `taken` bytes, whose line ends before `put`. A frame that took nothing is the last that is read.
fn passed(mut d: Desk, put: At, taken: usize) -> Desk {
    d.put = put;
    if taken == 0 {
        d.state = State::Stopped;
        return d;
    }
    counted(dropped(d, taken), taken as u64)
}

// Where the output goes on after the line of a refusal, which is put if no filter is given.
fn refused_line(to: Stdout, out: &mut [u8], d: Desk, e: Error, taken: usize) -> At {
    if d.all {
        return output::refused(to, &mut *out, d.put, d.index, d.offset, e, taken);
    }
    d.put
}

fn refused(to: Stdout, out: &mut [u8], tally: &mut [u64], d: Desk, e: Error, taken: usize) -> Desk {
    let put = refused_line(to, &mut *out, d, e, taken);
    desk_summary::add_refused(&mut *tally, e);
    passed(d, put, taken)
}

// How many bytes refusal 1 says are lacking, while there is more to read; else 0.
fn lacking(state: State, e: Error) -> usize {
    match (state, e) {
        (State::Going, Error::InsufficientBytes(n)) => n,
        _ => 0,
    }
}

// A refusal, for which more is to be read first if it lacks bytes; that of no byte at all is the end of the stream.
fn unread(
    to: Stdout,
    out: &mut [u8],
    tally: &mut [u64],
    mut d: Desk,
    e: Error,
    taken: usize,
) -> Desk {
    d.wants = lacking(d.state, e);
    if 0 < d.wants {
        return d;
    }
    if d.len == 0 {
        d.state = State::Done;
        return d;
    }
    refused(to, &mut *out, &mut *tally, d, e, taken)
}

// Where the output goes on after the line of a packet, which is put if the filter lets it pass.
fn packet_line(
    s: &[u8],
    filter: &[u8],
    table: &[u8],
    to: Stdout,
    out: &mut [u8],
    d: Desk,
    p: Packet,
    taken: usize,
) -> At {
    if desk_topic::is_shown(filter, s, table, p) {
        return line::packet(to, &mut *out, d.put, d.index, d.offset, s, table, p, taken);
    }
    d.put
}

fn accepted(
    s: &[u8],
    filter: &[u8],
    table: &mut [u8],
    to: Stdout,
    out: &mut [u8],
    tally: &mut [u64],
    d: Desk,
    p: Packet,
    taken: usize,
) -> Desk {
    desk_topic::learn(&mut *table, s, p);
    let put = packet_line(s, filter, &*table, to, &mut *out, d, p, taken);
    desk_summary::add_packet(&mut *tally, p);
    passed(d, put, taken)
}

fn frame(
    limit: Option<usize>,
    filter: &[u8],
    buf: &[u8],
    table: &mut [u8],
    to: Stdout,
    out: &mut [u8],
    tally: &mut [u64],
    d: Desk,
) -> Desk {
    let held = Span {
        start: d.start,
        len: d.len,
    };
    let s = string::part(buf, held);
    match packet::read(s, limit) {
        Ok((p, _, taken)) => accepted(
            s,
            filter,
            &mut *table,
            to,
            &mut *out,
            &mut *tally,
            d,
            p,
            taken,
        ),
        Err((e, taken)) => unread(to, &mut *out, &mut *tally, d, e, taken),
    }
}

// ---- a frame that is passed over

// Where the output goes on after its line, which is put if no filter is given.
fn skipped_line(to: Stdout, out: &mut [u8], d: Desk) -> At {
    if d.all {
        return output::skipped(
            to,
            &mut *out,
            d.put,
            d.index,
            d.offset,
            d.size,
            d.first / 16,
        );
    }
    d.put
}

// All of it is behind.
fn skipped(to: Stdout, out: &mut [u8], mut d: Desk) -> Desk {
    let put = skipped_line(to, &mut *out, d);
    d.put = put;
    d.skip = 0;
    counted(d, d.size)
}

// The input has ended within it.
fn cut(to: Stdout, out: &mut [u8], tally: &mut [u64], d: Desk) -> Desk {
    let lacks = d.skip as usize;
    refused(
        to,
        &mut *out,
        &mut *tally,
        d,
        Error::InsufficientBytes(lacks),
        0,
    )
}

// None of what is held is behind it.
fn within(to: Stdout, out: &mut [u8], tally: &mut [u64], mut d: Desk) -> Desk {
    d.skip = std::num::wrapping_sub_u64(d.skip, d.len as u64);
    d.len = 0;
    if let State::Going = d.state {
        d.wants = 1;
        return d;
    }
    cut(to, &mut *out, &mut *tally, d)
}

// A Publish that is passed over may set an alias: no topic is known any more.
fn forget(table: &mut [u8], first: u8) {
    if first / 16 == 3 {
        put_bytes(&mut *table, 0, &fresh());
    }
}

fn passing(to: Stdout, out: &mut [u8], tally: &mut [u64], d: Desk) -> Desk {
    if (d.len as u64) < d.skip {
        return within(to, &mut *out, &mut *tally, d);
    }
    skipped(to, &mut *out, dropped(d, d.skip as usize))
}

// ---- input

// The part at a place to the front of another slice.
fn copy(to: &mut [u8], from: &[u8], start: usize, len: usize) {
    put_bytes(&mut *to, 0, string::part(from, Span { start, len }));
}

// What is held to the front of the buffer, by way of the output, in which nothing waits.
fn to_front(buf: &mut [u8], out: &mut [u8], mut d: Desk) -> Desk {
    if d.start == 0 {
        return d;
    }
    copy(&mut *out, &*buf, d.start, d.len);
    copy(&mut *buf, &*out, 0, d.len);
    d.start = 0;
    d
}

// The first byte of what is held, which stands at the front.
fn first(buf: &[u8]) -> u8 {
    buf.first().copied().unwrap_or(0)
}

// The frame fills the buffer, and lacks bytes: it is passed over.
fn too_long(buf: &[u8], mut d: Desk) -> Desk {
    d.size = add(d.len as u64, d.wants as u64);
    d.skip = d.size;
    d.first = first(buf);
    d
}

// A read gave n bytes more; none where the input has ended.
fn filled(mut d: Desk, n: usize) -> Desk {
    d.len = std::num::wrapping_add_usize(d.len, n);
    if n == 0 {
        d.state = State::Ended;
    }
    d
}

// The input could not be read.
fn unreadable(mut d: Desk, number: i32) -> Desk {
    d.state = State::Unreadable(number);
    d
}

// Reads once behind what is held, which stands at the front.
fn fill(source: &mut Source, buf: &mut [u8], d: Desk) -> Desk {
    let from = d.len;
    if buf.len() <= from {
        return too_long(&*buf, d);
    }
    match outside::read(&mut *source, &mut buf[from..]) {
        Ok(n) => filled(d, n),
        Err(e) => unreadable(d, outside::number_of(e)),
    }
}

// More of the stream, if more is wanted. What was put is written first: a line does not wait for input.
fn more(source: &mut Source, buf: &mut [u8], to: Stdout, out: &mut [u8], mut d: Desk) -> Desk {
    if d.wants == 0 {
        return d;
    }
    d.put = output::flush(to, &*out, d.put);
    if d.put.is_err() {
        return d;
    }
    let front = to_front(&mut *buf, &mut *out, d);
    fill(&mut *source, &mut *buf, front)
}

// ---- the stream

fn step(
    limit: Option<usize>,
    filter: &[u8],
    buf: &[u8],
    table: &mut [u8],
    to: Stdout,
    out: &mut [u8],
    tally: &mut [u64],
    mut d: Desk,
) -> Desk {
    d.wants = 0;
    if 0 < d.skip {
        forget(&mut *table, d.first);
        return passing(to, &mut *out, &mut *tally, d);
    }
    frame(
        limit,
        filter,
        buf,
        &mut *table,
        to,
        &mut *out,
        &mut *tally,
        d,
    )
}

// One frame, or one read.
fn turn(
    source: &mut Source,
    limit: Option<usize>,
    filter: &[u8],
    buf: &mut [u8],
    table: &mut [u8],
    to: Stdout,
    out: &mut [u8],
    tally: &mut [u64],
    d: Desk,
) -> Desk {
    let next = step(
        limit,
        filter,
        &*buf,
        &mut *table,
        to,
        &mut *out,
        &mut *tally,
        d,
    );
    more(&mut *source, &mut *buf, to, &mut *out, next)
}

fn is_going(d: Desk) -> bool {
    d.put.is_ok() && matches!(d.state, State::Going | State::Ended)
}

// A proved loop has to end, and nothing says that a stream does. So the loop counts its turns, up to a number that no run reaches.
fn read_all(
    source: &mut Source,
    limit: Option<usize>,
    filter: &[u8],
    buf: &mut [u8],
    table: &mut [u8],
    to: Stdout,
    out: &mut [u8],
    tally: &mut [u64],
) -> Desk {
    let mut d = Desk {
        start: 0,
        len: 0,
        put: Ok(0),
        wants: 0,
        skip: 0,
        size: 0,
        first: 0,
        offset: 0,
        index: 0,
        state: State::Going,
        all: filter.len() == 0,
    };
    for _ in 0..u64::MAX {
        d = turn(
            &mut *source,
            limit,
            filter,
            &mut *buf,
            &mut *table,
            to,
            &mut *out,
            &mut *tally,
            d,
        );
        if !is_going(d) {
            return d;
        }
    }
    d
}

// What the system ends a program with that writes where nobody takes it any more; `std` has it go on, so that the program ends itself.
pub const UNTAKEN: u8 = 141;

// What was put could not be written; gives the exit status.
fn lost(to: Stderr, number: i32) -> u8 {
    if number == output::BROKEN_PIPE {
        return UNTAKEN;
    }
    output::fail(to, b"standard output", number);
    1
}

// Writes what is left of the output, then what was read, on standard error; gives the exit status.
fn finish(rt: HostRuntime, out: &mut [u8], tally: &[u64], d: Desk) -> u8 {
    let to = rt.stderr();
    if let Err(number) = output::flush(rt.stdout(), &*out, d.put) {
        return lost(to, number);
    }
    let len = desk_summary::put_summary(&mut *out, tally, d.offset);
    output::tell(to, &*out, len);
    if let State::Done = d.state {
        return 0;
    }
    1
}

// Reads the stream to its end, or to where it stops; gives the exit status.
pub fn read(
    rt: HostRuntime,
    mut source: Source,
    name: &[u8],
    limit: Option<usize>,
    filter: &[u8],
) -> u8 {
    let mut buf = buffer();
    let mut table = fresh();
    let mut out = buffer();
    let mut tally = desk_summary::none();
    let d = read_all(
        &mut source,
        limit,
        filter,
        &mut buf,
        &mut table,
        rt.stdout(),
        &mut out,
        &mut tally,
    );
    if let State::Unreadable(number) = d.state {
        output::fail(rt.stderr(), name, number);
    }
    finish(rt, &mut out, &tally, d)
}
