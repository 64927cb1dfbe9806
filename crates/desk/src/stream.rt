// The stream, frame by frame: what is held of it in the buffer is read, a line is put for each frame, and more is read where a frame is
// unfinished. An unfinished frame moves to the front of the buffer, once at most; one that is longer than the buffer is passed over.
ghost use Rattle.std.specs.Prelude.{◌≡◌, ◌+◌, ◌≤◌, length};
ghost use Rattle.records.specs.AsNumbers.{told_span};
ghost use Rattle.desk.specs.Held.{fronted, Kept};

use crate::output::At;
use crate::{line, output};
use desk_arguments::Style;
use outside::Source;
use records::error::Error;
use records::packet_record::Packet;
use records::span::Span;
use std::io::{Stderr, Stdout};
use wire::string;
use write_bytes::put_bytes;

// How far the stream is read.
#[derive(Clone, Copy)]
enum State {
    // there is more to read
    Going,
    // the input has ended; what is held is still to be read
    Ended,
    // all was read
    Done,
    // a refusal took nothing
    Stopped,
    // the input could not be read, and the system's number of why
    Unreadable(i32),
}

#[derive(Clone, Copy)]
struct Desk {
    // what is held of the stream, in the buffer
    held: Span,
    // where the output goes on
    put: At,
    // where the next frame starts in the stream
    offset: u64,
    state: State,
    // no filter is given: refusals, and frames that are passed over, have their lines too
    all: bool,
    // of a frame that is passed over: the bytes yet to come, its first byte, all its bytes
    skip: usize,
    first: u8,
    size: u64,
    // how many frames were passed over
    skipped: u64,
    // of a frame above the limit: its bytes, and the limit
    over: Option<(usize, usize)>,
}

// 1 MiB
fn buffer() -> [u8; 1048576] {
    [0; 1048576]
}

// 64 KiB
fn out_buffer() -> [u8; 65536] {
    [0; 65536]
}

// The topics by alias, none set.
fn fresh() -> [u8; 2064] {
    [0; 2064]
}

// How many bytes refusal 1 says are lacking, while there is more to read; else 0.
fn lacking(state: State, e: Error) -> usize {
    match (state, e) {
        (State::Going, Error::InsufficientBytes(n)) => n,
        _ => 0,
    }
}

// After a frame of `taken` bytes, whose line ends before `put`. A frame that took nothing is the last that is read.
fn passed(mut d: Desk, put: At, taken: usize) -> Desk {
    let held = d.held;
    d.put = put;
    if taken == 0 {
        d.state = State::Stopped;
        return d;
    }
    if held.len < taken {
        d.state = State::Stopped;
        return d;
    }
    let start = std::num::wrapping_add_usize(held.start, taken);
    let len = held.len - taken;
    let rest = Span { start, len };
    d.held = rest;
    d.offset = std::num::wrapping_add_u64(d.offset, taken as u64);
    d
}

// Where the output goes on after the line of a refusal, which is put if no filter is given.
fn refused_line(to: Stdout, out: &mut [u8], d: Desk, colour: bool, e: Error, taken: usize) -> At {
    if d.all {
        let a = output::paint(to, &mut *out, d.put, colour, b"\x1B[31m");
        let b = output::refused(to, &mut *out, a, d.offset, e, taken);
        return output::paint(to, &mut *out, b, colour, b"\x1B[0m");
    }
    d.put
}

// What refusal 3 says is kept for standard error.
fn over_limit(mut d: Desk, e: Error) -> Desk {
    if let Error::PayloadSizeLimitExceeded(size, most) = e {
        d.over = Some((size, most));
    }
    d
}

// A refusal; that of no byte at all is the end of the stream.
fn refused(
    to: Stdout,
    out: &mut [u8],
    tally: &mut [u64],
    colour: bool,
    mut d: Desk,
    e: Error,
    taken: usize,
) -> Desk {
    let held = d.held;
    if held.len == 0 {
        d.state = State::Done;
        return d;
    }
    let put = refused_line(to, &mut *out, d, colour, e, taken);
    desk_summary::add_refused(&mut *tally, e);
    passed(over_limit(d, e), put, taken)
}

// The bytes from `start` on, `len` of them, to the front.
fn to_front(buf: &mut [u8], start: usize, len: usize)
    ensures { start + len ≤ length buf.old → buf.new ≡ fronted buf.old start len }
{
    if buf.len() < start {
        return;
    }
    if buf.len() - start < len {
        return;
    }
    for i in 0..len {
        buf[i] = buf[start + i];
    }
}

// What is held, with room behind it if it is shorter than the buffer.
fn with_room(buf: &mut [u8], held: Span) -> Span
    ensures { Kept buf.old (told_span held) buf.new (told_span result) }
{
    let start = held.start;
    let len = held.len;
    if len == 0 {
        return Span { start: 0, len };
    }
    if std::num::wrapping_add_usize(start, len) < buf.len() {
        return held;
    }
    to_front(&mut *buf, start, len);
    Span { start: 0, len }
}

// Reads once from index `from` on; the system's number of why the input cannot be read, and 0 where there is no such index.
fn read_from(source: &mut Source, buf: &mut [u8], from: usize) -> Result<usize, i32> {
    if buf.len() < from {
        return Err(0);
    }
    match outside::read(&mut *source, &mut buf[from..]) {
        Ok(n) => Ok(n),
        Err(e) => Err(outside::number_of(e)),
    }
}

// Reads once behind what is held.
fn fill(source: &mut Source, buf: &mut [u8], mut d: Desk) -> Desk {
    let held = d.held;
    let start = held.start;
    match read_from(&mut *source, &mut *buf, start.wrapping_add(held.len)) {
        Ok(0) => {
            d.state = State::Ended;
            d
        }
        Ok(n) => {
            let len = std::num::wrapping_add_usize(held.len, n);
            let now = Span { start, len };
            d.held = now;
            d
        }
        Err(number) => {
            d.state = State::Unreadable(number);
            d
        }
    }
}

// The first byte of what is held.
fn first_of(buf: &[u8], held: Span) -> u8 {
    buf.get(held.start).copied().unwrap_or(0)
}

// From here on the frame that fills the buffer, and lacks so many bytes, is passed over.
fn skipping(mut d: Desk, first: u8, lacks: usize) -> Desk {
    let held = d.held;
    d.first = first;
    d.size = std::num::wrapping_add_u64(held.len as u64, lacks as u64);
    d.skip = lacks;
    let none = Span { start: 0, len: 0 };
    d.held = none;
    d
}

// More of the stream, for a frame that lacks some bytes. What was put is written first: a line does not wait for input.
fn more(
    source: &mut Source,
    buf: &mut [u8],
    to: Stdout,
    out: &mut [u8],
    mut d: Desk,
    lacks: usize,
) -> Desk {
    d.put = output::flush(to, &*out, d.put);
    if d.put.is_err() {
        return d;
    }
    let held = with_room(&mut *buf, d.held);
    d.held = held;
    if buf.len() <= held.len {
        return skipping(d, first_of(&*buf, held), lacks);
    }
    fill(&mut *source, &mut *buf, d)
}

fn unread(
    source: &mut Source,
    buf: &mut [u8],
    to: Stdout,
    out: &mut [u8],
    tally: &mut [u64],
    colour: bool,
    d: Desk,
    e: Error,
    taken: usize,
) -> Desk {
    let lacks = lacking(d.state, e);
    if 0 < lacks {
        return more(&mut *source, &mut *buf, to, &mut *out, d, lacks);
    }
    refused(to, &mut *out, &mut *tally, colour, d, e, taken)
}

// The line of a frame that was passed over.
fn skipped_line(to: Stdout, out: &mut [u8], d: Desk, colour: bool) -> At {
    if d.all {
        return line::skipped(to, &mut *out, d.put, d.offset, d.first, d.size, colour);
    }
    d.put
}

// A Publish that was passed over may have set an alias: no topic is known any more.
fn forget(table: &mut [u8], first: u8) {
    if first / 16 == 3 {
        put_bytes(&mut *table, 0, &fresh());
    }
}

// Its last byte is passed.
fn skipped(table: &mut [u8], to: Stdout, out: &mut [u8], mut d: Desk, colour: bool) -> Desk {
    forget(&mut *table, d.first);
    let put = skipped_line(to, &mut *out, d, colour);
    d.put = put;
    d.offset = std::num::wrapping_add_u64(d.offset, d.size);
    d.skipped = std::num::wrapping_add_u64(d.skipped, 1);
    d
}

// What is held belongs to it, so many bytes at most.
fn pass_held(mut d: Desk) -> Desk {
    let held = d.held;
    if held.len < d.skip {
        d.skip = d.skip - held.len;
        let none = Span { start: 0, len: 0 };
        d.held = none;
        return d;
    }
    let start = std::num::wrapping_add_usize(held.start, d.skip);
    let len = held.len - d.skip;
    let rest = Span { start, len };
    d.held = rest;
    d.skip = 0;
    d
}

fn cut_off(to: Stdout, out: &mut [u8], tally: &mut [u64], colour: bool, mut d: Desk) -> Desk {
    let e = Error::InsufficientBytes(d.skip);
    let put = refused_line(to, &mut *out, d, colour, e, 0);
    d.put = put;
    desk_summary::add_refused(&mut *tally, e);
    d.state = State::Stopped;
    d
}

// One read of a frame that is passed over; where the input ends inside it, it lacks what is yet to come.
fn pass_over(
    source: &mut Source,
    buf: &mut [u8],
    table: &mut [u8],
    to: Stdout,
    out: &mut [u8],
    tally: &mut [u64],
    colour: bool,
    d: Desk,
) -> Desk {
    let got = fill(&mut *source, &mut *buf, d);
    if let State::Ended = got.state {
        return cut_off(to, &mut *out, &mut *tally, colour, got);
    }
    let left = pass_held(got);
    if left.skip == 0 {
        return skipped(&mut *table, to, &mut *out, left, colour);
    }
    left
}

// The same after the line of a packet, which is put if the filter lets it pass.
fn packet_line(
    s: &[u8],
    filter: &[u8],
    table: &[u8],
    to: Stdout,
    out: &mut [u8],
    style: Style,
    d: Desk,
    p: Packet,
    taken: usize,
) -> At {
    if desk_topic::is_shown(filter, s, table, p) {
        return line::packet(to, &mut *out, d.put, d.offset, s, table, style, p, taken);
    }
    d.put
}

fn accepted(
    s: &[u8],
    filter: &[u8],
    table: &mut [u8],
    to: Stdout,
    out: &mut [u8],
    tally: &mut [u64],
    style: Style,
    d: Desk,
    p: Packet,
    taken: usize,
) -> Desk {
    desk_topic::learn(&mut *table, s, p);
    let put = packet_line(s, filter, &*table, to, &mut *out, style, d, p, taken);
    desk_summary::add_packet(&mut *tally, p);
    passed(d, put, taken)
}

// One frame, or one read for it.
fn read_frame(
    source: &mut Source,
    limit: Option<usize>,
    filter: &[u8],
    buf: &mut [u8],
    table: &mut [u8],
    to: Stdout,
    out: &mut [u8],
    tally: &mut [u64],
    style: Style,
    d: Desk,
) -> Desk {
    let s = string::part(&*buf, d.held);
    match packet::read(s, limit) {
        Ok((p, _, taken)) => accepted(
            s,
            filter,
            &mut *table,
            to,
            &mut *out,
            &mut *tally,
            style,
            d,
            p,
            taken,
        ),
        Err((e, taken)) => unread(
            &mut *source,
            &mut *buf,
            to,
            &mut *out,
            &mut *tally,
            style.colour,
            d,
            e,
            taken,
        ),
    }
}

fn turn(
    source: &mut Source,
    limit: Option<usize>,
    filter: &[u8],
    buf: &mut [u8],
    table: &mut [u8],
    to: Stdout,
    out: &mut [u8],
    tally: &mut [u64],
    style: Style,
    d: Desk,
) -> Desk {
    if 0 < d.skip {
        return pass_over(
            &mut *source,
            &mut *buf,
            &mut *table,
            to,
            &mut *out,
            &mut *tally,
            style.colour,
            d,
        );
    }
    read_frame(
        &mut *source,
        limit,
        filter,
        &mut *buf,
        &mut *table,
        to,
        &mut *out,
        &mut *tally,
        style,
        d,
    )
}

fn is_going(d: Desk) -> bool {
    d.put.is_ok() && matches!(d.state, State::Going | State::Ended)
}

// Before the first frame.
fn begun(all: bool) -> Desk {
    Desk {
        held: Span { start: 0, len: 0 },
        put: Ok(0),
        offset: 0,
        state: State::Going,
        all,
        skip: 0,
        first: 0,
        size: 0,
        skipped: 0,
        over: None,
    }
}

// A proved loop has to end, and nothing says that a stream does. So the loop counts its turns, up to a number that no run reaches.
fn read_all(
    source: &mut Source,
    limit: Option<usize>,
    filter: &[u8],
    buf: &mut [u8],
    table: &mut [u8],
    to: Stdout,
    out: &mut [u8],
    tally: &mut [u64],
    style: Style,
) -> Desk {
    let mut d = begun(filter.len() == 0);
    for _ in 0..u64::MAX {
        d = turn(
            &mut *source,
            limit,
            filter,
            &mut *buf,
            &mut *table,
            to,
            &mut *out,
            &mut *tally,
            style,
            d,
        );
        if !is_going(d) {
            return d;
        }
    }
    d
}

// What was above the limit, on standard error.
fn tell_over(to: Stderr, out: &mut [u8], d: Desk) {
    let Some((size, most)) = d.over else {
        return;
    };
    let a = desk_lines::put_number(&mut *out, 0, b"desk: the frame at offset ", d.offset);
    let b = desk_lines::put_number(&mut *out, a as u16, b" has ", size as u64);
    let c = desk_lines::put_number(
        &mut *out,
        b as u16,
        b" bytes, and the limit is ",
        most as u64,
    );
    let len = desk_lines::put_word(&mut *out, c as u16, b": stopped there\n");
    output::tell(to, &*out, len);
}

// How many frames were passed over, on standard error, if any was.
fn tell_skipped(to: Stderr, out: &mut [u8], d: Desk) {
    if d.skipped == 0 {
        return;
    }
    let a = desk_lines::put_number(&mut *out, 0, b"desk: skipped=", d.skipped);
    let len = desk_lines::put_word(&mut *out, a as u16, b" longer than 1048576 bytes\n");
    output::tell(to, &*out, len);
}

// What the system ends a program with that writes where nobody takes it any more; `std` has it go on, so that the program ends itself.
pub const UNTAKEN: u8 = 141;

// What was put could not be written; gives the exit status.
fn lost(to: Stderr, number: i32) -> u8 {
    if number == output::BROKEN_PIPE {
        return UNTAKEN;
    }
    output::fail(to, b"standard output", number);
    1
}

// Writes what is left of the output, then what was read, on standard error; gives the exit status.
fn finish(rt: HostRuntime, out: &mut [u8], tally: &[u64], d: Desk) -> u8 {
    let to = rt.stderr();
    if let Err(number) = output::flush(rt.stdout(), &*out, d.put) {
        return lost(to, number);
    }
    tell_over(to, &mut *out, d);
    tell_skipped(to, &mut *out, d);
    let len = desk_summary::put_summary(&mut *out, tally, d.offset);
    output::tell(to, &*out, len);
    if let State::Done = d.state {
        return 0;
    }
    1
}

// Reads the stream to its end, or to where it stops; gives the exit status.
pub fn read(
    rt: HostRuntime,
    mut source: Source,
    name: &[u8],
    limit: Option<usize>,
    filter: &[u8],
    style: Style,
) -> u8 {
    let mut buf = buffer();
    let mut table = fresh();
    let mut out = out_buffer();
    let mut tally = desk_summary::none();
    let d = read_all(
        &mut source,
        limit,
        filter,
        &mut buf,
        &mut table,
        rt.stdout(),
        &mut out,
        &mut tally,
        style,
    );
    if let State::Unreadable(number) = d.state {
        output::fail(rt.stderr(), name, number);
    }
    finish(rt, &mut out, &tally, d)
}
