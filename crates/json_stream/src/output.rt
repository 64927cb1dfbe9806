// What is put into the lent output before it is written: words, numbers, texts and bytes in hexadecimal, each from index `at` on, and the index
// after it. A full output is written to standard output.
use json_text::{put_bytes_hex, put_number, put_text, put_word};
use records::error::Error;
use records::span::Span;
use std::io::{Print, Stderr, Stdout};
use wire::string;

// Where the output goes on, or the system's number of why what was put could not be written, 0 if it gave none.
pub type At = Result<usize, i32>;

// The system's number where nobody takes any more what is written.
pub const BROKEN_PIPE: i32 = 32;

// Writes what was put.
pub fn flush(to: Stdout, out: &[u8], at: At) -> At {
    let put = Span { start: 0, len: at? };
    match Print::write_all(&to, string::part(out, put)) {
        Ok(()) => Ok(0),
        Err(e) => Err(outside::number_of(e)),
    }
}

// An index with room for n bytes: the same, or the first once what was put is written.
fn room(to: Stdout, out: &[u8], at: At, n: usize) -> At {
    if n <= out.len().saturating_sub(at?) {
        return at;
    }
    flush(to, out, at)
}

// The index behind what was put, if it had room.
fn within(out: &[u8], next: usize) -> At {
    if out.len() < next {
        return Err(0);
    }
    Ok(next)
}

pub fn word(to: Stdout, out: &mut [u8], at: At, w: &[u8]) -> At {
    let from = room(to, &*out, at, w.len())?;
    let next = put_word(&mut *out, from, w);
    within(&*out, next)
}

// Words of less than 80 bytes, and a number behind them.
pub fn number(to: Stdout, out: &mut [u8], at: At, w: &[u8], n: u64) -> At {
    let from = room(to, &*out, at, 100)?;
    let next = put_number(&mut *out, from, w, n);
    within(&*out, next)
}

// A piece of at most 4,096 bytes: of a text, or in hexadecimal. No byte of a text is put in more than six.
fn put_piece(to: Stdout, out: &mut [u8], at: At, s: &[u8], is_text: bool) -> At {
    let from = room(to, &*out, at, 24576)?;
    if is_text {
        let next = put_text(&mut *out, from, s);
        return within(&*out, next);
    }
    let next = put_bytes_hex(&mut *out, from, s);
    within(&*out, next)
}

// The bytes of s as they stand between quotes: a text, or in hexadecimal.
pub fn quoted(to: Stdout, out: &mut [u8], at: At, s: &[u8], is_text: bool) -> At {
    let mut next = at;
    for piece in s.chunks(4096) {
        next = put_piece(to, &mut *out, next, piece, is_text);
    }
    next
}

// What every object begins with, which is shorter than 256 bytes.
pub fn head(
    to: Stdout,
    out: &mut [u8],
    at: At,
    index: u64,
    offset: u64,
    kind: &[u8],
    taken: u64,
) -> At {
    let from = room(to, &*out, at, 256)?;
    let next = json_lines::put_head(&mut *out, from, index, offset, kind, taken);
    within(&*out, next)
}

// The line of a refusal, which is shorter than 256 bytes.
pub fn refused(
    to: Stdout,
    out: &mut [u8],
    at: At,
    index: u64,
    offset: u64,
    e: Error,
    taken: usize,
) -> At {
    let from = room(to, &*out, at, 256)?;
    let next = json_lines::put_refused(&mut *out, from, index, offset, e, taken);
    within(&*out, next)
}

// The line of a frame that was passed over, which is shorter than 256 bytes.
pub fn skipped(
    to: Stdout,
    out: &mut [u8],
    at: At,
    index: u64,
    offset: u64,
    taken: u64,
    kind: u8,
) -> At {
    let from = room(to, &*out, at, 256)?;
    let next = json_lines::put_skipped(&mut *out, from, index, offset, taken, kind);
    within(&*out, next)
}

// ---- standard error

// The first `len` bytes.
pub fn tell(to: Stderr, out: &[u8], len: usize) {
    outside::tell(to, string::part(out, Span { start: 0, len }));
}

// What failed, and why.
pub fn fail(to: Stderr, name: &[u8], number: i32) {
    outside::tell(to, b"desk: ");
    outside::fail(to, name, number);
}

pub fn usage(to: Stderr) {
    outside::tell(
        to,
        b"usage: desk --json [--limit N] [--topic FILTER] [FILE]\n",
    );
}

// A filter that MQTT does not allow.
pub fn bad_filter(to: Stderr, filter: &[u8]) {
    outside::tell(to, b"desk: ");
    outside::tell(to, filter);
    outside::tell(to, b": not a valid topic filter\n");
    usage(to);
}
