// What is put into the lent output before it is written: words, numbers and quoted bytes, each from index `at` on, and the index after it.
// A full output is written to standard output.
ghost use Rattle.std.specs.Prelude.{◌≡◌, ◌+◌, ◌≤◌, length, IfOk};
ghost use Rattle.desk_render.specs.Shown.{decimal_of, hex_of};
ghost use Rattle.desk.specs.Put.{StandsBefore};

use records::error::Error;
use records::span::Span;
use std::io::{Print, Stderr, Stdout};
use wire::string;
use write_bytes::put_bytes;

// Where the output goes on, or the system's number of why what was put could not be written, 0 if it gave none.
pub type At = Result<usize, i32>;

// The system's number where nobody takes any more what is written.
pub const BROKEN_PIPE: i32 = 32;

// Writes what was put.
pub fn flush(to: Stdout, out: &[u8], at: At) -> At {
    let put = Span { start: 0, len: at? };
    match Print::write_all(&to, string::part(out, put)) {
        Ok(()) => Ok(0),
        Err(e) => Err(outside::number_of(e)),
    }
}

// An index with room for n bytes: the same, or the first once what was put is written.
fn room(to: Stdout, out: &[u8], at: At, n: usize) -> At {
    if n <= out.len().saturating_sub(at?) {
        return at;
    }
    flush(to, out, at)
}

// The index after n bytes that were put, if they had room.
fn after(out: &[u8], at: usize, n: usize) -> At
    ensures { IfOk result (λ next. (next ≤ length out.now) × (next ≡ at + n)) }
{
    if out.len() < at {
        return Err(0);
    }
    if out.len() - at < n {
        return Err(0);
    }
    Ok(at + n)
}

pub fn word(to: Stdout, out: &mut [u8], at: At, w: &[u8]) -> At
    ensures { IfOk result (λ next. (next ≤ length out.new) × StandsBefore out.old w.now out.new next) }
{
    let from = room(to, &*out, at, w.len())?;
    put_bytes(&mut *out, from, w);
    after(&*out, from, w.len())
}

pub fn decimal(to: Stdout, out: &mut [u8], at: At, n: u64) -> At
    ensures { IfOk result (λ next. (next ≤ length out.new) × StandsBefore out.old (decimal_of n) out.new next) }
{
    let from = room(to, &*out, at, 20)?;
    let k = desk_render::put_decimal(&mut *out, from, n);
    after(&*out, from, k)
}

// Two hexadecimal digits.
pub fn hex(to: Stdout, out: &mut [u8], at: At, b: u8) -> At
    ensures { IfOk result (λ next. (next ≤ length out.new) × StandsBefore out.old (hex_of b) out.new next) }
{
    let from = room(to, &*out, at, 2)?;
    desk_render::put_hex(&mut *out, from, b);
    after(&*out, from, 2)
}

// The digit of a number below ten.
pub fn digit(n: u8) -> u8 {
    std::num::wrapping_add_u8(b'0', n)
}

// The bytes of s as they stand between quotes, of text or not; each turn shows one at least, for there is room for one. index: each
// turn tells how many it showed.
fn shown_as(to: Stdout, out: &mut [u8], at: At, s: &[u8], text: bool) -> At {
    let mut next = at?;
    let mut i: usize = 0;
    while i < s.len() {
        let from = room(to, &*out, Ok(next), 4)?;
        let step = desk_text::put_text(&mut *out, from, s, i, text);
        if step.taken == 0 {
            return Err(0);
        }
        i = i + step.taken;
        next = from + step.put;
    }
    Ok(next)
}

// As text where it is one, but for where ASCII alone is asked for.
pub fn shown(to: Stdout, out: &mut [u8], at: At, s: &[u8], ascii: bool) -> At {
    shown_as(to, &mut *out, at, s, !ascii && utf8::is_utf8(s))
}

// What begins and ends a colour, if lines are coloured.
pub fn paint(to: Stdout, out: &mut [u8], at: At, colour: bool, w: &[u8]) -> At {
    if colour {
        return word(to, &mut *out, at, w);
    }
    at
}

// The line of a refusal, which is shorter than 160 bytes.
pub fn refused(to: Stdout, out: &mut [u8], at: At, offset: u64, e: Error, taken: usize) -> At {
    let from = room(to, &*out, at, 160)?;
    if out.len() < from {
        return Err(0);
    }
    let n = desk_lines::put_refused(&mut out[from..], offset, e, taken);
    after(&*out, from, n)
}

// The first `len` bytes, on standard error.
pub fn tell(to: Stderr, out: &[u8], len: usize) {
    outside::tell(to, string::part(out, Span { start: 0, len }));
}

// What failed, and why, on standard error.
pub fn fail(to: Stderr, name: &[u8], number: i32) {
    outside::tell(to, b"desk: ");
    outside::fail(to, name, number);
}

pub fn usage(to: Stderr) {
    outside::tell(
        to,
        b"usage: desk [--limit N] [--topic FILTER] [--payload N] [--ascii] [FILE]\n",
    );
}

// A filter that MQTT does not allow, on standard error.
pub fn bad_filter(to: Stderr, filter: &[u8]) {
    outside::tell(to, b"desk: ");
    outside::tell(to, filter);
    outside::tell(to, b": not a valid topic filter\n");
    usage(to);
}
