// One field of a line: a space, its name, `=` and its value. The name is lent with what stands around it, the first quote included.
use crate::output;
use crate::output::At;
use records::span::Span;
use std::io::Stdout;
use wire::string;

pub fn number(to: Stdout, out: &mut [u8], at: At, name: &[u8], n: u64) -> At {
    let value = output::word(to, &mut *out, at, name);
    output::decimal(to, &mut *out, value, n)
}

pub fn id(to: Stdout, out: &mut [u8], at: At, pkid: u16) -> At {
    number(to, &mut *out, at, b" id=", pkid as u64)
}

pub fn reason(to: Stdout, out: &mut [u8], at: At, b: u8) -> At {
    let value = output::word(to, &mut *out, at, b" reason=0x");
    output::hex(to, &mut *out, value, b)
}

// The part of s at a place, and the quote behind it.
pub fn part(
    to: Stdout,
    out: &mut [u8],
    at: At,
    name: &[u8],
    ascii: bool,
    s: &[u8],
    place: Span,
) -> At {
    let value = output::word(to, &mut *out, at, name);
    let end = output::shown(to, &mut *out, value, string::part(s, place), ascii);
    output::word(to, &mut *out, end, b"\"")
}

// The first n bytes of a payload, and how many it has.
fn cut(to: Stdout, out: &mut [u8], at: At, ascii: bool, s: &[u8], place: Span, n: usize) -> At {
    let front = Span {
        start: place.start,
        len: n,
    };
    let a = part(to, &mut *out, at, b" payload=\"", ascii, s, front);
    number(to, &mut *out, a, b" payload-bytes=", place.len as u64)
}

// A payload, or so many bytes of it, at most, and then how many it has.
pub fn payload(
    to: Stdout,
    out: &mut [u8],
    at: At,
    ascii: bool,
    s: &[u8],
    place: Span,
    most: Option<usize>,
) -> At {
    if let Some(n) = most {
        if n < place.len {
            return cut(to, &mut *out, at, ascii, s, place, n);
        }
    }
    part(to, &mut *out, at, b" payload=\"", ascii, s, place)
}

// The fields that may be absent, and are then no field.
pub fn u8_if(to: Stdout, out: &mut [u8], at: At, name: &[u8], n: Option<u8>) -> At {
    match n {
        None => at,
        Some(x) => number(to, &mut *out, at, name, x as u64),
    }
}

pub fn u16_if(to: Stdout, out: &mut [u8], at: At, name: &[u8], n: Option<u16>) -> At {
    match n {
        None => at,
        Some(x) => number(to, &mut *out, at, name, x as u64),
    }
}

pub fn u32_if(to: Stdout, out: &mut [u8], at: At, name: &[u8], n: Option<u32>) -> At {
    match n {
        None => at,
        Some(x) => number(to, &mut *out, at, name, x as u64),
    }
}

pub fn part_if(
    to: Stdout,
    out: &mut [u8],
    at: At,
    name: &[u8],
    ascii: bool,
    s: &[u8],
    place: Option<Span>,
) -> At {
    match place {
        None => at,
        Some(p) => part(to, &mut *out, at, name, ascii, s, p),
    }
}
