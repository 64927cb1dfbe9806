// One field of an object: a comma, its name, a colon and its value. The name is lent with what stands around it, the first quote included.
use crate::output;
use crate::output::At;
use records::span::Span;
use std::io::Stdout;
use wire::string;

pub fn number(to: Stdout, out: &mut [u8], at: At, name: &[u8], n: u64) -> At {
    output::number(to, &mut *out, at, name, n)
}

pub fn id(to: Stdout, out: &mut [u8], at: At, pkid: u16) -> At {
    number(to, &mut *out, at, b",\"id\":", pkid as u64)
}

pub fn flag(to: Stdout, out: &mut [u8], at: At, name: &[u8], on: bool) -> At {
    let value = output::word(to, &mut *out, at, name);
    if on {
        return output::word(to, &mut *out, value, b"true");
    }
    output::word(to, &mut *out, value, b"false")
}

// Bytes, as a text or in hexadecimal, and the quote behind them.
fn bytes(to: Stdout, out: &mut [u8], at: At, name: &[u8], s: &[u8], is_text: bool) -> At {
    let value = output::word(to, &mut *out, at, name);
    let end = output::quoted(to, &mut *out, value, s, is_text);
    output::word(to, &mut *out, end, b"\"")
}

// The text of s at a place.
pub fn text(to: Stdout, out: &mut [u8], at: At, name: &[u8], s: &[u8], place: Span) -> At {
    bytes(to, &mut *out, at, name, string::part(s, place), true)
}

fn hex(to: Stdout, out: &mut [u8], at: At, name: &[u8], s: &[u8], place: Span) -> At {
    bytes(to, &mut *out, at, name, string::part(s, place), false)
}

// Bytes that may be a text: as one if they are, else in hexadecimal, under another name.
pub fn text_or_hex(
    to: Stdout,
    out: &mut [u8],
    at: At,
    name: &[u8],
    hex_name: &[u8],
    s: &[u8],
    place: Span,
) -> At {
    if utf8::is_utf8(string::part(s, place)) {
        return text(to, &mut *out, at, name, s, place);
    }
    hex(to, &mut *out, at, hex_name, s, place)
}

// The fields that may be absent, and are then no field.
pub fn u8_if(to: Stdout, out: &mut [u8], at: At, name: &[u8], n: Option<u8>) -> At {
    match n {
        None => at,
        Some(x) => number(to, &mut *out, at, name, x as u64),
    }
}

pub fn u16_if(to: Stdout, out: &mut [u8], at: At, name: &[u8], n: Option<u16>) -> At {
    match n {
        None => at,
        Some(x) => number(to, &mut *out, at, name, x as u64),
    }
}

pub fn u32_if(to: Stdout, out: &mut [u8], at: At, name: &[u8], n: Option<u32>) -> At {
    match n {
        None => at,
        Some(x) => number(to, &mut *out, at, name, x as u64),
    }
}

pub fn text_if(
    to: Stdout,
    out: &mut [u8],
    at: At,
    name: &[u8],
    s: &[u8],
    place: Option<Span>,
) -> At {
    match place {
        None => at,
        Some(p) => text(to, &mut *out, at, name, s, p),
    }
}

pub fn hex_if(
    to: Stdout,
    out: &mut [u8],
    at: At,
    name: &[u8],
    s: &[u8],
    place: Option<Span>,
) -> At {
    match place {
        None => at,
        Some(p) => hex(to, &mut *out, at, name, s, p),
    }
}
