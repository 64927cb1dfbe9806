// The lists, each an array, in one pass over its place: user properties and subscription identifiers of a block; filters, topics and reasons
// of a run.
use crate::output::At;
use crate::{field, output};
use property_value::Value;
use qos_numbers;
use qos_numbers::rule_number;
use records::span::Span;
use records::subscribe_record::Filter;
use std::io::Stdout;
use tables::property::PropertyRow;
use walker::step_at;
use wire::string;

// Where the output goes on, and how many items were put.
#[derive(Clone, Copy)]
struct Listed {
    put: At,
    n: usize,
}

// The comma before every item but the first.
fn comma(to: Stdout, out: &mut [u8], at: At, before: usize) -> At {
    if before == 0 {
        return at;
    }
    output::word(to, &mut *out, at, b",")
}

// A list's last bracket.
fn end(to: Stdout, out: &mut [u8], at: At) -> At {
    output::word(to, &mut *out, at, b"]")
}

// Key and value of a user property, an array of two.
fn user(to: Stdout, out: &mut [u8], at: At, before: usize, s: &[u8], key: Span, value: Span) -> At {
    let a = comma(to, &mut *out, at, before);
    let b = field::text(to, &mut *out, a, b"[\"", s, key);
    let c = field::text(to, &mut *out, b, b",\"", s, value);
    end(to, &mut *out, c)
}

// The user properties in the block s, step by step of a walk. index: each step tells where the next is.
fn users_in(to: Stdout, out: &mut [u8], at: At, place: PropertyRow, s: &[u8]) -> At {
    let mut next = at;
    let mut i: usize = 0;
    while i < s.len() {
        let step = step_at(s, i, s.len(), place);
        let item = step.item;
        match item {
            None => return next,
            Some((key, value)) => {
                next = user(to, &mut *out, next, i, s, key, value);
                i = step.at;
            }
        }
    }
    next
}

// A value that is a variable length number: only subscription identifiers are.
fn identifier_if(to: Stdout, out: &mut [u8], l: Listed, v: Value) -> Listed {
    if let Value::Number(id) = v {
        let a = comma(to, &mut *out, l.put, l.n);
        let put = output::number(to, &mut *out, a, b"", id as u64);
        return Listed { put, n: 1 };
    }
    l
}

// The subscription identifiers in the block s of a Publish. index: each property tells where the next is.
fn identifiers_in(to: Stdout, out: &mut [u8], at: At, s: &[u8]) -> At {
    let mut l = Listed { put: at, n: 0 };
    let mut i: usize = 0;
    while i < s.len() {
        match property_value::read_property(PropertyRow::Publish, s, i) {
            Err(_) => return l.put,
            Ok((_, v, end)) => {
                l = identifier_if(to, &mut *out, l, v);
                i = end;
            }
        }
    }
    l.put
}

fn options(
    to: Stdout,
    out: &mut [u8],
    at: At,
    q: u8,
    no_local: bool,
    preserve: bool,
    rule: u8,
) -> At {
    let a = field::number(to, &mut *out, at, b",\"qos\":", q as u64);
    let b = field::flag(to, &mut *out, a, b",\"no_local\":", no_local);
    let c = field::flag(to, &mut *out, b, b",\"preserve_retain\":", preserve);
    let d = field::number(to, &mut *out, c, b",\"forward\":", rule as u64);
    output::word(to, &mut *out, d, b"}")
}

fn filter_of(to: Stdout, out: &mut [u8], at: At, before: usize, s: &[u8], f: Filter) -> At {
    let q = f.qos;
    let rule = f.retain_forward_rule;
    let a = comma(to, &mut *out, at, before);
    let b = field::text(to, &mut *out, a, b"{\"filter\":\"", s, f.path);
    options(
        to,
        &mut *out,
        b,
        qos_numbers::qos_number(q),
        f.nolocal,
        f.preserve_retain,
        rule_number(rule),
    )
}

// The filters that fill s. index: each tells where the next is.
fn filters_in(to: Stdout, out: &mut [u8], at: At, s: &[u8]) -> At {
    let mut next = at;
    let mut i: usize = 0;
    while i < s.len() {
        match filters::read_filter(s, i) {
            Err(_) => return next,
            Ok((f, end)) => {
                next = filter_of(to, &mut *out, next, i, s, f);
                i = end;
            }
        }
    }
    next
}

fn topic(to: Stdout, out: &mut [u8], at: At, before: usize, s: &[u8], place: Span) -> At {
    let a = comma(to, &mut *out, at, before);
    field::text(to, &mut *out, a, b"\"", s, place)
}

// The topics that fill s. index: each tells where the next is.
fn topics_in(to: Stdout, out: &mut [u8], at: At, s: &[u8]) -> At {
    let mut next = at;
    let mut i: usize = 0;
    while i < s.len() {
        match string::read_mqtt_string(s, i) {
            Err(_) => return next,
            Ok((place, end)) => {
                next = topic(to, &mut *out, next, i, s, place);
                i = end;
            }
        }
    }
    next
}

fn reason(to: Stdout, out: &mut [u8], at: At, before: usize, b: u8) -> At {
    let a = comma(to, &mut *out, at, before);
    output::number(to, &mut *out, a, b"", b as u64)
}

// The reasons that are the bytes of s.
fn reasons_in(to: Stdout, out: &mut [u8], at: At, s: &[u8]) -> At {
    let mut next = at;
    for (i, b) in s.iter().enumerate() {
        next = reason(to, &mut *out, next, i, *b);
    }
    next
}

// The user properties of the block at a place of s.
pub fn users(to: Stdout, out: &mut [u8], at: At, place: PropertyRow, s: &[u8], block: Span) -> At {
    let a = output::word(to, &mut *out, at, b",\"user\":[");
    let b = users_in(to, &mut *out, a, place, string::part(s, block));
    end(to, &mut *out, b)
}

// The subscription identifiers of a Publish.
pub fn identifiers(to: Stdout, out: &mut [u8], at: At, s: &[u8], block: Span) -> At {
    let a = output::word(to, &mut *out, at, b",\"subscription_ids\":[");
    let b = identifiers_in(to, &mut *out, a, string::part(s, block));
    end(to, &mut *out, b)
}

// The filters of the run at a place of s.
pub fn filters(to: Stdout, out: &mut [u8], at: At, s: &[u8], run: Span) -> At {
    let a = output::word(to, &mut *out, at, b",\"filters\":[");
    let b = filters_in(to, &mut *out, a, string::part(s, run));
    end(to, &mut *out, b)
}

// The topics of the run at a place of s.
pub fn topics(to: Stdout, out: &mut [u8], at: At, s: &[u8], run: Span) -> At {
    let a = output::word(to, &mut *out, at, b",\"filters\":[");
    let b = topics_in(to, &mut *out, a, string::part(s, run));
    end(to, &mut *out, b)
}

// The reasons of the run at a place of s.
pub fn reasons(to: Stdout, out: &mut [u8], at: At, s: &[u8], run: Span) -> At {
    let a = output::word(to, &mut *out, at, b",\"reasons\":[");
    let b = reasons_in(to, &mut *out, a, string::part(s, run));
    end(to, &mut *out, b)
}
