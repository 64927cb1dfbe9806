// The items of a list, in one pass over its place: user properties or subscription identifiers of a block; filters, topics or reasons of a
// run.
use crate::output::At;
use crate::{field, output};
use property_value::Value;
use qos_numbers;
use qos_numbers::rule_number;
use records::span::Span;
use records::subscribe_record::Filter;
use std::io::Stdout;
use tables::property::PropertyRow;
use wire::string;

// What a list is made of.
#[derive(Clone, Copy)]
enum Items {
    // user properties, and the place of their block
    Users(PropertyRow),
    // subscription identifiers of a Publish
    Identifiers,
    Filters,
    Topics,
    Reasons,
}

// Where the output goes on, and the list; no further than before where nothing is left.
#[derive(Clone, Copy)]
struct Step {
    put: At,
    next: usize,
}

// Key and value of a user property.
fn user(to: Stdout, out: &mut [u8], at: At, ascii: bool, s: &[u8], key: Span, value: Span) -> At {
    let a = field::part(to, &mut *out, at, b" user=\"", ascii, s, key);
    field::part(to, &mut *out, a, b"=\"", ascii, s, value)
}

fn user_if(to: Stdout, out: &mut [u8], at: At, ascii: bool, s: &[u8], v: Value) -> At {
    if let Value::Pair(key, value) = v {
        return user(to, &mut *out, at, ascii, s, key, value);
    }
    at
}

// The field of a value that is a variable length number: only subscription identifiers are.
fn identifier_if(to: Stdout, out: &mut [u8], at: At, v: Value) -> At {
    if let Value::Number(id) = v {
        return field::number(to, &mut *out, at, b" subscription-id=", id as u64);
    }
    at
}

// The property at i, if it is a user property.
fn user_at(
    to: Stdout,
    out: &mut [u8],
    at: At,
    place: PropertyRow,
    ascii: bool,
    s: &[u8],
    i: usize,
) -> Step {
    match property_value::read_property(place, s, i) {
        Err(_) => Step { put: at, next: i },
        Ok((_, v, next)) => {
            let put = user_if(to, &mut *out, at, ascii, s, v);
            Step { put, next }
        }
    }
}

fn identifier_at(to: Stdout, out: &mut [u8], at: At, s: &[u8], i: usize) -> Step {
    match property_value::read_property(PropertyRow::Publish, s, i) {
        Err(_) => Step { put: at, next: i },
        Ok((_, v, next)) => {
            let put = identifier_if(to, &mut *out, at, v);
            Step { put, next }
        }
    }
}

fn options(
    to: Stdout,
    out: &mut [u8],
    at: At,
    q: u8,
    no_local: bool,
    preserve: bool,
    rule: u8,
) -> At {
    let mut text = *b" qos=0 no-local=0 preserve-retain=0 forward=0";
    text[5] = output::digit(q);
    text[16] = output::digit(no_local as u8);
    text[34] = output::digit(preserve as u8);
    text[44] = output::digit(rule);
    output::word(to, &mut *out, at, &text)
}

// The text of a filter.
fn path(to: Stdout, out: &mut [u8], at: At, ascii: bool, s: &[u8], place: Span) -> At {
    field::part(to, &mut *out, at, b" filter=\"", ascii, s, place)
}

fn filter_of(to: Stdout, out: &mut [u8], at: At, ascii: bool, s: &[u8], f: Filter) -> At {
    let q = f.qos;
    let rule = f.retain_forward_rule;
    let a = path(to, &mut *out, at, ascii, s, f.path);
    options(
        to,
        &mut *out,
        a,
        qos_numbers::qos_number(q),
        f.nolocal,
        f.preserve_retain,
        rule_number(rule),
    )
}

fn filter_at(to: Stdout, out: &mut [u8], at: At, ascii: bool, s: &[u8], i: usize) -> Step {
    match filters::read_filter(s, i) {
        Err(_) => Step { put: at, next: i },
        Ok((f, next)) => {
            let put = filter_of(to, &mut *out, at, ascii, s, f);
            Step { put, next }
        }
    }
}

fn topic_at(to: Stdout, out: &mut [u8], at: At, ascii: bool, s: &[u8], i: usize) -> Step {
    match string::read_mqtt_string(s, i) {
        Err(_) => Step { put: at, next: i },
        Ok((topic, next)) => {
            let put = path(to, &mut *out, at, ascii, s, topic);
            Step { put, next }
        }
    }
}

fn reason_at(to: Stdout, out: &mut [u8], at: At, s: &[u8], i: usize) -> Step {
    if i < s.len() {
        let put = field::reason(to, &mut *out, at, s[i]);
        return Step { put, next: i + 1 };
    }
    Step { put: at, next: i }
}

// The item at i.
fn item(to: Stdout, out: &mut [u8], at: At, items: Items, ascii: bool, s: &[u8], i: usize) -> Step {
    match items {
        Items::Users(place) => user_at(to, &mut *out, at, place, ascii, s, i),
        Items::Identifiers => identifier_at(to, &mut *out, at, s, i),
        Items::Filters => filter_at(to, &mut *out, at, ascii, s, i),
        Items::Topics => topic_at(to, &mut *out, at, ascii, s, i),
        Items::Reasons => reason_at(to, &mut *out, at, s, i),
    }
}

// All items of s; each goes further on. index: each tells where the next is.
fn items_in(to: Stdout, out: &mut [u8], at: At, items: Items, ascii: bool, s: &[u8]) -> At {
    let mut put = at;
    let mut i: usize = 0;
    while i < s.len() {
        let step = item(to, &mut *out, put, items, ascii, s, i);
        if step.next <= i {
            return put;
        }
        put = step.put;
        i = step.next;
    }
    put
}

// The user properties of the block at a place of s.
pub fn users(
    to: Stdout,
    out: &mut [u8],
    at: At,
    place: PropertyRow,
    ascii: bool,
    s: &[u8],
    block: Span,
) -> At {
    items_in(
        to,
        &mut *out,
        at,
        Items::Users(place),
        ascii,
        string::part(s, block),
    )
}

// The subscription identifiers of a Publish.
pub fn identifiers(to: Stdout, out: &mut [u8], at: At, ascii: bool, s: &[u8], block: Span) -> At {
    items_in(
        to,
        &mut *out,
        at,
        Items::Identifiers,
        ascii,
        string::part(s, block),
    )
}

// The filters of the run at a place of s.
pub fn filters(to: Stdout, out: &mut [u8], at: At, ascii: bool, s: &[u8], run: Span) -> At {
    items_in(
        to,
        &mut *out,
        at,
        Items::Filters,
        ascii,
        string::part(s, run),
    )
}

// The topics of the run at a place of s.
pub fn topics(to: Stdout, out: &mut [u8], at: At, ascii: bool, s: &[u8], run: Span) -> At {
    items_in(
        to,
        &mut *out,
        at,
        Items::Topics,
        ascii,
        string::part(s, run),
    )
}

// The reasons of the run at a place of s.
pub fn reasons(to: Stdout, out: &mut [u8], at: At, ascii: bool, s: &[u8], run: Span) -> At {
    items_in(
        to,
        &mut *out,
        at,
        Items::Reasons,
        ascii,
        string::part(s, run),
    )
}
