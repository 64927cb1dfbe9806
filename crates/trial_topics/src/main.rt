// Replays rows of topic and filter through the functions that C calls, a line for each, and counts. The rows are the file stdin, a topic, a tab, a
// filter and a newline each; the file stdout was made from 02 and MQTT 4.7 by oracle/topics-rows.
#![tactic(auto)]

use std::num;

#[derive(Clone, Copy, Default)]
struct Counts {
    rows: u64,
    wild: u64,
    topics: u64,
    filters: u64,
    matches: u64,
}

fn wide(flag: u8) -> u64 {
    flag as u64
}

// An answer, behind a space.
fn say(flag: u8) -> u64 {
    io::write_all(1, b" ");
    io::print_decimal(1, wide(flag));
    wide(flag)
}

// The four answers of a row.
fn row(c: Counts, topic: &[u8], filter: &[u8]) -> Counts {
    io::write_all(1, topic);
    io::write_all(1, b" ");
    io::write_all(1, filter);
    let wild = say(c_topics::ecch_has_wildcards(filter));
    let topics = say(c_topics::ecch_valid_topic(topic));
    let filters = say(c_topics::ecch_valid_filter(filter));
    let matches = say(c_topics::ecch_matches(topic, filter));
    io::write_all(1, b"\n");
    Counts {
        rows: num::wrapping_add_u64(c.rows, 1),
        wild: num::wrapping_add_u64(c.wild, wild),
        topics: num::wrapping_add_u64(c.topics, topics),
        filters: num::wrapping_add_u64(c.filters, filters),
        matches: num::wrapping_add_u64(c.matches, matches),
    }
}

// A line that has a tab; what is behind the last newline is no row.
fn line(c: Counts, s: &[u8]) -> Counts {
    match s.iter().position(|b| *b == b'\t') {
        Some(tab) => row(c, &s[..tab], &s[tab + 1..]),
        None => c,
    }
}

fn every(s: &[u8]) -> Counts {
    let mut c = Counts::default();
    for l in s.split(|b| *b == b'\n') {
        c = line(c, l);
    }
    c
}

fn count(what: &[u8], n: u64) {
    io::print_decimal(1, n);
    io::write_all(1, what);
}

fn main() {
    let mut buffer = io::large_buffer();
    let n = io::read_full(0, &mut buffer);
    let c = every(&buffer[..n]);
    count(b" rows: ", c.rows);
    count(b" filters with wildcards, ", c.wild);
    count(b" valid topics, ", c.topics);
    count(b" valid filters, ", c.filters);
    count(b" matches\n", c.matches);
}
