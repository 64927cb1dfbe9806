// A frame and its answer on standard output, the fields and the refusals as `desk` writes them.
use entry_runs;
use publish_parts;
use qos_numbers;
use records::ack_record::Ack;
use records::error::Error;
use records::packet_record::Packet;
use records::publish_record::Publish;
use records::reply_record::{Reply, ReplyKind};
use records::span::Span;
use records::subscribe_record::{Filter, Subscribe};
use records::unsubscribe_record::Unsubscribe;
use wire::string;

fn wide(b: u8) -> u64 {
    b as u64
}

fn byte(b: u8) {
    io::write_all(1, b" ");
    io::print_hex(1, wide(b), 2);
}

// The bytes in hexadecimal, a space before each.
pub fn bytes(s: &[u8]) {
    for b in s {
        byte(*b);
    }
}

// A number behind the words before it.
pub fn number(words: &[u8], n: u64) {
    io::write_all(1, words);
    io::print_decimal(1, n);
}

// Bytes behind the words before them.
fn text(words: &[u8], s: &[u8]) {
    let mut out = [0u8; 64];
    let shown = desk_render::put_shown(&mut out, 0, s);
    let place = Span {
        start: 0,
        len: shown.put,
    };
    io::write_all(1, words);
    io::write_all(1, string::part(&out, place));
}

pub fn limit(limit: Option<usize>) {
    if let Some(most) = limit {
        number(b", limit ", most as u64);
    }
}

// The end of a line that says a record.
pub fn taken(taken: usize) {
    number(b" taken=", taken as u64);
    io::write_all(1, b"\n");
}

// The line of a refusal at offset 0.
pub fn refused(e: Error, taken: usize) {
    let mut out = [0u8; 128];
    let len = desk_lines::put_refused(&mut out, 0, e, taken);
    io::write_all(1, b" ");
    io::write_all(1, string::part(&out, Span { start: 0, len }));
}

fn identifier(id: u32) {
    number(b" subscription-id=", id as u64);
}

// Shows each item that there is, from the one at 0 on; a frame has no more than it has bytes.
fn each<T: Drop, I: Fn(usize) -> Option<T>, S: Fn(T)>(s: &[u8], item: I, show: S)
    requires { I.IsAlwaysCallable item × S.IsAlwaysCallable show }
{
    for n in 0..s.len() {
        let Some(x) = item(n) else {
            return;
        };
        show(x);
    }
}

// The subscription identifiers in the block.
fn identifiers(s: &[u8], block: Span) {
    each(
        s,
        |n| items::subscription_identifier(s, block, n),
        identifier,
    );
}

fn publish_of(s: &[u8], m: Publish) {
    text(b" topic=", publish_parts::topic(s, m));
    let properties = m.properties;
    if let Some(p) = properties {
        identifiers(s, p.block);
    }
    text(b" payload=", publish_parts::payload(s, m));
}

fn filter_of(s: &[u8], f: Filter) {
    text(b" filter=", string::part(s, f.path));
    let q = f.qos;
    number(b" qos=", wide(qos_numbers::qos_number(q)));
}

// The filters of the run.
fn subscribe_of(s: &[u8], m: Subscribe) {
    each(
        s,
        |n| filter_runs::filter(s, m.filters, n),
        |f| filter_of(s, f),
    );
}

fn reason(code: u8) {
    io::write_all(1, b" reason=0x");
    io::print_hex(1, wide(code), 2);
}

fn ack_of(m: Ack) {
    reason(m.reason);
}

// The reasons of the run.
fn reply_of(s: &[u8], kind: ReplyKind, m: Reply) {
    each(s, |n| entry_runs::reason(kind, s, m.reasons, n), reason);
}

fn topic_of(s: &[u8], topic: Span) {
    text(b" filter=", string::part(s, topic));
}

// The topics of the run.
fn unsubscribe_of(s: &[u8], m: Unsubscribe) {
    each(
        s,
        |n| entry_runs::topic(s, m.topics, n),
        |topic| topic_of(s, topic),
    );
}

// The word for a number's kind.
fn kind(num: u8) {
    let shown = kinds::word_of(num);
    let bytes = shown.bytes;
    let word = Span {
        start: 0,
        len: shown.len,
    };
    io::write_all(1, b" ");
    io::write_all(1, string::part(&bytes, word));
}

fn fields(s: &[u8], p: Packet) {
    match p {
        Packet::Publish(m) => publish_of(s, m),
        Packet::Ack(_, m) => ack_of(m),
        Packet::Subscribe(m) => subscribe_of(s, m),
        Packet::Reply(k, m) => reply_of(s, k, m),
        Packet::Unsubscribe(m) => unsubscribe_of(s, m),
        Packet::PingReq => {}
        Packet::PingResp => {}
    }
}

pub fn packet(s: &[u8], p: Packet) {
    kind(desk_summary::number_in(p));
    fields(s, p);
}
