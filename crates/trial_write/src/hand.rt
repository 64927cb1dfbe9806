// A row of the tables in main: what is handed over, field by field in the order below, a bar between two; fields left out are empty.
ghost use Rattle.std.specs.Prelude.{◌≤◌};

use crate::{show, text};
use ack_write::AckHead;
use packet_write::head::PacketHead;
use packet_write::{size, write};
use publish_plan::head::PublishHead;
use records::ack_record::AckKind;
use records::error::Error;
use records::qos::QoS;
use records::reply_record::ReplyKind;
use records::span::Span;
use reply_write::ReplyHead;
use subscribe_write::SubscribeHead;
use unsubscribe_write::UnsubscribeHead;
use wire::string;
use write_lengths::write_remaining_length;
use write_strings::write_mqtt_bytes;

// The words of the line.
const WHAT: usize = 0;

// What is written: L a length, T a text, else a record: 0 or 1 a Publish at that QoS, F one with every property; 4 to 7 the acknowledgement of
// that kind; S a Subscribe, I one with the identifier 268,435,456, Z one with 0; 9 a SubAck, V an UnsubAck; U an Unsubscribe; Q a PingReq, R
// a PingResp.
const KIND: usize = 1;

// How many bytes the output has, of which 44 at most are shown.
const ROOM: usize = 2;

const LIMIT: usize = 3;

// The length that is written, or the record's identifier.
const NUMBER: usize = 4;

// The text that is written, or the topic.
const TOPIC: usize = 5;

const PAYLOAD: usize = 6;

// Of all but a Subscribe: empty without a property set, - for a set, + for one with a string: a response topic, a reason string.
const SET: usize = 7;

const USER: usize = 8;

const USER_LENGTHS: usize = 9;

const IDENTIFIERS: usize = 10;

const RESPONSE: usize = 11;

const CORRELATION: usize = 12;

const CONTENT: usize = 13;

const REASON: usize = 14;

// Filters or topics of one byte each, at most two.
const FILTERS: usize = 15;

// A byte for each: options, or reasons.
const OPTIONS: usize = 16;

// The reason of an acknowledgement.
const CODE: usize = 17;

fn field(row: &[u8], n: usize) -> &[u8] {
    text::part(row, b'|', n)
}

fn number(row: &[u8], n: usize) -> usize {
    text::number(field(row, n))
}

// The first byte of a field, or 0.
fn mark(row: &[u8], n: usize) -> u8 {
    field(row, n).first().copied().unwrap_or(0)
}

fn limit(row: &[u8]) -> Option<usize> {
    if mark(row, LIMIT) == 0 {
        return None;
    }
    Some(number(row, LIMIT))
}

// How many numbers a list has, at most two.
fn count(row: &[u8], n: usize) -> usize
    ensures { result ≤ 2 }
{
    if mark(row, n) == 0 {
        return 0;
    }
    if text::part(field(row, n), b',', 1).len() == 0 {
        return 1;
    }
    2
}

// The n-th number of a list.
fn item(row: &[u8], list: usize, n: usize) -> usize {
    text::number(text::part(field(row, list), b',', n))
}

fn user_lengths(row: &[u8]) -> [usize; 2] {
    [item(row, USER_LENGTHS, 0), item(row, USER_LENGTHS, 1)]
}

fn identifier(row: &[u8], n: usize) -> u32 {
    (item(row, IDENTIFIERS, n) % 4294967296) as u32
}

fn identifiers(row: &[u8]) -> [u32; 2] {
    [identifier(row, 0), identifier(row, 1)]
}

fn pkid(row: &[u8]) -> u16 {
    (number(row, NUMBER) % 65536) as u16
}

fn qos(row: &[u8]) -> QoS {
    if mark(row, KIND) == b'0' {
        return QoS::AtMostOnce;
    }
    QoS::AtLeastOnce
}

fn message(row: &[u8]) -> PacketHead {
    let set = mark(row, SET);
    PacketHead::Publish(PublishHead {
        dup: false,
        qos: qos(row),
        retain: false,
        pkid: pkid(row),
        block: set != 0,
        payload_format_indicator: None,
        message_expiry_interval: None,
        topic_alias: None,
        response_topic: set == b'+',
        correlation_data: false,
        content_type: false,
    })
}

// With every flag and every property.
fn full(row: &[u8]) -> PacketHead {
    PacketHead::Publish(PublishHead {
        dup: true,
        qos: QoS::ExactlyOnce,
        retain: true,
        pkid: pkid(row),
        block: true,
        payload_format_indicator: Some(1),
        message_expiry_interval: Some(3),
        topic_alias: Some(4),
        response_topic: true,
        correlation_data: true,
        content_type: true,
    })
}

fn ack_kind(row: &[u8]) -> AckKind {
    match mark(row, KIND) {
        b'4' => AckKind::PubAck,
        b'5' => AckKind::PubRec,
        b'6' => AckKind::PubRel,
        _ => AckKind::PubComp,
    }
}

fn code(row: &[u8]) -> u8 {
    (number(row, CODE) % 256) as u8
}

fn ack(row: &[u8]) -> PacketHead {
    let set = mark(row, SET);
    PacketHead::Ack(AckHead {
        kind: ack_kind(row),
        pkid: pkid(row),
        reason: code(row),
        block: set != 0,
        reason_string: set == b'+',
    })
}

fn reply_kind(row: &[u8]) -> ReplyKind {
    if mark(row, KIND) == b'9' {
        return ReplyKind::SubAck;
    }
    ReplyKind::UnsubAck
}

fn reply(row: &[u8]) -> PacketHead {
    let set = mark(row, SET);
    PacketHead::Reply(ReplyHead {
        kind: reply_kind(row),
        pkid: pkid(row),
        block: set != 0,
        reason_string: set == b'+',
    })
}

fn leave(row: &[u8]) -> PacketHead {
    PacketHead::Unsubscribe(UnsubscribeHead {
        pkid: pkid(row),
        block: mark(row, SET) != 0,
    })
}

fn id(row: &[u8]) -> Option<u32> {
    match mark(row, KIND) {
        b'I' => Some(268435456),
        b'Z' => Some(0),
        _ => None,
    }
}

fn wish(row: &[u8]) -> PacketHead {
    PacketHead::Subscribe(SubscribeHead {
        pkid: pkid(row),
        block: true,
        id: id(row),
    })
}

fn head(row: &[u8]) -> PacketHead {
    match mark(row, KIND) {
        b'0' | b'1' => message(row),
        b'F' => full(row),
        b'4'..=b'7' => ack(row),
        b'S' | b'I' | b'Z' => wish(row),
        b'9' | b'V' => reply(row),
        b'U' => leave(row),
        b'Q' => PacketHead::PingReq,
        _ => PacketHead::PingResp,
    }
}

// The size asked alone, then the write.
fn put(
    row: &[u8],
    topic: &[u8],
    user_lengths: &[usize],
    ids: &[u32],
    entry_lengths: &[usize],
    out: &mut [u8],
) -> Result<usize, Error> {
    let payload = field(row, PAYLOAD);
    let user = field(row, USER);
    let response = field(row, RESPONSE);
    let correlation = field(row, CORRELATION);
    let content = field(row, CONTENT);
    let reason = field(row, REASON);
    let texts = field(row, FILTERS);
    let entries = field(row, OPTIONS);
    let limit = limit(row);
    let head = head(row);
    show::sized(size(
        head,
        topic,
        response,
        correlation,
        user,
        user_lengths,
        ids,
        content,
        payload,
        reason,
        texts,
        entry_lengths,
        entries,
    ));
    write(
        head,
        topic,
        response,
        correlation,
        user,
        user_lengths,
        ids,
        content,
        payload,
        reason,
        texts,
        entry_lengths,
        entries,
        limit,
        &mut *out,
    )
}

fn record(row: &[u8], topic: &[u8], out: &mut [u8]) -> Result<usize, Error> {
    let lengths = user_lengths(row);
    let ids = identifiers(row);
    let ones = [1, 1];
    let users = count(row, USER_LENGTHS);
    let given = count(row, IDENTIFIERS);
    let filters = field(row, FILTERS).len().min(2);
    put(
        row,
        topic,
        &lengths[..users],
        &ids[..given],
        &ones[..filters],
        &mut *out,
    )
}

fn written(row: &[u8], topic: &[u8], out: &mut [u8]) -> Result<usize, Error> {
    match mark(row, KIND) {
        b'L' => write_remaining_length(&mut *out, number(row, NUMBER)),
        b'T' => write_mqtt_bytes(&mut *out, topic),
        _ => record(row, topic, &mut *out),
    }
}

// The answers and the output; gives the count of rows.
fn answered(rows: u64, row: &[u8], topic: &[u8], out: &mut [u8]) -> u64 {
    show::written(written(row, topic, &mut *out));
    show::output(rows, &out[..out.len().min(44)])
}

// The line of a row, its topic lent beside it.
pub fn row(rows: u64, row: &[u8], topic: &[u8]) -> u64 {
    io::write_all(1, field(row, WHAT));
    let mut out = [0xAA; 65540];
    let room = number(row, ROOM).min(65540);
    answered(rows, row, topic, &mut out[..room])
}

// The rows of a table; an empty line ends it.
pub fn table(rows: u64, s: &[u8]) -> u64 {
    let mut n = rows;
    for line in s.split(|b| *b == b'\n').take_while(|line| !line.is_empty()) {
        n = row(n, line, field(line, TOPIC));
    }
    n
}

// A row with a text or topic of so many bytes, at most 65,536, each of them 61.
pub fn long(rows: u64, text: &[u8], len: usize) -> u64 {
    let topic = [0x61; 65536];
    row(rows, text, string::part(&topic, Span { start: 0, len }))
}
