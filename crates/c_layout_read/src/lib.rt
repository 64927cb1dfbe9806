// What of a read stands under which name of the layout, and each name's index in the array that C is handed.
#![tactic(auto)]

pub mod place;

ghost use Rattle.std.specs.Prelude.{◌≡◌};
ghost use Rattle.std.proofs.lemmas.List.Edits.{sets};
ghost use Rattle.grammar.specs.Record.{publish, ack, subscribe, reply, unsubscribe, ping};
ghost use Rattle.reading.specs.Refusal.{refused_as};
ghost use Rattle.reading.specs.Reader.{bad};
ghost use Rattle.records.specs.AsNumbers.{told_error, told_ack_kind, told_reply_kind, told_number_if, told_string, told_span};
ghost use Rattle.records.specs.Said.{told_publish, told_subscribe, told_ack, told_reply, told_unsubscribe, told_packet, told_publish_block, told_block};
ghost use Rattle.records.specs.Answered.{told, carried};
ghost use Rattle.kinds.specs.Kinds.{number_of};
ghost use Rattle.c_layout_read.specs.Layout.{laid_out};
ghost use Rattle.c_layout_read.specs.Block.{texted, numbered, lettered, publish_block, props_block};
ghost use Rattle.c_layout_read.specs.Record.{no_span, plain_head, packet_numbers, read_number, encoded};

use crate::place::{Block, Head, Number, Text};
use c_layout::store::store;
use c_layout::value::{first_value, second_value};
use kinds::{Kind, number_of};
use qos_numbers::{bit, qos_number};
use records::ack_record::{Ack, AckKind};
use records::answer::Read;
use records::error::Error;
use records::packet_record::Packet;
use records::properties_record::Properties;
use records::publish_record::{Publish, PublishProperties};
use records::reply_record::{Reply, ReplyKind};
use records::span::{Bounds, Span};
use records::subscribe_record::Subscribe;
use records::unsubscribe_record::Unsubscribe;
use refusal_numbers::{number, values};

// ---- single values

const NO_NUMBER: Number = Number { on: 0, value: 0 };

const NO_TEXT: Text = Text {
    on: 0,
    start: 0,
    len: 0,
};

fn place_text(p: Span) -> Text
    ensures { result ≡ texted (told_span p) }
{
    Text {
        on: 1,
        start: p.start as u64,
        len: p.len as u64,
    }
}

// A number of any width, widened by its caller.
fn number_if(m: Option<u64>) -> Number
    ensures { result ≡ numbered (told_number_if m) }
{
    match m {
        None => NO_NUMBER,
        Some(value) => Number { on: 1, value },
    }
}

fn span_text(m: Option<Span>) -> Text
    ensures { result ≡ lettered (told_string m) }
{
    match m {
        None => NO_TEXT,
        Some(p) => place_text(p),
    }
}

// ---- the properties of each kind

const NO_BLOCK: Block = Block {
    place: NO_TEXT,
    format: NO_NUMBER,
    expiry: NO_NUMBER,
    alias: NO_NUMBER,
    response: NO_TEXT,
    correlation: NO_TEXT,
    content: NO_TEXT,
    reason: NO_TEXT,
    subscription: NO_NUMBER,
};

fn publish_block(m: Option<PublishProperties>) -> Block
    ensures { result ≡ publish_block (told_publish_block m) }
{
    let Some(p) = m else {
        return NO_BLOCK;
    };
    Block {
        place: place_text(p.block),
        format: number_if(p.payload_format_indicator.map(u64::from)),
        expiry: number_if(p.message_expiry_interval.map(u64::from)),
        alias: number_if(p.topic_alias.map(u64::from)),
        response: span_text(p.response_topic),
        correlation: span_text(p.correlation_data),
        content: span_text(p.content_type),
        ..NO_BLOCK
    }
}

// Of every kind but Publish.
fn props_block(m: Option<Properties>) -> Block
    ensures { result ≡ props_block (told_block m) }
{
    let Some(p) = m else {
        return NO_BLOCK;
    };
    Block {
        place: place_text(p.block),
        reason: span_text(p.reason_string),
        subscription: number_if(p.id.map(u64::from)),
        ..NO_BLOCK
    }
}

// ---- all but the properties

const NOWHERE: Span = Span { start: 0, len: 0 };

const NO_HEAD: Head = Head {
    taken: 0,
    first: 0,
    second: 0,
    kind: 0,
    pkid: 0,
    dup: 0,
    qos: 0,
    retain: 0,
    reason: 0,
    topic: NOWHERE,
    payload: NOWHERE,
    filters: NOWHERE,
    reasons: NOWHERE,
    topics: NOWHERE,
    properties: Bounds { start: 0, end: 0 },
};

// What every kind has; a ping has no more.
fn kind_head(taken: usize, kind: Kind, properties: Bounds) -> Head
    ensures { result ≡ plain_head taken (number_of kind) 0 0 no_span no_span no_span properties }
{
    Head {
        taken: taken as u64,
        kind: number_of(kind) as u64,
        properties,
        ..NO_HEAD
    }
}

// ---- a packet

// Each number at its index in the header.
fn numbers(h: Head, b: Block) -> [u64; 44]
    ensures { result ≡ laid_out h b }
{
    [
        h.taken,
        h.first,
        h.second,
        h.kind,
        h.pkid,
        h.dup,
        h.qos,
        h.retain,
        h.reason,
        h.topic.start as u64,
        h.topic.len as u64,
        h.payload.start as u64,
        h.payload.len as u64,
        h.filters.start as u64,
        h.filters.len as u64,
        b.place.on,
        b.place.start,
        b.place.len,
        b.format.on,
        b.format.value,
        b.expiry.on,
        b.expiry.value,
        b.alias.on,
        b.alias.value,
        b.response.on,
        b.response.start,
        b.response.len,
        b.correlation.on,
        b.correlation.start,
        b.correlation.len,
        b.content.on,
        b.content.start,
        b.content.len,
        b.reason.on,
        b.reason.start,
        b.reason.len,
        b.subscription.on,
        b.subscription.value,
        h.reasons.start as u64,
        h.reasons.len as u64,
        h.topics.start as u64,
        h.topics.len as u64,
        h.properties.start as u64,
        h.properties.end as u64,
    ]
}

fn publish_numbers(taken: usize, place: Bounds, m: Publish) -> [u64; 44]
    ensures { result ≡ packet_numbers taken place (publish (told_publish m)) }
{
    let head = Head {
        pkid: m.pkid as u64,
        dup: bit(m.dup) as u64,
        qos: qos_number(m.qos) as u64,
        retain: bit(m.retain) as u64,
        topic: m.topic,
        payload: m.payload,
        ..kind_head(taken, Kind::Publish, place)
    };
    numbers(head, publish_block(m.properties))
}

fn ack_numbers(taken: usize, place: Bounds, kind: AckKind, m: Ack) -> [u64; 44]
    ensures { result ≡ packet_numbers taken place (ack (told_ack_kind kind) (told_ack m)) }
{
    let head = Head {
        pkid: m.pkid as u64,
        reason: m.reason as u64,
        ..kind_head(taken, Kind::Ack(kind), place)
    };
    numbers(head, props_block(m.properties))
}

fn subscribe_numbers(taken: usize, place: Bounds, m: Subscribe) -> [u64; 44]
    ensures { result ≡ packet_numbers taken place (subscribe (told_subscribe m)) }
{
    let head = Head {
        pkid: m.pkid as u64,
        filters: m.filters,
        ..kind_head(taken, Kind::Subscribe, place)
    };
    numbers(head, props_block(m.properties))
}

fn reply_numbers(taken: usize, place: Bounds, kind: ReplyKind, m: Reply) -> [u64; 44]
    ensures { result ≡ packet_numbers taken place (reply (told_reply_kind kind) (told_reply m)) }
{
    let head = Head {
        pkid: m.pkid as u64,
        reasons: m.reasons,
        ..kind_head(taken, Kind::Reply(kind), place)
    };
    numbers(head, props_block(m.properties))
}

fn unsubscribe_numbers(taken: usize, place: Bounds, m: Unsubscribe) -> [u64; 44]
    ensures { result ≡ packet_numbers taken place (unsubscribe (told_unsubscribe m)) }
{
    let head = Head {
        pkid: m.pkid as u64,
        topics: m.topics,
        ..kind_head(taken, Kind::Unsubscribe, place)
    };
    numbers(head, props_block(m.properties))
}

fn ping_numbers(taken: usize, place: Bounds, kind: Kind) -> [u64; 44]
    ensures { result ≡ packet_numbers taken place (ping (number_of kind)) }
{
    numbers(kind_head(taken, kind, place), NO_BLOCK)
}

fn packet_numbers(taken: usize, place: Bounds, p: Packet) -> [u64; 44]
    ensures { result ≡ packet_numbers taken place (told_packet p) }
{
    match p {
        Packet::Publish(m) => publish_numbers(taken, place, m),
        Packet::Ack(k, m) => ack_numbers(taken, place, k, m),
        Packet::Subscribe(m) => subscribe_numbers(taken, place, m),
        Packet::Reply(k, m) => reply_numbers(taken, place, k, m),
        Packet::Unsubscribe(m) => unsubscribe_numbers(taken, place, m),
        Packet::PingReq => ping_numbers(taken, place, Kind::PingReq),
        Packet::PingResp => ping_numbers(taken, place, Kind::PingResp),
    }
}

// ---- an answer

fn error_numbers(taken: usize, e: Error) -> [u64; 44]
    ensures { result ≡ encoded (refused_as (told_error e) taken) (bad (told_error e)) }
{
    let v = values(e);
    let head = Head {
        taken: taken as u64,
        first: first_value(v),
        second: second_value(v),
        ..NO_HEAD
    };
    numbers(head, NO_BLOCK)
}

fn read_numbers(read: Read) -> [u64; 44]
    ensures { result ≡ encoded (told read) (carried read) }
{
    match read {
        Ok((p, place, taken)) => packet_numbers(taken, place, p),
        Err((e, taken)) => error_numbers(taken, e),
    }
}

fn read_number(read: Read) -> u32
    ensures { result ≡ read_number (told read) }
{
    match read {
        Ok(_) => 0,
        Err((e, _)) => number(e) as u32,
    }
}

// 0, or the refusal's number; taken is stored, then the record and where its properties start and end, or the refusal's values.
pub fn store_read(read: Read, into: &mut [u64]) -> u32
    ensures number { result ≡ read_number (told read) }
    ensures stored { into.new ≡ sets into.old 0 (encoded (told read) (carried read)) }
{
    let numbers = read_numbers(read);
    store(&mut *into, &numbers);
    read_number(read)
}
