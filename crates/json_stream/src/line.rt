// The object of a packet, the index-th of the stream, whose frame starts at `offset` of it and takes `taken` bytes, put into the output from
// place `at` on, and the end of its line.
use crate::output::At;
use crate::{field, force, list, output};
use qos_numbers;
use records::ack_record::Ack;
use records::packet_record::Packet;
use records::properties_record::Properties;
use records::publish_record::{Publish, PublishProperties};
use records::reply_record::Reply;
use records::span::Span;
use records::subscribe_record::Subscribe;
use records::unsubscribe_record::Unsubscribe;
use std::io::Stdout;
use tables::property::PropertyRow;
use wire::string;

// The block of a packet that has none.
const NONE: Span = Span { start: 0, len: 0 };

// The identifier, which a Publish has at QoS 1 and 2.
fn identifier(to: Stdout, out: &mut [u8], at: At, q: u8, pkid: u16) -> At {
    if q == 0 {
        return at;
    }
    field::id(to, &mut *out, at, pkid)
}

fn flags(to: Stdout, out: &mut [u8], at: At, dup: bool, q: u8, retain: bool) -> At {
    let a = field::flag(to, &mut *out, at, b",\"dup\":", dup);
    let b = field::number(to, &mut *out, a, b",\"qos\":", q as u64);
    field::flag(to, &mut *out, b, b",\"retain\":", retain)
}

fn publish_head(to: Stdout, out: &mut [u8], at: At, s: &[u8], table: &[u8], m: Publish) -> At {
    let qos = m.qos;
    let q = qos_numbers::qos_number(qos);
    let a = flags(to, &mut *out, at, m.dup, q, m.retain);
    // 01 has a Publish's topic as any bytes
    let b = field::text_or_hex(
        to,
        &mut *out,
        a,
        b",\"topic\":\"",
        b",\"topic_hex\":\"",
        s,
        m.topic,
    );
    let c = force::topic(to, &mut *out, b, s, table, m);
    identifier(to, &mut *out, c, q, m.pkid)
}

fn publish_singles(to: Stdout, out: &mut [u8], at: At, s: &[u8], p: PublishProperties) -> At {
    let format = p.payload_format_indicator;
    let expiry = p.message_expiry_interval;
    let alias = p.topic_alias;
    let response = p.response_topic;
    let correlation = p.correlation_data;
    let a = field::u8_if(to, &mut *out, at, b",\"payload_format\":", format);
    let b = field::u32_if(to, &mut *out, a, b",\"message_expiry\":", expiry);
    let c = field::u16_if(to, &mut *out, b, b",\"topic_alias\":", alias);
    let d = field::text_if(to, &mut *out, c, b",\"response_topic\":\"", s, response);
    field::hex_if(
        to,
        &mut *out,
        d,
        b",\"correlation_data_hex\":\"",
        s,
        correlation,
    )
}

// The two lists of a Publish.
fn publish_lists(to: Stdout, out: &mut [u8], at: At, s: &[u8], block: Span) -> At {
    let a = list::users(to, &mut *out, at, PropertyRow::Publish, s, block);
    list::identifiers(to, &mut *out, a, s, block)
}

fn publish_properties(to: Stdout, out: &mut [u8], at: At, s: &[u8], p: PublishProperties) -> At {
    let block = p.block;
    let content = p.content_type;
    let a = publish_singles(to, &mut *out, at, s, p);
    let b = publish_lists(to, &mut *out, a, s, block);
    field::text_if(to, &mut *out, b, b",\"content_type\":\"", s, content)
}

fn publish_block(
    to: Stdout,
    out: &mut [u8],
    at: At,
    s: &[u8],
    properties: Option<PublishProperties>,
) -> At {
    match properties {
        None => publish_lists(to, &mut *out, at, s, NONE),
        Some(p) => publish_properties(to, &mut *out, at, s, p),
    }
}

fn publish_of(to: Stdout, out: &mut [u8], at: At, s: &[u8], table: &[u8], m: Publish) -> At {
    let properties = m.properties;
    let a = publish_head(to, &mut *out, at, s, table, m);
    let b = publish_block(to, &mut *out, a, s, properties);
    field::text_or_hex(
        to,
        &mut *out,
        b,
        b",\"payload\":\"",
        b",\"payload_hex\":\"",
        s,
        m.payload,
    )
}

// The block of any other kind; what its place does not have is absent.
fn properties_of(
    to: Stdout,
    out: &mut [u8],
    at: At,
    place: PropertyRow,
    s: &[u8],
    p: Properties,
) -> At {
    let text = p.reason_string;
    let id = p.id;
    let a = field::text_if(to, &mut *out, at, b",\"reason_string\":\"", s, text);
    let b = field::u32_if(to, &mut *out, a, b",\"subscription_id\":", id);
    list::users(to, &mut *out, b, place, s, p.block)
}

fn block(
    to: Stdout,
    out: &mut [u8],
    at: At,
    place: PropertyRow,
    s: &[u8],
    properties: Option<Properties>,
) -> At {
    match properties {
        None => list::users(to, &mut *out, at, place, s, NONE),
        Some(p) => properties_of(to, &mut *out, at, place, s, p),
    }
}

// PubAck, PubRec, PubRel, PubComp.
fn ack_of(to: Stdout, out: &mut [u8], at: At, s: &[u8], m: Ack) -> At {
    let properties = m.properties;
    let a = field::id(to, &mut *out, at, m.pkid);
    let b = field::number(to, &mut *out, a, b",\"reason\":", m.reason as u64);
    block(to, &mut *out, b, PropertyRow::Ack, s, properties)
}

fn subscribe_of(to: Stdout, out: &mut [u8], at: At, s: &[u8], m: Subscribe) -> At {
    let properties = m.properties;
    let filters = m.filters;
    let a = field::id(to, &mut *out, at, m.pkid);
    let b = block(to, &mut *out, a, PropertyRow::Subscribe, s, properties);
    list::filters(to, &mut *out, b, s, filters)
}

// SubAck, UnsubAck.
fn reply_of(to: Stdout, out: &mut [u8], at: At, s: &[u8], m: Reply) -> At {
    let properties = m.properties;
    let reasons = m.reasons;
    let a = field::id(to, &mut *out, at, m.pkid);
    let b = block(to, &mut *out, a, PropertyRow::Ack, s, properties);
    list::reasons(to, &mut *out, b, s, reasons)
}

fn unsubscribe_of(to: Stdout, out: &mut [u8], at: At, s: &[u8], m: Unsubscribe) -> At {
    let properties = m.properties;
    let topics = m.topics;
    let a = field::id(to, &mut *out, at, m.pkid);
    let b = block(to, &mut *out, a, PropertyRow::Unsubscribe, s, properties);
    list::topics(to, &mut *out, b, s, topics)
}

// The fields of the kind; a ping has none.
fn fields(to: Stdout, out: &mut [u8], at: At, s: &[u8], table: &[u8], p: Packet) -> At {
    match p {
        Packet::Publish(m) => publish_of(to, &mut *out, at, s, table, m),
        Packet::Ack(_, m) => ack_of(to, &mut *out, at, s, m),
        Packet::Subscribe(m) => subscribe_of(to, &mut *out, at, s, m),
        Packet::Reply(_, m) => reply_of(to, &mut *out, at, s, m),
        Packet::Unsubscribe(m) => unsubscribe_of(to, &mut *out, at, s, m),
        Packet::PingReq => at,
        Packet::PingResp => at,
    }
}

// What every object begins with, with the word for a number's kind.
fn head(to: Stdout, out: &mut [u8], at: At, index: u64, offset: u64, num: u8, taken: usize) -> At {
    let shown = kinds::word_of(num);
    let bytes = shown.bytes;
    let text = Span {
        start: 0,
        len: shown.len,
    };
    output::head(
        to,
        &mut *out,
        at,
        index,
        offset,
        string::part(&bytes, text),
        taken as u64,
    )
}

// Of the packet p that was read from s; the table has the topics by alias.
pub fn packet(
    to: Stdout,
    out: &mut [u8],
    at: At,
    index: u64,
    offset: u64,
    s: &[u8],
    table: &[u8],
    p: Packet,
    taken: usize,
) -> At {
    let a = head(
        to,
        &mut *out,
        at,
        index,
        offset,
        desk_summary::number_in(p),
        taken,
    );
    let b = fields(to, &mut *out, a, s, table, p);
    output::word(to, &mut *out, b, b"}\n")
}
