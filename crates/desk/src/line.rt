// The line of a packet whose frame starts at `offset` of the stream and takes `taken` bytes of it, put into the output from place `at` on.
use crate::output::At;
use crate::{field, force, list, output};
use desk_arguments::Style;
use qos_numbers;
use records::ack_record::Ack;
use records::packet_record::Packet;
use records::properties_record::Properties;
use records::publish_record::{Publish, PublishProperties};
use records::reply_record::Reply;
use records::span::Span;
use records::subscribe_record::Subscribe;
use records::unsubscribe_record::Unsubscribe;
use std::io::Stdout;
use tables::property::PropertyRow;
use wire::string;

// The identifier, which a Publish has at QoS 1 and 2.
fn identifier(to: Stdout, out: &mut [u8], at: At, q: u8, pkid: u16) -> At {
    if q == 0 {
        return at;
    }
    field::id(to, &mut *out, at, pkid)
}

fn flags(to: Stdout, out: &mut [u8], at: At, dup: bool, q: u8, retain: bool) -> At {
    let mut text = *b" dup=0 qos=0 retain=0";
    text[5] = output::digit(dup as u8);
    text[11] = output::digit(q);
    text[20] = output::digit(retain as u8);
    output::word(to, &mut *out, at, &text)
}

fn publish_head(
    to: Stdout,
    out: &mut [u8],
    at: At,
    ascii: bool,
    s: &[u8],
    table: &[u8],
    m: Publish,
) -> At {
    let qos = m.qos;
    let q = qos_numbers::qos_number(qos);
    let a = flags(to, &mut *out, at, m.dup, q, m.retain);
    let b = field::part(to, &mut *out, a, b" topic=\"", ascii, s, m.topic);
    let c = force::topic(to, &mut *out, b, ascii, s, table, m);
    identifier(to, &mut *out, c, q, m.pkid)
}

fn publish_singles(
    to: Stdout,
    out: &mut [u8],
    at: At,
    ascii: bool,
    s: &[u8],
    p: PublishProperties,
) -> At {
    let format = p.payload_format_indicator;
    let expiry = p.message_expiry_interval;
    let alias = p.topic_alias;
    let response = p.response_topic;
    let correlation = p.correlation_data;
    let a = field::u8_if(to, &mut *out, at, b" payload-format=", format);
    let b = field::u32_if(to, &mut *out, a, b" message-expiry=", expiry);
    let c = field::u16_if(to, &mut *out, b, b" topic-alias=", alias);
    let d = field::part_if(to, &mut *out, c, b" response-topic=\"", ascii, s, response);
    field::part_if(
        to,
        &mut *out,
        d,
        b" correlation-data=\"",
        ascii,
        s,
        correlation,
    )
}

fn publish_properties(
    to: Stdout,
    out: &mut [u8],
    at: At,
    ascii: bool,
    s: &[u8],
    p: PublishProperties,
) -> At {
    let block = p.block;
    let content = p.content_type;
    let a = publish_singles(to, &mut *out, at, ascii, s, p);
    let b = list::users(to, &mut *out, a, PropertyRow::Publish, ascii, s, block);
    let c = list::identifiers(to, &mut *out, b, ascii, s, block);
    field::part_if(to, &mut *out, c, b" content-type=\"", ascii, s, content)
}

fn publish_block(
    to: Stdout,
    out: &mut [u8],
    at: At,
    ascii: bool,
    s: &[u8],
    properties: Option<PublishProperties>,
) -> At {
    match properties {
        None => at,
        Some(p) => publish_properties(to, &mut *out, at, ascii, s, p),
    }
}

fn publish_of(
    to: Stdout,
    out: &mut [u8],
    at: At,
    s: &[u8],
    table: &[u8],
    style: Style,
    m: Publish,
) -> At {
    let properties = m.properties;
    let a = publish_head(to, &mut *out, at, style.ascii, s, table, m);
    let b = publish_block(to, &mut *out, a, style.ascii, s, properties);
    let most = style.most;
    field::payload(to, &mut *out, b, style.ascii, s, m.payload, most)
}

// The block of any other kind; what its place does not have is absent.
fn block(
    to: Stdout,
    out: &mut [u8],
    at: At,
    place: PropertyRow,
    ascii: bool,
    s: &[u8],
    properties: Option<Properties>,
) -> At {
    match properties {
        None => at,
        Some(p) => {
            let text = p.reason_string;
            let id = p.id;
            let held = p.block;
            let a = field::part_if(to, &mut *out, at, b" reason-string=\"", ascii, s, text);
            let b = field::u32_if(to, &mut *out, a, b" subscription-id=", id);
            list::users(to, &mut *out, b, place, ascii, s, held)
        }
    }
}

// PubAck, PubRec, PubRel, PubComp.
fn ack_of(to: Stdout, out: &mut [u8], at: At, ascii: bool, s: &[u8], m: Ack) -> At {
    let properties = m.properties;
    let a = field::id(to, &mut *out, at, m.pkid);
    let b = field::reason(to, &mut *out, a, m.reason);
    block(to, &mut *out, b, PropertyRow::Ack, ascii, s, properties)
}

fn subscribe_of(to: Stdout, out: &mut [u8], at: At, ascii: bool, s: &[u8], m: Subscribe) -> At {
    let properties = m.properties;
    let filters = m.filters;
    let a = field::id(to, &mut *out, at, m.pkid);
    let b = block(
        to,
        &mut *out,
        a,
        PropertyRow::Subscribe,
        ascii,
        s,
        properties,
    );
    list::filters(to, &mut *out, b, ascii, s, filters)
}

// SubAck, UnsubAck.
fn reply_of(to: Stdout, out: &mut [u8], at: At, ascii: bool, s: &[u8], m: Reply) -> At {
    let properties = m.properties;
    let reasons = m.reasons;
    let a = field::id(to, &mut *out, at, m.pkid);
    let b = block(to, &mut *out, a, PropertyRow::Ack, ascii, s, properties);
    list::reasons(to, &mut *out, b, ascii, s, reasons)
}

fn unsubscribe_of(to: Stdout, out: &mut [u8], at: At, ascii: bool, s: &[u8], m: Unsubscribe) -> At {
    let properties = m.properties;
    let topics = m.topics;
    let a = field::id(to, &mut *out, at, m.pkid);
    let b = block(
        to,
        &mut *out,
        a,
        PropertyRow::Unsubscribe,
        ascii,
        s,
        properties,
    );
    list::topics(to, &mut *out, b, ascii, s, topics)
}

// The fields of the kind; a ping has none.
fn fields(
    to: Stdout,
    out: &mut [u8],
    at: At,
    s: &[u8],
    table: &[u8],
    style: Style,
    p: Packet,
) -> At {
    match p {
        Packet::Publish(m) => publish_of(to, &mut *out, at, s, table, style, m),
        Packet::Ack(_, m) => ack_of(to, &mut *out, at, style.ascii, s, m),
        Packet::Subscribe(m) => subscribe_of(to, &mut *out, at, style.ascii, s, m),
        Packet::Reply(_, m) => reply_of(to, &mut *out, at, style.ascii, s, m),
        Packet::Unsubscribe(m) => unsubscribe_of(to, &mut *out, at, style.ascii, s, m),
        Packet::PingReq => at,
        Packet::PingResp => at,
    }
}

// The word for a number's kind.
fn kind_word(to: Stdout, out: &mut [u8], at: At, num: u8) -> At {
    let shown = kinds::word_of(num);
    let bytes = shown.bytes;
    let text = Span {
        start: 0,
        len: shown.len,
    };
    output::word(to, &mut *out, at, string::part(&bytes, text))
}

// The kind, in bold where lines are coloured.
fn kind(to: Stdout, out: &mut [u8], at: At, num: u8, colour: bool) -> At {
    let a = output::paint(to, &mut *out, at, colour, b"\x1B[1m");
    let b = kind_word(to, &mut *out, a, num);
    output::paint(to, &mut *out, b, colour, b"\x1B[0m")
}

// Of the packet p that was read from s; the table has the topics by alias.
pub fn packet(
    to: Stdout,
    out: &mut [u8],
    at: At,
    offset: u64,
    s: &[u8],
    table: &[u8],
    style: Style,
    p: Packet,
    taken: usize,
) -> At {
    let a = output::decimal(to, &mut *out, at, offset);
    let b = output::word(to, &mut *out, a, b" ");
    let c = kind(to, &mut *out, b, desk_summary::number_in(p), style.colour);
    let d = field::number(to, &mut *out, c, b" taken=", taken as u64);
    let e = fields(to, &mut *out, d, s, table, style, p);
    output::word(to, &mut *out, e, b"\n")
}

// The kind of a first byte: its word, or its number where there is none.
fn kind_or_number(to: Stdout, out: &mut [u8], at: At, num: u8) -> At {
    let shown = kinds::word_of(num);
    if shown.len == 0 {
        return output::decimal(to, &mut *out, at, num as u64);
    }
    kind_word(to, &mut *out, at, num)
}

// Of a frame of `size` bytes that begins with `first` and is longer than the buffer.
pub fn skipped(
    to: Stdout,
    out: &mut [u8],
    at: At,
    offset: u64,
    first: u8,
    size: u64,
    colour: bool,
) -> At {
    let a = output::paint(to, &mut *out, at, colour, b"\x1B[33m");
    let b = output::decimal(to, &mut *out, a, offset);
    let c = output::word(to, &mut *out, b, b" skipped ");
    let d = kind_or_number(to, &mut *out, c, first / 16);
    let e = field::number(to, &mut *out, d, b" taken=", size);
    let f = output::paint(to, &mut *out, e, colour, b"\x1B[0m");
    output::word(to, &mut *out, f, b"\n")
}
