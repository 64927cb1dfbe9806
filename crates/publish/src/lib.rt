// A Publish, after publish.rs: the read of its properties, and of its fields.
#![tactic(auto)]

ghost use Rattle.std.specs.Prelude.{◌≡◌, [], ◌≤◌, length, drop};
ghost use Rattle.std.proofs.Math.Option.{some};
ghost use Rattle.grammar.specs.Tables.{a_publish, publish_row, form_at};
ghost use Rattle.reading.specs.Read.{ident_of, bytes_of, fields_fit, block_of, publish_as};
ghost use Rattle.reading.specs.Place.{as_places};
ghost use Rattle.positions.specs.Position.{from_at};
ghost use Rattle.records.specs.AsNumbers.{told_qos, told_span};
ghost use Rattle.records.specs.Said.{told_publish_properties};
ghost use Rattle.numbers.specs.NumberRead.{told_got_number};
ghost use Rattle.wire.specs.StringRead.{told_part};
ghost use Rattle.property_value.specs.OneProperty.{told_value, form_of};
ghost use Rattle.properties.specs.Block.{publish_record, applied, filled_at};
ghost use Rattle.publish.specs.Singles.{told_singles, ListsPassed, told_publish_block_at};
ghost use Rattle.publish.specs.PublishRead.{told_got_publish};

use numbers::fixed;
use properties::block;
use property_value::{GotProperty, Value};
use records::error::Error;
use records::publish_record::{Publish, PublishProperties};
use records::qos::QoS;
use records::span::Span;
use tables::property::PropertyRow;
use tables::qos;
use wire::string;

// ---- the properties, after `PublishProperties::read`: a single-valued one given twice is refused; the lists are left in the block, and the
// record keeps where it stands

// The single values so far. The flags stand apart from the values: an enum that holds a span has gaps, and a loop that carries such
// enums copies the gaps at each turn, which took three times as long.
#[derive(Clone, Copy)]
struct Singles {
    response: Span,
    correlation: Span,
    content: Span,
    block: Span,
    expiry: u32,
    alias: u16,
    format: u8,
    has_format: bool,
    has_expiry: bool,
    has_alias: bool,
    has_response: bool,
    has_correlation: bool,
    has_content: bool,
}

// No property yet, of the block that stands at `block`.
fn none(block: Span) -> Singles
    ensures { told_singles result ≡ publish_record.made (told_span block) [] }
{
    Singles {
        response: block,
        correlation: block,
        content: block,
        block,
        expiry: 0,
        alias: 0,
        format: 0,
        has_format: false,
        has_expiry: false,
        has_alias: false,
        has_response: false,
        has_correlation: false,
        has_content: false,
    }
}

// One property more.
fn apply(p: Singles, k: u8, v: Value) -> Singles
    requires { form_at publish_row k ≡ some (form_of v) }
    ensures { told_singles result ≡ applied publish_record (told_singles p) (k, told_value v) }
{
    match v {
        Value::U8(x) => Singles {
            format: x,
            has_format: true,
            ..p
        },
        Value::U16(x) => Singles {
            alias: x,
            has_alias: true,
            ..p
        },
        Value::U32(x) => Singles {
            expiry: x,
            has_expiry: true,
            ..p
        },
        Value::Number(_) => p,
        Value::Text(x) => {
            if k == 8 {
                return Singles {
                    response: x,
                    has_response: true,
                    ..p
                };
            }
            Singles {
                content: x,
                has_content: true,
                ..p
            }
        }
        Value::Bytes(x) => Singles {
            correlation: x,
            has_correlation: true,
            ..p
        },
        Value::Pair(_, _) => p,
    }
}

// Whether the single-valued property k is there.
fn has(p: Singles, k: u8) -> bool
    ensures { result ≡ publish_record.has (told_singles p) k }
{
    match k {
        1 => p.has_format,
        2 => p.has_expiry,
        35 => p.has_alias,
        8 => p.has_response,
        9 => p.has_correlation,
        3 => p.has_content,
        0 | 4..=7 | 10..=34 | 36..=255 => false,
    }
}

// The record of the values so far.
fn made(p: Singles) -> PublishProperties
    ensures { told_publish_properties result ≡ told_singles p }
{
    PublishProperties {
        payload_format_indicator: p.has_format.then_some(p.format),
        message_expiry_interval: p.has_expiry.then_some(p.expiry),
        topic_alias: p.has_alias.then_some(p.alias),
        response_topic: p.has_response.then_some(p.response),
        correlation_data: p.has_correlation.then_some(p.correlation),
        content_type: p.has_content.then_some(p.content),
        block: p.block,
    }
}

// The index after the properties that a Publish keeps in lists, from index `from` on: a loop of its own, which needs few registers.
fn pass_lists(s: &[u8], from: usize) -> usize
    ensures { ListsPassed s.now from result }
{
    let mut at = from;
    while at < s.len() {
        let past = property_value::pass_listed(s, at);
        if past == at {
            return at;
        }
        at = past;
    }
    at
}

// The block that stands at `block`, which ends where the slice does: no read goes past it (D2).
fn fill(s: &[u8], block: Span) -> Result<(Option<PublishProperties>, usize), Error>
    ensures { told_publish_block_at result ≡ filled_at publish_record s.now (told_span block) }
{
    let mut p = none(block);
    let mut at = block.start;
    loop {
        at = pass_lists(s, at);
        if s.len() <= at {
            break;
        }
        let first = s[at];
        if has(p, first) {
            return Err(Error::DuplicateProperty(first));
        }
        match property_value::find_property(PropertyRow::Publish, s, at) {
            GotProperty::Found(k, v, next) => {
                p = apply(p, k, v);
                at = next;
            }
            GotProperty::Refused(e) => return Err(e),
        }
    }
    let q = made(p);
    Ok((Some(q), s.len()))
}

// The block of a Publish at index `at`: its L, and its properties; absent where L is 0.
fn read_publish_block(s: &[u8], at: usize) -> Result<(Option<PublishProperties>, usize), Error>
    ensures { told_publish_block_at result ≡ from_at (block_of as_places publish_row (publish_as as_places) (length s.now)) s.now at }
{
    let (block, end) = block::read_room(s, at)?;
    if block.len == 0 {
        return Ok((None, end));
    }
    fill(&s[..end], block)
}

// ---- the fields

// The topic: as bytes, not tested as text.
fn read_topic(s: &[u8], at: usize) -> Result<(Span, usize), Error>
    ensures { told_part result ≡ from_at (bytes_of as_places (length s.now)) s.now at }
{
    string::read_mqtt_bytes(s, at)
}

// An identifier that must not be 0: 7, then 12.
fn read_some_pkid(s: &[u8], at: usize) -> Result<(u16, usize), Error>
    ensures { told_got_number result ≡ from_at (ident_of 1) s.now at }
{
    let (pkid, next) = fixed::read_u16(s, at)?;
    if pkid == 0 {
        return Err(Error::PacketIdZero);
    }
    Ok((pkid, next))
}

// The identifier, which stands there only if QoS is 1 or 2.
fn read_pkid(s: &[u8], at: usize, qos: QoS) -> Result<(u16, usize), Error>
    requires { at ≤ length s.now }
    ensures { told_got_number result ≡ from_at (ident_of (told_qos qos)) s.now at }
{
    match qos {
        QoS::AtMostOnce => Ok((0, at)),
        QoS::AtLeastOnce => read_some_pkid(s, at),
        QoS::ExactlyOnce => read_some_pkid(s, at),
    }
}

// The Publish in the fields from index `at` to the end of the frame, whose first byte is given: 11 for its QoS, then the first refusal from
// the left.
pub fn read(s: &[u8], at: usize, byte1: u8) -> Result<Publish, Error>
    ensures { told_got_publish result ≡ fields_fit as_places a_publish byte1 (length s.now) (drop at s.now) }
{
    let qos = qos::qos(byte1 / 2 % 4)?;
    let (topic, a) = read_topic(s, at)?;
    let (pkid, b) = read_pkid(s, a, qos)?;
    let (properties, start) = read_publish_block(s, b)?;
    let len = s.len() - start;
    let payload = Span { start, len };
    Ok(Publish {
        dup: fixed::flag(byte1 / 8),
        qos,
        retain: fixed::flag(byte1),
        topic,
        pkid,
        payload,
        properties,
    })
}
