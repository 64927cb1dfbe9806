// The next packet of a stream, after `Packet::read` of v5/mod.rs: the frame, then 4, 5 and 6 in order, then the fields of its kind.
#![tactic(auto)]

ghost use Rattle.std.specs.Prelude.{◌≡◌, [], ℕ, ◌≤◌, length, drop};
ghost use Rattle.grammar.specs.Tables.{a_publish, a_subscribe, an_ack, a_reply, an_unsubscribe, reasons_of};
ghost use Rattle.grammar.specs.Record.{kind_of};
ghost use Rattle.reading.specs.Read.{fields_fit, body_fit, whole_answer};
ghost use Rattle.reading.specs.Place.{as_places};
ghost use Rattle.records.specs.AsNumbers.{limit_of, told_ack_kind, told_reply_kind};
ghost use Rattle.reading.specs.Bounds.{ending_at};
ghost use Rattle.records.specs.Said.{told_publish_block, told_block};
ghost use Rattle.records.specs.Answered.{told, told_bounds};
ghost use Rattle.packet.specs.PacketRead.{TellsBody, Tells, Meets, taken_in, Judged};

use framing::check;
use framing::header::FixedHeader;
use kinds::Kind;
use records::ack_record::AckKind;
use records::answer::Read;
use records::error::Error;
use records::packet_record::Packet;
use records::properties_record::Properties;
use records::publish_record::PublishProperties;
use records::reply_record::ReplyKind;
use records::span::Bounds;

// Where a block stands that ends at `end`, where the payload or the entries begin or the frame ends: 02's two numbers. One function for each
// type of properties: by `map` with a closure that reads the block the proof did not close.
fn publish_bounds(properties: Option<PublishProperties>, end: usize) -> Bounds
    ensures { told_bounds result ≡ ending_at (λ ps. ps.user) end (told_publish_block properties) }
{
    match properties {
        Some(p) => Bounds {
            start: p.block.start,
            end,
        },
        None => Bounds { start: end, end },
    }
}

fn bounds(properties: Option<Properties>, end: usize) -> Bounds
    ensures { told_bounds result ≡ ending_at (λ ps. ps.user) end (told_block properties) }
{
    match properties {
        Some(p) => Bounds {
            start: p.block.start,
            end,
        },
        None => Bounds { start: end, end },
    }
}

// The fields of a kind, from index `at` to the end of the frame `s`: the record, and where its properties stand.
fn read_publish(s: &[u8], at: usize, byte1: u8) -> Result<(Packet, Bounds), Error>
    ensures { TellsBody (length s.now) result (fields_fit as_places a_publish byte1 (length s.now) (drop at s.now)) }
{
    let m = publish::read(s, at, byte1)?;
    let place = publish_bounds(m.properties, m.payload.start);
    Ok((Packet::Publish(m), place))
}

fn read_ack(kind: AckKind, s: &[u8], at: usize) -> Result<(Packet, Bounds), Error>
    ensures { (x : ℕ) → kind_of x ≡ told_ack_kind kind → TellsBody (length s.now) result (fields_fit as_places (an_ack (reasons_of (told_ack_kind kind))) x (length s.now) (drop at s.now)) }
{
    let m = ack::read(kind, s, at)?;
    let place = bounds(m.properties, s.len());
    Ok((Packet::Ack(kind, m), place))
}

fn read_reply(kind: ReplyKind, s: &[u8], at: usize) -> Result<(Packet, Bounds), Error>
    ensures { (x : ℕ) → kind_of x ≡ told_reply_kind kind → TellsBody (length s.now) result (fields_fit as_places (a_reply (reasons_of (told_reply_kind kind))) x (length s.now) (drop at s.now)) }
{
    let m = reply::read(kind, s, at)?;
    let place = bounds(m.properties, m.reasons.start);
    Ok((Packet::Reply(kind, m), place))
}

fn read_unsubscribe(s: &[u8], at: usize) -> Result<(Packet, Bounds), Error>
    ensures { (x : ℕ) → TellsBody (length s.now) result (fields_fit as_places an_unsubscribe x (length s.now) (drop at s.now)) }
{
    let m = unsubscribe::read(s, at)?;
    let place = bounds(m.properties, m.topics.start);
    Ok((Packet::Unsubscribe(m), place))
}

fn read_subscribe(s: &[u8], at: usize) -> Result<(Packet, Bounds), Error>
    ensures { (x : ℕ) → TellsBody (length s.now) result (fields_fit as_places a_subscribe x (length s.now) (drop at s.now)) }
{
    let m = subscribe::read(s, at)?;
    let place = bounds(m.properties, m.filters.start);
    Ok((Packet::Subscribe(m), place))
}

// R = 0, which only a ping may have: 4, then 5.
fn read_empty(h: FixedHeader, taken: usize) -> Result<(Packet, Bounds), Error>
    ensures { (end : ℕ) → TellsBody taken result (body_fit as_places h.byte1 end []) }
{
    match h.packet_type() {
        Kind::Reserved(num) => return Err(Error::InvalidPacketType(num)),
        Kind::PingReq => return Ok((Packet::PingReq, bounds(None, taken))),
        Kind::PingResp => return Ok((Packet::PingResp, bounds(None, taken))),
        Kind::Publish => {}
        Kind::Ack(_) => {}
        Kind::Subscribe => {}
        Kind::Reply(_) => {}
        Kind::Unsubscribe => {}
        Kind::NotCarried(_) => {}
    }
    Err(Error::PayloadRequired)
}

// The whole frame `s`, whose header is given: 4, then 5, then 6, then the fields of the kind. Each arm of the match returns: a match that has
// a value keeps a local for it, and what is to be proved of a function grows with its wide locals times its steps.
fn read_body(s: &[u8], h: FixedHeader) -> Result<(Packet, Bounds), Error>
    ensures { TellsBody (length s.now) result (body_fit as_places h.byte1 (length s.now) (drop h.fixed_header_len s.now)) }
{
    let at = h.fixed_header_len;
    if s.len() <= at {
        return read_empty(h, s.len());
    }
    match h.packet_type() {
        Kind::Reserved(k) => return Err(Error::InvalidPacketType(k)),
        Kind::NotCarried(k) => return Err(Error::KindNotCarried(k)),
        Kind::Publish => return read_publish(s, at, h.byte1),
        Kind::Ack(k) => return read_ack(k, s, at),
        Kind::Subscribe => return read_subscribe(s, at),
        Kind::Reply(k) => return read_reply(k, s, at),
        Kind::Unsubscribe => return read_unsubscribe(s, at),
        Kind::PingReq => return Ok((Packet::PingReq, bounds(None, s.len()))),
        Kind::PingResp => return Ok((Packet::PingResp, bounds(None, s.len()))),
    }
}

// The same, and the bytes that it takes, which are all of the frame.
fn read_frame(s: &[u8], h: FixedHeader) -> Read
    ensures { Tells result (whole_answer as_places (length s.now) (h.byte1, drop h.fixed_header_len s.now)) }
{
    match read_body(s, h) {
        Ok((packet, place)) => Ok((packet, place, s.len())),
        Err(e) => Err((e, s.len())),
    }
}

// The packet at the start of the stream, where its properties start and end, and the bytes it takes; or the refusal with the bytes that it takes: none while there is no
// whole frame within the limit, else the frame.
pub fn read(stream: &[u8], limit: Option<usize>) -> Read
    ensures answer { Meets limit stream.now result }
    ensures within { taken_in (told result) ≤ length stream.now }
    ensures verdict { Judged (limit_of limit) stream.now result }
{
    match check::check(stream, limit) {
        Err(e) => Err((e, 0)),
        Ok(h) => {
            let end = h.frame_length();
            read_frame(&stream[..end], h)
        }
    }
}
