// Strings, a u16 length and that many bytes: `read_mqtt_bytes` and `read_mqtt_string` of v5/mod.rs, and the part of a stream at a place.
// A read gives the place; the end of the slice is the end of its room.
ghost use Rattle.std.specs.Prelude.{◌≡◌, length};
ghost use Rattle.reading.specs.Read.{bytes_of, text_of};
ghost use Rattle.reading.specs.Place.{as_places, lies_in};
ghost use Rattle.positions.specs.Position.{from_at};
ghost use Rattle.records.specs.AsNumbers.{told_span, told_string};
ghost use Rattle.wire.specs.Part.{PartAt, place_if};
ghost use Rattle.wire.specs.StringRead.{told_part};

use numbers::fixed;
use records::error::Error;
use records::span::Span;

// The place of a string of any bytes, behind its length, and the index after it; 7, or 8 with the length.
pub fn read_mqtt_bytes(s: &[u8], at: usize) -> Result<(Span, usize), Error>
    ensures { told_part result ≡ from_at (bytes_of as_places (length s.now)) s.now at }
{
    let (n, start) = fixed::read_u16(s, at)?;
    let len = n as usize;
    if s.len() - start < len {
        return Err(Error::BoundaryCrossed(len));
    }
    Ok((Span { start, len }, start + len))
}

// The same of a string of text; 9 last.
pub fn read_mqtt_string(s: &[u8], at: usize) -> Result<(Span, usize), Error>
    ensures { told_part result ≡ from_at (text_of as_places (length s.now)) s.now at }
{
    let (p, next) = read_mqtt_bytes(s, at)?;
    if utf8::is_utf8(part(s, p)) {
        return Ok((p, next));
    }
    Err(Error::TopicNotUtf8)
}

// Whether a place lies within `s`.
pub fn within(s: &[u8], p: Span) -> bool
    ensures { result ≡ lies_in s.now (told_span p) }
{
    let start = p.start;
    let len = p.len;
    if s.len() < start {
        return false;
    }
    len <= s.len() - start
}

// The part of `s` at a place; the empty part at 0 if it does not lie within.
pub fn part<'a>(s: &'a [u8], p: Span) -> &'a [u8]
    ensures { PartAt s.entry (told_span p) result }
{
    if within(s, p) {
        let start = p.start;
        let len = p.len;
        let end = start + len;
        return &s[start..end];
    }
    &s[..0]
}

// The same of a place that may be absent, which gives the empty part at 0.
pub fn part_if<'a>(s: &'a [u8], p: Option<Span>) -> &'a [u8]
    ensures { PartAt s.entry (place_if (told_string p)) result }
{
    match p {
        None => part(s, Span { start: 0, len: 0 }),
        Some(q) => part(s, q),
    }
}
