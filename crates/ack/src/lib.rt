// The publish acknowledgements, after puback.rs, pubrec.rs, pubrel.rs and pubcomp.rs: the read of their fields (MQTT 3.4 to 3.7), which is
// one for all four, and the reason string as a part of the stream.
#![tactic(auto)]

ghost use Rattle.std.specs.Prelude.{◌≡◌, ℕ, length, drop};
ghost use Rattle.grammar.specs.Tables.{ack_row, an_ack, reasons_of};
ghost use Rattle.grammar.specs.Record as record_of;
ghost use Rattle.grammar.specs.Record.{kind_of};
ghost use Rattle.reading.specs.Read.{ack_block_fit, fields_fit};
ghost use Rattle.reading.specs.Place.{as_places, on_got};
ghost use Rattle.records.specs.AsNumbers.{told_string, told_ack_kind};
ghost use Rattle.wire.specs.Part.{PartAt, place_if};
ghost use Rattle.ack.specs.AckRead.{told_got_ack, told_last_block, behind_reason, after_ident, reason};

use numbers::fixed;
use properties::row_block;
use records::ack_record::{Ack, AckKind};
use records::error::Error;
use records::properties_record::Properties;
use records::span::Span;
use tables::property::OtherRow;
use tables::reason::is_ack_reason;
use wire::string;

// What follows the reason: nothing at R = 3, else a block that ends the frame.
fn read_last_block(s: &[u8], at: usize) -> Result<Option<Properties>, Error>
    ensures { told_last_block result ≡ ack_block_fit as_places ack_row (length s.now) (drop at s.now) }
{
    if s.len() <= at {
        return Ok(None);
    }
    let (properties, next) = row_block::read_block(OtherRow::Ack, s, at)?;
    if next < s.len() {
        return Err(Error::MalformedPacket);
    }
    Ok(properties)
}

// The record of an identifier and a reason, with what follows them.
fn read_behind(s: &[u8], at: usize, pkid: u16, reason: u8) -> Result<Ack, Error>
    ensures { told_got_ack result ≡ behind_reason pkid reason (length s.now) (drop at s.now) }
{
    let properties = read_last_block(s, at)?;
    Ok(Ack {
        pkid,
        reason,
        properties,
    })
}

// What follows the identifier: nothing at R = 2, else a reason, which is tested before what follows it.
fn read_reason(kind: AckKind, s: &[u8], at: usize, pkid: u16) -> Result<Ack, Error>
    ensures { told_got_ack result ≡ after_ident (reasons_of (told_ack_kind kind)) pkid (length s.now) (drop at s.now) }
{
    if s.len() <= at {
        return Ok(Ack {
            pkid,
            reason: 0,
            properties: None,
        });
    }
    let reason = s[at];
    if is_ack_reason(kind, reason) {
        return read_behind(s, at + 1, pkid, reason);
    }
    Err(Error::InvalidReason(reason))
}

// The acknowledgement of the kind in the fields from index `at` to the end of the frame, or the first refusal from the left.
pub fn read(kind: AckKind, s: &[u8], at: usize) -> Result<Ack, Error>
    ensures { (x : ℕ) → kind_of x ≡ told_ack_kind kind → on_got (record_of.ack (told_ack_kind kind)) (told_got_ack result)
        ≡ fields_fit as_places (an_ack (reasons_of (told_ack_kind kind))) x (length s.now) (drop at s.now) }
{
    let (pkid, next) = fixed::read_u16(s, at)?;
    read_reason(kind, s, next, pkid)
}

// Where the reason string stands; absent where there is no block.
fn reason_place(properties: Option<Properties>) -> Option<Span>
    ensures { told_string result ≡ reason properties }
{
    let p = properties?;
    p.reason_string
}

// The reason string of an acknowledgement or reply with these properties, which was read from `s`; the empty part if it is absent or lies outside.
pub fn reason_string<'a>(s: &'a [u8], properties: Option<Properties>) -> &'a [u8]
    ensures { PartAt s.entry (place_if (reason properties)) result }
{
    string::part_if(s, reason_place(properties))
}
