// Unsubscribe, after unsubscribe.rs: the fields of a frame from an index to the end of the slice.
#![tactic(auto)]

ghost use Rattle.std.specs.Prelude.{◌≡◌, ℕ, length, drop};
ghost use Rattle.grammar.specs.Tables.{an_unsubscribe};
ghost use Rattle.reading.specs.Read.{text_of, fields_fit};
ghost use Rattle.reading.specs.Place.{as_places};
ghost use Rattle.positions.specs.Position.{placed_run};
ghost use Rattle.unsubscribe.specs.UnsubscribeRead.{told_got_topics, told_got_unsubscribe};

use numbers::fixed;
use properties::row_block;
use records::error::Error;
use records::span::Span;
use records::unsubscribe_record::Unsubscribe;
use tables::property::OtherRow;
use wire::string;

// One topic or more, to the end; 13 if there is none, or the first refusal.
pub fn read_topics(s: &[u8], at: usize) -> Result<Span, Error>
    ensures { told_got_topics result ≡ placed_run (text_of as_places (length s.now)) (length s.now) (drop at s.now) }
{
    if s.len() <= at {
        return Err(Error::EmptySubscription);
    }
    let mut i = at;
    while i < s.len() {
        let (_, next) = string::read_mqtt_string(s, i)?;
        i = next;
    }
    let len = s.len() - at;
    Ok(Span { start: at, len })
}

// The Unsubscribe in the fields from index `at` on, or the first refusal from the left; whatever the first byte x of the frame: its flags are
// ignored.
pub fn read(s: &[u8], at: usize) -> Result<Unsubscribe, Error>
    ensures { (x : ℕ) → told_got_unsubscribe result ≡ fields_fit as_places an_unsubscribe x (length s.now) (drop at s.now) }
{
    let (pkid, next) = fixed::read_u16(s, at)?;
    let (properties, start) = row_block::read_block(OtherRow::Unsubscribe, s, next)?;
    let topics = read_topics(s, start)?;
    Ok(Unsubscribe {
        pkid,
        topics,
        properties,
    })
}
