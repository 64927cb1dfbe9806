// SubAck and UnsubAck, after suback.rs and unsuback.rs: the fields of a frame from an index to the end of the slice, one read for both.
#![tactic(auto)]

ghost use Rattle.std.specs.Prelude.{◌≡◌, ℕ, length, drop};
ghost use Rattle.grammar.specs.Tables.{a_reply, reasons_of};
ghost use Rattle.grammar.specs.Record as record_of;
ghost use Rattle.grammar.specs.Record.{kind_of};
ghost use Rattle.reading.specs.Read.{reason_of, fields_fit};
ghost use Rattle.reading.specs.Place.{as_places, on_got};
ghost use Rattle.positions.specs.Position.{placed_run};
ghost use Rattle.records.specs.AsNumbers.{told_reply_kind};
ghost use Rattle.reply.specs.ReplyRead.{told_got_reasons, told_got_reply};

use numbers::fixed;
use properties::row_block;
use records::error::Error;
use records::reply_record::{Reply, ReplyKind};
use records::span::Span;
use tables::property::OtherRow;
use tables::reason::is_reply_reason;

// One reason of the kind or more, to the end; 13 if there is none, or 15 with the first that the kind does not list.
pub fn read_reasons(kind: ReplyKind, s: &[u8], at: usize) -> Result<Span, Error>
    ensures { told_got_reasons result ≡ placed_run (reason_of (reasons_of (told_reply_kind kind))) (length s.now) (drop at s.now) }
{
    if s.len() <= at {
        return Err(Error::EmptySubscription);
    }
    for i in at..s.len() {
        let reason = s[i];
        if !is_reply_reason(kind, reason) {
            return Err(Error::InvalidReason(reason));
        }
    }
    let len = s.len() - at;
    Ok(Span { start: at, len })
}

// The SubAck or UnsubAck in the fields from index `at` to the end of the frame, or the first refusal from the left.
pub fn read(kind: ReplyKind, s: &[u8], at: usize) -> Result<Reply, Error>
    ensures { (x : ℕ) → kind_of x ≡ told_reply_kind kind → on_got (record_of.reply (told_reply_kind kind)) (told_got_reply result)
        ≡ fields_fit as_places (a_reply (reasons_of (told_reply_kind kind))) x (length s.now) (drop at s.now) }
{
    let (pkid, next) = fixed::read_u16(s, at)?;
    let (properties, start) = row_block::read_block(OtherRow::Ack, s, next)?;
    let reasons = read_reasons(kind, s, start)?;
    Ok(Reply {
        pkid,
        reasons,
        properties,
    })
}
