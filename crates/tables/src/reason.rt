// Which numbers are reasons of a kind of acknowledgement, after the `reason`s of puback.rs to unsuback.rs.
ghost use Rattle.std.specs.Prelude.{◌≡◌};
ghost use Rattle.grammar.specs.Choice.{is_in};
ghost use Rattle.grammar.specs.Tables.{reasons, release_reasons, sub_ack_reasons, unsub_ack_reasons, reasons_of};
ghost use Rattle.records.specs.AsNumbers.{told_ack_kind, told_reply_kind};

use records::ack_record::AckKind;
use records::reply_record::ReplyKind;

// Whether a PubAck or PubRec can give this reason.
fn is_publish_reason(num: u8) -> bool
    ensures { result ≡ is_in num reasons }
{
    match num {
        0x00 => true,
        0x10 => true,
        0x80 => true,
        0x83 => true,
        0x87 => true,
        0x90 => true,
        0x91 => true,
        0x97 => true,
        0x99 => true,
        0x01..=0x0F
        | 0x11..=0x7F
        | 0x81..=0x82
        | 0x84..=0x86
        | 0x88..=0x8F
        | 0x92..=0x96
        | 0x98
        | 0x9A..=0xFF => false,
    }
}

// Whether a PubRel or PubComp can.
fn is_release_reason(num: u8) -> bool
    ensures { result ≡ is_in num release_reasons }
{
    match num {
        0x00 => true,
        0x92 => true,
        0x01..=0x91 | 0x93..=0xFF => false,
    }
}

// Whether a SubAck can.
fn is_suback_reason(num: u8) -> bool
    ensures { result ≡ is_in num sub_ack_reasons }
{
    match num {
        0x00 => true,
        0x01 => true,
        0x02 => true,
        0x80 => true,
        0x83 => true,
        0x87 => true,
        0x8F => true,
        0x91 => true,
        0x97 => true,
        0x9E => true,
        0xA1 => true,
        0xA2 => true,
        0x03..=0x7F
        | 0x81..=0x82
        | 0x84..=0x86
        | 0x88..=0x8E
        | 0x90
        | 0x92..=0x96
        | 0x98..=0x9D
        | 0x9F..=0xA0
        | 0xA3..=0xFF => false,
    }
}

// Whether an UnsubAck can.
fn is_unsuback_reason(num: u8) -> bool
    ensures { result ≡ is_in num unsub_ack_reasons }
{
    match num {
        0x00 => true,
        0x11 => true,
        0x80 => true,
        0x83 => true,
        0x87 => true,
        0x8F => true,
        0x91 => true,
        0x01..=0x10 | 0x12..=0x7F | 0x81..=0x82 | 0x84..=0x86 | 0x88..=0x8E | 0x90 | 0x92..=0xFF =>
            false,
    }
}

// Whether an acknowledgement of this kind can give this reason.
pub fn is_ack_reason(kind: AckKind, num: u8) -> bool
    ensures { result ≡ is_in num (reasons_of (told_ack_kind kind)) }
{
    match kind {
        AckKind::PubAck => is_publish_reason(num),
        AckKind::PubRec => is_publish_reason(num),
        AckKind::PubRel => is_release_reason(num),
        AckKind::PubComp => is_release_reason(num),
    }
}

// Whether a reply of this kind can.
pub fn is_reply_reason(kind: ReplyKind, num: u8) -> bool
    ensures { result ≡ is_in num (reasons_of (told_reply_kind kind)) }
{
    match kind {
        ReplyKind::SubAck => is_suback_reason(num),
        ReplyKind::UnsubAck => is_unsuback_reason(num),
    }
}
