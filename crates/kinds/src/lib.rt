// The table of kinds, after `PacketType` and `packet_type` of v5/mod.rs: for each number its layout, the row of its block, its first byte and
// its word.
#![tactic(auto)]

ghost use Rattle.std.specs.Prelude.{◌≡◌};
ghost use Rattle.grammar.specs.Tables.{row_of_kind, first_of};
ghost use Rattle.records.specs.AsNumbers.{told_ack_kind, told_reply_kind};
ghost use Rattle.kinds.specs.Kinds.{told_kind, kind_row, number_of, told_row, made, word_of, padded};

use records::ack_record::AckKind;
use records::reply_record::ReplyKind;
use tables::property::PropertyRow;

// The layouts, and which of the kinds that share one.
#[derive(Clone, Copy)]
pub enum Kind {
    Publish,
    Ack(AckKind),
    Subscribe,
    Reply(ReplyKind),
    Unsubscribe,
    PingReq,
    PingResp,
    // 0 or 15
    Reserved(u8),
    // a kind of MQTT that is not carried, or a number of no kind
    NotCarried(u8),
}

// The first len of the bytes; the rest are 0.
#[derive(Drop)]
pub struct Word {
    pub bytes: [u8; 11],
    pub len: usize,
}

// The kind of a number: one of eleven, reserved (0 and 15), or not carried.
pub fn kind_of(num: u8) -> Kind
    ensures { told_kind result ≡ kind_row num }
{
    match num {
        3 => Kind::Publish,
        4 => Kind::Ack(AckKind::PubAck),
        5 => Kind::Ack(AckKind::PubRec),
        6 => Kind::Ack(AckKind::PubRel),
        7 => Kind::Ack(AckKind::PubComp),
        8 => Kind::Subscribe,
        9 => Kind::Reply(ReplyKind::SubAck),
        10 => Kind::Unsubscribe,
        11 => Kind::Reply(ReplyKind::UnsubAck),
        12 => Kind::PingReq,
        13 => Kind::PingResp,
        0 | 15 => Kind::Reserved(num),
        1..=2 | 14 | 16..=255 => Kind::NotCarried(num),
    }
}

fn ack_number(kind: AckKind) -> u8
    ensures { result ≡ told_ack_kind kind }
{
    match kind {
        AckKind::PubAck => 4,
        AckKind::PubRec => 5,
        AckKind::PubRel => 6,
        AckKind::PubComp => 7,
    }
}

fn reply_number(kind: ReplyKind) -> u8
    ensures { result ≡ told_reply_kind kind }
{
    match kind {
        ReplyKind::SubAck => 9,
        ReplyKind::UnsubAck => 11,
    }
}

// The number of a kind.
pub fn number_of(kind: Kind) -> u8
    ensures { result ≡ number_of kind }
{
    match kind {
        Kind::Publish => 3,
        Kind::Ack(k) => ack_number(k),
        Kind::Subscribe => 8,
        Kind::Reply(k) => reply_number(k),
        Kind::Unsubscribe => 10,
        Kind::PingReq => 12,
        Kind::PingResp => 13,
        Kind::Reserved(n) => n,
        Kind::NotCarried(n) => n,
    }
}

// The place whose row the block of a number's kind has; none for a ping and for a kind that is not carried.
pub fn row_of(num: u8) -> Option<PropertyRow>
    ensures { told_row result ≡ row_of_kind num }
{
    match num {
        3 => Some(PropertyRow::Publish),
        4 => Some(PropertyRow::Ack),
        5 => Some(PropertyRow::Ack),
        6 => Some(PropertyRow::Ack),
        7 => Some(PropertyRow::Ack),
        8 => Some(PropertyRow::Subscribe),
        9 => Some(PropertyRow::Ack),
        10 => Some(PropertyRow::Unsubscribe),
        11 => Some(PropertyRow::Ack),
        12 => None,
        13 => None,
        0..=2 | 14..=255 => None,
    }
}

// The first byte that is written for a number's kind; 0 where the flags of a Publish decide, and for a kind that is not carried.
pub fn first_byte(num: u8) -> u8
    ensures { result ≡ first_of num }
{
    match num {
        4 => 0x40,
        5 => 0x50,
        6 => 0x62,
        7 => 0x70,
        8 => 0x82,
        9 => 0x90,
        10 => 0xA2,
        11 => 0xB0,
        12 => 0xC0,
        13 => 0xD0,
        0..=3 | 14..=255 => 0,
    }
}

// The word of these bytes.
fn worded(bytes: [u8; 11], len: usize) -> Word
    ensures { result ≡ made bytes len }
{
    Word { bytes, len }
}

// The word for a number's kind; no letter for a kind that is not carried.
pub fn word_of(num: u8) -> Word
    ensures { result ≡ padded (word_of num) }
{
    match num {
        3 => worded(*b"publish\0\0\0\0", 7),
        4 => worded(*b"puback\0\0\0\0\0", 6),
        5 => worded(*b"pubrec\0\0\0\0\0", 6),
        6 => worded(*b"pubrel\0\0\0\0\0", 6),
        7 => worded(*b"pubcomp\0\0\0\0", 7),
        8 => worded(*b"subscribe\0\0", 9),
        9 => worded(*b"suback\0\0\0\0\0", 6),
        10 => worded(*b"unsubscribe", 11),
        11 => worded(*b"unsuback\0\0\0", 8),
        12 => worded(*b"pingreq\0\0\0\0", 7),
        13 => worded(*b"pingresp\0\0\0", 8),
        0..=2 | 14..=255 => worded([0; 11], 0),
    }
}
