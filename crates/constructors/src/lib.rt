// The crate's constructors that take no `Into`, by value: `FixedHeader::new` of v5/mod.rs, `PubAck::new` of puback.rs and its like, and
// `Subscribe::new` of subscribe.rs. Strings and lists are lent beside a head, so that only their presence is handed over here.
#![tactic(auto)]

ghost use Rattle.std.specs.Prelude.{◌≡◌, List, ℕ};
ghost use Rattle.writing.specs.Handed.{ack};
ghost use Rattle.records.specs.AsNumbers.{told_ack_kind, number_if};
ghost use Rattle.ack_write.specs.Handed as acknowledging;
ghost use Rattle.subscribe_write.specs.Handed as subscribing;
ghost use Rattle.constructors.specs.New.{header_of, told_header, new_ack, new_subscribe};

use ack_write::AckHead;
use framing::header::FixedHeader;
use records::ack_record::AckKind;
use subscribe_write::SubscribeHead;

// The first byte, one more than the bytes that spell R (the largest usize where there is no such number), and R.
pub fn new_fixed_header(byte1: u8, remaining_len_len: usize, remaining_len: usize) -> FixedHeader
    ensures { told_header result ≡ header_of byte1 remaining_len_len remaining_len }
{
    let most: usize = 18446744073709551615;
    if remaining_len_len == most {
        return FixedHeader {
            byte1,
            fixed_header_len: most,
            remaining_len,
        };
    }
    FixedHeader {
        byte1,
        fixed_header_len: remaining_len_len + 1,
        remaining_len,
    }
}

// A success of the kind, any publish acknowledgement, with this identifier and presence.
pub fn new_ack(kind: AckKind, pkid: u16, block: bool, reason_string: bool) -> AckHead
    ensures { (text user lengths : List ℕ) → ack (told_ack_kind result.kind) (acknowledging.handed result text user lengths) ≡ ack (told_ack_kind kind) (new_ack pkid block reason_string text user lengths) }
{
    AckHead {
        kind,
        pkid,
        reason: 0,
        block,
        reason_string,
    }
}

// The identifier is 0, as in the crate, until it is set.
pub fn new_subscribe(block: bool, id: Option<u32>) -> SubscribeHead
    ensures { (user lengths filters filterLengths options : List ℕ) → subscribing.handed result user lengths filters filterLengths options ≡ new_subscribe block (number_if id) user lengths filters filterLengths options }
{
    SubscribeHead { pkid: 0, block, id }
}
