// The name of each refusal, as a program prints it.
#![tactic(auto)]

pub mod text;

ghost use Rattle.std.specs.Prelude.{◌≡◌, ◌+◌, ◌≤◌, length, take, drop};
ghost use Rattle.refusal_names.specs.Names.{name_at, name_of, padded};

use crate::text::Name;
use records::error::Error;
use refusal_numbers::number;

fn wide(x: u8) -> usize
    ensures { result ≡ x }
{
    x as usize
}

// The 24 bytes from `at` on.
fn letters(rows: &[u8], at: usize) -> [u8; 24]
    requires { at + 24 ≤ length rows.now }
    ensures { result ≡ take 24 (drop at rows.now) }
{
    let mut bytes = [0; 24];
    bytes.copy_from_slice(&rows[at..at + 24]);
    bytes
}

// The name in the row of that number; no letter where there is no such row.
pub fn name_at(number: u32) -> Name
    ensures { result ≡ padded (name_at number) }
{
    if number >= 40 {
        return Name {
            bytes: [0; 24],
            len: 0,
        };
    }
    // a row for each number from 0 on: how many letters the name has, and 24 bytes
    let rows: &[u8] = b"\
        \x00\0\0\0\0\0\0\0\0\0\0\0\0\0\0\0\0\0\0\0\0\0\0\0\0\
        \x11InsufficientBytes\0\0\0\0\0\0\0\
        \x18MalformedRemainingLength\
        \x18PayloadSizeLimitExceeded\
        \x11InvalidPacketType\0\0\0\0\0\0\0\
        \x0fPayloadRequired\0\0\0\0\0\0\0\0\0\
        \x0eKindNotCarried\0\0\0\0\0\0\0\0\0\0\
        \x0fMalformedPacket\0\0\0\0\0\0\0\0\0\
        \x0fBoundaryCrossed\0\0\0\0\0\0\0\0\0\
        \x0cTopicNotUtf8\0\0\0\0\0\0\0\0\0\0\0\0\
        \x13InvalidPropertyType\0\0\0\0\0\
        \x0aInvalidQoS\0\0\0\0\0\0\0\0\0\0\0\0\0\0\
        \x0cPacketIdZero\0\0\0\0\0\0\0\0\0\0\0\0\
        \x11EmptySubscription\0\0\0\0\0\0\0\
        \x18InvalidRetainForwardRule\
        \x0dInvalidReason\0\0\0\0\0\0\0\0\0\0\0\
        \x16OutgoingPacketTooLarge\0\0\
        \x0ePayloadTooLong\0\0\0\0\0\0\0\0\0\0\
        \x0dStringTooLong\0\0\0\0\0\0\0\0\0\0\0\
        \x06NoRoom\0\0\0\0\0\0\0\0\0\0\0\0\0\0\0\0\0\0\
        \x0cListMismatch\0\0\0\0\0\0\0\0\0\0\0\0\
        \x06NoItem\0\0\0\0\0\0\0\0\0\0\0\0\0\0\0\0\0\0\
        \x11DuplicateProperty\0\0\0\0\0\0\0\
        \x12SubscriptionIdZero\0\0\0\0\0\0\
        \x0dAliasTableBad\0\0\0\0\0\0\0\0\0\0\0\
        \x0cAliasInvalid\0\0\0\0\0\0\0\0\0\0\0\0\
        \x0cTopicMissing\0\0\0\0\0\0\0\0\0\0\0\0\
        \x0cAliasUnknown\0\0\0\0\0\0\0\0\0\0\0\0\
        \x0bAliasNoRoom\0\0\0\0\0\0\0\0\0\0\0\0\0\
        \x0cInFlightFull\0\0\0\0\0\0\0\0\0\0\0\0\
        \x07NoClaim\0\0\0\0\0\0\0\0\0\0\0\0\0\0\0\0\0\
        \x0aNotWaiting\0\0\0\0\0\0\0\0\0\0\0\0\0\0\
        \x07BadArea\0\0\0\0\0\0\0\0\0\0\0\0\0\0\0\0\0\
        \x0cJournalEmpty\0\0\0\0\0\0\0\0\0\0\0\0\
        \x0cJournalEnded\0\0\0\0\0\0\0\0\0\0\0\0\
        \x09BadBuffer\0\0\0\0\0\0\0\0\0\0\0\0\0\0\0\
        \x0cFrameTooLong\0\0\0\0\0\0\0\0\0\0\0\0\
        \x0fFilterTableFull\0\0\0\0\0\0\0\0\0\
        \x0cNotSubscribe\0\0\0\0\0\0\0\0\0\0\0\0\
        \x08BadTable\0\0\0\0\0\0\0\0\0\0\0\0\0\0\0\0\
    ";
    let at = number as usize * 25;
    Name {
        bytes: letters(rows, at + 1),
        len: wide(rows[at]),
    }
}

// The name of the refusal's row.
pub fn name(e: Error) -> Name
    ensures { result ≡ padded (name_of e) }
{
    name_at(number(e) as u32)
}
