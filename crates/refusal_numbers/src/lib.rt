// The numbers and values of the refusals (01, "When the desk says no").
#![tactic(auto)]

ghost use Rattle.std.specs.Prelude.{◌≡◌};
ghost use Rattle.records.specs.AsNumbers.{told_error, row_of, values_of, told_values};

use records::error::Error;
use records::values::Values;

// 01's number of a refusal.
pub fn number(e: Error) -> u8
    ensures { result ≡ row_of (told_error e) }
{
    match e {
        Error::InsufficientBytes(_) => 1,
        Error::MalformedRemainingLength => 2,
        Error::PayloadSizeLimitExceeded(_, _) => 3,
        Error::InvalidPacketType(_) => 4,
        Error::PayloadRequired => 5,
        Error::KindNotCarried(_) => 6,
        Error::MalformedPacket => 7,
        Error::BoundaryCrossed(_) => 8,
        Error::TopicNotUtf8 => 9,
        Error::InvalidPropertyType(_) => 10,
        Error::InvalidQoS(_) => 11,
        Error::PacketIdZero => 12,
        Error::EmptySubscription => 13,
        Error::InvalidRetainForwardRule(_) => 14,
        Error::InvalidReason(_) => 15,
        Error::OutgoingPacketTooLarge(_, _) => 16,
        Error::PayloadTooLong => 17,
        Error::StringTooLong(_) => 18,
        Error::NoRoom(_) => 19,
        Error::ListMismatch => 20,
        Error::NoItem => 21,
        Error::DuplicateProperty(_) => 22,
        Error::SubscriptionIdZero => 23,
    }
}

// The values in the refusal's brackets.
pub fn values(e: Error) -> Values
    ensures { told_values result ≡ values_of (told_error e) }
{
    match e {
        Error::InsufficientBytes(n) => Values::One(n),
        Error::MalformedRemainingLength => Values::None,
        Error::PayloadSizeLimitExceeded(m, n) => Values::Two(m, n),
        Error::InvalidPacketType(n) => Values::One(n as usize),
        Error::PayloadRequired => Values::None,
        Error::KindNotCarried(n) => Values::One(n as usize),
        Error::MalformedPacket => Values::None,
        Error::BoundaryCrossed(n) => Values::One(n),
        Error::TopicNotUtf8 => Values::None,
        Error::InvalidPropertyType(n) => Values::One(n as usize),
        Error::InvalidQoS(n) => Values::One(n as usize),
        Error::PacketIdZero => Values::None,
        Error::EmptySubscription => Values::None,
        Error::InvalidRetainForwardRule(n) => Values::One(n as usize),
        Error::InvalidReason(n) => Values::One(n as usize),
        Error::OutgoingPacketTooLarge(m, n) => Values::Two(m, n),
        Error::PayloadTooLong => Values::None,
        Error::StringTooLong(n) => Values::One(n),
        Error::NoRoom(n) => Values::One(n),
        Error::ListMismatch => Values::None,
        Error::NoItem => Values::None,
        Error::DuplicateProperty(n) => Values::One(n as usize),
        Error::SubscriptionIdZero => Values::None,
    }
}
