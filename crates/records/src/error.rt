// The refusals of 01, in its order; `Error` of mqttbytes/mod.rs where the crate has the case.
#[derive(Clone, Copy)]
pub enum Error {
    // 1: how many bytes are lacking at least
    InsufficientBytes(usize),
    // 2: the fourth byte of a variable length number has its top bit set, or it uses more bytes than it needs
    MalformedRemainingLength,
    // 3: F, and the limit that it is above
    PayloadSizeLimitExceeded(usize, usize),
    // 4: kind 0 or 15
    InvalidPacketType(u8),
    // 5: R is 0, and the kind is no ping
    PayloadRequired,
    // 6: a kind of MQTT that is not carried
    KindNotCarried(u8),
    // 7: a field ends early, or bytes follow the block of a publish acknowledgement
    MalformedPacket,
    // 8: the length of a string, or L of a block, that exceeds what is left around it
    BoundaryCrossed(usize),
    // 9: text that is not UTF-8, or holds U+0000
    TopicNotUtf8,
    // 10: an identifier that is not in its place's row
    InvalidPropertyType(u8),
    // 11: both QoS bits are set
    InvalidQoS(u8),
    // 12: a Publish of QoS 1 or 2 with identifier 0
    PacketIdZero,
    // 13: no filter, topic or reason
    EmptySubscription,
    // 14: both forward rule bits are set
    InvalidRetainForwardRule(u8),
    // 15: none of the reasons of its kind
    InvalidReason(u8),
    // 16: the size to write, and the limit that it is above
    OutgoingPacketTooLarge(usize, usize),
    // 17: R, or a subscription identifier, above 268,435,455
    PayloadTooLong,
    // 18: the length of a string above 65,535 bytes
    StringTooLong(usize),
    // 19: the size, of which the output is short
    NoRoom(usize),
    // 20: lent lengths and lent bytes do not fit together, or something is handed over for what is absent
    ListMismatch,
    // 21: no block or run at the place, or n is past its last item
    NoItem,
    // 22: a single-valued property met a second time
    DuplicateProperty(u8),
    // 23: property 11 with value 0
    SubscriptionIdZero,
}
