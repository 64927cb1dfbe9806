// The lent parts of a packet of any kind: whether nothing is lent that does not belong to the record (01, row 20), one function for the
// parts of each kind.
ghost use Rattle.std.specs.Prelude.{◌≡◌, [], ◌∷◌};
ghost use Rattle.grammar.specs.Choice.{is_empty, all};
ghost use Rattle.packet_write.specs.Parts.{Parts, parts, publish_parts, reason_parts, text_parts, entry_parts, user_parts, foreign};

use crate::head::PacketHead;
use write_belongs::both;

// Nothing that only a Publish has.
fn no_publish(
    topic: &[u8],
    response_topic: &[u8],
    correlation_data: &[u8],
    subscription_identifiers: &[u32],
    content_type: &[u8],
    payload: &[u8],
) -> bool
    ensures { result ≡ all is_empty (topic.now ∷ response_topic.now ∷ correlation_data.now ∷ subscription_identifiers.now ∷ content_type.now ∷ payload.now ∷ []) }
{
    if topic.len() != 0 {
        return false;
    }
    if response_topic.len() != 0 {
        return false;
    }
    if correlation_data.len() != 0 {
        return false;
    }
    if subscription_identifiers.len() != 0 {
        return false;
    }
    if content_type.len() != 0 {
        return false;
    }
    payload.len() == 0
}

// No list of strings: user properties, or the texts of filters or topics.
fn no_run(bytes: &[u8], lengths: &[usize]) -> bool
    ensures { result ≡ all is_empty (bytes.now ∷ lengths.now ∷ []) }
{
    if bytes.len() != 0 {
        return false;
    }
    lengths.len() == 0
}

// Of each layout, where it is given which parts are empty: those of a Publish, the reason string, the texts of filters or topics, the
// options or reasons, and the user properties.
fn nothing_of_others(
    head: PacketHead,
    publish: bool,
    reason: bool,
    texts: bool,
    entries: bool,
    user: bool,
) -> bool
    ensures { (p : Parts) → publish ≡ all is_empty (publish_parts p) → reason ≡ all is_empty (reason_parts p) → texts ≡ all is_empty (text_parts p) → entries ≡ all is_empty (entry_parts p) → user ≡ all is_empty (user_parts p) → result ≡ all is_empty (foreign head p) }
{
    match head {
        PacketHead::Publish(_) => both(reason, both(texts, entries)),
        PacketHead::Ack(_) => both(publish, both(texts, entries)),
        PacketHead::Subscribe(_) => both(publish, reason),
        PacketHead::Reply(_) => both(publish, texts),
        PacketHead::Unsubscribe(_) => both(publish, both(reason, entries)),
        PacketHead::PingReq => both(publish, both(reason, both(texts, both(entries, user)))),
        PacketHead::PingResp => both(publish, both(reason, both(texts, both(entries, user)))),
    }
}

// 20: whether nothing is lent but what belongs to the record.
pub fn nothing_else(
    head: PacketHead,
    topic: &[u8],
    response_topic: &[u8],
    correlation_data: &[u8],
    user: &[u8],
    user_lengths: &[usize],
    subscription_identifiers: &[u32],
    content_type: &[u8],
    payload: &[u8],
    reason_string: &[u8],
    entry_bytes: &[u8],
    entry_lengths: &[usize],
    entries: &[u8],
) -> bool
    ensures { result ≡ all is_empty (foreign head (parts topic.now response_topic.now correlation_data.now user.now user_lengths.now subscription_identifiers.now content_type.now payload.now reason_string.now entry_bytes.now entry_lengths.now entries.now)) }
{
    let publish = no_publish(
        topic,
        response_topic,
        correlation_data,
        subscription_identifiers,
        content_type,
        payload,
    );
    let reason = reason_string.len() == 0;
    let texts = no_run(entry_bytes, entry_lengths);
    let alone = entries.len() == 0;
    let user = no_run(user, user_lengths);
    nothing_of_others(head, publish, reason, texts, alone, user)
}
