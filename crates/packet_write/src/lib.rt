// A packet of any kind, written, after `write` and `size` of `Packet` in v5/mod.rs: 20 for what does not belong to the record, then its kind.
#![tactic(auto)]

pub mod head;
mod parts;

ghost use Rattle.std.specs.Prelude.{◌≡◌};
ghost use Rattle.records.specs.AsNumbers.{limit_of};
ghost use Rattle.records.specs.Answered.{told_size};
ghost use Rattle.packet_write.specs.Parts.{parts};
ghost use Rattle.writing.specs.Write.{sized_behind, WrittenBehind};
ghost use Rattle.packet_write.specs.Union.{union_of};

use crate::head::PacketHead;
use crate::parts::nothing_else;
use records::error::Error;

// How many bytes the frame is: refused with 20, for what does not belong to the record too, then 17 for R.
pub fn size(
    head: PacketHead,
    topic: &[u8],
    response_topic: &[u8],
    correlation_data: &[u8],
    user: &[u8],
    user_lengths: &[usize],
    subscription_identifiers: &[u32],
    content_type: &[u8],
    payload: &[u8],
    reason_string: &[u8],
    entry_bytes: &[u8],
    entry_lengths: &[usize],
    entries: &[u8],
) -> Result<usize, Error>
    ensures { told_size result ≡ sized_behind (union_of head (parts topic.now response_topic.now correlation_data.now user.now user_lengths.now subscription_identifiers.now content_type.now payload.now reason_string.now entry_bytes.now entry_lengths.now entries.now)) }
{
    let alone = nothing_else(
        head,
        topic,
        response_topic,
        correlation_data,
        user,
        user_lengths,
        subscription_identifiers,
        content_type,
        payload,
        reason_string,
        entry_bytes,
        entry_lengths,
        entries,
    );
    if !alone {
        return Err(Error::ListMismatch);
    }
    match head {
        PacketHead::Publish(m) => publish_write::size(
            m,
            topic,
            response_topic,
            correlation_data,
            user,
            user_lengths,
            subscription_identifiers,
            content_type,
            payload,
        ),
        PacketHead::Ack(m) => ack_write::size(m, reason_string, user, user_lengths),
        PacketHead::Subscribe(m) => subscribe_write::size(
            m,
            user,
            user_lengths,
            entry_bytes,
            entry_lengths,
            entries,
        ),
        PacketHead::Reply(m) => { reply_write::size(m, reason_string, user, user_lengths, entries) }
        PacketHead::Unsubscribe(m) => {
            unsubscribe_write::size(m, user, user_lengths, entry_bytes, entry_lengths)
        }
        PacketHead::PingReq => ping::ping_size(),
        PacketHead::PingResp => ping::ping_size(),
    }
}

// The frame from index 0 on, and its size; a refused write leaves the output as it stood.
pub fn write(
    head: PacketHead,
    topic: &[u8],
    response_topic: &[u8],
    correlation_data: &[u8],
    user: &[u8],
    user_lengths: &[usize],
    subscription_identifiers: &[u32],
    content_type: &[u8],
    payload: &[u8],
    reason_string: &[u8],
    entry_bytes: &[u8],
    entry_lengths: &[usize],
    entries: &[u8],
    limit: Option<usize>,
    out: &mut [u8],
) -> Result<usize, Error>
    ensures { WrittenBehind (limit_of limit) (union_of head (parts topic.now response_topic.now correlation_data.now user.now user_lengths.now subscription_identifiers.now content_type.now payload.now reason_string.now entry_bytes.now entry_lengths.now entries.now)) out.old out.new (told_size result) }
{
    let alone = nothing_else(
        head,
        topic,
        response_topic,
        correlation_data,
        user,
        user_lengths,
        subscription_identifiers,
        content_type,
        payload,
        reason_string,
        entry_bytes,
        entry_lengths,
        entries,
    );
    if !alone {
        return Err(Error::ListMismatch);
    }
    match head {
        PacketHead::Publish(m) => publish_write::write(
            m,
            topic,
            response_topic,
            correlation_data,
            user,
            user_lengths,
            subscription_identifiers,
            content_type,
            payload,
            limit,
            &mut *out,
        ),
        PacketHead::Ack(m) => {
            ack_write::write(m, reason_string, user, user_lengths, limit, &mut *out)
        }
        PacketHead::Subscribe(m) => subscribe_write::write(
            m,
            user,
            user_lengths,
            entry_bytes,
            entry_lengths,
            entries,
            limit,
            &mut *out,
        ),
        PacketHead::Reply(m) => reply_write::write(
            m,
            reason_string,
            user,
            user_lengths,
            entries,
            limit,
            &mut *out,
        ),
        PacketHead::Unsubscribe(m) => unsubscribe_write::write(
            m,
            user,
            user_lengths,
            entry_bytes,
            entry_lengths,
            limit,
            &mut *out,
        ),
        PacketHead::PingReq => ping::write_ping_req(limit, &mut *out),
        PacketHead::PingResp => ping::write_ping_resp(limit, &mut *out),
    }
}
