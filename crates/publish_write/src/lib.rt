// A Publish, written, after `write` and `size` of publish.rs: first every refusal and the size, touching nothing, then the bytes.
#![tactic(auto)]

mod copy;
mod frame;

ghost use Rattle.std.specs.Prelude.{◌≡◌};
ghost use Rattle.writing.specs.Handed.{publish};
ghost use Rattle.writing.specs.Write.{size_of, Written as WrittenOf};
ghost use Rattle.records.specs.AsNumbers.{limit_of};
ghost use Rattle.records.specs.Answered.{told_size};
ghost use Rattle.publish_plan.specs.Handed.{handed};

use crate::frame::lay_frame;
use publish_plan::head::PublishHead;
use publish_plan::{belong, sizes, test};
use records::error::Error;

// How many bytes the frame is: refused with 20, then 17 for R.
pub fn size(
    head: PublishHead,
    topic: &[u8],
    response_topic: &[u8],
    correlation_data: &[u8],
    user: &[u8],
    user_lengths: &[usize],
    subscription_identifiers: &[u32],
    content_type: &[u8],
    payload: &[u8],
) -> Result<usize, Error>
    ensures { told_size result ≡ size_of (publish (handed head topic.now response_topic.now correlation_data.now user.now user_lengths.now subscription_identifiers.now content_type.now payload.now)) }
{
    let together = belong::all_belong(
        head,
        response_topic,
        correlation_data,
        user,
        user_lengths,
        subscription_identifiers,
        content_type,
    );
    let sizes = sizes::sizes(
        head,
        topic,
        response_topic,
        correlation_data,
        user,
        user_lengths,
        subscription_identifiers,
        content_type,
        payload,
    );
    write_order::size(together, sizes.rest)
}

// The frame from index 0 on, and its size; a refused write leaves the output as it stood.
pub fn write(
    head: PublishHead,
    topic: &[u8],
    response_topic: &[u8],
    correlation_data: &[u8],
    user: &[u8],
    user_lengths: &[usize],
    subscription_identifiers: &[u32],
    content_type: &[u8],
    payload: &[u8],
    limit: Option<usize>,
    out: &mut [u8],
) -> Result<usize, Error>
    ensures { WrittenOf (limit_of limit) (publish (handed head topic.now response_topic.now correlation_data.now user.now user_lengths.now subscription_identifiers.now content_type.now payload.now)) out.old out.new (told_size result) }
{
    let fields = test::before_size(
        head,
        topic,
        response_topic,
        correlation_data,
        user,
        user_lengths,
        subscription_identifiers,
        content_type,
    );
    let sizes = sizes::sizes(
        head,
        topic,
        response_topic,
        correlation_data,
        user,
        user_lengths,
        subscription_identifiers,
        content_type,
        payload,
    );
    let rest = sizes.rest;
    let properties = sizes.properties;
    let end = test::after_limit(head, subscription_identifiers);
    let n = write_order::settle(fields, rest, limit, end, out.len())?;
    lay_frame(
        &mut *out,
        head,
        rest,
        properties,
        topic,
        response_topic,
        correlation_data,
        user,
        user_lengths,
        subscription_identifiers,
        content_type,
        payload,
    );
    Ok(n)
}
