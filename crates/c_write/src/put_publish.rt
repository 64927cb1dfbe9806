// A Publish: its size, and written.
ghost use Rattle.std.specs.Prelude.{◌≡◌};
ghost use Rattle.std.proofs.lemmas.List.Edits.{sets};
ghost use Rattle.c_layout.specs.Value.{fit_number};
ghost use Rattle.c_layout.specs.Answer.{answer_numbers};
ghost use Rattle.c_arguments.specs.Given.{limit_given};
ghost use Rattle.c_heads.specs.By.{handed_by, publish_by};
ghost use Rattle.writing.specs.Write.{sized_behind, answered_behind, out_behind};

use c_arguments::number::bound;
use c_calls::size::size_publish;
use c_calls::write::write_publish;
use c_heads::publish_by::publish_head;
use c_layout::answer::{store_size, store_written};

// The size of a Publish: 0, or the refusal's number: 20, a number whose flag is off included, then 11 for a QoS above 2, then its own order.
pub fn ecch_publish_size(
    dup: u8,
    qos: u8,
    retain: u8,
    pkid: u16,
    topic: &[u8],
    block: u8,
    format_on: u8,
    format: u8,
    expiry_on: u8,
    expiry: u32,
    alias_on: u8,
    alias: u16,
    response_on: u8,
    response: &[u8],
    correlation_on: u8,
    correlation: &[u8],
    user: &[u8],
    user_lengths: &[usize],
    identifiers: &[u32],
    content_on: u8,
    content: &[u8],
    payload: &[u8],
    answer: &mut [u64],
) -> u32
    ensures number { result ≡ fit_number (sized_behind (handed_by (publish_by dup qos retain pkid topic.now block format_on format expiry_on expiry alias_on alias response_on response.now correlation_on correlation.now user.now user_lengths.now identifiers.now content_on content.now payload.now))) }
    ensures stored { answer.new ≡ sets answer.old 0 (answer_numbers (sized_behind (handed_by (publish_by dup qos retain pkid topic.now block format_on format expiry_on expiry alias_on alias response_on response.now correlation_on correlation.now user.now user_lengths.now identifiers.now content_on content.now payload.now)))) }
{
    let by = publish_head(
        dup,
        qos,
        retain,
        pkid,
        block,
        format_on,
        format,
        expiry_on,
        expiry,
        alias_on,
        alias,
        response_on,
        correlation_on,
        content_on,
    );
    let size = size_publish(
        by,
        topic,
        response,
        correlation,
        user,
        user_lengths,
        identifiers,
        content,
        payload,
    );
    store_size(size, &mut *answer)
}

// A Publish written: 0, or the refusal's number, in the same order.
pub fn ecch_publish_write(
    dup: u8,
    qos: u8,
    retain: u8,
    pkid: u16,
    topic: &[u8],
    block: u8,
    format_on: u8,
    format: u8,
    expiry_on: u8,
    expiry: u32,
    alias_on: u8,
    alias: u16,
    response_on: u8,
    response: &[u8],
    correlation_on: u8,
    correlation: &[u8],
    user: &[u8],
    user_lengths: &[usize],
    identifiers: &[u32],
    content_on: u8,
    content: &[u8],
    payload: &[u8],
    limited: u8,
    limit: usize,
    out: &mut [u8],
    answer: &mut [u64],
) -> u32
    ensures number { result ≡ fit_number (answered_behind (handed_by (publish_by dup qos retain pkid topic.now block format_on format expiry_on expiry alias_on alias response_on response.now correlation_on correlation.now user.now user_lengths.now identifiers.now content_on content.now payload.now)) (limit_given limited limit) out.old) }
    ensures output { out.new ≡ out_behind (handed_by (publish_by dup qos retain pkid topic.now block format_on format expiry_on expiry alias_on alias response_on response.now correlation_on correlation.now user.now user_lengths.now identifiers.now content_on content.now payload.now)) (limit_given limited limit) out.old }
    ensures stored { answer.new ≡ sets answer.old 0 (answer_numbers (answered_behind (handed_by (publish_by dup qos retain pkid topic.now block format_on format expiry_on expiry alias_on alias response_on response.now correlation_on correlation.now user.now user_lengths.now identifiers.now content_on content.now payload.now)) (limit_given limited limit) out.old)) }
{
    let by = publish_head(
        dup,
        qos,
        retain,
        pkid,
        block,
        format_on,
        format,
        expiry_on,
        expiry,
        alias_on,
        alias,
        response_on,
        correlation_on,
        content_on,
    );
    let written = write_publish(
        by,
        topic,
        response,
        correlation,
        user,
        user_lengths,
        identifiers,
        content,
        payload,
        bound(limited, limit),
        &mut *out,
    );
    store_written(written, &mut *answer)
}
