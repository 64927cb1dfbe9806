// A Publish: its size, and written.
ghost use Rattle.std.specs.Prelude.{◌≡◌};
ghost use Rattle.std.proofs.lemmas.List.Edits.{sets};
ghost use Rattle.c_layout.specs.Value.{fit_number};
ghost use Rattle.c_layout.specs.Answer.{answer_numbers};
ghost use Rattle.c_arguments.specs.Given.{limit_given};
ghost use Rattle.c_heads.specs.By.{handed_by, publish_by};
ghost use Rattle.writing.specs.Write.{sized_behind, answered_behind, out_behind};

// The size of a Publish: 0, or the refusal's number: 20, a number whose flag is off included, then 11 for a QoS above 2, then its own order.
#[unsafe(no_mangle)]
pub extern "C" fn ecch_publish_size(
    dup: u8,
    qos: u8,
    retain: u8,
    pkid: u16,
    topic: &[u8],
    block: u8,
    format_on: u8,
    format: u8,
    expiry_on: u8,
    expiry: u32,
    alias_on: u8,
    alias: u16,
    response_on: u8,
    response: &[u8],
    correlation_on: u8,
    correlation: &[u8],
    user: &[u8],
    user_lengths: &[usize],
    identifiers: &[u32],
    content_on: u8,
    content: &[u8],
    payload: &[u8],
    answer: &mut [u64],
) -> u32
    ensures number { result ≡ fit_number (sized_behind (handed_by (publish_by dup qos retain pkid topic.now block format_on format expiry_on expiry alias_on alias response_on response.now correlation_on correlation.now user.now user_lengths.now identifiers.now content_on content.now payload.now))) }
    ensures stored { answer.new ≡ sets answer.old 0 (answer_numbers (sized_behind (handed_by (publish_by dup qos retain pkid topic.now block format_on format expiry_on expiry alias_on alias response_on response.now correlation_on correlation.now user.now user_lengths.now identifiers.now content_on content.now payload.now)))) }
{
    c_write::put_publish::ecch_publish_size(
        dup,
        qos,
        retain,
        pkid,
        topic,
        block,
        format_on,
        format,
        expiry_on,
        expiry,
        alias_on,
        alias,
        response_on,
        response,
        correlation_on,
        correlation,
        user,
        user_lengths,
        identifiers,
        content_on,
        content,
        payload,
        &mut *answer,
    )
}

// A Publish written: 0, or the refusal's number, in the same order.
#[unsafe(no_mangle)]
pub extern "C" fn ecch_publish_write(
    dup: u8,
    qos: u8,
    retain: u8,
    pkid: u16,
    topic: &[u8],
    block: u8,
    format_on: u8,
    format: u8,
    expiry_on: u8,
    expiry: u32,
    alias_on: u8,
    alias: u16,
    response_on: u8,
    response: &[u8],
    correlation_on: u8,
    correlation: &[u8],
    user: &[u8],
    user_lengths: &[usize],
    identifiers: &[u32],
    content_on: u8,
    content: &[u8],
    payload: &[u8],
    limited: u8,
    limit: usize,
    out: &mut [u8],
    answer: &mut [u64],
) -> u32
    ensures number { result ≡ fit_number (answered_behind (handed_by (publish_by dup qos retain pkid topic.now block format_on format expiry_on expiry alias_on alias response_on response.now correlation_on correlation.now user.now user_lengths.now identifiers.now content_on content.now payload.now)) (limit_given limited limit) out.old) }
    ensures output { out.new ≡ out_behind (handed_by (publish_by dup qos retain pkid topic.now block format_on format expiry_on expiry alias_on alias response_on response.now correlation_on correlation.now user.now user_lengths.now identifiers.now content_on content.now payload.now)) (limit_given limited limit) out.old }
    ensures stored { answer.new ≡ sets answer.old 0 (answer_numbers (answered_behind (handed_by (publish_by dup qos retain pkid topic.now block format_on format expiry_on expiry alias_on alias response_on response.now correlation_on correlation.now user.now user_lengths.now identifiers.now content_on content.now payload.now)) (limit_given limited limit) out.old)) }
{
    c_write::put_publish::ecch_publish_write(
        dup,
        qos,
        retain,
        pkid,
        topic,
        block,
        format_on,
        format,
        expiry_on,
        expiry,
        alias_on,
        alias,
        response_on,
        response,
        correlation_on,
        correlation,
        user,
        user_lengths,
        identifiers,
        content_on,
        content,
        payload,
        limited,
        limit,
        &mut *out,
        &mut *answer,
    )
}
