// SubAck and UnsubAck: their size, and written; one function over the kind, and two that C calls.
ghost use Rattle.std.specs.Prelude.{◌≡◌, length};
ghost use Rattle.std.proofs.lemmas.List.Edits.{sets};
ghost use Rattle.writing.specs.Write.{size_of, answer_of, out_of};
ghost use Rattle.records.specs.AsNumbers.{told_reply_kind};
ghost use Rattle.c_layout.specs.Value.{fit_number};
ghost use Rattle.c_layout.specs.Answer.{answer_numbers};
ghost use Rattle.c_arguments.specs.Given.{limit_given};
ghost use Rattle.c_heads.specs.By.{reply_by};

use c_arguments::number::bound;
use c_heads::reply_by::reply_head;
use c_layout::answer::{store_size, store_written};
use records::reply_record::ReplyKind;

fn reply_size(
    kind: ReplyKind,
    pkid: u16,
    block: u8,
    reason_string_on: u8,
    reason_string: &[u8],
    user: &[u8],
    user_lengths: &[usize],
    reasons: &[u8],
    answer: &mut [u64],
) -> u32
    ensures number { result ≡ fit_number (size_of (reply_by (told_reply_kind kind) pkid block reason_string_on reason_string.now user.now user_lengths.now reasons.now)) }
    ensures stored { answer.new ≡ sets answer.old 0 (answer_numbers (size_of (reply_by (told_reply_kind kind) pkid block reason_string_on reason_string.now user.now user_lengths.now reasons.now))) }
{
    let head = reply_head(kind, pkid, block, reason_string_on);
    let size = reply_write::size(head, reason_string, user, user_lengths, reasons);
    store_size(size, &mut *answer)
}

fn reply_write(
    kind: ReplyKind,
    pkid: u16,
    block: u8,
    reason_string_on: u8,
    reason_string: &[u8],
    user: &[u8],
    user_lengths: &[usize],
    reasons: &[u8],
    limited: u8,
    limit: usize,
    out: &mut [u8],
    answer: &mut [u64],
) -> u32
    ensures number { result ≡ fit_number (answer_of (limit_given limited limit) (length out.old) (reply_by (told_reply_kind kind) pkid block reason_string_on reason_string.now user.now user_lengths.now reasons.now)) }
    ensures output { out.new ≡ out_of (limit_given limited limit) out.old (reply_by (told_reply_kind kind) pkid block reason_string_on reason_string.now user.now user_lengths.now reasons.now) }
    ensures stored { answer.new ≡ sets answer.old 0 (answer_numbers (answer_of (limit_given limited limit) (length out.old) (reply_by (told_reply_kind kind) pkid block reason_string_on reason_string.now user.now user_lengths.now reasons.now))) }
{
    let head = reply_head(kind, pkid, block, reason_string_on);
    let written = reply_write::write(
        head,
        reason_string,
        user,
        user_lengths,
        reasons,
        bound(limited, limit),
        &mut *out,
    );
    store_written(written, &mut *answer)
}

// The size of a SubAck: 0, or the refusal's number.
pub fn ecch_suback_size(
    pkid: u16,
    block: u8,
    reason_string_on: u8,
    reason_string: &[u8],
    user: &[u8],
    user_lengths: &[usize],
    reasons: &[u8],
    answer: &mut [u64],
) -> u32
    ensures number { result ≡ fit_number (size_of (reply_by 9 pkid block reason_string_on reason_string.now user.now user_lengths.now reasons.now)) }
    ensures stored { answer.new ≡ sets answer.old 0 (answer_numbers (size_of (reply_by 9 pkid block reason_string_on reason_string.now user.now user_lengths.now reasons.now))) }
{
    reply_size(
        ReplyKind::SubAck,
        pkid,
        block,
        reason_string_on,
        reason_string,
        user,
        user_lengths,
        reasons,
        &mut *answer,
    )
}

// A SubAck written: 0, or the refusal's number.
pub fn ecch_suback_write(
    pkid: u16,
    block: u8,
    reason_string_on: u8,
    reason_string: &[u8],
    user: &[u8],
    user_lengths: &[usize],
    reasons: &[u8],
    limited: u8,
    limit: usize,
    out: &mut [u8],
    answer: &mut [u64],
) -> u32
    ensures number { result ≡ fit_number (answer_of (limit_given limited limit) (length out.old) (reply_by 9 pkid block reason_string_on reason_string.now user.now user_lengths.now reasons.now)) }
    ensures output { out.new ≡ out_of (limit_given limited limit) out.old (reply_by 9 pkid block reason_string_on reason_string.now user.now user_lengths.now reasons.now) }
    ensures stored { answer.new ≡ sets answer.old 0 (answer_numbers (answer_of (limit_given limited limit) (length out.old) (reply_by 9 pkid block reason_string_on reason_string.now user.now user_lengths.now reasons.now))) }
{
    reply_write(
        ReplyKind::SubAck,
        pkid,
        block,
        reason_string_on,
        reason_string,
        user,
        user_lengths,
        reasons,
        limited,
        limit,
        &mut *out,
        &mut *answer,
    )
}

// The size of an UnsubAck: 0, or the refusal's number.
pub fn ecch_unsuback_size(
    pkid: u16,
    block: u8,
    reason_string_on: u8,
    reason_string: &[u8],
    user: &[u8],
    user_lengths: &[usize],
    reasons: &[u8],
    answer: &mut [u64],
) -> u32
    ensures number { result ≡ fit_number (size_of (reply_by 11 pkid block reason_string_on reason_string.now user.now user_lengths.now reasons.now)) }
    ensures stored { answer.new ≡ sets answer.old 0 (answer_numbers (size_of (reply_by 11 pkid block reason_string_on reason_string.now user.now user_lengths.now reasons.now))) }
{
    reply_size(
        ReplyKind::UnsubAck,
        pkid,
        block,
        reason_string_on,
        reason_string,
        user,
        user_lengths,
        reasons,
        &mut *answer,
    )
}

// An UnsubAck written: 0, or the refusal's number.
pub fn ecch_unsuback_write(
    pkid: u16,
    block: u8,
    reason_string_on: u8,
    reason_string: &[u8],
    user: &[u8],
    user_lengths: &[usize],
    reasons: &[u8],
    limited: u8,
    limit: usize,
    out: &mut [u8],
    answer: &mut [u64],
) -> u32
    ensures number { result ≡ fit_number (answer_of (limit_given limited limit) (length out.old) (reply_by 11 pkid block reason_string_on reason_string.now user.now user_lengths.now reasons.now)) }
    ensures output { out.new ≡ out_of (limit_given limited limit) out.old (reply_by 11 pkid block reason_string_on reason_string.now user.now user_lengths.now reasons.now) }
    ensures stored { answer.new ≡ sets answer.old 0 (answer_numbers (answer_of (limit_given limited limit) (length out.old) (reply_by 11 pkid block reason_string_on reason_string.now user.now user_lengths.now reasons.now))) }
{
    reply_write(
        ReplyKind::UnsubAck,
        pkid,
        block,
        reason_string_on,
        reason_string,
        user,
        user_lengths,
        reasons,
        limited,
        limit,
        &mut *out,
        &mut *answer,
    )
}
