// The publish acknowledgements: their size, and written; one function over the kind, and four that C calls.
ghost use Rattle.std.specs.Prelude.{◌≡◌, length};
ghost use Rattle.std.proofs.lemmas.List.Edits.{sets};
ghost use Rattle.writing.specs.Write.{size_of, answer_of, out_of};
ghost use Rattle.records.specs.AsNumbers.{told_ack_kind};
ghost use Rattle.c_layout.specs.Value.{fit_number};
ghost use Rattle.c_layout.specs.Answer.{answer_numbers};
ghost use Rattle.c_arguments.specs.Given.{limit_given};
ghost use Rattle.c_heads.specs.By.{ack_by};

use c_arguments::number::bound;
use c_heads::ack_by::ack_head;
use c_layout::answer::{store_size, store_written};
use records::ack_record::AckKind;

fn ack_size(
    kind: AckKind,
    pkid: u16,
    reason: u8,
    block: u8,
    reason_string_on: u8,
    reason_string: &[u8],
    user: &[u8],
    user_lengths: &[usize],
    answer: &mut [u64],
) -> u32
    ensures number { result ≡ fit_number (size_of (ack_by (told_ack_kind kind) pkid reason block reason_string_on reason_string.now user.now user_lengths.now)) }
    ensures stored { answer.new ≡ sets answer.old 0 (answer_numbers (size_of (ack_by (told_ack_kind kind) pkid reason block reason_string_on reason_string.now user.now user_lengths.now))) }
{
    let head = ack_head(kind, pkid, reason, block, reason_string_on);
    let size = ack_write::size(head, reason_string, user, user_lengths);
    store_size(size, &mut *answer)
}

fn ack_write(
    kind: AckKind,
    pkid: u16,
    reason: u8,
    block: u8,
    reason_string_on: u8,
    reason_string: &[u8],
    user: &[u8],
    user_lengths: &[usize],
    limited: u8,
    limit: usize,
    out: &mut [u8],
    answer: &mut [u64],
) -> u32
    ensures number { result ≡ fit_number (answer_of (limit_given limited limit) (length out.old) (ack_by (told_ack_kind kind) pkid reason block reason_string_on reason_string.now user.now user_lengths.now)) }
    ensures output { out.new ≡ out_of (limit_given limited limit) out.old (ack_by (told_ack_kind kind) pkid reason block reason_string_on reason_string.now user.now user_lengths.now) }
    ensures stored { answer.new ≡ sets answer.old 0 (answer_numbers (answer_of (limit_given limited limit) (length out.old) (ack_by (told_ack_kind kind) pkid reason block reason_string_on reason_string.now user.now user_lengths.now))) }
{
    let head = ack_head(kind, pkid, reason, block, reason_string_on);
    let written = ack_write::write(
        head,
        reason_string,
        user,
        user_lengths,
        bound(limited, limit),
        &mut *out,
    );
    store_written(written, &mut *answer)
}

// The size of a PubAck: 0, or the refusal's number.
pub fn ecch_puback_size(
    pkid: u16,
    reason: u8,
    block: u8,
    reason_string_on: u8,
    reason_string: &[u8],
    user: &[u8],
    user_lengths: &[usize],
    answer: &mut [u64],
) -> u32
    ensures number { result ≡ fit_number (size_of (ack_by 4 pkid reason block reason_string_on reason_string.now user.now user_lengths.now)) }
    ensures stored { answer.new ≡ sets answer.old 0 (answer_numbers (size_of (ack_by 4 pkid reason block reason_string_on reason_string.now user.now user_lengths.now))) }
{
    ack_size(
        AckKind::PubAck,
        pkid,
        reason,
        block,
        reason_string_on,
        reason_string,
        user,
        user_lengths,
        &mut *answer,
    )
}

// A PubAck written: 0, or the refusal's number.
pub fn ecch_puback_write(
    pkid: u16,
    reason: u8,
    block: u8,
    reason_string_on: u8,
    reason_string: &[u8],
    user: &[u8],
    user_lengths: &[usize],
    limited: u8,
    limit: usize,
    out: &mut [u8],
    answer: &mut [u64],
) -> u32
    ensures number { result ≡ fit_number (answer_of (limit_given limited limit) (length out.old) (ack_by 4 pkid reason block reason_string_on reason_string.now user.now user_lengths.now)) }
    ensures output { out.new ≡ out_of (limit_given limited limit) out.old (ack_by 4 pkid reason block reason_string_on reason_string.now user.now user_lengths.now) }
    ensures stored { answer.new ≡ sets answer.old 0 (answer_numbers (answer_of (limit_given limited limit) (length out.old) (ack_by 4 pkid reason block reason_string_on reason_string.now user.now user_lengths.now))) }
{
    ack_write(
        AckKind::PubAck,
        pkid,
        reason,
        block,
        reason_string_on,
        reason_string,
        user,
        user_lengths,
        limited,
        limit,
        &mut *out,
        &mut *answer,
    )
}

// The size of a PubRec: 0, or the refusal's number.
pub fn ecch_pubrec_size(
    pkid: u16,
    reason: u8,
    block: u8,
    reason_string_on: u8,
    reason_string: &[u8],
    user: &[u8],
    user_lengths: &[usize],
    answer: &mut [u64],
) -> u32
    ensures number { result ≡ fit_number (size_of (ack_by 5 pkid reason block reason_string_on reason_string.now user.now user_lengths.now)) }
    ensures stored { answer.new ≡ sets answer.old 0 (answer_numbers (size_of (ack_by 5 pkid reason block reason_string_on reason_string.now user.now user_lengths.now))) }
{
    ack_size(
        AckKind::PubRec,
        pkid,
        reason,
        block,
        reason_string_on,
        reason_string,
        user,
        user_lengths,
        &mut *answer,
    )
}

// A PubRec written: 0, or the refusal's number.
pub fn ecch_pubrec_write(
    pkid: u16,
    reason: u8,
    block: u8,
    reason_string_on: u8,
    reason_string: &[u8],
    user: &[u8],
    user_lengths: &[usize],
    limited: u8,
    limit: usize,
    out: &mut [u8],
    answer: &mut [u64],
) -> u32
    ensures number { result ≡ fit_number (answer_of (limit_given limited limit) (length out.old) (ack_by 5 pkid reason block reason_string_on reason_string.now user.now user_lengths.now)) }
    ensures output { out.new ≡ out_of (limit_given limited limit) out.old (ack_by 5 pkid reason block reason_string_on reason_string.now user.now user_lengths.now) }
    ensures stored { answer.new ≡ sets answer.old 0 (answer_numbers (answer_of (limit_given limited limit) (length out.old) (ack_by 5 pkid reason block reason_string_on reason_string.now user.now user_lengths.now))) }
{
    ack_write(
        AckKind::PubRec,
        pkid,
        reason,
        block,
        reason_string_on,
        reason_string,
        user,
        user_lengths,
        limited,
        limit,
        &mut *out,
        &mut *answer,
    )
}

// The size of a PubRel: 0, or the refusal's number.
pub fn ecch_pubrel_size(
    pkid: u16,
    reason: u8,
    block: u8,
    reason_string_on: u8,
    reason_string: &[u8],
    user: &[u8],
    user_lengths: &[usize],
    answer: &mut [u64],
) -> u32
    ensures number { result ≡ fit_number (size_of (ack_by 6 pkid reason block reason_string_on reason_string.now user.now user_lengths.now)) }
    ensures stored { answer.new ≡ sets answer.old 0 (answer_numbers (size_of (ack_by 6 pkid reason block reason_string_on reason_string.now user.now user_lengths.now))) }
{
    ack_size(
        AckKind::PubRel,
        pkid,
        reason,
        block,
        reason_string_on,
        reason_string,
        user,
        user_lengths,
        &mut *answer,
    )
}

// A PubRel written: 0, or the refusal's number.
pub fn ecch_pubrel_write(
    pkid: u16,
    reason: u8,
    block: u8,
    reason_string_on: u8,
    reason_string: &[u8],
    user: &[u8],
    user_lengths: &[usize],
    limited: u8,
    limit: usize,
    out: &mut [u8],
    answer: &mut [u64],
) -> u32
    ensures number { result ≡ fit_number (answer_of (limit_given limited limit) (length out.old) (ack_by 6 pkid reason block reason_string_on reason_string.now user.now user_lengths.now)) }
    ensures output { out.new ≡ out_of (limit_given limited limit) out.old (ack_by 6 pkid reason block reason_string_on reason_string.now user.now user_lengths.now) }
    ensures stored { answer.new ≡ sets answer.old 0 (answer_numbers (answer_of (limit_given limited limit) (length out.old) (ack_by 6 pkid reason block reason_string_on reason_string.now user.now user_lengths.now))) }
{
    ack_write(
        AckKind::PubRel,
        pkid,
        reason,
        block,
        reason_string_on,
        reason_string,
        user,
        user_lengths,
        limited,
        limit,
        &mut *out,
        &mut *answer,
    )
}

// The size of a PubComp: 0, or the refusal's number.
pub fn ecch_pubcomp_size(
    pkid: u16,
    reason: u8,
    block: u8,
    reason_string_on: u8,
    reason_string: &[u8],
    user: &[u8],
    user_lengths: &[usize],
    answer: &mut [u64],
) -> u32
    ensures number { result ≡ fit_number (size_of (ack_by 7 pkid reason block reason_string_on reason_string.now user.now user_lengths.now)) }
    ensures stored { answer.new ≡ sets answer.old 0 (answer_numbers (size_of (ack_by 7 pkid reason block reason_string_on reason_string.now user.now user_lengths.now))) }
{
    ack_size(
        AckKind::PubComp,
        pkid,
        reason,
        block,
        reason_string_on,
        reason_string,
        user,
        user_lengths,
        &mut *answer,
    )
}

// A PubComp written: 0, or the refusal's number.
pub fn ecch_pubcomp_write(
    pkid: u16,
    reason: u8,
    block: u8,
    reason_string_on: u8,
    reason_string: &[u8],
    user: &[u8],
    user_lengths: &[usize],
    limited: u8,
    limit: usize,
    out: &mut [u8],
    answer: &mut [u64],
) -> u32
    ensures number { result ≡ fit_number (answer_of (limit_given limited limit) (length out.old) (ack_by 7 pkid reason block reason_string_on reason_string.now user.now user_lengths.now)) }
    ensures output { out.new ≡ out_of (limit_given limited limit) out.old (ack_by 7 pkid reason block reason_string_on reason_string.now user.now user_lengths.now) }
    ensures stored { answer.new ≡ sets answer.old 0 (answer_numbers (answer_of (limit_given limited limit) (length out.old) (ack_by 7 pkid reason block reason_string_on reason_string.now user.now user_lengths.now))) }
{
    ack_write(
        AckKind::PubComp,
        pkid,
        reason,
        block,
        reason_string_on,
        reason_string,
        user,
        user_lengths,
        limited,
        limit,
        &mut *out,
        &mut *answer,
    )
}
