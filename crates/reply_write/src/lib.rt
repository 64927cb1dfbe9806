// A SubAck or UnsubAck, written, after `write` and `size` of suback.rs and unsuback.rs: first every refusal and the size, touching nothing,
// then the bytes. An empty reason list is refused, and a reason that its kind does not list.
#![tactic(auto)]

ghost use Rattle.std.specs.Prelude.{◌≡◌, not, [], map};
ghost use Rattle.grammar.specs.Choice.{is_empty};
ghost use Rattle.grammar.specs.Tables.{reasons_of, first_of};
ghost use Rattle.reading.specs.Refusal.{nr};
ghost use Rattle.reading.specs.Reader.{guard};
ghost use Rattle.writing.specs.Lists.{flat};
ghost use Rattle.writing.specs.Handed.{reply, belongs as belongsOf};
ghost use Rattle.writing.specs.Size.{rest_is, cap};
ghost use Rattle.writing.specs.Order.{judge, code, field_tests};
ghost use Rattle.writing.specs.Write.{size_of, Written as WrittenOf};
ghost use Rattle.records.specs.AsNumbers.{limit_of, told_reply_kind};
ghost use Rattle.records.specs.Answered.{told_size};
ghost use Rattle.write_tests.specs.Tested.{told_tested};
ghost use Rattle.write_order.specs.Found.{before_size, Stored};
ghost use Rattle.reply_write.specs.Handed.{handed};

use kinds;
use kinds::{Kind, number_of};
use records::error::Error;
use records::reply_record::ReplyKind;
use tables::reason::is_reply_reason;
use write_bytes::put_bytes;
use write_numbers::fixed::Fixed;
use write_runs::run;

// What is handed over by value; the reason string, the user properties and the reasons are lent beside it.
#[derive(Clone, Copy)]
pub struct ReplyHead {
    pub kind: ReplyKind,
    pub pkid: u16,
    // whether there are properties
    pub block: bool,
    // whether there is a reason string
    pub reason_string: bool,
}

// False is 20: the reason string or the user properties do not belong together.
fn belongs(
    m: ReplyHead,
    reason_string: &[u8],
    user: &[u8],
    user_lengths: &[usize],
    reasons: &[u8],
) -> bool
    ensures { result ≡ belongsOf (reply (told_reply_kind m.kind) (handed m reason_string.now user.now user_lengths.now reasons.now)) }
{
    write_ack_properties::rows_belong(m.block, m.reason_string, reason_string, user, user_lengths)
}

// R, cut off where it is too large.
fn rest(
    m: ReplyHead,
    reason_string: &[u8],
    user: &[u8],
    user_lengths: &[usize],
    reasons: &[u8],
) -> usize
    ensures { result ≡ cap (rest_is (reply (told_reply_kind m.kind) (handed m reason_string.now user.now user_lengths.now reasons.now))) }
{
    let len = write_ack_properties::rows_length(m.reason_string, reason_string, user, user_lengths);
    write_sizes::add(
        write_sizes::add(write_sizes::with_length(len), reasons.len()),
        2,
    )
}

// How many bytes the frame is: refused with 20, then 17 for R.
pub fn size(
    m: ReplyHead,
    reason_string: &[u8],
    user: &[u8],
    user_lengths: &[usize],
    reasons: &[u8],
) -> Result<usize, Error>
    ensures { told_size result ≡ size_of (reply (told_reply_kind m.kind) (handed m reason_string.now user.now user_lengths.now reasons.now)) }
{
    write_order::size(
        belongs(m, reason_string, user, user_lengths, reasons),
        rest(m, reason_string, user, user_lengths, reasons),
    )
}

// 15: a reason that its kind does not list.
fn test_reason(kind: ReplyKind, reason: u8) -> Result<(), Error>
    ensures { told_tested result ≡ judge (field_tests (code (reasons_of (told_reply_kind kind)) reason)) }
{
    if is_reply_reason(kind, reason) {
        return Ok(());
    }
    Err(Error::InvalidReason(reason))
}

// Reason by reason.
fn test_reasons(kind: ReplyKind, reasons: &[u8]) -> Result<(), Error>
    ensures { told_tested result ≡ judge (flat field_tests (map (code (reasons_of (told_reply_kind kind))) reasons.now)) }
{
    for reason in reasons {
        test_reason(kind, *reason)?;
    }
    Ok(())
}

// 20, then the fields.
fn before_size(
    m: ReplyHead,
    reason_string: &[u8],
    user: &[u8],
    user_lengths: &[usize],
    reasons: &[u8],
) -> Result<(), Error>
    ensures { told_tested result ≡ before_size (reply (told_reply_kind m.kind) (handed m reason_string.now user.now user_lengths.now reasons.now)) }
{
    if !belongs(m, reason_string, user, user_lengths, reasons) {
        return Err(Error::ListMismatch);
    }
    write_ack_properties::test_rows(m.reason_string, reason_string, user, user_lengths)?;
    test_reasons(m.kind, reasons)
}

// 13 if there is no reason.
fn test_asked(reasons: &[u8]) -> Result<(), Error>
    ensures { told_tested result ≡ guard (not (is_empty reasons.now)) (nr 13 []) }
{
    if reasons.len() == 0 {
        return Err(Error::EmptySubscription);
    }
    Ok(())
}

// The first byte of a kind.
fn first_byte(kind: ReplyKind) -> u8
    ensures { result ≡ first_of (told_reply_kind kind) }
{
    kinds::first_byte(number_of(Kind::Reply(kind)))
}

// The frame, of what can be written.
fn put(
    out: &mut [u8],
    m: ReplyHead,
    reason_string: &[u8],
    user: &[u8],
    user_lengths: &[usize],
    reasons: &[u8],
)
    ensures { Stored (reply (told_reply_kind m.kind) (handed m reason_string.now user.now user_lengths.now reasons.now)) out.old out.new }
{
    let len = rest(m, reason_string, user, user_lengths, reasons);
    let kind = m.kind;
    let byte1 = first_byte(kind);
    let n = write_properties::put_header(&mut *out, byte1, len);
    let first = run::after(out.len(), 0, n);
    m.pkid.put(&mut *out, first);
    let second = run::after(out.len(), first, 2);
    let third = write_ack_properties::put_rows(
        &mut *out,
        second,
        m.reason_string,
        reason_string,
        user,
        user_lengths,
    );
    put_bytes(&mut *out, third, reasons);
}

// The frame from index 0 on, and its size; a refused write leaves the output as it stood. 15 is tested behind the texts, reason by reason.
pub fn write(
    m: ReplyHead,
    reason_string: &[u8],
    user: &[u8],
    user_lengths: &[usize],
    reasons: &[u8],
    limit: Option<usize>,
    out: &mut [u8],
) -> Result<usize, Error>
    ensures { WrittenOf (limit_of limit) (reply (told_reply_kind m.kind) (handed m reason_string.now user.now user_lengths.now reasons.now)) out.old out.new (told_size result) }
{
    let fields = before_size(m, reason_string, user, user_lengths, reasons);
    let len = rest(m, reason_string, user, user_lengths, reasons);
    let end = test_asked(reasons);
    let n = write_order::settle(fields, len, limit, end, out.len())?;
    put(&mut *out, m, reason_string, user, user_lengths, reasons);
    Ok(n)
}
