// The publish acknowledgements, written, after `write` and `size` of puback.rs to pubcomp.rs: first every refusal and the size, touching nothing, then the bytes. A plain
// success is four bytes.
#![tactic(auto)]

ghost use Rattle.std.specs.Prelude.{◌≡◌, [], ◌∷◌, ◌++◌, ◌≤◌};
ghost use Rattle.std.proofs.lemmas.List.Edits.{sets};
ghost use Rattle.grammar.specs.Octets.{Each};
ghost use Rattle.grammar.specs.Tables.{ack_row, reasons_of, first_of};
ghost use Rattle.writing.specs.Handed.{ack, belongs as belongsOf};
ghost use Rattle.writing.specs.Spell.{short, props_bytes};
ghost use Rattle.writing.specs.Size.{most, props_size, is_plain, rest_is, cap};
ghost use Rattle.writing.specs.Order.{judge, code, field_tests, props_fields};
ghost use Rattle.writing.specs.Refuse.{Writable};
ghost use Rattle.writing.specs.Write.{size_of, Written as WrittenOf};
ghost use Rattle.records.specs.AsNumbers.{limit_of, told_ack_kind};
ghost use Rattle.records.specs.Answered.{told_size};
ghost use Rattle.write_tests.specs.Tested.{told_tested};
ghost use Rattle.write_order.specs.Found.{before_size, Stored};
ghost use Rattle.ack_write.specs.Handed.{handed, given_for};

use kinds;
use kinds::{Kind, number_of};
use records::ack_record::AckKind;
use records::error::Error;
use tables::reason::is_ack_reason;
use write_numbers::fixed::Fixed;
use write_runs::run;

// What is handed over by value; the reason string and the user properties are lent beside it.
#[derive(Clone, Copy)]
pub struct AckHead {
    pub kind: AckKind,
    pub pkid: u16,
    pub reason: u8,
    // whether there are properties
    pub block: bool,
    // whether there is a reason string
    pub reason_string: bool,
}

// False is 20: the reason string or the user properties do not belong together.
fn belongs(m: AckHead, reason_string: &[u8], user: &[u8], user_lengths: &[usize]) -> bool
    ensures { result ≡ belongsOf (ack (told_ack_kind m.kind) (handed m reason_string.now user.now user_lengths.now)) }
{
    write_ack_properties::rows_belong(m.block, m.reason_string, reason_string, user, user_lengths)
}

fn is_plain(m: AckHead) -> bool
    ensures { result ≡ is_plain (handed m [] [] []) }
{
    if m.block {
        return false;
    }
    m.reason == 0
}

// R, cut off where it is too large.
fn rest(m: AckHead, reason_string: &[u8], user: &[u8], user_lengths: &[usize]) -> usize
    ensures { result ≡ cap (rest_is (ack (told_ack_kind m.kind) (handed m reason_string.now user.now user_lengths.now))) }
{
    if is_plain(m) {
        return 2;
    }
    let len = write_ack_properties::rows_length(m.reason_string, reason_string, user, user_lengths);
    write_sizes::add(write_sizes::with_length(len), 3)
}

// How many bytes the frame is: refused with 20, then 17 for R.
pub fn size(
    m: AckHead,
    reason_string: &[u8],
    user: &[u8],
    user_lengths: &[usize],
) -> Result<usize, Error>
    ensures { told_size result ≡ size_of (ack (told_ack_kind m.kind) (handed m reason_string.now user.now user_lengths.now)) }
{
    write_order::size(
        belongs(m, reason_string, user, user_lengths),
        rest(m, reason_string, user, user_lengths),
    )
}

// 15: a reason that its kind does not list.
fn test_reason(kind: AckKind, reason: u8) -> Result<(), Error>
    ensures { told_tested result ≡ judge (field_tests (code (reasons_of (told_ack_kind kind)) reason)) }
{
    if is_ack_reason(kind, reason) {
        return Ok(());
    }
    Err(Error::InvalidReason(reason))
}

// The first byte of a kind.
fn first_byte(kind: AckKind) -> u8
    ensures { result ≡ first_of (told_ack_kind kind) }
{
    kinds::first_byte(number_of(Kind::Ack(kind)))
}

// 20, then the fields.
fn before_size(
    m: AckHead,
    reason_string: &[u8],
    user: &[u8],
    user_lengths: &[usize],
) -> Result<(), Error>
    ensures { told_tested result ≡ before_size (ack (told_ack_kind m.kind) (handed m reason_string.now user.now user_lengths.now)) }
{
    if !belongs(m, reason_string, user, user_lengths) {
        return Err(Error::ListMismatch);
    }
    test_reason(m.kind, m.reason)?;
    write_ack_properties::test_rows(m.reason_string, reason_string, user, user_lengths)
}

// The reason, as it stands.
fn put_reason(out: &mut [u8], at: usize, reason: u8)
    ensures { out.new ≡ sets out.old at (reason ∷ []) }
{
    reason.put(&mut *out, at);
}

// The reason, L and the properties, where they can be written.
fn put_block(
    out: &mut [u8],
    at: usize,
    m: AckHead,
    reason_string: &[u8],
    user: &[u8],
    user_lengths: &[usize],
)
    ensures { props_size ack_row (given_for m reason_string.now user.now user_lengths.now) ≤ most → Each Writable (props_fields ack_row (given_for m reason_string.now user.now user_lengths.now)) → out.new ≡ sets out.old at (m.reason ∷ (short (props_size ack_row (given_for m reason_string.now user.now user_lengths.now)) ++ props_bytes ack_row (given_for m reason_string.now user.now user_lengths.now))) }
{
    put_reason(&mut *out, at, m.reason);
    let next = run::after(out.len(), at, 1);
    write_ack_properties::put_rows(
        &mut *out,
        next,
        m.reason_string,
        reason_string,
        user,
        user_lengths,
    );
}

// The frame, of what can be written.
fn put(out: &mut [u8], m: AckHead, reason_string: &[u8], user: &[u8], user_lengths: &[usize])
    ensures { Stored (ack (told_ack_kind m.kind) (handed m reason_string.now user.now user_lengths.now)) out.old out.new }
{
    let len = rest(m, reason_string, user, user_lengths);
    let kind = m.kind;
    let byte1 = first_byte(kind);
    let n = write_properties::put_header(&mut *out, byte1, len);
    let first = run::after(out.len(), 0, n);
    m.pkid.put(&mut *out, first);
    if !is_plain(m) {
        let second = run::after(out.len(), first, 2);
        put_block(&mut *out, second, m, reason_string, user, user_lengths);
    }
}

// The frame from index 0 on, and its size; a refused write leaves the output as it stood. 15 is tested before the texts.
pub fn write(
    m: AckHead,
    reason_string: &[u8],
    user: &[u8],
    user_lengths: &[usize],
    limit: Option<usize>,
    out: &mut [u8],
) -> Result<usize, Error>
    ensures { WrittenOf (limit_of limit) (ack (told_ack_kind m.kind) (handed m reason_string.now user.now user_lengths.now)) out.old out.new (told_size result) }
{
    let fields = before_size(m, reason_string, user, user_lengths);
    let len = rest(m, reason_string, user, user_lengths);
    let n = write_order::settle(fields, len, limit, Ok(()), out.len())?;
    put(&mut *out, m, reason_string, user, user_lengths);
    Ok(n)
}
