// A Subscribe, written, after `write` and `size` of subscribe.rs: first every refusal and the size, touching nothing, then the bytes. An
// empty filter list is refused (D6).
#![tactic(auto)]

mod filter;

ghost use Rattle.std.specs.Prelude.{◌≡◌, List, ◌++◌, ℕ, ◌≤◌};
ghost use Rattle.grammar.specs.Octets.{Each};
ghost use Rattle.grammar.specs.Tables.{subscribe_row};
ghost use Rattle.writing.specs.Handed.{subscribe, subscribe_given, belongs as belongsOf};
ghost use Rattle.writing.specs.Spell.{short, props_bytes};
ghost use Rattle.writing.specs.Size.{most, props_size, rest_is, cap};
ghost use Rattle.writing.specs.Order.{props_fields, numbers_of};
ghost use Rattle.writing.specs.Refuse.{Writable, Fine};
ghost use Rattle.writing.specs.Write.{size_of, Written as WrittenOf};
ghost use Rattle.records.specs.AsNumbers.{limit_of};
ghost use Rattle.records.specs.Answered.{told_size};
ghost use Rattle.write_tests.specs.Tested.{told_tested};
ghost use Rattle.write_properties.specs.Behind.{Behind};
ghost use Rattle.write_order.specs.Found.{before_size, after_limit, Stored};
ghost use Rattle.subscribe_write.specs.Handed.{handed};

use kinds;
use records::error::Error;
use write_belongs;
use write_lengths::put_length;
use write_numbers::fixed::Fixed;
use write_runs::run;

// What is handed over by value; the user properties and the filters are lent beside it.
#[derive(Clone, Copy)]
pub struct SubscribeHead {
    pub pkid: u16,
    // whether there are properties
    pub block: bool,
    pub id: Option<u32>,
}

// False is 20: the subscription identifier, the user properties or the filters do not belong together.
fn belongs(
    m: SubscribeHead,
    user: &[u8],
    user_lengths: &[usize],
    filters: &[u8],
    filter_lengths: &[usize],
    options: &[u8],
) -> bool
    ensures { result ≡ belongsOf (subscribe (handed m user.now user_lengths.now filters.now filter_lengths.now options.now)) }
{
    let id = m.id;
    let block = write_belongs::both(
        write_belongs::one_belongs(m.block, id),
        write_belongs::pairs_belong(m.block, user, user_lengths),
    );
    write_belongs::both(
        block,
        filter::filters_belong(filters, filter_lengths, options),
    )
}

// L, cut off where it is too large.
fn block_length(m: SubscribeHead, user: &[u8], user_lengths: &[usize]) -> usize
    ensures { (fs ns os : List ℕ) → result ≡ cap (props_size subscribe_row (subscribe_given (handed m user.now user_lengths.now fs ns os))) }
{
    let id = m.id;
    write_sizes::add(
        write_sizes::one_size_number(id),
        write_sizes::pairs_size(user, user_lengths),
    )
}

// R, cut off where it is too large.
fn rest(
    m: SubscribeHead,
    user: &[u8],
    user_lengths: &[usize],
    filters: &[u8],
    options: &[u8],
) -> usize
    ensures { (ns : List ℕ) → result ≡ cap (rest_is (subscribe (handed m user.now user_lengths.now filters.now ns options.now))) }
{
    let block = write_sizes::with_length(block_length(m, user, user_lengths));
    write_sizes::add(
        write_sizes::add(block, filter::filters_size(filters, options)),
        2,
    )
}

// How many bytes the frame is: refused with 20, then 17 for R.
pub fn size(
    m: SubscribeHead,
    user: &[u8],
    user_lengths: &[usize],
    filters: &[u8],
    filter_lengths: &[usize],
    options: &[u8],
) -> Result<usize, Error>
    ensures { told_size result ≡ size_of (subscribe (handed m user.now user_lengths.now filters.now filter_lengths.now options.now)) }
{
    write_order::size(
        belongs(m, user, user_lengths, filters, filter_lengths, options),
        rest(m, user, user_lengths, filters, options),
    )
}

// 20, then the fields.
fn before_size(
    m: SubscribeHead,
    user: &[u8],
    user_lengths: &[usize],
    filters: &[u8],
    filter_lengths: &[usize],
    options: &[u8],
) -> Result<(), Error>
    ensures { told_tested result ≡ before_size (subscribe (handed m user.now user_lengths.now filters.now filter_lengths.now options.now)) }
{
    if !belongs(m, user, user_lengths, filters, filter_lengths, options) {
        return Err(Error::ListMismatch);
    }
    write_tests::test_words(user, user_lengths)?;
    filter::test_filters(filters, filter_lengths, options)
}

// 17 for the identifier, then 13.
fn after_limit(m: SubscribeHead, filter_lengths: &[usize], options: &[u8]) -> Result<(), Error>
    ensures { (user lengths filters : List ℕ) → told_tested result ≡ after_limit (subscribe (handed m user lengths filters filter_lengths.now options.now)) }
{
    write_tests::test_number(m.id)?;
    filter::test_asked(filter_lengths, options)
}

// L and the properties, where they can be written; gives the index behind them.
fn put_block(
    out: &mut [u8],
    at: usize,
    m: SubscribeHead,
    user: &[u8],
    user_lengths: &[usize],
) -> usize
    ensures { (fs ns os : List ℕ) → props_size subscribe_row (subscribe_given (handed m user.now user_lengths.now fs ns os)) ≤ most → Each Writable (props_fields subscribe_row (subscribe_given (handed m user.now user_lengths.now fs ns os))) → Each Fine (numbers_of (subscribe (handed m user.now user_lengths.now fs ns os))) → Behind out.old at (short (props_size subscribe_row (subscribe_given (handed m user.now user_lengths.now fs ns os))) ++ props_bytes subscribe_row (subscribe_given (handed m user.now user_lengths.now fs ns os))) out.new result }
{
    let len = block_length(m, user, user_lengths);
    let id = m.id;
    let n = put_length(&mut *out, at, len);
    let first = run::after(out.len(), at, n);
    let k = write_properties::put_number_if(&mut *out, first, 11, id);
    let second = run::after(out.len(), first, k);
    let j = write_lists::put_pairs(&mut *out, second, user, user_lengths);
    run::after(out.len(), second, j)
}

// The frame, of what can be written.
fn put(
    out: &mut [u8],
    m: SubscribeHead,
    user: &[u8],
    user_lengths: &[usize],
    filters: &[u8],
    filter_lengths: &[usize],
    options: &[u8],
)
    ensures { Stored (subscribe (handed m user.now user_lengths.now filters.now filter_lengths.now options.now)) out.old out.new }
{
    let len = rest(m, user, user_lengths, filters, options);
    let byte1 = kinds::first_byte(8);
    let n = write_properties::put_header(&mut *out, byte1, len);
    let first = run::after(out.len(), 0, n);
    m.pkid.put(&mut *out, first);
    let second = run::after(out.len(), first, 2);
    let third = put_block(&mut *out, second, m, user, user_lengths);
    filter::put_filters(&mut *out, third, filters, filter_lengths, options);
}

// The frame from index 0 on, and its size; a refused write leaves the output as it stood.
pub fn write(
    m: SubscribeHead,
    user: &[u8],
    user_lengths: &[usize],
    filters: &[u8],
    filter_lengths: &[usize],
    options: &[u8],
    limit: Option<usize>,
    out: &mut [u8],
) -> Result<usize, Error>
    ensures { WrittenOf (limit_of limit) (subscribe (handed m user.now user_lengths.now filters.now filter_lengths.now options.now)) out.old out.new (told_size result) }
{
    let fields = before_size(m, user, user_lengths, filters, filter_lengths, options);
    let len = rest(m, user, user_lengths, filters, options);
    let end = after_limit(m, filter_lengths, options);
    let n = write_order::settle(fields, len, limit, end, out.len())?;
    put(
        &mut *out,
        m,
        user,
        user_lengths,
        filters,
        filter_lengths,
        options,
    );
    Ok(n)
}
