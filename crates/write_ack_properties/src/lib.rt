// The properties of every acknowledgement as they are written, after `write` of the properties in puback.rs to unsuback.rs: a reason
// string (31), then user properties (38), one put for six kinds.
#![tactic(auto)]

ghost use Rattle.std.specs.Prelude.{◌≡◌, ◌++◌};
ghost use Rattle.grammar.specs.Tables.{ack_row};
ghost use Rattle.writing.specs.Lists.{flat};
ghost use Rattle.writing.specs.Handed.{block_belongs};
ghost use Rattle.writing.specs.Size.{props_size, cap};
ghost use Rattle.writing.specs.Order.{judge, field_tests, props_fields};
ghost use Rattle.write_tests.specs.Tested.{told_tested};
ghost use Rattle.write_lengths.specs.Fitting.{fit_short};
ghost use Rattle.write_properties.specs.Behind.{Behind};
ghost use Rattle.write_properties.specs.Fitting.{fit_props};
ghost use Rattle.write_ack_properties.specs.Given.{given};

use records::error::Error;
use write_belongs;
use write_lengths::put_length;
use write_runs::run;

// False is 20: the reason string or the user properties do not belong together.
pub fn rows_belong(block: bool, on: bool, text: &[u8], user: &[u8], user_lengths: &[usize]) -> bool
    ensures { result ≡ block_belongs ack_row block (given on text.now user.now user_lengths.now) }
{
    write_belongs::both(
        write_belongs::lent_belongs(block, on, text),
        write_belongs::pairs_belong(block, user, user_lengths),
    )
}

// L, cut off where it is too large.
pub fn rows_length(on: bool, text: &[u8], user: &[u8], user_lengths: &[usize]) -> usize
    ensures { result ≡ cap (props_size ack_row (given on text.now user.now user_lengths.now)) }
{
    write_sizes::add(
        write_sizes::lent_size(on, text),
        write_sizes::pairs_size(user, user_lengths),
    )
}

// Their texts, the reason string first: 18, then 9.
pub fn test_rows(on: bool, text: &[u8], user: &[u8], user_lengths: &[usize]) -> Result<(), Error>
    ensures { told_tested result ≡ judge (flat field_tests (props_fields ack_row (given on text.now user.now user_lengths.now))) }
{
    write_tests::test_text(on, text)?;
    write_tests::test_words(user, user_lengths)
}

// L and the properties, 31 before 38, of what does not fit nothing; gives the index behind them.
pub fn put_rows(
    out: &mut [u8],
    at: usize,
    on: bool,
    text: &[u8],
    user: &[u8],
    user_lengths: &[usize],
) -> usize
    ensures { Behind out.old at (fit_short (cap (props_size ack_row (given on text.now user.now user_lengths.now))) ++ fit_props ack_row (given on text.now user.now user_lengths.now)) out.new result }
{
    let len = rows_length(on, text, user, user_lengths);
    let n = put_length(&mut *out, at, len);
    let first = run::after(out.len(), at, n);
    let k = write_properties::put_lent(&mut *out, first, 31, on, text);
    let second = run::after(out.len(), first, k);
    let j = write_lists::put_pairs(&mut *out, second, user, user_lengths);
    run::after(out.len(), second, j)
}
