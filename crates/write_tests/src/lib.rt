// The tests of fields as they are written (01, writing order): 18, and 9 for text; 17 for an identifier; then those of lists of them.
// Those of filters are in `subscribe_write`. The crate makes none of them before it writes.
#![tactic(auto)]

ghost use Rattle.std.specs.Prelude.{◌≡◌, ◌∷◌, [], map};
ghost use Rattle.grammar.specs.Tables.{text, bytes as bytesForm};
ghost use Rattle.writing.specs.Lists.{flat};
ghost use Rattle.writing.specs.Handed.{strings};
ghost use Rattle.writing.specs.Order.{judge, utf8_test, raw, word, field_tests, given_fields, number_tests, or_none};
ghost use Rattle.records.specs.AsNumbers.{number_if};
ghost use Rattle.write_runs.specs.Given.{given_lent, run as run_of};
ghost use Rattle.write_tests.specs.Tested.{told_tested};

use records::error::Error;
use utf8::{is_all_ascii, is_utf8};
use write_runs::run;
use write_sizes::MOST;

// Bytes: 18. Every writer asks before it puts a byte (D5: the crate cuts the length to 16 bits).
pub fn test_raw(s: &[u8]) -> Result<(), Error>
    ensures { told_tested result ≡ judge (field_tests (raw s.now)) }
{
    if 65535 < s.len() {
        return Err(Error::StringTooLong(s.len()));
    }
    Ok(())
}

// Whether it is text: 9.
fn test_chars(s: &[u8]) -> Result<(), Error>
    ensures { told_tested result ≡ judge (utf8_test s.now ∷ []) }
{
    if is_utf8(s) {
        return Ok(());
    }
    Err(Error::TopicNotUtf8)
}

// A text: 18, then 9.
pub fn test_word(s: &[u8]) -> Result<(), Error>
    ensures { told_tested result ≡ judge (field_tests (word s.now)) }
{
    test_raw(s)?;
    test_chars(s)
}

// A text that may be absent: 18, then 9.
pub fn test_text(on: bool, s: &[u8]) -> Result<(), Error>
    ensures { told_tested result ≡ judge (flat field_tests (given_fields text (given_lent on s.now))) }
{
    if on {
        return test_word(s);
    }
    Ok(())
}

// Bytes that may be absent: 18. Not one function with `test_text`: a closure's contract would be longer than both.
pub fn test_bytes(on: bool, s: &[u8]) -> Result<(), Error>
    ensures { told_tested result ≡ judge (flat field_tests (given_fields bytesForm (given_lent on s.now))) }
{
    if on {
        return test_raw(s);
    }
    Ok(())
}

// A subscription identifier, if it is given: 17, and 23 where it is 0.
pub fn test_number(id: Option<u32>) -> Result<(), Error>
    ensures { told_tested result ≡ judge (flat number_tests (or_none (number_if id))) }
{
    match id {
        None => Ok(()),
        Some(n) => {
            if MOST < n as usize {
                return Err(Error::PayloadTooLong);
            }
            if n == 0 {
                return Err(Error::SubscriptionIdZero);
            }
            Ok(())
        }
    }
}

// Text by text.
fn test_each(bytes: &[u8], lengths: &[usize]) -> Result<(), Error>
    ensures { told_tested result ≡ judge (flat field_tests (map word (strings (run_of bytes.now lengths.now)))) }
{
    let mut at: usize = 0;
    for n in lengths {
        test_word(run::piece(bytes, at, *n))?;
        at = run::after(bytes.len(), at, *n);
    }
    Ok(())
}

// Texts one after the other, as the lengths cut the run: mostly they are few bytes and ASCII, and so is every part of the run.
pub fn test_words(bytes: &[u8], lengths: &[usize]) -> Result<(), Error>
    ensures { told_tested result ≡ judge (flat field_tests (map word (strings (run_of bytes.now lengths.now)))) }
{
    if bytes.len() <= 65535 {
        if is_all_ascii(bytes) {
            return Ok(());
        }
    }
    test_each(bytes, lengths)
}

// Subscription identifiers in order.
pub fn test_numbers(ids: &[u32]) -> Result<(), Error>
    ensures { told_tested result ≡ judge (flat number_tests ids.now) }
{
    for n in ids {
        test_number(Some(*n))?;
    }
    Ok(())
}
