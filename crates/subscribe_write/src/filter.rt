// The filters of a Subscribe as they are written, after subscribe.rs: whether they belong together, their size, their tests (01, writing
// order: 14, then 11 after a filter's text) and their bytes. An empty list is refused (D6).
ghost use Rattle.std.specs.Prelude.{◌≡◌, not, List, [], map, ℕ, min, length};
ghost use Rattle.grammar.specs.Choice.{is_empty};
ghost use Rattle.reading.specs.Refusal.{nr};
ghost use Rattle.reading.specs.Reader.{guard};
ghost use Rattle.writing.specs.Lists.{flat};
ghost use Rattle.writing.specs.Handed.{filters_of, filters_belong};
ghost use Rattle.writing.specs.Size.{filters_size, cap};
ghost use Rattle.writing.specs.Order.{judge, filter, field_tests, filter_field};
ghost use Rattle.write_runs.specs.Given.{run as run_of};
ghost use Rattle.write_tests.specs.Tested.{told_tested};
ghost use Rattle.write_properties.specs.Put.{Put};
ghost use Rattle.subscribe_write.specs.Fitting.{fit_filter};

use records::error::Error;
use write_belongs;
use write_numbers::fixed::Fixed;
use write_runs::run;
use write_strings::put_string;
use write_tests::test_word;

// How many there are: one for each length that has an options byte.
fn how_many(lengths: &[usize], options: &[u8]) -> usize
    ensures { result ≡ min (length lengths.now) (length options.now) }
{
    run::after(options.len(), 0, lengths.len())
}

// False is 20: lengths that do not add up to the bytes, or options bytes that differ from them in number.
pub fn filters_belong(bytes: &[u8], lengths: &[usize], options: &[u8]) -> bool
    ensures { result ≡ filters_belong (run_of bytes.now lengths.now) options.now }
{
    let same = lengths.len() == options.len();
    write_belongs::both(run::adds_up(bytes, lengths), same)
}

// Their bytes, cut off where they are too many: a filter has two bytes of length and its options byte.
pub fn filters_size(bytes: &[u8], options: &[u8]) -> usize
    ensures { result ≡ cap (filters_size bytes.now options.now) }
{
    let n = options.len();
    write_sizes::add(write_sizes::add(write_sizes::add(n, n), n), bytes.len())
}

// A filter's text, then its options: 14, then 11.
fn test_filter(s: &[u8], options: u8) -> Result<(), Error>
    ensures { told_tested result ≡ judge (field_tests (filter s.now options)) }
{
    test_word(s)?;
    if options / 16 % 4 == 3 {
        return Err(Error::InvalidRetainForwardRule(3));
    }
    if options % 4 == 3 {
        return Err(Error::InvalidQoS(3));
    }
    Ok(())
}

// Filters one after the other, as far as there are both lengths and options: 18, 9, 14, then 11, the first refusal.
pub fn test_filters(bytes: &[u8], lengths: &[usize], options: &[u8]) -> Result<(), Error>
    ensures { told_tested result ≡ judge (flat field_tests (map filter_field (filters_of (run_of bytes.now lengths.now) options.now))) }
{
    let mut at: usize = 0;
    for (n, option) in lengths.iter().zip(options) {
        test_filter(run::piece(bytes, at, *n), *option)?;
        at = run::after(bytes.len(), at, *n);
    }
    Ok(())
}

// 13 if there is no filter.
pub fn test_asked(lengths: &[usize], options: &[u8]) -> Result<(), Error>
    ensures { (bytes : List ℕ) → told_tested result ≡ guard (not (is_empty (filters_of (run_of bytes lengths.now) options.now))) (nr 13 []) }
{
    if how_many(lengths, options) == 0 {
        return Err(Error::EmptySubscription);
    }
    Ok(())
}

// A filter; of a text that does not fit its options byte alone.
fn put_filter(out: &mut [u8], at: usize, s: &[u8], options: u8) -> usize
    ensures { Put out.old at (fit_filter (s.now, options)) out.new result }
{
    let n = put_string(&mut *out, at, s);
    let next = run::after(out.len(), at, n);
    (options % 64).put(&mut *out, next);
    1 + n
}

// Filters one after the other, as far as there are both lengths and options, bits 6 and 7 of which are put as 0.
pub fn put_filters(
    out: &mut [u8],
    at: usize,
    bytes: &[u8],
    lengths: &[usize],
    options: &[u8],
) -> usize
    ensures { Put out.old at (flat fit_filter (filters_of (run_of bytes.now lengths.now) options.now)) out.new result }
{
    let mut n: usize = 0;
    let mut from: usize = 0;
    for (k, option) in lengths.iter().zip(options) {
        let to = run::after(out.len(), at, n);
        n += put_filter(&mut *out, to, run::piece(bytes, from, *k), *option);
        from = run::after(bytes.len(), from, *k);
    }
    n
}
