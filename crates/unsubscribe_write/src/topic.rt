// The topics of an Unsubscribe as they are written, after unsubscribe.rs: their size, whether there is one, and their bytes. Their tests
// are those of user properties (`write_tests`).
ghost use Rattle.std.specs.Prelude.{◌≡◌, not, List, [], ℕ};
ghost use Rattle.grammar.specs.Choice.{is_empty};
ghost use Rattle.reading.specs.Refusal.{nr};
ghost use Rattle.reading.specs.Reader.{guard};
ghost use Rattle.writing.specs.Lists.{flat};
ghost use Rattle.writing.specs.Handed.{strings};
ghost use Rattle.writing.specs.Size.{topics_size, cap};
ghost use Rattle.write_runs.specs.Given.{run as run_of};
ghost use Rattle.write_tests.specs.Tested.{told_tested};
ghost use Rattle.write_strings.specs.Fitting.{fit_string};
ghost use Rattle.write_properties.specs.Put.{Put};

use records::error::Error;
use write_runs::run;
use write_strings::put_string;

// Their bytes, cut off where they are too many: a topic has two bytes of length.
pub fn topics_size(bytes: &[u8], lengths: &[usize]) -> usize
    ensures { result ≡ cap (topics_size (run_of bytes.now lengths.now)) }
{
    let n = lengths.len();
    write_sizes::add(write_sizes::add(n, n), bytes.len())
}

// 13 if there is no topic.
pub fn test_asked(lengths: &[usize]) -> Result<(), Error>
    ensures { (bytes : List ℕ) → told_tested result ≡ guard (not (is_empty (strings (run_of bytes lengths.now)))) (nr 13 []) }
{
    if lengths.len() == 0 {
        return Err(Error::EmptySubscription);
    }
    Ok(())
}

// Topics one after the other, as the lengths cut the run, of one that does not fit nothing.
pub fn put_topics(out: &mut [u8], at: usize, bytes: &[u8], lengths: &[usize]) -> usize
    ensures { Put out.old at (flat fit_string (strings (run_of bytes.now lengths.now))) out.new result }
{
    let mut n: usize = 0;
    let mut from: usize = 0;
    for k in lengths {
        let to = run::after(out.len(), at, n);
        n += put_string(&mut *out, to, run::piece(bytes, from, *k));
        from = run::after(bytes.len(), from, *k);
    }
    n
}
