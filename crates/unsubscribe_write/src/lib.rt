// An Unsubscribe, written, after `write` and `size` of unsubscribe.rs: first every refusal and the size, touching nothing, then the bytes.
// An empty topic list is refused.
#![tactic(auto)]

mod topic;

ghost use Rattle.std.specs.Prelude.{◌≡◌, ◌++◌, map, ◌≤◌};
ghost use Rattle.grammar.specs.Octets.{Each};
ghost use Rattle.grammar.specs.Tables.{unsubscribe_row};
ghost use Rattle.writing.specs.Handed.{unsubscribe, unsubscribe_given, strings, belongs as belongsOf};
ghost use Rattle.writing.specs.Spell.{short, props_bytes};
ghost use Rattle.writing.specs.Size.{most, props_size, rest_is, cap};
ghost use Rattle.writing.specs.Order.{word};
ghost use Rattle.writing.specs.Refuse.{Writable};
ghost use Rattle.writing.specs.Write.{size_of, Written as WrittenOf};
ghost use Rattle.records.specs.AsNumbers.{limit_of};
ghost use Rattle.records.specs.Answered.{told_size};
ghost use Rattle.write_runs.specs.Given.{run as run_of};
ghost use Rattle.write_tests.specs.Tested.{told_tested};
ghost use Rattle.write_properties.specs.Behind.{Behind};
ghost use Rattle.write_order.specs.Found.{before_size, Stored};
ghost use Rattle.unsubscribe_write.specs.Handed.{handed};

use kinds;
use records::error::Error;
use write_belongs;
use write_lengths::put_length;
use write_numbers::fixed::Fixed;
use write_runs::run;

// What is handed over by value; the user properties and the topics are lent beside it.
#[derive(Clone, Copy)]
pub struct UnsubscribeHead {
    pub pkid: u16,
    // whether there are properties
    pub block: bool,
}

// False is 20: the user properties or the topics do not belong together.
fn belongs(
    m: UnsubscribeHead,
    user: &[u8],
    user_lengths: &[usize],
    topics: &[u8],
    topic_lengths: &[usize],
) -> bool
    ensures { result ≡ belongsOf (unsubscribe (handed m user.now user_lengths.now topics.now topic_lengths.now)) }
{
    write_belongs::both(
        write_belongs::pairs_belong(m.block, user, user_lengths),
        run::adds_up(topics, topic_lengths),
    )
}

// R, cut off where it is too large.
fn rest(
    m: UnsubscribeHead,
    user: &[u8],
    user_lengths: &[usize],
    topics: &[u8],
    topic_lengths: &[usize],
) -> usize
    ensures { result ≡ cap (rest_is (unsubscribe (handed m user.now user_lengths.now topics.now topic_lengths.now))) }
{
    let block = write_sizes::with_length(write_sizes::pairs_size(user, user_lengths));
    write_sizes::add(
        write_sizes::add(block, topic::topics_size(topics, topic_lengths)),
        2,
    )
}

// How many bytes the frame is: refused with 20, then 17 for R.
pub fn size(
    m: UnsubscribeHead,
    user: &[u8],
    user_lengths: &[usize],
    topics: &[u8],
    topic_lengths: &[usize],
) -> Result<usize, Error>
    ensures { told_size result ≡ size_of (unsubscribe (handed m user.now user_lengths.now topics.now topic_lengths.now)) }
{
    write_order::size(
        belongs(m, user, user_lengths, topics, topic_lengths),
        rest(m, user, user_lengths, topics, topic_lengths),
    )
}

// 20, then the fields.
fn before_size(
    m: UnsubscribeHead,
    user: &[u8],
    user_lengths: &[usize],
    topics: &[u8],
    topic_lengths: &[usize],
) -> Result<(), Error>
    ensures { told_tested result ≡ before_size (unsubscribe (handed m user.now user_lengths.now topics.now topic_lengths.now)) }
{
    if !belongs(m, user, user_lengths, topics, topic_lengths) {
        return Err(Error::ListMismatch);
    }
    write_tests::test_words(user, user_lengths)?;
    write_tests::test_words(topics, topic_lengths)
}

// L and the properties, where they can be written; gives the index behind them.
fn put_block(out: &mut [u8], at: usize, user: &[u8], user_lengths: &[usize]) -> usize
    ensures { props_size unsubscribe_row (unsubscribe_given (run_of user.now user_lengths.now)) ≤ most → Each Writable (map word (strings (run_of user.now user_lengths.now))) → Behind out.old at (short (props_size unsubscribe_row (unsubscribe_given (run_of user.now user_lengths.now))) ++ props_bytes unsubscribe_row (unsubscribe_given (run_of user.now user_lengths.now))) out.new result }
{
    let len = write_sizes::pairs_size(user, user_lengths);
    let n = put_length(&mut *out, at, len);
    let first = run::after(out.len(), at, n);
    let j = write_lists::put_pairs(&mut *out, first, user, user_lengths);
    run::after(out.len(), first, j)
}

// The frame, of what can be written.
fn put(
    out: &mut [u8],
    m: UnsubscribeHead,
    user: &[u8],
    user_lengths: &[usize],
    topics: &[u8],
    topic_lengths: &[usize],
)
    ensures { Stored (unsubscribe (handed m user.now user_lengths.now topics.now topic_lengths.now)) out.old out.new }
{
    let len = rest(m, user, user_lengths, topics, topic_lengths);
    let byte1 = kinds::first_byte(10);
    let n = write_properties::put_header(&mut *out, byte1, len);
    let first = run::after(out.len(), 0, n);
    m.pkid.put(&mut *out, first);
    let second = run::after(out.len(), first, 2);
    let third = put_block(&mut *out, second, user, user_lengths);
    topic::put_topics(&mut *out, third, topics, topic_lengths);
}

// The frame from index 0 on, and its size; a refused write leaves the output as it stood.
pub fn write(
    m: UnsubscribeHead,
    user: &[u8],
    user_lengths: &[usize],
    topics: &[u8],
    topic_lengths: &[usize],
    limit: Option<usize>,
    out: &mut [u8],
) -> Result<usize, Error>
    ensures { WrittenOf (limit_of limit) (unsubscribe (handed m user.now user_lengths.now topics.now topic_lengths.now)) out.old out.new (told_size result) }
{
    let fields = before_size(m, user, user_lengths, topics, topic_lengths);
    let len = rest(m, user, user_lengths, topics, topic_lengths);
    let end = topic::test_asked(topic_lengths);
    let n = write_order::settle(fields, len, limit, end, out.len())?;
    put(&mut *out, m, user, user_lengths, topics, topic_lengths);
    Ok(n)
}
