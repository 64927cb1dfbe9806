// An Unsubscribe: its size, and written.
ghost use Rattle.std.specs.Prelude.{◌≡◌, length};
ghost use Rattle.std.proofs.lemmas.List.Edits.{sets};
ghost use Rattle.writing.specs.Handed.{unsubscribe};
ghost use Rattle.writing.specs.Write.{size_of, answer_of, out_of};
ghost use Rattle.c_layout.specs.Value.{fit_number};
ghost use Rattle.c_layout.specs.Answer.{answer_numbers};
ghost use Rattle.c_arguments.specs.Given.{limit_given};
ghost use Rattle.c_heads.specs.By.{unsubscribe_by};

use c_arguments::number::bound;
use c_heads::unsubscribe_by::unsubscribe_head;
use c_layout::answer::{store_size, store_written};

// The size of an Unsubscribe: 0, or the refusal's number.
pub fn ecch_unsubscribe_size(
    pkid: u16,
    block: u8,
    user: &[u8],
    user_lengths: &[usize],
    topics: &[u8],
    topic_lengths: &[usize],
    answer: &mut [u64],
) -> u32
    ensures number { result ≡ fit_number (size_of (unsubscribe (unsubscribe_by pkid block user.now user_lengths.now topics.now topic_lengths.now))) }
    ensures stored { answer.new ≡ sets answer.old 0 (answer_numbers (size_of (unsubscribe (unsubscribe_by pkid block user.now user_lengths.now topics.now topic_lengths.now)))) }
{
    let head = unsubscribe_head(pkid, block);
    let size = unsubscribe_write::size(head, user, user_lengths, topics, topic_lengths);
    store_size(size, &mut *answer)
}

// An Unsubscribe written: 0, or the refusal's number.
pub fn ecch_unsubscribe_write(
    pkid: u16,
    block: u8,
    user: &[u8],
    user_lengths: &[usize],
    topics: &[u8],
    topic_lengths: &[usize],
    limited: u8,
    limit: usize,
    out: &mut [u8],
    answer: &mut [u64],
) -> u32
    ensures number { result ≡ fit_number (answer_of (limit_given limited limit) (length out.old) (unsubscribe (unsubscribe_by pkid block user.now user_lengths.now topics.now topic_lengths.now))) }
    ensures output { out.new ≡ out_of (limit_given limited limit) out.old (unsubscribe (unsubscribe_by pkid block user.now user_lengths.now topics.now topic_lengths.now)) }
    ensures stored { answer.new ≡ sets answer.old 0 (answer_numbers (answer_of (limit_given limited limit) (length out.old) (unsubscribe (unsubscribe_by pkid block user.now user_lengths.now topics.now topic_lengths.now)))) }
{
    let head = unsubscribe_head(pkid, block);
    let written = unsubscribe_write::write(
        head,
        user,
        user_lengths,
        topics,
        topic_lengths,
        bound(limited, limit),
        &mut *out,
    );
    store_written(written, &mut *answer)
}
