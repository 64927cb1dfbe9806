// A Subscribe: its size, and written.
ghost use Rattle.std.specs.Prelude.{◌≡◌};
ghost use Rattle.std.proofs.lemmas.List.Edits.{sets};
ghost use Rattle.writing.specs.Write.{sized_behind, answered_behind, out_behind};
ghost use Rattle.c_layout.specs.Value.{fit_number};
ghost use Rattle.c_layout.specs.Answer.{answer_numbers};
ghost use Rattle.c_arguments.specs.Given.{limit_given};
ghost use Rattle.c_heads.specs.By.{handed_by, subscribe_by};

use c_arguments::number::bound;
use c_calls::size::size_subscribe;
use c_calls::write::write_subscribe;
use c_heads::subscribe_by::subscribe_head;
use c_layout::answer::{store_size, store_written};

// The size of a Subscribe: 0, or the refusal's number: 20, its identifier with the flag off included, then its own order.
pub fn ecch_subscribe_size(
    pkid: u16,
    block: u8,
    identifier_on: u8,
    identifier: u32,
    user: &[u8],
    user_lengths: &[usize],
    filters: &[u8],
    filter_lengths: &[usize],
    options: &[u8],
    answer: &mut [u64],
) -> u32
    ensures number { result ≡ fit_number (sized_behind (handed_by (subscribe_by pkid block identifier_on identifier user.now user_lengths.now filters.now filter_lengths.now options.now))) }
    ensures stored { answer.new ≡ sets answer.old 0 (answer_numbers (sized_behind (handed_by (subscribe_by pkid block identifier_on identifier user.now user_lengths.now filters.now filter_lengths.now options.now)))) }
{
    let by = subscribe_head(pkid, block, identifier_on, identifier);
    let size = size_subscribe(by, user, user_lengths, filters, filter_lengths, options);
    store_size(size, &mut *answer)
}

// A Subscribe written: 0, or the refusal's number, in the same order.
pub fn ecch_subscribe_write(
    pkid: u16,
    block: u8,
    identifier_on: u8,
    identifier: u32,
    user: &[u8],
    user_lengths: &[usize],
    filters: &[u8],
    filter_lengths: &[usize],
    options: &[u8],
    limited: u8,
    limit: usize,
    out: &mut [u8],
    answer: &mut [u64],
) -> u32
    ensures number { result ≡ fit_number (answered_behind (handed_by (subscribe_by pkid block identifier_on identifier user.now user_lengths.now filters.now filter_lengths.now options.now)) (limit_given limited limit) out.old) }
    ensures output { out.new ≡ out_behind (handed_by (subscribe_by pkid block identifier_on identifier user.now user_lengths.now filters.now filter_lengths.now options.now)) (limit_given limited limit) out.old }
    ensures stored { answer.new ≡ sets answer.old 0 (answer_numbers (answered_behind (handed_by (subscribe_by pkid block identifier_on identifier user.now user_lengths.now filters.now filter_lengths.now options.now)) (limit_given limited limit) out.old)) }
{
    let by = subscribe_head(pkid, block, identifier_on, identifier);
    let written = write_subscribe(
        by,
        user,
        user_lengths,
        filters,
        filter_lengths,
        options,
        bound(limited, limit),
        &mut *out,
    );
    store_written(written, &mut *answer)
}
