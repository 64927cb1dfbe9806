// What a head and the lists beside it hand over, written; what is refused touches nothing.
ghost use Rattle.records.specs.AsNumbers.{limit_of};
ghost use Rattle.records.specs.Answered.{told_size};
ghost use Rattle.c_heads.specs.By.{behind};
ghost use Rattle.c_heads.specs.Head.{publish_handed, subscribe_handed};
ghost use Rattle.writing.specs.Write.{WrittenBehind};

use crate::first::mismatch_or;
use c_heads::publish_by::PublishBy;
use c_heads::subscribe_by::SubscribeBy;
use records::error::Error;

// The same written: the answer and every byte of the output.
pub fn write_publish(
    by: PublishBy,
    topic: &[u8],
    response: &[u8],
    correlation: &[u8],
    user: &[u8],
    user_lengths: &[usize],
    identifiers: &[u32],
    content: &[u8],
    payload: &[u8],
    limit: Option<usize>,
    out: &mut [u8],
) -> Result<usize, Error>
    ensures { WrittenBehind (limit_of limit) (behind (publish_handed by topic.now response.now correlation.now user.now user_lengths.now identifiers.now content.now payload.now)) out.old out.new (told_size result) }
{
    let head = by.head;
    let quality = by.quality;
    if !by.zeros {
        return Err(Error::ListMismatch);
    }
    match quality {
        Err(e) => Err(mismatch_or(
            e,
            head,
            response,
            correlation,
            user,
            user_lengths,
            identifiers,
            content,
        )),
        Ok(()) => publish_write::write(
            head,
            topic,
            response,
            correlation,
            user,
            user_lengths,
            identifiers,
            content,
            payload,
            limit,
            &mut *out,
        ),
    }
}

// The same written: the answer and every byte of the output.
pub fn write_subscribe(
    by: SubscribeBy,
    user: &[u8],
    user_lengths: &[usize],
    filters: &[u8],
    filter_lengths: &[usize],
    options: &[u8],
    limit: Option<usize>,
    out: &mut [u8],
) -> Result<usize, Error>
    ensures { WrittenBehind (limit_of limit) (behind (subscribe_handed by user.now user_lengths.now filters.now filter_lengths.now options.now)) out.old out.new (told_size result) }
{
    let head = by.head;
    if !by.zeros {
        return Err(Error::ListMismatch);
    }
    subscribe_write::write(
        head,
        user,
        user_lengths,
        filters,
        filter_lengths,
        options,
        limit,
        &mut *out,
    )
}
