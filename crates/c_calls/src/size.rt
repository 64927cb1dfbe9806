// The size of what a head and the lists beside it hand over: the lists are those of the writer of the kind, in its order.
ghost use Rattle.std.specs.Prelude.{◌≡◌};
ghost use Rattle.records.specs.Answered.{told_size};
ghost use Rattle.c_heads.specs.By.{behind};
ghost use Rattle.c_heads.specs.Head.{publish_handed, subscribe_handed};
ghost use Rattle.writing.specs.Write.{sized_behind};

use crate::first::mismatch_or;
use c_heads::publish_by::PublishBy;
use c_heads::subscribe_by::SubscribeBy;
use records::error::Error;

// The size of what the head and the lists hand over, after 20 and 11.
pub fn size_publish(
    by: PublishBy,
    topic: &[u8],
    response: &[u8],
    correlation: &[u8],
    user: &[u8],
    user_lengths: &[usize],
    identifiers: &[u32],
    content: &[u8],
    payload: &[u8],
) -> Result<usize, Error>
    ensures { told_size result ≡ sized_behind (behind (publish_handed by topic.now response.now correlation.now user.now user_lengths.now identifiers.now content.now payload.now)) }
{
    let head = by.head;
    let quality = by.quality;
    if !by.zeros {
        return Err(Error::ListMismatch);
    }
    match quality {
        Err(e) => Err(mismatch_or(
            e,
            head,
            response,
            correlation,
            user,
            user_lengths,
            identifiers,
            content,
        )),
        Ok(()) => publish_write::size(
            head,
            topic,
            response,
            correlation,
            user,
            user_lengths,
            identifiers,
            content,
            payload,
        ),
    }
}

// The size of a Subscribe, after 20 for its identifier.
pub fn size_subscribe(
    by: SubscribeBy,
    user: &[u8],
    user_lengths: &[usize],
    filters: &[u8],
    filter_lengths: &[usize],
    options: &[u8],
) -> Result<usize, Error>
    ensures { told_size result ≡ sized_behind (behind (subscribe_handed by user.now user_lengths.now filters.now filter_lengths.now options.now)) }
{
    let head = by.head;
    if !by.zeros {
        return Err(Error::ListMismatch);
    }
    subscribe_write::size(head, user, user_lengths, filters, filter_lengths, options)
}
