// An Unsubscribe of the file: its size, and written.
use crate::row::UNSET;
use crate::{expect, file, row};
use c_write::put_unsubscribe::{ecch_unsubscribe_size, ecch_unsubscribe_write};

fn called(
    f: &[u8],
    v: &[usize],
    lengths: &[usize],
    topic_lengths: &[usize],
    out: &mut [u8],
) -> usize {
    let pkid = file::medium(v, 2);
    let block = file::small(v, 3);
    let user = file::run(f, v, 4);
    let topics = file::run(f, v, 6);
    let mut sized = [UNSET; 3];
    let size = ecch_unsubscribe_size(
        pkid,
        block,
        user,
        lengths,
        topics,
        topic_lengths,
        &mut sized,
    );
    let mut written = [UNSET; 3];
    let refusal = ecch_unsubscribe_write(
        pkid,
        block,
        user,
        lengths,
        topics,
        topic_lengths,
        file::small(v, row::LIMITED),
        file::value(v, row::LIMIT),
        &mut *out,
        &mut written,
    );
    expect::answers(f, v, size, &sized, refusal, &written)
}

pub fn replay(f: &[u8], v: &[usize], out: &mut [u8]) -> usize {
    let lengths = file::lengths(f, v, 5);
    let topics = file::lengths(f, v, 7);
    called(
        f,
        v,
        file::of_lengths(&lengths),
        file::of_lengths(&topics),
        &mut *out,
    )
}
