// A Subscribe of the file: its size, and written.
use crate::row::UNSET;
use crate::{expect, file, row};
use c_write::put_subscribe::{ecch_subscribe_size, ecch_subscribe_write};

fn called(
    f: &[u8],
    v: &[usize],
    lengths: &[usize],
    filter_lengths: &[usize],
    out: &mut [u8],
) -> usize {
    let pkid = file::medium(v, 2);
    let block = file::small(v, 3);
    let identifier_on = file::small(v, 4);
    let identifier = file::large(v, 5);
    let user = file::run(f, v, 6);
    let filters = file::run(f, v, 8);
    let options = file::run(f, v, 10);
    let mut sized = [UNSET; 3];
    let size = ecch_subscribe_size(
        pkid,
        block,
        identifier_on,
        identifier,
        user,
        lengths,
        filters,
        filter_lengths,
        options,
        &mut sized,
    );
    let mut written = [UNSET; 3];
    let refusal = ecch_subscribe_write(
        pkid,
        block,
        identifier_on,
        identifier,
        user,
        lengths,
        filters,
        filter_lengths,
        options,
        file::small(v, row::LIMITED),
        file::value(v, row::LIMIT),
        &mut *out,
        &mut written,
    );
    expect::answers(f, v, size, &sized, refusal, &written)
}

pub fn replay(f: &[u8], v: &[usize], out: &mut [u8]) -> usize {
    let lengths = file::lengths(f, v, 7);
    let filters = file::lengths(f, v, 9);
    called(
        f,
        v,
        file::of_lengths(&lengths),
        file::of_lengths(&filters),
        &mut *out,
    )
}
