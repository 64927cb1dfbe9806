// A Publish of the file: its size, and written.
use crate::row::UNSET;
use crate::{expect, file, row};
use c_write::put_publish::{ecch_publish_size, ecch_publish_write};

fn called(f: &[u8], v: &[usize], lengths: &[usize], ids: &[u32], out: &mut [u8]) -> usize {
    let dup = file::small(v, 2);
    let qos = file::small(v, 3);
    let retain = file::small(v, 4);
    let pkid = file::medium(v, 5);
    let topic = file::run(f, v, 6);
    let block = file::small(v, 7);
    let format_on = file::small(v, 8);
    let format = file::small(v, 9);
    let expiry_on = file::small(v, 10);
    let expiry = file::large(v, 11);
    let alias_on = file::small(v, 12);
    let alias = file::medium(v, 13);
    let response_on = file::small(v, 14);
    let response = file::run(f, v, 15);
    let correlation_on = file::small(v, 16);
    let correlation = file::run(f, v, 17);
    let user = file::run(f, v, 18);
    let content_on = file::small(v, 21);
    let content = file::run(f, v, 22);
    let payload = file::run(f, v, 23);
    let mut sized = [UNSET; 3];
    let size = ecch_publish_size(
        dup,
        qos,
        retain,
        pkid,
        topic,
        block,
        format_on,
        format,
        expiry_on,
        expiry,
        alias_on,
        alias,
        response_on,
        response,
        correlation_on,
        correlation,
        user,
        lengths,
        ids,
        content_on,
        content,
        payload,
        &mut sized,
    );
    let mut written = [UNSET; 3];
    let refusal = ecch_publish_write(
        dup,
        qos,
        retain,
        pkid,
        topic,
        block,
        format_on,
        format,
        expiry_on,
        expiry,
        alias_on,
        alias,
        response_on,
        response,
        correlation_on,
        correlation,
        user,
        lengths,
        ids,
        content_on,
        content,
        payload,
        file::small(v, row::LIMITED),
        file::value(v, row::LIMIT),
        &mut *out,
        &mut written,
    );
    expect::answers(f, v, size, &sized, refusal, &written)
}

pub fn replay(f: &[u8], v: &[usize], out: &mut [u8]) -> usize {
    let lengths = file::lengths(f, v, 19);
    let ids = file::identifiers(f, v, 20);
    called(
        f,
        v,
        file::of_lengths(&lengths),
        file::of_identifiers(&ids),
        &mut *out,
    )
}
