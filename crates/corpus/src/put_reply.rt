// A SubAck or UnsubAck of the file: its size, and written.
use crate::row::UNSET;
use crate::{expect, file, row};
use c_write::put_reply::{
    ecch_suback_size, ecch_suback_write, ecch_unsuback_size, ecch_unsuback_write,
};

fn size(f: &[u8], v: &[usize], lengths: &[usize], answer: &mut [u64]) -> u32 {
    let pkid = file::medium(v, 2);
    let block = file::small(v, 3);
    let reason_string_on = file::small(v, 4);
    let reason_string = file::run(f, v, 5);
    let user = file::run(f, v, 6);
    let reasons = file::run(f, v, 8);
    match file::small(v, row::TYPE) {
        9 => ecch_suback_size(
            pkid,
            block,
            reason_string_on,
            reason_string,
            user,
            lengths,
            reasons,
            &mut *answer,
        ),
        _ => ecch_unsuback_size(
            pkid,
            block,
            reason_string_on,
            reason_string,
            user,
            lengths,
            reasons,
            &mut *answer,
        ),
    }
}

fn write(f: &[u8], v: &[usize], lengths: &[usize], out: &mut [u8], answer: &mut [u64]) -> u32 {
    let pkid = file::medium(v, 2);
    let block = file::small(v, 3);
    let reason_string_on = file::small(v, 4);
    let reason_string = file::run(f, v, 5);
    let user = file::run(f, v, 6);
    let reasons = file::run(f, v, 8);
    let limited = file::small(v, row::LIMITED);
    let limit = file::value(v, row::LIMIT);
    match file::small(v, row::TYPE) {
        9 => ecch_suback_write(
            pkid,
            block,
            reason_string_on,
            reason_string,
            user,
            lengths,
            reasons,
            limited,
            limit,
            &mut *out,
            &mut *answer,
        ),
        _ => ecch_unsuback_write(
            pkid,
            block,
            reason_string_on,
            reason_string,
            user,
            lengths,
            reasons,
            limited,
            limit,
            &mut *out,
            &mut *answer,
        ),
    }
}

fn called(f: &[u8], v: &[usize], lengths: &[usize], out: &mut [u8]) -> usize {
    let mut sized = [UNSET; 3];
    let size = size(f, v, lengths, &mut sized);
    let mut written = [UNSET; 3];
    let refusal = write(f, v, lengths, &mut *out, &mut written);
    expect::answers(f, v, size, &sized, refusal, &written)
}

pub fn replay(f: &[u8], v: &[usize], out: &mut [u8]) -> usize {
    let lengths = file::lengths(f, v, 7);
    called(f, v, file::of_lengths(&lengths), &mut *out)
}
