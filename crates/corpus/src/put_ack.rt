// An acknowledgement of the file, of one of the four kinds: its size, and written.
use crate::row::UNSET;
use crate::{expect, file, row};
use c_write::put_ack::{
    ecch_puback_size, ecch_puback_write, ecch_pubcomp_size, ecch_pubcomp_write, ecch_pubrec_size,
    ecch_pubrec_write, ecch_pubrel_size, ecch_pubrel_write,
};

fn size(f: &[u8], v: &[usize], lengths: &[usize], answer: &mut [u64]) -> u32 {
    let pkid = file::medium(v, 2);
    let reason = file::small(v, 3);
    let block = file::small(v, 4);
    let reason_string_on = file::small(v, 5);
    let reason_string = file::run(f, v, 6);
    let user = file::run(f, v, 7);
    match file::small(v, row::TYPE) {
        4 => ecch_puback_size(
            pkid,
            reason,
            block,
            reason_string_on,
            reason_string,
            user,
            lengths,
            &mut *answer,
        ),
        5 => ecch_pubrec_size(
            pkid,
            reason,
            block,
            reason_string_on,
            reason_string,
            user,
            lengths,
            &mut *answer,
        ),
        6 => ecch_pubrel_size(
            pkid,
            reason,
            block,
            reason_string_on,
            reason_string,
            user,
            lengths,
            &mut *answer,
        ),
        _ => ecch_pubcomp_size(
            pkid,
            reason,
            block,
            reason_string_on,
            reason_string,
            user,
            lengths,
            &mut *answer,
        ),
    }
}

fn write(f: &[u8], v: &[usize], lengths: &[usize], out: &mut [u8], answer: &mut [u64]) -> u32 {
    let pkid = file::medium(v, 2);
    let reason = file::small(v, 3);
    let block = file::small(v, 4);
    let reason_string_on = file::small(v, 5);
    let reason_string = file::run(f, v, 6);
    let user = file::run(f, v, 7);
    let limited = file::small(v, row::LIMITED);
    let limit = file::value(v, row::LIMIT);
    match file::small(v, row::TYPE) {
        4 => ecch_puback_write(
            pkid,
            reason,
            block,
            reason_string_on,
            reason_string,
            user,
            lengths,
            limited,
            limit,
            &mut *out,
            &mut *answer,
        ),
        5 => ecch_pubrec_write(
            pkid,
            reason,
            block,
            reason_string_on,
            reason_string,
            user,
            lengths,
            limited,
            limit,
            &mut *out,
            &mut *answer,
        ),
        6 => ecch_pubrel_write(
            pkid,
            reason,
            block,
            reason_string_on,
            reason_string,
            user,
            lengths,
            limited,
            limit,
            &mut *out,
            &mut *answer,
        ),
        _ => ecch_pubcomp_write(
            pkid,
            reason,
            block,
            reason_string_on,
            reason_string,
            user,
            lengths,
            limited,
            limit,
            &mut *out,
            &mut *answer,
        ),
    }
}

fn called(f: &[u8], v: &[usize], lengths: &[usize], out: &mut [u8]) -> usize {
    let mut sized = [UNSET; 3];
    let size = size(f, v, lengths, &mut sized);
    let mut written = [UNSET; 3];
    let refusal = write(f, v, lengths, &mut *out, &mut written);
    expect::answers(f, v, size, &sized, refusal, &written)
}

pub fn replay(f: &[u8], v: &[usize], out: &mut [u8]) -> usize {
    let lengths = file::lengths(f, v, 8);
    called(f, v, file::of_lengths(&lengths), &mut *out)
}
