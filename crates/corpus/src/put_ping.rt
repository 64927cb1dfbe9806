// A ping of the file: its size, and written.
use crate::row::UNSET;
use crate::{expect, file, row};
use c_write::put_ping::{ecch_ping_size, ecch_pingreq_write, ecch_pingresp_write};

fn write(v: &[usize], out: &mut [u8], answer: &mut [u64]) -> u32 {
    let limited = file::small(v, row::LIMITED);
    let limit = file::value(v, row::LIMIT);
    if file::value(v, row::TYPE) == 12 {
        return ecch_pingreq_write(limited, limit, &mut *out, &mut *answer);
    }
    ecch_pingresp_write(limited, limit, &mut *out, &mut *answer)
}

pub fn replay(f: &[u8], v: &[usize], out: &mut [u8]) -> usize {
    let mut sized = [UNSET; 3];
    let size = ecch_ping_size(&mut sized);
    let mut written = [UNSET; 3];
    let refusal = write(v, &mut *out, &mut written);
    expect::answers(f, v, size, &sized, refusal, &written)
}
