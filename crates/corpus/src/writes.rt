// Rows of writes.
use crate::{
    expect, file, put_ack, put_ping, put_publish, put_reply, put_subscribe, put_unsubscribe, row,
};

fn of_kind(f: &[u8], v: &[usize], out: &mut [u8]) -> usize {
    match file::small(v, row::TYPE) {
        3 => put_publish::replay(f, v, &mut *out),
        4..=7 => put_ack::replay(f, v, &mut *out),
        8 => put_subscribe::replay(f, v, &mut *out),
        9 | 11 => put_reply::replay(f, v, &mut *out),
        10 => put_unsubscribe::replay(f, v, &mut *out),
        _ => put_ping::replay(f, v, &mut *out),
    }
}

// Into the first bytes of the output, as many as the row has room for. A row with more room than the output is not as stored.
fn in_room(f: &[u8], v: &[usize], out: &mut [u8]) -> usize {
    let room = file::value(v, row::ROOM);
    if out.len() < room {
        return row::ANSWER;
    }
    of_kind(f, v, &mut out[..room])
}

pub fn write(f: &[u8], v: &[usize]) -> usize {
    let fill = file::small(v, row::FILL);
    let mut out = expect::filled(fill);
    let fault = in_room(f, v, &mut out);
    if fault != row::AS_STORED {
        return fault;
    }
    if expect::is_output(&out, file::run(f, v, row::PUT), fill) {
        return row::AS_STORED;
    }
    row::PUT
}
