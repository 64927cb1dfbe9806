// Rows of reads and items.
use crate::row::UNSET;
use crate::{expect, file, row};
use c_read::item::{
    ecch_filter, ecch_reason, ecch_subscription_identifier, ecch_topic, ecch_user_property,
};
use c_read::read::ecch_read;

// 2 limited, 3 limit, 4 stream
pub fn read(f: &[u8], v: &[usize]) -> usize {
    let mut record = [UNSET; 42];
    let limited = file::small(v, 2);
    let refusal = ecch_read(file::run(f, v, 4), limited, file::value(v, 3), &mut record);
    expect::answer(f, v, row::ANSWER, refusal, &record)
}

// No number of an answer.
const NO_LIST: u32 = 256;

// What an array holds before the call: numbers of the layout that are not set, and 0 behind them.
fn unset(list: u8) -> [u64; 6] {
    match list {
        38 => [UNSET, UNSET, UNSET, UNSET, 0, 0],
        9 | 11 => [UNSET, 0, 0, 0, 0, 0],
        10 => [UNSET, UNSET, 0, 0, 0, 0],
        _ => [UNSET; 6],
    }
}

// 2 list, 3 kind, 4 start, 5 length, 6 n, 7 stream
fn item_number(f: &[u8], v: &[usize], list: u8, into: &mut [u64]) -> u32 {
    let stream = file::run(f, v, 7);
    let kind = file::small(v, 3);
    let start = file::value(v, 4);
    let len = file::value(v, 5);
    let n = file::value(v, 6);
    match list {
        38 => ecch_user_property(stream, kind, start, len, n, &mut *into),
        11 => ecch_subscription_identifier(stream, start, len, n, &mut *into),
        0 => ecch_filter(stream, start, len, n, &mut *into),
        9 => ecch_reason(stream, kind, start, len, n, &mut *into),
        10 => ecch_topic(stream, start, len, n, &mut *into),
        _ => NO_LIST,
    }
}

pub fn item(f: &[u8], v: &[usize]) -> usize {
    let list = file::small(v, 2);
    let mut item = unset(list);
    let refusal = item_number(f, v, list, &mut item);
    expect::answer(f, v, row::ANSWER, refusal, &item)
}
