// A row's fields and their indices.
use crate::file;

// 0 the type, 1 the class, 2 to 23 what the type has, as oracle/README.md lists it, and nothing behind it; from 24 on the write. A read and an
// item have their answer where a write has its.
pub const TYPE: usize = 0;

pub const CLASS: usize = 1;

pub const LIMITED: usize = 24;

pub const LIMIT: usize = 25;

pub const ROOM: usize = 26;

pub const FILL: usize = 27;

pub const SIZE: usize = 28;

pub const ANSWER: usize = 29;

pub const PUT: usize = 30;

// What is not as stored is told by its index, and by this if all is.
pub const AS_STORED: usize = 0;

// What an array holds before the call, to see that every number of the layout is set.
pub const UNSET: u64 = 12297829382473034410;

// The letters of file::walk.
fn fields(kind: u8) -> [u8; 31] {
    match kind {
        1 => *b"\x01\x08\x01\x04R\0\0\0\0\0\0\0\0\0\0\0\0\0\0\0\0\0\0\0\0\0\0\0\0A\0",
        2 => *b"\x01\x08\x01\x01\x04\x04\x04R\0\0\0\0\0\0\0\0\0\0\0\0\0\0\0\0\0\0\0\0\0A\0",
        3 =>
            *b"\x01\x08\x01\x01\x01\x02R\x01\x01\x01\x01\x04\x01\x02\x01R\x01RRLL\x01RR\x01\x04\x04\x01AAR",
        4..=7 => *b"\x01\x08\x02\x01\x01\x01RRL\0\0\0\0\0\0\0\0\0\0\0\0\0\0\0\x01\x04\x04\x01AAR",
        8 => *b"\x01\x08\x02\x01\x01\x04RLRLR\0\0\0\0\0\0\0\0\0\0\0\0\0\x01\x04\x04\x01AAR",
        9 | 11 => *b"\x01\x08\x02\x01\x01RRLR\0\0\0\0\0\0\0\0\0\0\0\0\0\0\0\x01\x04\x04\x01AAR",
        10 => *b"\x01\x08\x02\x01RLRL\0\0\0\0\0\0\0\0\0\0\0\0\0\0\0\0\x01\x04\x04\x01AAR",
        12 | 13 => *b"\x01\x08\0\0\0\0\0\0\0\0\0\0\0\0\0\0\0\0\0\0\0\0\0\0\x01\x04\x04\x01AAR",
        _ => [88; 31],
    }
}

// Keeps the row's fields, and gives the index after it; LOST if it cannot be read.
pub fn fields_at(f: &[u8], at: usize, v: &mut [usize]) -> usize {
    let letters = fields(file::byte(f, at, 0));
    file::walk(f, at, &letters, &mut *v)
}
