// Runs every row of 01's table "Frames on the bench", frames of 02's kinds and rules, a line for each frame, and counts them. The file stdout
// was written from the table and the rules.
#![tactic(auto)]

mod show;

use packet;

fn answer(s: &[u8], limit: Option<usize>) {
    match packet::read(s, limit) {
        Ok((p, _, taken)) => {
            show::packet(s, p);
            show::taken(taken);
        }
        Err((e, taken)) => show::refused(e, taken),
    }
}

// The answer to the frame s; gives the count of rows.
fn row(rows: u64, s: &[u8], limit: Option<usize>) -> u64 {
    io::write_all(1, b"frame");
    show::bytes(s);
    show::limit(limit);
    io::write_all(1, b":");
    answer(s, limit);
    std::num::wrapping_add_u64(rows, 1)
}

// The frames of a table, each behind a byte with its length.
fn frames(rows: u64, table: &[u8]) -> u64 {
    let mut n = rows;
    let mut rest = table;
    while let Some((len, behind)) = rest.split_first() {
        let (frame, next) = behind.split_at(behind.len().min(*len as usize));
        n = row(n, frame, None);
        rest = next;
    }
    n
}

// A frame under two limits: the one below its size, and its size.
fn limits(rows: u64, frame: &[u8], below: usize, size: usize) -> u64 {
    let n = row(rows, frame, Some(below));
    row(n, frame, Some(size))
}

// 01's table "Frames on the bench", with 02's limit.
fn bench(rows: u64) -> u64 {
    let first = frames(
        rows,
        b"\x00\
        \x01\x30\
        \x02\x30\x80\
        \x05\x30\x80\x80\x80\x80\
        \x02\xF0\x00\
        \x02\x30\x00\
        \x02\xC0\x00\
        \x0A\x30\x08\x00\x03\x61\x2F\x62\x00\x68\x69",
    );
    let limited = limits(first, b"\x30\x08\x00\x03\x61\x2F\x62\x00\x68\x69", 9, 10);
    frames(
        limited,
        b"\x08\x32\x06\x00\x01\x61\x00\x00\x00\
        \x0D\x30\x0B\x00\x01\x61\x06\x0B\x01\x0B\x02\x0B\x03\x07\
        \x08\x30\x06\x00\x01\x61\x01\x01\x00\
        \x05\x30\x03\x00\x01\x61\
        \x09\x82\x07\x00\x01\x00\x00\x01\x61\x01\
        \x09\x82\x07\x00\x01\x00\x00\x01\x61\x33\
        \x05\x82\x03\x00\x01\x00\
        \x04\x40\x02\x00\x0A\
        \x05\x40\x03\x00\x0A\x10",
    )
}

// 02's six kinds.
fn six(rows: u64) -> u64 {
    frames(
        rows,
        b"\x04\x5F\x02\x00\x00\
        \x05\x50\x03\x00\x0A\x99\
        \x05\x50\x03\x00\x0A\x92\
        \x0A\x60\x08\x00\x0A\x92\x04\x1F\x00\x01\x61\
        \x05\x62\x03\x00\x0A\x10\
        \x05\x70\x03\x00\x0A\x92\
        \x07\x70\x05\x00\x0A\x00\x00\x00\
        \x07\x9F\x05\x00\x00\x00\x02\xA2\
        \x04\x90\x02\x00\x01\
        \x05\x90\x03\x00\x01\x00\
        \x07\x90\x05\x00\x01\x00\x00\x11\
        \x08\x90\x06\x00\x01\x02\x0B\x01\x03\
        \x02\x90\x00\
        \x0C\xB0\x0A\x00\x01\x05\x26\x00\x00\x00\x00\x11\x00\
        \x06\xB0\x04\x00\x01\x00\x01\
        \x0A\xA0\x08\x00\x00\x00\x00\x01\x61\x00\x00\
        \x05\xA2\x03\x00\x01\x00\
        \x07\xA2\x05\x00\x01\x02\x0B\x01\
        \x08\xA2\x06\x00\x01\x00\x00\x01\xFF\
        \x06\xA2\x04\x00\x01\x00\x00",
    )
}

// 02's rules: the limit counts the frame; a number with a byte too many is 2, a doubled property 22, identifier 0 23, U+0000 in a text 9.
fn rules(rows: u64) -> u64 {
    let limited = limits(rows, b"\xC0\x00", 1, 2);
    frames(
        limited,
        b"\x03\x30\x80\x00\
        \x07\x40\x05\x00\x0A\x10\x80\x00\
        \x0A\x30\x08\x00\x00\x05\x01\x00\x01\x00\xFF\
        \x08\x30\x06\x00\x00\x03\x01\x00\x01\
        \x09\x30\x07\x00\x00\x04\x01\x00\x00\x01\
        \x0D\x82\x0B\x00\x01\x04\x0B\x01\x0B\x00\x00\x01\x61\x00\
        \x0C\x70\x0A\x00\x01\x00\x06\x1F\x00\x00\x1F\x00\x00\
        \x0C\x90\x0A\x00\x01\x06\x1F\x00\x00\x1F\x00\x00\x00\
        \x07\x30\x05\x00\x00\x02\x0B\x00\
        \x09\x82\x07\x00\x01\x00\x00\x01\x00\x00\
        \x08\xA2\x06\x00\x01\x00\x00\x01\x00\
        \x06\x30\x04\x00\x01\x00\x00",
    )
}

fn main() {
    let rows = rules(six(bench(0)));
    show::number(b"", rows);
    io::write_all(1, b" frames\n");
}
