// What is said on standard error.
use records::error::Error;
use records::span::Span;
use std::io::{Print, Stderr};
use wire::string;

pub fn words(to: Stderr, w: &[u8]) {
    outside::tell(to, w);
}

// Words, and a number behind them.
fn number(to: Stderr, w: &[u8], n: u64) {
    words(to, w);
    let _ = to.print(n);
}

// What failed, and why.
pub fn fail(to: Stderr, name: &[u8], number: i32) {
    words(to, b"desk: ");
    outside::fail(to, name, number);
}

fn line(to: Stderr, out: &[u8], len: usize) {
    words(to, string::part(out, Span { start: 0, len }));
}

// The line of a refusal, as `desk` has it.
pub fn refused(to: Stderr, offset: u64, e: Error, taken: usize) {
    let mut out = outside::word_buffer();
    let len = desk_lines::put_refused(&mut out, offset, e, taken);
    line(to, &out, len);
}

// A frame that the buffer does not hold, as `desk` says it.
pub fn too_long(to: Stderr, offset: u64, size: u64, most: u64) {
    let mut out = outside::word_buffer();
    let len = desk_lines::put_too_long(&mut out, offset, size, most);
    line(to, &out, len);
}

// How many frames were refused, and how many bytes of the stream are behind.
pub fn summary(to: Stderr, refused: u64, bytes: u64) {
    number(to, b"desk: refused=", refused);
    number(to, b" bytes=", bytes);
    words(to, b"\n");
}

pub fn not_whole(to: Stderr) {
    words(
        to,
        b"desk: cut or damaged: the archive has not the whole stream\n",
    );
}
