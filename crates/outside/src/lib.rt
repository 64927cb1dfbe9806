// What the programs ask of the system besides standard output: their words, a file by its name, a read, and a line of what failed. No clause can
// say which bytes come in: each function says how many there are at most.
#![tactic(auto)]

ghost use Rattle.std.specs.Prelude.{◌≡◌, ◌≤◌, length, replicate, pos, IfSome, IsNone, IsOk, IsUtf8};
ghost use Rattle.std.specs.IoError.{raw_os_error};
ghost use Rattle.std.specs.Counts.{IsPrefixLen};
ghost use Rattle.std.specs.Io.{ReadsAtMost};

use std::env::{Env, FillError};
use std::fs;
use std::fs::File;
use std::io::{Cursor, Error, Print, Read, Stderr, Stdin, Write};
use std::rt::Files;

// What a stream is read from.
#[derive(Drop)]
pub enum Source {
    Standard(Stdin),
    Named(File),
}

// 4,096 bytes: no name of a file is longer.
pub fn word_buffer() -> [u8; 4096]
    ensures { result ≡ replicate 4096 0 }
{
    [0; 4096]
}

// How many words the program is started with, its own name with them.
pub fn word_count(rt: &impl Env) -> usize {
    for n in 0..usize::MAX {
        if let Err(FillError::NotPresent) = rt.arg(n, &mut [0; 1]) {
            return n;
        }
    }
    usize::MAX
}

// Word i at the start of the buffer, and its length; `None` where the buffer does not hold it and a byte more, or there is none.
pub fn word(rt: &impl Env, i: usize, buf: &mut [u8]) -> Option<usize>
    ensures { IfSome result (λ n. IsPrefixLen n buf.new) }
{
    match rt.arg(i, buf) {
        Ok(n) if n < buf.len() => Some(n),
        _ => None,
    }
}

// The number that the system has for a name that is not in UTF-8, which `std` opens no file by.
const NO_TEXT: i32 = 84;

// Opens a file to read it.
pub fn open<R: Files>(rt: &R, name: &[u8]) -> Result<R::File, Error>
    ensures { IsOk result → IsUtf8 name.now }
{
    match std::str::from_utf8(name) {
        Ok(path) => fs::open(rt, path),
        Err(_) => Err(Error::from_raw_os_error(NO_TEXT)),
    }
}

// Reads once.
pub fn read(from: &mut Source, buf: &mut [u8]) -> Result<usize, Error>
    ensures { ReadsAtMost result buf.new }
{
    match from {
        Source::Standard(input) => input.read(buf),
        Source::Named(file) => file.read(buf),
    }
}

// Reads until the buffer is full, the file ends or a read fails, and gives how many bytes it put at the start of the buffer.
pub fn read_full(from: &mut impl Read, buf: &mut [u8]) -> usize
    ensures { IsPrefixLen result buf.new }
{
    // a read gives as many bytes as it likes: `done` is a cursor
    let mut done: usize = 0;
    while done < buf.len() {
        match from.read(&mut buf[done..]) {
            Ok(0) | Err(_) => return done,
            Ok(n) => done += n,
        }
    }
    done
}

// The number that the system has for what failed; 0 where it has none.
pub fn number_of(e: Error) -> i32
    ensures number { IfSome (raw_os_error e) (λ n. result ≡ n) }
    ensures none { IsNone (raw_os_error e) → result ≡ pos 0 }
{
    e.raw_os_error().unwrap_or(0)
}

// Where the words end that are followed by the number, as `std` writes an error of the system's.
fn words_end(text: &[u8]) -> usize
    ensures { result ≤ length text.now }
{
    let sign = b" (os error ".as_slice();
    text.windows(sign.len())
        .position(|w| w == sign)
        .unwrap_or(text.len())
}

// What `std` writes of the number, at the start of an array, and zeros behind it.
fn reason(number: i32) -> [u8; 128] {
    let e = Error::from_raw_os_error(number);
    let mut text = Cursor::new([0; 128]);
    let _ = write!(text, "{e}");
    text.into_inner()
}

// Words on standard error. Where that cannot be written there is nobody to tell.
pub fn tell(to: Stderr, words: &[u8]) {
    let _ = Print::write_all(&to, words);
}

// A line on standard error: what failed, and the system's words for the number.
pub fn fail(to: Stderr, what: &[u8], number: i32) {
    let text = reason(number);
    let n = words_end(&text);
    tell(to, what);
    tell(to, b": ");
    tell(to, &text[..n]);
    tell(to, b"\n");
}
