// Text, character by character, after the Unicode table of well-formed sequences; and what the quicker tests above ask of single bytes.
#![tactic(auto)]

ghost use Rattle.std.specs.Prelude.{◌≡◌, ◌<◌, ◌≤◌, length, drop};
ghost use Rattle.reading.specs.Read.{is_text};
ghost use Rattle.text_chars.specs.Text.{continues, low_of, high_of, flaw_of, all_ascii, Followed, Passed};

use std::num;

// The least byte that may follow one that begins a character of three bytes or more.
pub fn low_of(b: u8) -> u8
    ensures { result ≡ low_of b }
{
    match b {
        0xE0 => 0xA0,
        0xF0 => 0x90,
        _ => 0x80,
    }
}

// The greatest.
pub fn high_of(b: u8) -> u8
    ensures { result ≡ high_of b }
{
    match b {
        0xED => 0x9F,
        0xF4 => 0x8F,
        _ => 0xBF,
    }
}

// Does a byte continue a character? 80 to BF do.
pub fn goes_on(b: u8) -> bool
    ensures { result ≡ continues b }
{
    num::wrapping_sub_u8(b, 0x80) < 0x40
}

// A byte whose top bit is set just where b is 0 or not ASCII. b is in 1..=127 just where b - 1, wrapped, is below 127: one comparison,
// which the compiler makes for sixteen bytes at once.
pub fn flaw(b: u8) -> u8
    ensures { result ≡ flaw_of b }
{
    if num::wrapping_sub_u8(b, 1) < 127 {
        return 0;
    }
    128
}

// Is each byte of a run ASCII, and none of them 0? All are asked, with no way out, so that the compiler tests a run of a known length at once.
pub fn is_ascii(run: &[u8]) -> bool
    ensures { result ≡ all_ascii run.now }
{
    let mut all = true;
    for b in run {
        all &= flaw(*b) < 128;
    }
    all
}

// Do N bytes follow at index `at`, the first of them from low to high, and the others any that continue a character?
fn follow<const N: usize>(s: &[u8], at: usize, low: u8, high: u8) -> bool
    requires { (0 < N) × (at ≤ length s.now) }
    ensures { Followed s.now at N low high result }
{
    if s.len() - at < N {
        return false;
    }
    let b = s[at];
    if b < low {
        return false;
    }
    if high < b {
        return false;
    }
    for i in 1..N {
        if !goes_on(s[at + i]) {
            return false;
        }
    }
    true
}

// The index after the character at `at`; `at` if none stands there.
fn next_char(s: &[u8], at: usize) -> usize
    requires { at < length s.now }
    ensures { Passed s.now at result }
{
    let b = s[at];
    if flaw(b) < 128 {
        return at + 1;
    }
    if b < 0xC2 {
        return at;
    }
    if b < 0xE0 {
        if follow::<1>(s, at + 1, 0x80, 0xBF) {
            return at + 2;
        }
        return at;
    }
    if b < 0xF0 {
        if follow::<2>(s, at + 1, low_of(b), high_of(b)) {
            return at + 3;
        }
        return at;
    }
    if b < 0xF5 {
        if follow::<3>(s, at + 1, low_of(b), high_of(b)) {
            return at + 4;
        }
    }
    at
}

// Are the bytes of `s` from index `at` on well-formed UTF-8 without U+0000? Character by character; ASCII, which most are, by one test each.
pub fn by_chars(s: &[u8], at: usize) -> bool
    ensures { result ≡ is_text (drop at s.now) }
{
    // a character takes one to four bytes: the index is a cursor
    let mut i = at;
    while i < s.len() {
        if flaw(s[i]) < 128 {
            i = i + 1;
        } else {
            let next = next_char(s, i);
            if next == i {
                return false;
            }
            i = next;
        }
    }
    true
}
