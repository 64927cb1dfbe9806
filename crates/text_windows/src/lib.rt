// Text by windows: each byte is held against the three before it, sixteen at a time and with no branch.
#![tactic(auto)]

ghost use Rattle.std.specs.Prelude.{◌≡◌, ◌+◌, ◌-◌, ◌<◌, ◌≤◌, true, not, ltb, length, if◌then◌else◌, ◌==◌, nat_lt};
ghost use Rattle.reading.specs.Read.{is_text};
ghost use Rattle.text_chars.specs.Text.{continues};
ghost use Rattle.text_windows.specs.Window.{due, only_if, second, fits, used, due_at, Fit, Fitted, FitTo, AsciiTo};

use std::num;

// The index after the chunks of N bytes, from the first on, that are ASCII.
fn pass_ascii<const N: usize>(s: &[u8]) -> usize
    requires { 0 < N }
    ensures { AsciiTo s.now result }
{
    // by index: a chunk is tested at once, which byte by byte misses the bar of speed
    let mut i: usize = 0;
    while N <= s.len() - i {
        if !text_chars::is_ascii(&s[i..i + N]) {
            return i;
        }
        i = i + N;
    }
    i
}

// Where the bytes before index `at` are ASCII: are the others, if less than 128 are left? The last 128 may overlap the chunk before them.
fn is_rest_ascii(s: &[u8], at: usize) -> bool
    requires { AsciiTo s.now at }
    ensures { result ≡ true → is_text s.now ≡ true }
{
    if at < 128 || 128 <= s.len() - at {
        return false;
    }
    text_chars::is_ascii(&s[s.len() - 128..])
}

// A byte is marked if its top bit is set. This one just where b is n + 128 or more.
fn over(b: u8, n: u8) -> u8
    ensures { nat_lt result 128 ≡ nat_lt b (n + 128) }
{
    if b < n {
        return 0;
    }
    b - n
}

// v if a is b, else 0.
fn when(a: u8, b: u8, v: u8) -> u8
    ensures { nat_lt result 128 ≡ only_if (a == b) (nat_lt v 128) }
{
    if a == b {
        return v;
    }
    0
}

// Marked just where a byte that continues a character is due after r, q and p.
fn owed(r: u8, q: u8, p: u8) -> u8
    ensures { nat_lt result 128 ≡ not (due r q p) }
{
    over(p, 0x40) | over(q, 0x60) | over(r, 0x70)
}

// Marked just where b continues a character and none is due, or the other way round; `owes` is marked where one is due.
fn astray(owes: u8, b: u8) -> u8
    ensures { nat_lt result 128 ≡ (if ltb owes 128 then not (continues b) else continues b) }
{
    if text_chars::goes_on(b) {
        if owes < 128 {
            return 255;
        }
        return 0;
    }
    if owes < 128 {
        return 0;
    }
    255
}

// Marked just where b is in no text: 0, C0, C1, F5 and above.
fn unused(b: u8) -> u8
    ensures { nat_lt result 128 ≡ used b }
{
    over(num::wrapping_sub_u8(b, 1), 0x74) | when(b, 0xC0, 255) | when(b, 0xC1, 255)
}

// Marked just where b is outside of the narrower second cell that p asks for: E0 from A0 on, ED below it, F0 from 90 on, F4 below it.
fn outside(p: u8, b: u8) -> u8
    ensures { nat_lt result 128 ≡ second p b }
{
    let x = over(b, 0x20);
    let y = over(b, 0x10);
    when(p, 0xE0, 255 - x) | when(p, 0xED, x) | when(p, 0xF0, 255 - y) | when(p, 0xF4, y)
}

// Marked just where b does not fit behind r, q and p.
fn misfit(r: u8, q: u8, p: u8, b: u8) -> u8
    ensures { nat_lt result 128 ≡ fits r q p b }
{
    astray(owed(r, q, p), b) | unused(b) | outside(p, b)
}

// Does b fit behind r, q and p? With a way out: for single bytes.
fn is_fitting(r: u8, q: u8, p: u8, b: u8) -> bool
    ensures { result ≡ fits r q p b }
{
    if 128 <= owed(r, q, p) {
        if b < text_chars::low_of(p) {
            return false;
        }
        return b <= text_chars::high_of(p);
    }
    if b < 0x80 {
        return 0 < b;
    }
    if b < 0xC2 {
        return false;
    }
    b < 0xF5
}

// Do the first three bytes fit?
fn fit_three(s: &[u8]) -> bool
    requires { 3 ≤ length s.now }
    ensures { Fitted s.now 0 3 result }
{
    let b = s[0];
    let c = s[1];
    if !is_fitting(0, 0, 0, b) {
        return false;
    }
    if !is_fitting(0, 0, b, c) {
        return false;
    }
    is_fitting(0, b, c, s[2])
}

// Does each of the n bytes from index `at` + 3 on fit behind the three before it?
fn fit_run(s: &[u8], at: usize, n: usize) -> bool
    requires { at + 3 + n ≤ length s.now }
    ensures { Fitted s.now (at + 3) (at + 3 + n) result }
{
    let mut all: u8 = 0;
    for k in 0..n {
        all |= misfit(s[at + k], s[at + k + 1], s[at + k + 2], s[at + k + 3]);
    }
    all < 128
}

// Is every character before index `at` whole, where the bytes before it fit? One that ends in ASCII is.
fn is_whole(s: &[u8], at: usize) -> bool
    requires { (3 ≤ at) × (at ≤ length s.now) × Fit s.now 0 at }
    ensures { result ≡ not (due_at s.now at) }
{
    let p = s[at - 1];
    if p < 0x80 {
        return true;
    }
    if 0xC0 <= p {
        return false;
    }
    if 0xE0 <= s[at - 2] {
        return false;
    }
    s[at - 3] < 0xF0
}

// Do the sixteen bytes from index `at` on fit? They do if they are ASCII, and no byte is due before them.
fn fit_sixteen(s: &[u8], at: usize) -> bool
    requires { (3 ≤ at) × (at + 16 ≤ length s.now) × Fit s.now 0 at }
    ensures { Fitted s.now at (at + 16) result }
{
    if text_chars::is_ascii(&s[at..at + 16]) {
        return is_whole(s, at);
    }
    fit_run(s, at - 3, 16)
}

// Where sixteen bytes begin that hold the one at index `at`: there, or so that they are the last.
fn start_of(s: &[u8], at: usize) -> usize
    requires { (3 ≤ at) × (at ≤ length s.now) × (19 ≤ length s.now) }
    ensures { (3 ≤ result) × (result ≤ at) × (result + 16 ≤ length s.now) × (at < length s.now → at < result + 16) }
{
    if 16 <= s.len() - at {
        return at;
    }
    s.len() - 16
}

// The index after the sixteens from index `at` on to `stop`, where those before it fit; 0 if one does not fit. The last may overlap.
fn pass_sixteens(s: &[u8], at: usize, stop: usize) -> usize
    requires { (3 ≤ at) × (at ≤ length s.now) × (19 ≤ length s.now) × (stop ≤ length s.now) × Fit s.now 0 at }
    ensures { FitTo s.now stop result }
{
    // by index: the last sixteen may overlap those before them
    let mut i = at;
    while i < stop {
        let start = start_of(s, i);
        if !fit_sixteen(s, start) {
            return 0;
        }
        i = start + 16;
    }
    i
}

// The index after the chunks of 64 bytes from index `at` on that are ASCII, where the bytes before it fit.
fn pass_plain(s: &[u8], at: usize) -> usize
    requires { (3 ≤ at) × (at ≤ length s.now) × Fit s.now 0 at }
    ensures { (at ≤ result) × (result ≤ length s.now) × Fit s.now 0 result }
{
    if s.len() - at < 64 || !is_whole(s, at) {
        return at;
    }
    at + pass_ascii::<64>(&s[at..])
}

// The end of the chunk of 64 bytes at index `at`, or that of `s`.
fn chunk_end(s: &[u8], at: usize) -> usize
    requires { at ≤ length s.now }
    ensures { (at ≤ result) × (result ≤ length s.now) × (at < length s.now → at < result) }
{
    if 64 <= s.len() - at {
        return at + 64;
    }
    s.len()
}

// Where the bytes before index `at` fit: is `s` text? Chunks that are ASCII are passed at once, and others by sixteens.
fn by_windows(s: &[u8], at: usize) -> bool
    requires { (3 ≤ at) × (at ≤ length s.now) × (19 ≤ length s.now) × Fit s.now 0 at }
    ensures { result ≡ is_text s.now }
{
    let end = s.len();
    // by index: a turn passes chunks of 64 bytes, and then sixteens, as many as there are
    let mut i = at;
    while i < end {
        let next = pass_plain(s, i);
        i = pass_sixteens(s, next, chunk_end(s, next));
        if i == 0 {
            return false;
        }
    }
    is_whole(s, end)
}

// Is `s` text? By windows from the first byte on.
fn by_start(s: &[u8]) -> bool
    requires { 19 ≤ length s.now }
    ensures { result ≡ is_text s.now }
{
    if fit_three(s) {
        return by_windows(s, 3);
    }
    false
}

// The same behind the chunks in front that are ASCII. A second caller of `by_windows`, which keeps its code out of what is small.
fn by_long(s: &[u8]) -> bool
    requires { 19 ≤ length s.now }
    ensures { result ≡ is_text s.now }
{
    let at = pass_ascii::<128>(s);
    if at < 128 {
        return by_start(s);
    }
    if is_rest_ascii(s, at) {
        return true;
    }
    by_windows(s, at)
}

// Is `s` well-formed UTF-8 without U+0000? Less than nineteen bytes go character by character, others by windows; more than 256 behind chunks that are ASCII.
pub fn is_text(s: &[u8]) -> bool
    ensures { result ≡ is_text s.now }
{
    let end = s.len();
    if end < 19 {
        return text_chars::by_chars(s, 0);
    }
    if end <= 256 {
        return by_start(s);
    }
    by_long(s)
}
