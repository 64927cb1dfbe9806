// UTF-8: the validator in place of `String::from_utf8` of v5/mod.rs. Up to 256 bytes that are all ASCII are passed at once; any other text is
// tested by windows (`text_windows`), or by characters if it is short (`text_chars`).
#![tactic(auto)]

ghost use Rattle.std.specs.Prelude.{◌≡◌, true, ◌+◌, ◌-◌, ◌≤◌, ◌<◌, length, drop};
ghost use Rattle.reading.specs.Read.{is_text};
ghost use Rattle.utf8.specs.Text.{all_ascii};

use text_chars::is_ascii;

// Two chunks of n bytes, which cover `s` and may overlap: is each byte of them ASCII, and none of them 0?
fn is_twice(s: &[u8], n: usize) -> bool
    requires { (n ≤ length s.now) × (length s.now ≤ n + n) }
    ensures { result ≡ true → is_text s.now ≡ true }
{
    is_ascii(&s[..n]) && is_ascii(&s[s.len() - n..])
}

// Four chunks of 16 bytes in the same way. (Two of 32 take more instructions, since they are gathered in two steps.)
fn is_four_times(s: &[u8]) -> bool
    requires { (32 ≤ length s.now) × (length s.now ≤ 64) }
    ensures { result ≡ true → is_text s.now ≡ true }
{
    let last = s.len() - 16;
    if !is_ascii(&s[..16]) || !is_ascii(&s[16..32]) || !is_ascii(&s[last - 16..last]) {
        return false;
    }
    is_ascii(&s[last..])
}

// The same of `s` of 16 to 256 bytes; no, if it is shorter or longer.
fn is_chunks(s: &[u8]) -> bool
    ensures { result ≡ true → is_text s.now ≡ true }
{
    let end = s.len();
    if end < 16 {
        return false;
    }
    if end <= 32 {
        return is_twice(s, 16);
    }
    if end <= 64 {
        return is_four_times(s);
    }
    if end <= 128 {
        return is_twice(s, 64);
    }
    if end <= 256 {
        return is_twice(s, 128);
    }
    false
}

// Where the bytes before index `at` are ASCII, of less than sixteen: an index before which all are. Eight and more are looked at by eights.
fn pass_few(s: &[u8], at: usize) -> usize
    requires { (length s.now < 16) × (is_text s.now ≡ is_text (drop at s.now)) }
    ensures { is_text s.now ≡ is_text (drop result s.now) }
{
    let end = s.len();
    if end < 8 {
        return at;
    }
    if !is_ascii(&s[..8]) {
        return 0;
    }
    if is_ascii(&s[end - 8..]) {
        return end;
    }
    8
}

// Where the text goes on at index `at`: is `s` well-formed UTF-8? Less than sixteen bytes by characters, chunks that are ASCII, or by windows.
fn by_chunks(s: &[u8], at: usize) -> bool
    requires { is_text s.now ≡ is_text (drop at s.now) }
    ensures { result ≡ is_text s.now }
{
    if s.len() < 16 {
        return text_chars::by_chars(s, pass_few(s, at));
    }
    if is_chunks(s) {
        return true;
    }
    text_windows::is_text(s)
}

// Is `s` well-formed UTF-8 without U+0000? A few bytes, which are mostly ASCII: byte by byte, with a way out at the first that is not.
fn is_short_utf8(s: &[u8]) -> bool
    ensures { result ≡ is_text s.now }
{
    for (i, b) in s.iter().enumerate() {
        if 128 <= text_chars::flaw(*b) {
            return by_chunks(s, i);
        }
    }
    true
}

// Is `s` well-formed UTF-8 without U+0000? All but the chunks is small, and compiled into its callers: a short ASCII text costs no call.
pub fn is_utf8(s: &[u8]) -> bool
    ensures { result ≡ is_text s.now }
{
    if s.len() < 8 {
        return is_short_utf8(s);
    }
    by_chunks(s, 0)
}

// Is every byte of `s` ASCII, and none of them 0? Then any part of it is text. The last 16 bytes may overlap the chunk before them.
pub fn is_all_ascii(s: &[u8]) -> bool
    ensures { result ≡ all_ascii s.now }
{
    if s.len() < 16 {
        return is_ascii(s);
    }
    let mut rest = s;
    while let Some((run, more)) = rest.split_first_chunk::<16>() {
        if !is_ascii(run) {
            return false;
        }
        rest = more;
    }
    is_ascii(&s[s.len() - 16..])
}
