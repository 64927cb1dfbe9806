// Text between quotes, put into a lent output: the bytes of UTF-8 stand as they are, but for controls and what turns the direction of text,
// and every other byte as `desk_render` shows it. What would lie past the end of the output is not stored.
#![tactic(auto)]

ghost use Rattle.std.specs.Prelude.{◌≡◌, true, ◌∷◌, [], ◌+◌, ◌-◌, ◌≤◌, ◌<◌, length, get_or};
ghost use Rattle.grammar.specs.Text.{in_range};
ghost use Rattle.desk_text.specs.Text.{is_control, is_turning, control_at, turning_at, hidden, seen, stands, piece_of, ShowsText};
ghost use Rattle.desk_render.specs.Shown.{shown_of};
ghost use Rattle.desk_text.specs.Step.{PiecePut};

use desk_render::{Shown, put_shown};

// The byte k behind index i; 0 past the end.
fn byte_at(s: &[u8], i: usize, k: usize) -> u8
    ensures { result ≡ get_or s.now (i + k) 0 }
{
    if s.len() < i {
        return 0;
    }
    if s.len() - i <= k {
        return 0;
    }
    s[i + k]
}

fn is_in(low: u8, high: u8, b: u8) -> bool
    ensures { result ≡ in_range (low, high) b }
{
    low <= b && b <= high
}

fn is_control(a: u8, b: u8) -> bool
    ensures { result ≡ is_control a b }
{
    a == 0xC2 && is_in(0x80, 0x9F, b)
}

fn is_turning(a: u8, b: u8, c: u8) -> bool
    ensures { result ≡ is_turning a b c }
{
    if a != 0xE2 {
        return false;
    }
    if b == 0x80 {
        return is_in(0xA8, 0xAE, c);
    }
    if b == 0x81 {
        return is_in(0xA6, 0xA9, c);
    }
    false
}

fn control_at(s: &[u8], i: usize) -> bool
    ensures { result ≡ control_at s.now i }
{
    is_control(byte_at(s, i, 0), byte_at(s, i, 1))
}

fn turning_at(s: &[u8], i: usize) -> bool
    ensures { result ≡ turning_at s.now i }
{
    is_turning(byte_at(s, i, 0), byte_at(s, i, 1), byte_at(s, i, 2))
}

// Is the byte at i one of a character that is not shown as text?
fn is_hidden(s: &[u8], i: usize) -> bool
    ensures { result ≡ hidden s.now i }
{
    if control_at(s, i) {
        return true;
    }
    if control_at(s, i.saturating_sub(1)) {
        return true;
    }
    if turning_at(s, i) {
        return true;
    }
    if turning_at(s, i.saturating_sub(1)) {
        return true;
    }
    turning_at(s, i.saturating_sub(2))
}

// Does the byte at i of a text stand as it is?
fn is_seen(s: &[u8], i: usize) -> bool
    requires { i < length s.now }
    ensures { result ≡ seen s.now i }
{
    0x80 <= s[i] && !is_hidden(s, i)
}

// The same, if s is text.
fn does_stand(s: &[u8], i: usize, text: bool) -> bool
    requires { i < length s.now }
    ensures { result ≡ stands text s.now i }
{
    text && is_seen(s, i)
}

// One byte, if there is room for it; gives how many were put.
fn put_one(out: &mut [u8], at: usize, b: u8) -> usize
    ensures { PiecePut out.old at (b ∷ []) out.new result }
{
    if at < out.len() {
        out[at] = b;
        return 1;
    }
    0
}

// Is it a byte of ASCII that is shown by itself?
fn is_plain(b: u8) -> bool
    ensures { result ≡ true → shown_of b ≡ b ∷ [] }
{
    if b < 35 {
        return false;
    }
    if b == 92 {
        return false;
    }
    b <= 126
}

// What is shown of the byte at i, if it has room from `at` on; gives how many bytes were put.
fn put_piece(out: &mut [u8], at: usize, s: &[u8], i: usize, text: bool) -> usize
    requires { i < length s.now }
    ensures { PiecePut out.old at (piece_of text s.now i) out.new result }
{
    if is_plain(s[i]) {
        return put_one(&mut *out, at, s[i]);
    }
    if does_stand(s, i, text) {
        return put_one(&mut *out, at, s[i]);
    }
    let step = put_shown(&mut *out, at, &[s[i]]);
    step.put
}

// The bytes of s from index `from` on as they stand between double quotes, as many as fit whole; `text` says that all of s is UTF-8.
pub fn put_text(out: &mut [u8], at: usize, s: &[u8], from: usize, text: bool) -> Shown
    ensures shows { ShowsText out.old at text s.now from out.new result.taken result.put }
    ensures within { result.taken ≤ length s.now - from }
    ensures room { result.put ≤ length out.old - at }
{
    if out.len() < at {
        return Shown { taken: 0, put: 0 };
    }
    if s.len() < from {
        return Shown { taken: 0, put: 0 };
    }
    let mut next = at;
    for i in from..s.len() {
        let n = put_piece(&mut *out, next, s, i, text);
        if n == 0 {
            return Shown {
                taken: i - from,
                put: next - at,
            };
        }
        next += n;
    }
    Shown {
        taken: s.len() - from,
        put: next - at,
    }
}
