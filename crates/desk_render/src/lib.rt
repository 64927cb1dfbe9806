// Bytes and numbers as people read them, put into a lent output: decimal, two hexadecimal digits, and bytes as they stand between double
// quotes. What would lie past the end of the output is not stored.
#![tactic(auto)]

ghost use Rattle.std.specs.Prelude.{◌≡◌, ◌∷◌, [], ◌+◌, ◌-◌, ◌%◌, ◌≤◌, length};
ghost use Rattle.std.proofs.lemmas.List.Edits.{sets};
ghost use Rattle.desk_render.specs.Shown.{decimal_of, hex_digit, hex_of, shown_of, shown_size, Shows};

use write_bytes::put_bytes;

// How many bytes of the source are shown, and how many bytes they take in the output.
#[derive(Clone, Copy)]
pub struct Shown {
    pub taken: usize,
    pub put: usize,
}

fn put(out: &mut [u8], at: usize, b: u8)
    ensures { out.new ≡ sets out.old at (b ∷ []) }
{
    if at < out.len() {
        out[at] = b;
    }
}

// The upper-case hexadecimal digit of d, which counts modulo 16.
fn hex_digit(d: u8) -> u8
    ensures { result ≡ hex_digit (d % 16) }
{
    let n = d % 16;
    if n < 10 {
        return 48 + n;
    }
    55 + n
}

// Two upper-case digits.
pub fn put_hex(out: &mut [u8], at: usize, b: u8)
    ensures { out.new ≡ sets out.old at (hex_of b) }
{
    if at < out.len() {
        put(&mut *out, at, hex_digit(b / 16));
        put(&mut *out, at + 1, hex_digit(b));
    }
}

// The decimal digits, the fewest; gives how many, at most 20.
pub fn put_decimal(out: &mut [u8], at: usize, n: u64) -> usize
    ensures count { result ≡ length (decimal_of n) }
    ensures stores { out.new ≡ sets out.old at (decimal_of n) }
    ensures short { result ≤ 20 }
{
    let mut text = [0u8; 20];
    let k = io::decimal(n, &mut text);
    put_bytes(&mut *out, at, &text[..k]);
    k
}

// How many bytes a byte takes between the quotes.
fn shown_size(b: u8) -> usize
    ensures { result ≡ shown_size b }
{
    if b == 34 {
        return 2;
    }
    if b == 92 {
        return 2;
    }
    if b < 32 {
        return 4;
    }
    if 126 < b {
        return 4;
    }
    1
}

// Such a byte that takes n bytes, for which there is room.
fn put_byte(out: &mut [u8], at: usize, b: u8, n: usize)
    requires n_value { n ≡ shown_size b }
    requires n_in_bounds { at + n ≤ length out.old }
    ensures { out.new ≡ sets out.old at (shown_of b) }
{
    if n == 1 {
        out[at] = b;
        return;
    }
    out[at] = 92;
    if n == 2 {
        out[at + 1] = b;
        return;
    }
    out[at + 1] = 120;
    put_hex(&mut *out, at + 2, b);
}

// The bytes of s as they stand between double quotes, from the first on, as many as fit whole.
pub fn put_shown(out: &mut [u8], at: usize, s: &[u8]) -> Shown
    ensures shows { Shows out.old at s.now out.new result.taken result.put }
    ensures within { result.taken ≤ length s.now }
    ensures room { result.put ≤ length out.old - at }
{
    if out.len() < at {
        return Shown { taken: 0, put: 0 };
    }
    let mut next = at;
    for (i, b) in s.iter().enumerate() {
        let n = shown_size(*b);
        if out.len() - next < n {
            return Shown {
                taken: i,
                put: next - at,
            };
        }
        put_byte(&mut *out, next, *b, n);
        next += n;
    }
    Shown {
        taken: s.len(),
        put: next - at,
    }
}
