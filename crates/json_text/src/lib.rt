// What a line of JSON is made of, put into a lent output from an index on: words as they stand, numbers, texts between double quotes (RFC 8259)
// and bytes in hexadecimal. What would lie past the end of the output is not stored, and then the index behind it is one that no output has.
#![tactic(auto)]

ghost use Rattle.std.specs.Prelude.{◌≡◌, ℕ, List, ◌++◌, ◌∷◌, [], ◌+◌, length};
ghost use Rattle.std.proofs.lemmas.List.Edits.{sets};
ghost use Rattle.desk_render.specs.Shown.{decimal_of, hex_of};
ghost use Rattle.json_text.specs.Text.{escaped_of, each};
ghost use Rattle.json_text.specs.Put.{end_in, PutIn};

use write_bytes::put_bytes;

// The index that no output has.
const LOST: usize = usize::MAX;

// The index behind n bytes from `at` on.
fn behind(room: usize, at: usize, n: usize) -> usize
    ensures { result ≡ end_in room (at + n) }
{
    if room < at {
        return LOST;
    }
    if room - at < n {
        return LOST;
    }
    at + n
}

// Words as they stand.
pub fn put_word(out: &mut [u8], at: usize, w: &[u8]) -> usize
    ensures { PutIn out.old at w.now out.new result }
{
    put_bytes(&mut *out, at, w);
    behind(out.len(), at, w.len())
}

fn put_decimal(out: &mut [u8], at: usize, n: u64) -> usize
    ensures { PutIn out.old at (decimal_of n) out.new result }
{
    let k = desk_render::put_decimal(&mut *out, at, n);
    behind(out.len(), at, k)
}

// Words, and a number behind them.
pub fn put_number(out: &mut [u8], at: usize, w: &[u8], n: u64) -> usize
    ensures { PutIn out.old at (w.now ++ decimal_of n) out.new result }
{
    let next = put_word(&mut *out, at, w);
    put_decimal(&mut *out, next, n)
}

// A quotation mark or a reverse solidus, with a reverse solidus before it.
fn put_marked(out: &mut [u8], at: usize, b: u8) -> usize
    requires { escaped_of b ≡ 92 ∷ b ∷ [] }
    ensures count { result ≡ length (escaped_of b) }
    ensures stores { out.new ≡ sets out.old at (escaped_of b) }
{
    put_bytes(&mut *out, at, &[92, b]);
    2
}

// A control character, by its code.
fn put_code(out: &mut [u8], at: usize, b: u8) -> usize
    requires { escaped_of b ≡ 92 ∷ 117 ∷ 48 ∷ 48 ∷ hex_of b }
    ensures count { result ≡ length (escaped_of b) }
    ensures stores { out.new ≡ sets out.old at (escaped_of b) }
{
    let mut text = *b"\\u0000";
    desk_render::put_hex(&mut text, 4, b);
    put_bytes(&mut *out, at, &text);
    6
}

// Any other byte, as it is.
fn put_plain(out: &mut [u8], at: usize, b: u8) -> usize
    requires { escaped_of b ≡ b ∷ [] }
    ensures count { result ≡ length (escaped_of b) }
    ensures stores { out.new ≡ sets out.old at (escaped_of b) }
{
    if out.len() <= at {
        return 1;
    }
    out[at] = b;
    1
}

// A byte of a text; gives how many bytes it is put in.
fn put_escaped(out: &mut [u8], at: usize, b: u8) -> usize
    ensures count { result ≡ length (escaped_of b) }
    ensures stores { out.new ≡ sets out.old at (escaped_of b) }
{
    if b == 34 {
        return put_marked(&mut *out, at, b);
    }
    if b == 92 {
        return put_marked(&mut *out, at, b);
    }
    if b < 32 {
        return put_code(&mut *out, at, b);
    }
    if b == 127 {
        return put_code(&mut *out, at, b);
    }
    put_plain(&mut *out, at, b)
}

// How a byte is put: the bytes of its form, and how many they are.
trait Form {
    ghost form: { ℕ → List ℕ };

    fn put(out: &mut [u8], at: usize, b: u8) -> usize
        ensures count { result ≡ length (form b) }
        ensures stores { out.new ≡ sets out.old at (form b) };
}

struct Escaped {}

impl Form for Escaped {
    ghost form = { escaped_of };

    fn put(out: &mut [u8], at: usize, b: u8) -> usize {
        put_escaped(&mut *out, at, b)
    }
}

struct Hexadecimal {}

impl Form for Hexadecimal {
    ghost form = { hex_of };

    fn put(out: &mut [u8], at: usize, b: u8) -> usize {
        desk_render::put_hex(&mut *out, at, b);
        2
    }
}

// Bytes, each in its form.
fn put_each<F: Form>(out: &mut [u8], at: usize, s: &[u8]) -> usize
    ensures { PutIn out.old at (each F.form s.now) out.new result }
{
    if out.len() < at {
        return LOST;
    }
    let mut next = at;
    for b in s {
        let room = out.len() - next;
        let n = F::put(&mut *out, next, *b);
        if room < n {
            return LOST;
        }
        next += n;
    }
    next
}

// A text, or a piece of one, as it stands between the quotes.
pub fn put_text(out: &mut [u8], at: usize, s: &[u8]) -> usize
    ensures { PutIn out.old at (each escaped_of s.now) out.new result }
{
    put_each::<Escaped>(&mut *out, at, s)
}

// Bytes that need be no text, two hexadecimal digits for each.
pub fn put_bytes_hex(out: &mut [u8], at: usize, s: &[u8]) -> usize
    ensures { PutIn out.old at (each hex_of s.now) out.new result }
{
    put_each::<Hexadecimal>(&mut *out, at, s)
}
