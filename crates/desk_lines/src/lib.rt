// The lines of `desk` that are names and numbers alone, put at the front of a lent output: those of a refusal and of a frame that is too
// long here, that of what was read in `desk_summary`. docs/DESK.md has the format. What would lie past the end of the output is not stored.
#![tactic(auto)]

ghost use Rattle.std.specs.Prelude.{◌++◌, ◌+◌, ◌≤◌, length};
ghost use Rattle.records.specs.AsNumbers.{told_values};
ghost use Rattle.records.specs.Ascii.{codes_of};
ghost use Rattle.refusal_names.specs.Names.{name_of};
ghost use Rattle.desk_render.specs.Shown.{decimal_of};
ghost use Rattle.desk_lines.specs.Line.{PutAt, values_text, refused_start, taken_text, refused_line, too_long_at, too_long_line};

use records::error::Error;
use records::span::Span;
use records::values::Values;
use refusal_numbers;
use wire::string;
use write_bytes::put_bytes;

fn word(out: &mut [u8], at: usize, w: &[u8]) -> usize
    requires { at ≤ 65536 }
    ensures { PutAt out.old at w.now out.new result }
{
    put_bytes(&mut *out, at, w);
    at + w.len()
}

fn decimal(out: &mut [u8], at: usize, n: u64) -> usize
    requires { at + 20 ≤ 18446744073709551615 }
    ensures placed { PutAt out.old at (decimal_of n) out.new result }
    ensures short { result ≤ at + 20 }
{
    let k = desk_render::put_decimal(&mut *out, at, n);
    at + k
}

// A number behind the words before it.
fn number(out: &mut [u8], at: usize, w: &[u8], n: u64) -> usize
    requires { at ≤ 65536 }
    ensures placed { PutAt out.old at (w.now ++ decimal_of n) out.new result }
    ensures short { result ≤ at + length w.now + 20 }
{
    let next = word(&mut *out, at, w);
    decimal(&mut *out, next, n)
}

// Words and a number behind them, as far as there is room, at any index that 16 bits hold; gives the index behind it.
pub fn put_number(out: &mut [u8], at: u16, w: &[u8], n: u64) -> usize
    ensures placed { PutAt out.old at (w.now ++ decimal_of n) out.new result }
    ensures short { result ≤ at + length w.now + 20 }
{
    number(&mut *out, at as usize, w, n)
}

// Words alone, as far as there is room; gives the index behind them.
pub fn put_word(out: &mut [u8], at: u16, w: &[u8]) -> usize
    ensures { PutAt out.old at w.now out.new result }
{
    word(&mut *out, at as usize, w)
}

fn one_value(out: &mut [u8], at: usize, n: usize) -> usize
    requires { at ≤ 1024 }
    ensures placed { PutAt out.old at ((codes_of "(" ++ decimal_of n) ++ codes_of ")") out.new result }
    ensures short { result ≤ at + 64 }
{
    let a = number(&mut *out, at, b"(", n as u64);
    word(&mut *out, a, b")")
}

fn two_values(out: &mut [u8], at: usize, m: usize, n: usize) -> usize
    requires { at ≤ 1024 }
    ensures placed { PutAt out.old at (((codes_of "(" ++ decimal_of m) ++ (codes_of "," ++ decimal_of n)) ++ codes_of ")") out.new result }
    ensures short { result ≤ at + 64 }
{
    let a = number(&mut *out, at, b"(", m as u64);
    let b = number(&mut *out, a, b",", n as u64);
    word(&mut *out, b, b")")
}

fn values(out: &mut [u8], at: usize, v: Values) -> usize
    requires { at ≤ 1024 }
    ensures placed { PutAt out.old at (values_text (told_values v)) out.new result }
    ensures short { result ≤ at + 64 }
{
    match v {
        Values::None => at,
        Values::One(n) => one_value(&mut *out, at, n),
        Values::Two(m, n) => two_values(&mut *out, at, m, n),
    }
}

fn refused_head(out: &mut [u8], offset: u64, e: Error) -> usize
    ensures placed { PutAt out.old 0 (refused_start offset e) out.new result }
    ensures short { result ≤ 64 }
{
    let a = decimal(&mut *out, 0, offset);
    let b = number(
        &mut *out,
        a,
        b" refused ",
        refusal_numbers::number(e) as u64,
    );
    word(&mut *out, b, b" ")
}

fn name(out: &mut [u8], at: usize, e: Error) -> usize
    requires { at ≤ 1024 }
    ensures placed { PutAt out.old at (name_of e) out.new result }
    ensures short { result ≤ at + 24 }
{
    let shown = refusal_names::name(e);
    let bytes = shown.bytes;
    let text = Span {
        start: 0,
        len: shown.len,
    };
    word(&mut *out, at, string::part(&bytes, text))
}

fn taken_text(out: &mut [u8], at: usize, n: usize) -> usize
    requires { at ≤ 1024 }
    ensures { PutAt out.old at (taken_text n) out.new result }
{
    let a = number(&mut *out, at, b" taken=", n as u64);
    word(&mut *out, a, b"\n")
}

// The line of a refusal; gives how many bytes it is.
pub fn put_refused(out: &mut [u8], offset: u64, e: Error, taken: usize) -> usize
    ensures { PutAt out.old 0 (refused_line offset e taken) out.new result }
{
    let a = refused_head(&mut *out, offset, e);
    let b = name(&mut *out, a, e);
    let c = values(&mut *out, b, refusal_numbers::values(e));
    taken_text(&mut *out, c, taken)
}

fn too_long_at(out: &mut [u8], offset: u64, size: u64) -> usize
    ensures placed { PutAt out.old 0 (too_long_at offset size) out.new result }
    ensures short { result ≤ 128 }
{
    let a = number(&mut *out, 0, b"desk: the frame at offset ", offset);
    number(&mut *out, a, b" has ", size)
}

// The line for a frame of `size` bytes that no buffer of `most` holds; gives how many bytes it is.
pub fn put_too_long(out: &mut [u8], offset: u64, size: u64, most: u64) -> usize
    ensures { PutAt out.old 0 (too_long_line offset size most) out.new result }
{
    let a = too_long_at(&mut *out, offset, size);
    let b = number(&mut *out, a, b" bytes, and the buffer holds ", most);
    word(&mut *out, b, b": stopped there\n")
}
